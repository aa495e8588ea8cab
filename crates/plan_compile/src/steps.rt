//! The steps of verbs: the filters and projects that they become.
ghost use Rattle.std.specs.Prelude.{◌≡◌, ◌≤◌, ℕ, List, [], ◌∷◌, map, length, IfOk};
ghost use Rattle.na_expr.specs.declared.expr.Expr.TheVariants.{Call};
ghost use Rattle.verb_forms.specs.Columns.{kind_at};
ghost use Rattle.plan_compile.specs.Steps.{truth, all_by, is_there, filter_step, all_columns, value_step, value_steps, choice_step, literals_for, or_literals, replaced_columns, replace_step, steps_of};

use chain_plans::Step;
use na_expr::{Expr, ExprFn};
use plan_nodes::NodeKind;
use row_table::{Field, Schema};
use scalar_value::{ColType, Mem, NoMemory, Seq, Text, Value};
use std::alloc::Global;
use verb_forms::{Part, Verb, place_of, put, with_part};

/// A list of one item.
fn one<T: Drop>(alloc: Global, x: T) -> Mem<Seq<T>>
    ensures { IfOk result (λ made. made ≡ x ∷ []) }
{
    let mut made = Seq::new(alloc);
    made.push(x)?;
    Ok(made)
}

/// A call of two values.
fn call_two(alloc: Global, function: ExprFn, a: Expr, b: Expr) -> Mem<Expr>
    ensures { IfOk result (λ e. e ≡ Call function (a ∷ b ∷ [])) }
{
    let mut args = one(alloc, a)?;
    args.push(b)?;
    Ok(Expr::Call(function, args))
}

/// TRUE for no condition, and a single one itself.
fn true_or_one(conditions: Seq<Expr>) -> Expr
    requires { length conditions ≤ 1 }
    ensures { (levels : ℕ) → result ≡ all_by levels conditions }
{
    match conditions.into_vec().pop() {
        Some(condition) => condition,
        None => Expr::Lit(Value::Lgl(true), ColType::Lgl),
    }
}

/// Conditions as one, by `&`: TRUE for none. They are put together half by half. The only error is want of memory.
fn all_true(conditions: Seq<Expr>) -> Mem<Expr>
    ensures { IfOk result (λ e. (levels : ℕ) → length conditions ≤ levels → e ≡ all_by levels conditions) }
{
    if conditions.len() < 2 {
        return Ok(true_or_one(conditions));
    }
    let alloc = conditions.alloc();
    let half = conditions.len() / 2;
    let mut left = conditions.into_vec();
    let right = left.split_off(half)?;
    let left = all_true(Seq::of(left))?;
    let right = all_true(Seq::of(right))?;
    call_two(alloc, ExprFn::And, left, right)
}

/// The filter that keeps the rows on which all of these conditions are TRUE.
fn filter_step(schema: &Schema, conditions: Seq<Expr>) -> Mem<Step>
    ensures { IfOk result (λ step. step ≡ filter_step schema.now conditions) }
{
    Ok(Step {
        kind: NodeKind::Filter(all_true(conditions)?),
        schema: schema.copy()?,
    })
}

/// The conditions of a filter.
fn conditions_of(alloc: Global, parts: &[Part]) -> Mem<Seq<Expr>>
    ensures { IfOk result (λ es. es ≡ map (λ (part : Part). part.value) parts.now) }
{
    let mut conditions = Seq::new(alloc);
    for part in parts {
        conditions.push(part.value.copy()?)?;
    }
    Ok(conditions)
}

/// `!is.na(column)`
fn is_there(alloc: Global, at: u32) -> Mem<Expr>
    ensures { IfOk result (λ e. e ≡ is_there at) }
{
    let missing = Expr::Call(ExprFn::IsNa, one(alloc, Expr::Col(at))?);
    Ok(Expr::Call(ExprFn::Not, one(alloc, missing)?))
}

/// Such a condition for each of these columns.
fn are_there(alloc: Global, columns: &[u32]) -> Mem<Seq<Expr>>
    ensures { IfOk result (λ es. es ≡ map is_there columns.now) }
{
    let mut conditions = Seq::new(alloc);
    for at in columns {
        conditions.push(is_there(alloc, *at)?)?;
    }
    Ok(conditions)
}

/// The number of columns. Expressions name columns by numbers of 32 bits: where there are more, memory is refused.
fn column_count(schema: &Schema) -> Mem<u32>
    ensures { IfOk result (λ count. count ≡ length schema.now) }
{
    match u32::try_from(schema.len()) {
        Ok(count) => Ok(count),
        Err(_) => Err(NoMemory),
    }
}

/// Each column as it is.
fn all_columns(alloc: Global, schema: &Schema) -> Mem<Seq<Expr>>
    ensures { IfOk result (λ es. es ≡ all_columns schema.now) }
{
    let mut columns = Seq::new(alloc);
    for at in 0..column_count(schema)? {
        columns.push(Expr::Col(at))?;
    }
    Ok(columns)
}

/// The project of one expression of `mutate`: its value stands in the place of an old column of that name, else last.
fn value_step(alloc: Global, schema: &Schema, value: &(Text, Part)) -> Mem<Step>
    ensures { IfOk result (λ step. step ≡ value_step schema.now value.now) }
{
    let place = place_of(&value.0, schema);
    let columns = put(place, value.1.value.copy()?, all_columns(alloc, schema)?)?;
    Ok(Step {
        kind: NodeKind::Project(columns),
        schema: with_part(value, schema.copy()?)?,
    })
}

/// A project for each expression of `mutate`, over the columns that the ones before it leave.
fn value_steps(alloc: Global, schema: &Schema, values: &[(Text, Part)]) -> Mem<Seq<Step>>
    ensures { IfOk result (λ steps. steps ≡ value_steps schema.now values.now) }
{
    let mut columns = schema.copy()?;
    let mut steps = Seq::new(alloc);
    for value in values {
        let step = value_step(alloc, &columns, value)?;
        columns = step.schema.copy()?;
        steps.push(step)?;
    }
    Ok(steps)
}

/// The type of the column at a place, and `Lgl` of no column.
fn kind_at(schema: &Schema, at: u32) -> ColType
    ensures { result ≡ kind_at schema.now at }
{
    match schema.get(at as usize) {
        Some(field) => field.kind,
        None => ColType::Lgl,
    }
}

/// The project of `select`, `rename` and `relocate`: the chosen columns under their names.
fn choice_step(alloc: Global, schema: &Schema, chosen: &[(u32, Text)]) -> Mem<Step>
    ensures { IfOk result (λ step. step ≡ choice_step schema.now chosen.now) }
{
    let mut columns = Seq::new(alloc);
    let mut values = Seq::new(alloc);
    for (at, name) in chosen {
        let field = Field {
            name: name.copy()?,
            kind: kind_at(schema, *at),
        };
        columns.push(field)?;
        values.push(Expr::Col(*at))?;
    }
    Ok(Step {
        kind: NodeKind::Project(values),
        schema: columns,
    })
}

/// A column, or the first of these values for it that isn't missing where it is.
fn or_literals(alloc: Global, schema: &Schema, cells: &[(u32, Value)], at: u32) -> Mem<Expr>
    ensures { IfOk result (λ e. e ≡ or_literals schema.now at (literals_for schema.now cells.now at)) }
{
    let kind = kind_at(schema, at);
    let mut args = one(alloc, Expr::Col(at))?;
    for cell in cells {
        if cell.0 == at {
            args.push(Expr::Lit(cell.1.copy()?, kind))?;
        }
    }
    if args.len() < 2 {
        return Ok(Expr::Col(at));
    }
    Ok(Expr::Call(ExprFn::Coalesce(kind), args))
}

/// Each column with other values where its own are missing.
fn replaced_columns(alloc: Global, schema: &Schema, cells: &[(u32, Value)]) -> Mem<Seq<Expr>>
    ensures { IfOk result (λ es. es ≡ replaced_columns schema.now cells.now) }
{
    let mut columns = Seq::new(alloc);
    for at in 0..column_count(schema)? {
        columns.push(or_literals(alloc, schema, cells, at)?)?;
    }
    Ok(columns)
}

/// The project of `replace_na`.
fn replace_step(alloc: Global, schema: &Schema, cells: &[(u32, Value)]) -> Mem<Step>
    ensures { IfOk result (λ step. step ≡ replace_step schema.now cells.now) }
{
    Ok(Step {
        kind: NodeKind::Project(replaced_columns(alloc, schema, cells)?),
        schema: schema.copy()?,
    })
}

/// How many steps a verb becomes, whatever the columns.
pub fn step_count(verb: &Verb) -> usize
    ensures { (schema : List Field) → result ≡ length (steps_of verb.now schema) }
{
    match verb {
        Verb::Mutate { values, .. } => values.len(),
        Verb::Filter { .. } | Verb::DropNa(_) | Verb::ReplaceNa(_) => 1,
        Verb::Select(_) | Verb::Rename(_) | Verb::Relocate(_) => 1,
        _ => 0,
    }
}

/// The steps of a verb over these columns, in their order. The only error is want of memory.
pub fn steps_of(alloc: Global, verb: &Verb, schema: &Schema) -> Mem<Seq<Step>>
    ensures { IfOk result (λ steps. steps ≡ steps_of verb.now schema.now) }
{
    match verb {
        Verb::Filter { conditions, .. } => {
            let conditions = conditions_of(alloc, conditions.as_slice())?;
            one(alloc, filter_step(schema, conditions)?)
        }
        Verb::Mutate { values, .. } => value_steps(alloc, schema, values.as_slice()),
        Verb::Select(chosen) | Verb::Rename(chosen) | Verb::Relocate(chosen) => {
            one(alloc, choice_step(alloc, schema, chosen.as_slice())?)
        }
        Verb::DropNa(columns) => {
            let conditions = are_there(alloc, columns.as_slice())?;
            one(alloc, filter_step(schema, conditions)?)
        }
        Verb::ReplaceNa(cells) => one(alloc, replace_step(alloc, schema, cells.as_slice())?),
        _ => Ok(Seq::new(alloc)),
    }
}

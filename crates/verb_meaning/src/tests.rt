//! Verbs on a table of two rows, 1 with 10 and 2 with a missing value.
ghost use Rattle.std.specs.Prelude.{◌≡◌, [], ◌∷◌, IfOk};

use crate::run_verb;
use na_expr::{Expr, ExprFn};
use row_table::{Field, Mark, Row, Table};
use scalar_value::{ColType, Mem, Seq, Text, Value};
use std::alloc::Global;
use std::test::Fail;
use verb_forms::{Part, Shape, Verb, suits};

fn field_of(alloc: Global, name: &str) -> Mem<Field>
    ensures { IfOk result (λ field. field ≡ record { name = name.now; kind = ColType.Int }) }
{
    Ok(Field {
        name: Text::of(alloc, name)?,
        kind: ColType::Int,
    })
}

fn row_of(alloc: Global, id: i64, x: Value) -> Mem<Row>
    ensures { IfOk result (λ row. row ≡ Value.Int id ∷ x ∷ []) }
{
    let mut row = Seq::new(alloc);
    row.push(Value::Int(id))?;
    row.push(x)?;
    Ok(row)
}

fn table_of(alloc: Global) -> Mem<Table> {
    let mut schema = Seq::new(alloc);
    schema.push(field_of(alloc, "id")?)?;
    schema.push(field_of(alloc, "x")?)?;
    let mut rows = Seq::new(alloc);
    rows.push(row_of(alloc, 1, Value::Int(10))?)?;
    rows.push(row_of(alloc, 2, Value::Missing)?)?;
    Ok(Table {
        schema,
        groups: Seq::new(alloc),
        mark: Mark::Kept,
        rows,
    })
}

/// How many rows there are after the verb; none where the verb does not suit the table or is refused.
fn count_after(alloc: Global, x: &Table, verb: &Verb) -> Mem<Option<usize>> {
    let shape = Shape::of(x)?;
    if !suits(alloc, verb, &shape)? {
        return Ok(None);
    }
    match run_verb(alloc, verb, x, None) {
        Ok(made) => Ok(Some(made.rows.len())),
        Err(_) => Ok(None),
    }
}

fn greater_than_five(alloc: Global) -> Mem<Verb> {
    let mut args = Seq::new(alloc);
    args.push(Expr::Col(1))?;
    args.push(Expr::Lit(Value::Int(5), ColType::Int))?;
    let mut conditions = Seq::new(alloc);
    conditions.push(Part {
        calls: Seq::new(alloc),
        value: Expr::Call(ExprFn::Gt, args),
    })?;
    Ok(Verb::Filter {
        by: Seq::new(alloc),
        conditions,
    })
}

#[test]
fn verbs_give_their_rows(rt: HostRuntime) -> Result<(), Fail> {
    let alloc = rt.alloc();
    let x = table_of(alloc)?;
    let whole = Verb::DropNa(Seq::of_slice(alloc, &[1])?);
    let absent = Verb::DropNa(Seq::of_slice(alloc, &[2])?);
    assert_eq!(rt; count_after(alloc, &x, &whole)?, Some(1));
    assert_eq!(rt; count_after(alloc, &x, &absent)?, None);
    assert_eq!(rt; count_after(alloc, &x, &Verb::Ungroup)?, Some(2));
    assert_eq!(rt;
        count_after(alloc, &x, &greater_than_five(alloc)?)?,
        Some(1)
    );
    Ok(())
}

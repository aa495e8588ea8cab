//! Trees over a table with the columns id, g and w, and their plans.
ghost use Rattle.std.specs.Prelude.{◌≡◌, IfOk};

use crate::{TooLarge, Tree};
use na_expr::{Expr, ExprFn};
use plan_nodes::NodeKind;
use row_table::{Field, Mark, Schema};
use scalar_value::{ColType, Mem, Or, Seq, Text, Value};
use std::alloc::Global;
use std::test::Fail;
use verb_forms::{Part, Shape, Verb};

fn field_of(alloc: Global, name: &str, kind: ColType) -> Mem<Field>
    ensures { IfOk result (λ field. field ≡ record { name = name.now; kind = kind }) }
{
    Ok(Field {
        name: Text::of(alloc, name)?,
        kind,
    })
}

fn source_of(alloc: Global) -> Mem<Tree> {
    let mut schema = Seq::new(alloc);
    schema.push(field_of(alloc, "id", ColType::Int)?)?;
    schema.push(field_of(alloc, "g", ColType::Chr)?)?;
    schema.push(field_of(alloc, "w", ColType::Dec)?)?;
    let shape = Shape {
        schema,
        groups: Seq::new(alloc),
        mark: Mark::Kept,
    };
    Tree::source(alloc, &Text::of(alloc, "t")?, &shape)
}

fn part_of(alloc: Global, value: Expr) -> Part {
    Part {
        calls: Seq::new(alloc),
        value,
    }
}

/// `is.na` of a column.
fn missing(alloc: Global, at: u32) -> Mem<Expr> {
    let mut args = Seq::new(alloc);
    args.push(Expr::Col(at))?;
    Ok(Expr::Call(ExprFn::IsNa, args))
}

fn filter(alloc: Global) -> Mem<Verb> {
    let mut conditions = Seq::new(alloc);
    conditions.push(part_of(alloc, missing(alloc, 1)?))?;
    conditions.push(part_of(alloc, missing(alloc, 2)?))?;
    conditions.push(part_of(alloc, missing(alloc, 0)?))?;
    Ok(Verb::Filter {
        by: Seq::new(alloc),
        conditions,
    })
}

/// `mutate(id = w, h = id)`
fn mutate(alloc: Global) -> Mem<Verb> {
    let mut values = Seq::new(alloc);
    values.push((Text::of(alloc, "id")?, part_of(alloc, Expr::Col(2))))?;
    values.push((Text::of(alloc, "h")?, part_of(alloc, Expr::Col(0))))?;
    Ok(Verb::Mutate {
        by: Seq::new(alloc),
        values,
    })
}

/// `w` and `id` under the name `n`.
fn choice(alloc: Global) -> Mem<Seq<(u32, Text)>> {
    let mut chosen = Seq::new(alloc);
    chosen.push((2, Text::of(alloc, "w")?))?;
    chosen.push((0, Text::of(alloc, "n")?))?;
    Ok(chosen)
}

/// `mutate(id = id, ..)` of so many expressions.
fn long_mutate(alloc: Global, count: usize) -> Mem<Verb> {
    let mut values = Seq::new(alloc);
    for _ in 0..count {
        values.push((Text::of(alloc, "id")?, part_of(alloc, Expr::Col(0))))?;
    }
    Ok(Verb::Mutate {
        by: Seq::new(alloc),
        values,
    })
}

fn word(kind: ColType) -> &'static str {
    match kind {
        ColType::Int => ":int ",
        ColType::Dec => ":dec ",
        ColType::Chr => ":chr ",
        ColType::Date => ":date ",
        ColType::Lgl => ":lgl ",
    }
}

/// A word for each node with its columns.
fn draw(drawn: &mut Text, kind: &NodeKind, schema: &Schema) -> Mem<()> {
    drawn.push_str(match kind {
        NodeKind::Source(_) => "source ",
        NodeKind::Filter(_) => "filter ",
        NodeKind::Project(_) => "project ",
        NodeKind::Longer(_) => "longer ",
        NodeKind::Aggregate(_) => "aggregate ",
        NodeKind::HashJoin(_) => "hashjoin ",
        NodeKind::OrderBy(_) => "order_by ",
        NodeKind::Fetch(_, _) => "fetch ",
        NodeKind::Window(_) => "window ",
        NodeKind::Sink => "sink ",
    })?;
    for field in schema.as_slice() {
        drawn.push_str(field.name.as_str())?;
        drawn.push_str(word(field.kind))?;
    }
    Ok(())
}

/// The steps that a verb adds; none where it is refused.
fn drawn_steps(alloc: Global, verb: &Verb) -> Mem<Text> {
    let mut drawn = Text::empty(alloc);
    if let Ok(tree) = source_of(alloc)?.add(verb, None) {
        for step in tree.steps.as_slice() {
            draw(&mut drawn, &step.kind, &step.schema)?;
        }
    }
    Ok(drawn)
}

/// Whether a verb adds these steps, and drops the verb.
fn adds(alloc: Global, verb: Verb, expected: &str) -> Mem<bool> {
    Ok(drawn_steps(alloc, &verb)?.as_str() == expected)
}

fn drop_na(alloc: Global) -> Mem<Verb> {
    Ok(Verb::DropNa(Seq::of_slice(alloc, &[1])?))
}

fn group_by(alloc: Global) -> Mem<Verb> {
    Ok(Verb::GroupBy(Seq::of_slice(alloc, &[1])?))
}

fn replace_na(alloc: Global) -> Mem<Verb> {
    let mut cells = Seq::new(alloc);
    cells.push((0, Value::Int(7)))?;
    Ok(Verb::ReplaceNa(cells))
}

#[test]
fn verbs_add_filters(rt: HostRuntime) -> Result<(), Fail> {
    let alloc = rt.alloc();
    let kept = "filter id:int g:chr w:dec ";
    assert!(rt; adds(alloc, filter(alloc)?, kept)?);
    assert!(rt; adds(alloc, drop_na(alloc)?, kept)?);
    assert!(rt; adds(alloc, group_by(alloc)?, "")?);
    assert!(rt; adds(alloc, Verb::Ungroup, "")?);
    Ok(())
}

#[test]
fn verbs_add_projects(rt: HostRuntime) -> Result<(), Fail> {
    let alloc = rt.alloc();
    let chosen = "project w:dec n:int ";
    let mutated = "project id:dec g:chr w:dec project id:dec g:chr w:dec h:dec ";
    assert!(rt; adds(alloc, mutate(alloc)?, mutated)?);
    assert!(rt; adds(alloc, Verb::Select(choice(alloc)?), chosen)?);
    assert!(rt; adds(alloc, Verb::Rename(choice(alloc)?), chosen)?);
    assert!(rt; adds(alloc, Verb::Relocate(choice(alloc)?), chosen)?);
    assert!(rt; adds(alloc, replace_na(alloc)?, "project id:int g:chr w:dec ")?);
    Ok(())
}

/// Whether a tree of so many steps takes one filter more.
fn takes_more(alloc: Global, count: usize) -> Mem<Option<bool>> {
    let tree = match source_of(alloc)?.add(&long_mutate(alloc, count)?, None) {
        Ok(tree) => tree,
        Err(_) => return Ok(None),
    };
    match tree.copy()?.add(&filter(alloc)?, None) {
        Ok(_) => Ok(Some(true)),
        Err(Or::Fault(TooLarge)) => Ok(Some(false)),
        Err(Or::Memory) => Ok(None),
    }
}

#[test]
fn a_plan_has_at_most_256_nodes(rt: HostRuntime) -> Result<(), Fail> {
    let alloc = rt.alloc();
    assert_eq!(rt; takes_more(alloc, 253)?, Some(true));
    assert_eq!(rt; takes_more(alloc, 254)?, Some(false));
    assert_eq!(rt; takes_more(alloc, 255)?, None);
    Ok(())
}

/// The tree with a verb's nodes; none where the verb is refused.
fn added(tree: Tree, verb: Verb) -> Option<Tree> {
    tree.add(&verb, None).ok()
}

/// `t |> drop_na(g) |> select(w, n = id)`; none where memory is refused.
fn piped(alloc: Global) -> Mem<Option<Tree>> {
    match added(source_of(alloc)?, drop_na(alloc)?) {
        Some(kept) => Ok(added(kept, Verb::Select(choice(alloc)?))),
        None => Ok(None),
    }
}

/// The nodes of a tree's plan; none where it is too large for one.
fn drawn_plan(alloc: Global, tree: &Tree) -> Mem<Text> {
    let mut drawn = Text::empty(alloc);
    if tree.steps.len() > 254 {
        return Ok(drawn);
    }
    let plan = tree.plan()?;
    for node in plan.nodes.as_slice() {
        draw(&mut drawn, &node.kind, &node.schema)?;
    }
    Ok(drawn)
}

#[test]
fn a_plan_ends_with_a_sink(rt: HostRuntime) -> Result<(), Fail> {
    let alloc = rt.alloc();
    let tree = piped(alloc)?.ok_or("no tree")?;
    let drawn = drawn_plan(alloc, &tree)?;
    assert_eq!(rt;
        drawn.as_str(),
        "source id:int g:chr w:dec filter id:int g:chr w:dec project w:dec n:int sink w:dec n:int "
    );
    Ok(())
}

//! Copies, and what a verb leaves; which verbs suit a table is tested where they are run.
use crate::{
    Part, PivotFault, PivotSpec, Verb, VerbWindow, has_name, place_of, shape_after, with_column,
};
use agg_rules::{AggCall, AggKind, WindowKind};
use na_expr::Expr;
use row_table::{Field, JoinKind, Mark, Schema};
use scalar_value::{ColType, Mem, Seq, Text, Value};
use std::alloc::Global;
use std::test::Fail;

/// The columns id, g and w.
fn schema_of(alloc: Global) -> Mem<Schema> {
    let mut schema = Seq::new(alloc);
    let columns = [
        ("id", ColType::Int),
        ("g", ColType::Chr),
        ("w", ColType::Dec),
    ];
    for (name, kind) in columns {
        schema.push(Field {
            name: Text::of(alloc, name)?,
            kind,
        })?;
    }
    Ok(schema)
}

fn one<T: Drop>(alloc: Global, x: T) -> Mem<Seq<T>> {
    let mut made = Seq::new(alloc);
    made.push(x)?;
    Ok(made)
}

fn texts(alloc: Global, word: &str) -> Mem<Seq<Text>> {
    one(alloc, Text::of(alloc, word)?)
}

fn part_of(alloc: Global) -> Mem<Part> {
    let call = VerbWindow {
        kind: WindowKind::Lag,
        arg: Expr::Col(0),
        shift: 1,
        descending: false,
    };
    Ok(Part {
        calls: one(alloc, call)?,
        value: Expr::Col(3),
    })
}

fn summarise(alloc: Global) -> Mem<Verb> {
    let call = AggCall {
        kind: AggKind::Sum,
        arg: 0,
        arg_type: ColType::Int,
        na_rm: false,
    };
    Ok(Verb::Summarise {
        by: one(alloc, 1)?,
        args: Seq::new(alloc),
        calls: one(alloc, call)?,
        results: Seq::new(alloc),
        groups: texts(alloc, "g")?,
    })
}

fn join(alloc: Global) -> Mem<Verb> {
    Ok(Verb::Join {
        kind: JoinKind::Left,
        pairs: one(alloc, (0, 0))?,
        na_match: true,
        names: texts(alloc, "id")?,
    })
}

fn wider(alloc: Global) -> Mem<PivotSpec> {
    Ok(PivotSpec {
        ids: one(alloc, 0)?,
        names: 1,
        values: 2,
        sorted: false,
        fill: Value::Missing,
    })
}

fn verb_at(alloc: Global, at: usize) -> Mem<Verb> {
    match at {
        0 => Ok(Verb::Filter {
            by: Seq::new(alloc),
            conditions: one(alloc, part_of(alloc)?)?,
        }),
        1 => summarise(alloc),
        2 => Ok(Verb::Arrange(one(alloc, (Expr::Col(0), true))?)),
        3 => join(alloc),
        4 => Ok(Verb::PivotWider(wider(alloc)?)),
        5 => Ok(Verb::GroupBy(one(alloc, 2)?)),
        _ => Ok(Verb::SliceMin(Expr::Col(0), 1)),
    }
}

fn fault_at(alloc: Global, at: usize) -> Mem<PivotFault> {
    match at {
        0 => Ok(PivotFault::TooManyNames),
        1 => Ok(PivotFault::NameTaken(Text::of(alloc, "n")?)),
        _ => Ok(PivotFault::CellTwice(one(alloc, Value::Int(1))?, Value::Missing)),
    }
}

#[test]
fn verbs_and_faults_are_copied(rt: HostRuntime) -> Result<(), Fail> {
    let alloc = rt.alloc();
    for at in 0..7 {
        let made = verb_at(alloc, at)?.copy()?;
        assert!(rt; matches!(made, Verb::Join { .. }) == (at == 3), "verb {at}");
    }
    for at in 0..3 {
        let made = fault_at(alloc, at)?.copy()?;
        assert!(rt;
            matches!(made, PivotFault::TooManyNames) == (at == 0),
            "fault {at}"
        );
    }
    Ok(())
}

#[test]
fn a_verb_groups_anew(rt: HostRuntime) -> Result<(), Fail> {
    let alloc = rt.alloc();
    let groups = texts(alloc, "g")?;
    let made = shape_after(
        alloc,
        &verb_at(alloc, 5)?,
        &schema_of(alloc)?,
        &groups,
        Mark::Kept,
    )?;
    assert!(rt; made.0.len() == 3 && made.1 == texts(alloc, "w")? && made.2 == Mark::Kept);
    Ok(())
}

#[test]
fn a_column_is_put_in_place(rt: HostRuntime) -> Result<(), Fail> {
    let alloc = rt.alloc();
    let (schema, w) = (schema_of(alloc)?, Text::of(alloc, "w")?);
    assert!(rt; has_name(&w, schema.as_slice()) && place_of(&w, &schema) == Some(2));
    let made = with_column(&w, ColType::Lgl, schema)?;
    assert!(rt; made.len() == 3 && made.as_slice().iter().all(|f| f.kind != ColType::Dec));
    Ok(())
}

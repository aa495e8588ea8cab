//! Scripts over two tables of two int columns, `t` of `id` and `x`, and `u` of `a` and `b`: what they give, or their first fault.
use super::*;
use row_table::{Field, Mark, Schema, Table};
use scalar_value::{ColType, Mem, Or, Seq, Text};
use std::alloc::Global;
use std::test::Fail;
use token_scan::scan;
use verb_forms::names_differ;
use verb_syntax::{Script, parse};

fn push_column(schema: &mut Schema, name: &str) -> Mem<()> {
    let name = Text::of(schema.alloc(), name)?;
    schema.push(Field {
        name,
        kind: ColType::Int,
    })
}

fn columns(alloc: Global, first: &str, second: &str) -> Mem<Schema> {
    let mut schema = Seq::new(alloc);
    push_column(&mut schema, first)?;
    push_column(&mut schema, second)?;
    Ok(schema)
}

/// A table of these columns without rows.
fn table(alloc: Global, schema: Schema) -> Option<Table> {
    if names_differ(schema.as_slice()) {
        Some(Table {
            schema,
            groups: Seq::new(alloc),
            mark: Mark::Kept,
            rows: Seq::new(alloc),
        })
    } else {
        None
    }
}

fn push_table(
    tables: &mut Seq<(Text, Table)>,
    name: &str,
    first: &str,
    second: &str,
) -> Result<(), Fail> {
    let alloc = tables.alloc();
    if let Some(made) = table(alloc, columns(alloc, first, second)?) {
        tables.push((Text::of(alloc, name)?, made))?;
    }
    Ok(())
}

fn words(alloc: Global) -> Result<Seq<(Text, Table)>, Fail> {
    let mut tables = Seq::new(alloc);
    push_table(&mut tables, "t", "id", "x")?;
    push_table(&mut tables, "u", "a", "b")?;
    Ok(tables)
}

/// The place and the name of the tree's table, the number of its steps, and the columns of the shape.
fn stage_text(alloc: Global, stage: &Stage) -> Result<String, Fail> {
    let mut columns = Text::empty(alloc);
    for field in stage.shape.schema.as_slice() {
        columns.push_str(" ")?;
        columns.push_str(field.name.as_str())?;
    }
    let (source, name) = (stage.source, stage.tree.name.as_str());
    let (steps, columns) = (stage.tree.steps.len(), columns.as_str());
    Ok(format!(in alloc; "{source} {name} {steps}:{columns}")?)
}

fn fault_text(alloc: Global, fault: EvaluationFault) -> Result<String, Fail> {
    let at = fault.at;
    match fault.kind {
        EvaluationKind::Verb(kind) => Ok(format!(in alloc; "{kind} {at}")?),
        EvaluationKind::PlanTooLarge => Ok(format!(in alloc; "too large {at}")?),
    }
}

fn shown(alloc: Global, script: &Script, tables: &[(Text, Table)]) -> Result<String, Fail> {
    match evaluate(alloc, script, tables) {
        Ok(stage) => stage_text(alloc, &stage),
        Err(Or::Fault(fault)) => fault_text(alloc, fault),
        Err(Or::Memory) => Ok(String::from_str(alloc, "out of memory")?),
    }
}

/// What is shown of a script as it is written.
fn outcome(alloc: Global, script: &str, tables: &[(Text, Table)]) -> Result<String, Fail> {
    if script.len() > 1 << 20 {
        return Ok(String::new(alloc));
    }
    let Ok(tokens) = scan(alloc, script) else {
        return Ok(String::from_str(alloc, "no tokens")?);
    };
    match parse(alloc, tokens.as_slice(), script.len() as u32) {
        Ok(tree) => shown(alloc, &tree, tables),
        Err(_) => Ok(String::from_str(alloc, "no script")?),
    }
}

/// Each line: a script and what it gives, or its first fault.
const LINES: &str = "
t => 0 t 0: id x
t |> filter(id > 1) |> mutate(y = x, z = y) |> group_by(z) |> select(z) => 0 t 4: z
t <- u |> rename(c = a); t |> filter(c > 1) => 1 u 2: c b
r <- t |> select(x); r <- u |> select(b); r |> drop_na(b) => 1 u 2: b
r <- t |> select(id); s <- r; r <- r |> rename(n = id); s |> filter(id > 1) => 0 t 2: id
r <- t |> select(nope); t => unknown column 17
r <- t; s |> filter(nope) => unknown table 8
r <- s; s <- t; r => unknown table 5
r <- t |> rename(n = id); t |> filter(n > 1) => unknown column 38
r <- t |> rename(n = id); r |> mutate(y = n) |> select(id) => unknown column 55
";

#[test]
fn scripts_are_evaluated(rt: HostRuntime) -> Result<(), Fail> {
    let alloc = rt.alloc();
    let tables = words(alloc)?;
    for line in LINES.lines() {
        if let Some((script, wanted)) = line.split_once(" => ") {
            let found = outcome(alloc, script, tables.as_slice())?;
            assert!(rt; found.as_str() == wanted, "{script}: {found}");
        }
    }
    Ok(())
}

fn push_renames(script: &mut String, count: usize) -> Result<(), Fail> {
    for _ in 0..count {
        script.push_str(" |> rename(id = id)")?;
    }
    Ok(())
}

/// An assigned pipeline of so many renames, used and made longer by so many.
fn renamed(
    alloc: Global,
    assigned: usize,
    more: usize,
    tables: &[(Text, Table)],
) -> Result<String, Fail> {
    let mut script = String::from_str(alloc, "r <- t")?;
    push_renames(&mut script, assigned)?;
    script.push_str("; r")?;
    push_renames(&mut script, more)?;
    outcome(alloc, script.as_str(), tables)
}

#[test]
fn plans_have_at_most_256_nodes(rt: HostRuntime) -> Result<(), Fail> {
    let alloc = rt.alloc();
    let tables = words(alloc)?;
    let tables = tables.as_slice();
    for (assigned, more, wanted) in [
        (0, 254, "0 t 254: id x"),
        (0, 255, "too large 4839"),
        (254, 0, "0 t 254: id x"),
        (255, 0, "too large 4836"),
        (200, 54, "0 t 254: id x"),
        (200, 55, "too large 4839"),
    ] {
        let found = renamed(alloc, assigned, more, tables)?;
        assert!(rt; found.as_str() == wanted, "{assigned} and {more}: {found}");
    }
    Ok(())
}

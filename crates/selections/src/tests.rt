//! Selectors over five columns as a script writes them, and columns that are chosen one after the other.
use super::*;
use row_table::{Field, Schema};
use scalar_value::{ColType, Mem, Seq, Text};
use std::alloc::Global;
use std::test::Fail;
use syntax_tree::Term;
use token_scan::scan;
use verb_syntax::parse;

/// What stands before each selector of the tests in its script.
const BEFORE: &str = "t |> f(";

fn push_column(schema: &mut Schema, name: &str) -> Mem<()> {
    let name = Text::of(schema.alloc(), name)?;
    schema.push(Field {
        name,
        kind: ColType::Int,
    })
}

fn columns(alloc: Global) -> Mem<Schema> {
    let mut schema = Seq::new(alloc);
    push_column(&mut schema, "id")?;
    push_column(&mut schema, "Start_day")?;
    push_column(&mut schema, "start_hour")?;
    push_column(&mut schema, "END_DAY")?;
    push_column(&mut schema, "x")?;
    Ok(schema)
}

/// The columns of a selector, or the place of the first that is not there; nothing of a term that is none.
fn shown(alloc: Global, term: &Term) -> Result<String, Fail> {
    let selector = selector_of(alloc, &columns(alloc)?, term)?;
    if !selector.form {
        return Ok(String::from_str(alloc, "no selector")?);
    }
    match &selector.columns {
        Ok(places) => Ok(format!(in alloc; "{:?}", places.as_slice())?),
        Err(fault) => {
            let at = (fault.at as usize).saturating_sub(BEFORE.len());
            Ok(format!(in alloc; "unknown at {at}")?)
        }
    }
}

/// What is shown of a selector as it is written.
fn outcome(alloc: Global, selector: &str) -> Result<String, Fail> {
    let script = format!(in alloc; "{BEFORE}{selector})")?;
    let script = script.as_str();
    if script.len() > 1 << 20 {
        return Ok(String::new(alloc));
    }
    let Ok(tokens) = scan(alloc, script) else {
        return Ok(String::from_str(alloc, "no tokens")?);
    };
    let Ok(tree) = parse(alloc, tokens.as_slice(), script.len() as u32) else {
        return Ok(String::from_str(alloc, "no script")?);
    };
    match tree.last.calls.get(0) {
        Some(call) => match call.args.get(0) {
            Some(arg) => shown(alloc, &arg.value),
            None => Ok(String::new(alloc)),
        },
        None => Ok(String::new(alloc)),
    }
}

/// Each line: a selector over the columns `id`, `Start_day`, `start_hour`, `END_DAY` and `x`, and the places of its columns.
const LINES: &str = "
x => [4]
nope => unknown at 0
id:start_hour => [0, 1, 2]
END_DAY:Start_day => [1, 2, 3]
x:x => [4]
id:nope => unknown at 3
everything() => [0, 1, 2, 3, 4]
starts_with('sTART') => [1, 2]
ends_with('_day') => [1, 3]
contains('ar') => [1, 2]
contains('') => [0, 1, 2, 3, 4]
contains('days') => []
c() => []
c(x, id, x) => [4, 0]
c(x, c(Start_day, id), everything()) => [4, 1, 0, 2, 3]
c(-x, x) => [0, 1, 2, 3, 4]
c(everything(), -ends_with('DAY')) => [0, 2, 4]
c(id, c(-x)) => [0, 1, 2, 3]
c(id, nope, 1) => no selector
c(id, nope, nein) => unknown at 6
-c(id, x) => [0, 4]
c(-c(id, x)) => [1, 2, 3]
c(--x) => [4]
--x => [0, 1, 2, 3]
-id:x => no selector
1 => no selector
'x' => no selector
c(a = x) => no selector
!x => no selector
id + x => no selector
everything(x) => no selector
starts_with(x) => no selector
starts_with(a = 'x') => no selector
contains('x', 'y') => no selector
matches('x') => no selector
";

#[test]
fn selectors_choose_these_columns(rt: HostRuntime) -> Result<(), Fail> {
    for line in LINES.lines() {
        if let Some((selector, wanted)) = line.split_once(" => ") {
            let found = outcome(rt.alloc(), selector)?;
            assert!(rt; found.as_str() == wanted, "{selector}: {found}");
        }
    }
    Ok(())
}

#[test]
fn columns_are_chosen_one_after_the_other(rt: HostRuntime) -> Result<(), Fail> {
    let alloc = rt.alloc();
    let schema = columns(alloc)?;
    let end = place_of(&schema, &Text::of(alloc, "END_DAY")?)?;
    assert_eq!(rt; end, Some(3));
    assert_eq!(rt; place_of(&schema, &Text::of(alloc, "end_day")?)?, None);
    let mut chosen = all_places(alloc, &schema)?;
    chosen = without(alloc, chosen.as_slice(), &[3, 0, 9])?;
    assert_eq!(rt; chosen.as_slice(), [1, 2, 4].as_slice());
    with_column(&mut chosen, 3)?;
    with_columns(&mut chosen, &[0, 3, 0])?;
    assert_eq!(rt; chosen.as_slice(), [1, 2, 4, 3, 0].as_slice());
    assert!(rt; is_among(chosen.as_slice(), 3));
    chosen = with_selector(alloc, chosen, true, &[2, 3])?;
    chosen = with_selector(alloc, chosen, false, &[4, 3])?;
    assert_eq!(rt; chosen.as_slice(), [1, 4, 0, 3].as_slice());
    Ok(())
}

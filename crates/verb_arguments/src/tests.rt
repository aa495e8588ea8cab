//! Calls as a script writes them: what their names stand for, whether their arguments have the form, and what the first argument is.
use super::*;
use row_table::{Field, Schema};
use scalar_value::{ColType, Mem, Seq, Text};
use std::alloc::Global;
use std::test::Fail;
use syntax_tree::{Arg, Call};
use token_scan::scan;
use verb_syntax::parse;

/// What stands before each call of the tests in its script.
const BEFORE: &str = "t |> ";

fn columns(alloc: Global) -> Mem<Schema> {
    let mut schema = Seq::new(alloc);
    let name = Text::of(alloc, "id")?;
    schema.push(Field {
        name,
        kind: ColType::Int,
    })?;
    Ok(schema)
}

fn verb_text(alloc: Global, call: &Call) -> Result<String, Fail> {
    match known_by(call.name.as_str()) {
        Known::Built(verb) => {
            let suits = has_form(alloc, verb, &columns(alloc)?, call.args.as_slice())?;
            Ok(format!(in alloc; "{verb:?} {suits}")?)
        }
        other => Ok(format!(in alloc; "{other:?}")?),
    }
}

/// Whether an argument has no name, whether its name is `.by`, whether it is a column, how many arguments of `c` it has, and its truth value.
fn arg_text(alloc: Global, arg: &Arg) -> Result<String, Fail> {
    let (unnamed, by) = (is_unnamed(arg), is_named(".by", arg));
    let column = column_name(&arg.value).is_some();
    let count = match arguments_of("c", &arg.value) {
        Some(args) => args.len(),
        None => 0,
    };
    let truth = truth_of(&arg.value);
    Ok(format!(in alloc; "{unnamed} {by} {column} {count} {truth:?}")?)
}

fn shown(alloc: Global, call: &Call) -> Result<String, Fail> {
    let verb = verb_text(alloc, call)?;
    let verb = verb.as_str();
    match call.args.get(0) {
        Some(arg) => {
            let arg = arg_text(alloc, arg)?;
            let arg = arg.as_str();
            Ok(format!(in alloc; "{verb}, {arg}")?)
        }
        None => Ok(String::from_str(alloc, verb)?),
    }
}

/// What is shown of a call as it is written.
fn outcome(alloc: Global, call: &str) -> Result<String, Fail> {
    let script = format!(in alloc; "{BEFORE}{call}")?;
    let script = script.as_str();
    if script.len() > 1 << 20 {
        return Ok(String::new(alloc));
    }
    let Ok(tokens) = scan(alloc, script) else {
        return Ok(String::from_str(alloc, "no tokens")?);
    };
    let Ok(tree) = parse(alloc, tokens.as_slice(), script.len() as u32) else {
        return Ok(String::from_str(alloc, "no script")?);
    };
    match tree.last.calls.get(0) {
        Some(call) => shown(alloc, call),
        None => Ok(String::new(alloc)),
    }
}

/// Each line: a call over the column `id`, and what it is.
const LINES: &str = "
filter(.by = c(id, id)) => Filter true, false true false 2 None
filter(x = id) => Filter false, false false true 0 None
mutate(x = 1) => Mutate true, false false false 0 None
select(id, n = id) => Select true, true false true 0 None
rename(id) => Rename false, true false true 0 None
relocate(id, .before = id) => Relocate true, true false true 0 None
group_by(.add = TRUE) => GroupBy true, false false false 0 Some(true)
ungroup() => Ungroup true
drop_na(1) => DropNa false, true false false 0 None
replace_na(list(id = -1)) => ReplaceNa true, true false false 0 None
arrange(id) => Later, true false true 0 None
across() => LeftOut
nothing() => Unknown
";

#[test]
fn calls_have_their_forms(rt: HostRuntime) -> Result<(), Fail> {
    let alloc = rt.alloc();
    for line in LINES.lines() {
        if let Some((call, wanted)) = line.split_once(" => ") {
            let found = outcome(alloc, call)?;
            assert!(rt; found.as_str() == wanted, "{call}: {found}");
        }
    }
    Ok(())
}

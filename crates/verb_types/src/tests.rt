//! Calls of verbs as a script writes them, over a table without groups and over a grouped one: what they leave, or their first fault.
use super::*;
use row_table::{Field, Mark, Schema};
use scalar_value::{ColType, Mem, Or, Seq, Text};
use std::alloc::Global;
use std::test::Fail;
use syntax_tree::Call;
use token_scan::scan;
use verb_forms::{Shape, Verb, are_groups, names_differ};
use verb_syntax::parse;

/// What stands before each call of the tests in its script.
const BEFORE: &str = "t |> ";

fn push_column(schema: &mut Schema, name: &str, kind: ColType) -> Mem<()> {
    let name = Text::of(schema.alloc(), name)?;
    schema.push(Field { name, kind })
}

fn columns(alloc: Global) -> Mem<Schema> {
    let mut schema = Seq::new(alloc);
    push_column(&mut schema, "id", ColType::Int)?;
    push_column(&mut schema, "g", ColType::Chr)?;
    push_column(&mut schema, "d", ColType::Dec)?;
    push_column(&mut schema, "b", ColType::Lgl)?;
    Ok(schema)
}

fn groups(alloc: Global, name: &str) -> Mem<Seq<Text>> {
    let mut groups = Seq::new(alloc);
    if !name.is_empty() {
        groups.push(Text::of(alloc, name)?)?;
    }
    Ok(groups)
}

fn shape(schema: Schema, groups: Seq<Text>) -> Option<Shape> {
    if names_differ(schema.as_slice()) && are_groups(schema.as_slice(), groups.as_slice()) {
        Some(Shape {
            schema,
            groups,
            mark: Mark::Kept,
        })
    } else {
        None
    }
}

fn verb_text(alloc: Global, verb: &Verb) -> Result<String, Fail> {
    match verb {
        Verb::Filter { by, conditions } => {
            let (by, count) = (by.as_slice(), conditions.len());
            Ok(format!(in alloc; "filter {by:?} {count}")?)
        }
        Verb::Mutate { by, values } => {
            let (by, count) = (by.as_slice(), values.len());
            Ok(format!(in alloc; "mutate {by:?} {count}")?)
        }
        Verb::GroupBy(columns) => Ok(format!(in alloc; "group_by {:?}", columns.as_slice())?),
        Verb::DropNa(columns) => Ok(format!(in alloc; "drop_na {:?}", columns.as_slice())?),
        Verb::ReplaceNa(cells) => Ok(format!(in alloc; "replace_na {}", cells.len())?),
        Verb::Select(_) => Ok(String::from_str(alloc, "select")?),
        Verb::Rename(_) => Ok(String::from_str(alloc, "rename")?),
        Verb::Relocate(_) => Ok(String::from_str(alloc, "relocate")?),
        Verb::Ungroup => Ok(String::from_str(alloc, "ungroup")?),
        _ => Ok(String::new(alloc)),
    }
}

/// The columns of a shape and its groups.
fn shape_text(alloc: Global, x: &Shape) -> Result<Text, Fail> {
    let mut text = Text::empty(alloc);
    for field in x.schema.as_slice() {
        text.push_str(field.name.as_str())?;
        text.push_str(" ")?;
    }
    text.push_str("by ")?;
    for group in x.groups.as_slice() {
        text.push_str(group.as_str())?;
        text.push_str(" ")?;
    }
    Ok(text)
}

fn left_text(alloc: Global, verb: &Verb, after: &Shape) -> Result<String, Fail> {
    let (left, verb) = (shape_text(alloc, after)?, verb_text(alloc, verb)?);
    let (left, verb) = (left.as_str(), verb.as_str());
    Ok(format!(in alloc; "{left}: {verb}")?)
}

fn fault_text(alloc: Global, fault: VerbFault) -> Result<String, Fail> {
    let at = (fault.at as usize).saturating_sub(BEFORE.len());
    Ok(format!(in alloc; "{} {at}", fault.kind)?)
}

/// What a call leaves and its checked verb, or its first fault with the place in the call.
fn shown(alloc: Global, call: &Call, x: &Shape) -> Result<String, Fail> {
    match check(alloc, call, x, None) {
        Ok((verb, after)) => left_text(alloc, &verb, &after),
        Err(Or::Fault(fault)) => fault_text(alloc, fault),
        Err(Or::Memory) => Ok(String::from_str(alloc, "out of memory")?),
    }
}

/// What is shown of a call as it is written.
fn outcome(alloc: Global, call: &str, x: &Shape) -> Result<String, Fail> {
    let script = format!(in alloc; "{BEFORE}{call}")?;
    let script = script.as_str();
    if script.len() > 1 << 20 {
        return Ok(String::new(alloc));
    }
    let Ok(tokens) = scan(alloc, script) else {
        return Ok(String::from_str(alloc, "no tokens")?);
    };
    let Ok(tree) = parse(alloc, tokens.as_slice(), script.len() as u32) else {
        return Ok(String::from_str(alloc, "no script")?);
    };
    match tree.last.calls.get(0) {
        Some(call) => shown(alloc, call, x),
        None => Ok(String::new(alloc)),
    }
}

/// Each line: a call over the columns `id` int, `g` chr, `d` dec and `b` lgl, and what it leaves, or its first fault.
const LINES: &str = "
filter(id > 1, b) => id g d b by : filter [] 2
filter(b, .by = c(g, g)) => id g d b by : filter [1] 1
filter() => id g d b by : filter [] 0
mutate(x = id + 1, y = x * 2) => id g d b x y by : mutate [] 2
mutate(id = d, .by = g) => id g d b by : mutate [1] 1
select(d, n = id) => d n by : select
select(-id, -b) => g d by : select
select(id, id:d, k = g) => id k d by : select
select(c(-id), id) => g d b id by : select
rename(n = id, k = g) => n k d b by : rename
relocate(b) => b id g d by : relocate
relocate(d, .after = id) => id d g b by : relocate
relocate(b, d, .before = g) => id b d g by : relocate
relocate(-b) => id g d b by : relocate
group_by(g, id, g) => id g d b by g id : group_by [1, 0]
group_by() => id g d b by : group_by []
ungroup() => id g d b by : ungroup
drop_na(d, id) => id g d b by : drop_na [2, 0]
drop_na() => id g d b by : drop_na [0, 1, 2, 3]
replace_na(list(id = 0, d = -1, g = 'x', b = NA)) => id g d b by : replace_na 4
nothing(id) => unknown function 0
arrange(nope) => not built yet 0
across(id) => left out 0
filter(x = b, nope) => wrong arguments 0
filter(b, t |> head()) => wrong arguments 0
filter(nope, .by = 1) => wrong arguments 0
filter(b, .by = g, .by = g) => wrong arguments 0
filter(id, nope) => wrong type 7
filter(nope, id) => unknown column 7
filter(sum(id) > 1) => not built yet 7
filter(b, .by = c(g, nope)) => unknown column 21
mutate(id) => wrong arguments 0
mutate(.keep = id) => wrong arguments 0
mutate(y = x, x = 1) => unknown column 11
mutate(g = 1, .by = g) => a grouping column would be changed 0
mutate(g = nope, .by = g) => unknown column 11
mutate(x = median(id)) => left out 11
select(foo(id), nope) => wrong arguments 0
select(nope, zip) => unknown column 7
select(a = id, n = id) => wrong arguments 0
select(a = id, -id, n = id) => wrong arguments 0
select(a = id, n = id, nope) => unknown column 23
select(-everything()) => wrong arguments 0
select(n = id, n = g) => two columns of one name 0
rename(id) => wrong arguments 0
rename(g = id) => two columns of one name 0
rename(n = id, x = zip) => unknown column 19
relocate(id, .after = id) => wrong arguments 0
relocate(.before = id, .after = g) => wrong arguments 0
relocate(nope, .after = zip) => unknown column 9
group_by(nope, zip) => unknown column 9
group_by(1, nope) => wrong arguments 0
group_by(g, .add = 1) => wrong arguments 0
ungroup(id) => wrong arguments 0
drop_na(nope) => unknown column 8
replace_na(list(id = 1.5)) => wrong type 21
replace_na(list(nope = 1.5)) => unknown column 16
replace_na(list(id = id)) => wrong arguments 0
replace_na(list(g = as.Date('x'))) => wrong arguments 20
";

/// The same over the columns grouped by `g`.
const GROUPED: &str = "
filter(b) => id g d b by g : filter [1] 1
filter(nope, .by = g) => .by on a grouped table 0
filter(x = b, .by = g) => wrong arguments 0
mutate(x = 1, .by = id) => .by on a grouped table 0
mutate(g = 1) => a grouping column would be changed 0
mutate(x = g) => id g d b x by g : mutate [1] 1
select(id) => g id by g : select
select(id, k = g) => id k by k : select
rename(k = g) => id k d b by k : rename
relocate(g) => g id d b by g : relocate
group_by(id) => id g d b by id : group_by [0]
group_by(id, .add = TRUE) => id g d b by g id : group_by [1, 0]
ungroup() => id g d b by : ungroup
drop_na(id) => id g d b by g : drop_na [0]
replace_na(list(d = 1)) => id g d b by g : replace_na 1
replace_na(list(g = 'x')) => a grouping column would be changed 0
";

fn all_lines(
    rt: &impl std::process::Abort,
    alloc: Global,
    group: &str,
    lines: &str,
) -> Result<(), Fail> {
    let Some(x) = shape(columns(alloc)?, groups(alloc, group)?) else {
        return Ok(());
    };
    for line in lines.lines() {
        if let Some((call, wanted)) = line.split_once(" => ") {
            let found = outcome(alloc, call, &x)?;
            assert!(rt; found.as_str() == wanted, "{call}: {found}");
        }
    }
    Ok(())
}

#[test]
fn calls_are_checked(rt: HostRuntime) -> Result<(), Fail> {
    let alloc = rt.alloc();
    all_lines(&rt, alloc, "", LINES)?;
    all_lines(&rt, alloc, "g", GROUPED)
}

//! Expressions of scripts over one row, with their types and values, and the first fault of each of many expressions.
use super::*;
use na_expr::eval_row;
use row_table::{Field, Row, Schema};
use scalar_fns::write_value;
use scalar_value::{ColType, Dec6, Mem, Or, Seq, Text, Value};
use std::alloc::Global;
use std::test::Fail;
use syntax_tree::Term;
use token_scan::scan;
use verb_syntax::parse;

/// What stands before each expression of the tests in its script.
const BEFORE: &str = "t |> f(";

fn push_column(schema: &mut Schema, name: &str, kind: ColType) -> Mem<()> {
    let name = Text::of(schema.alloc(), name)?;
    schema.push(Field { name, kind })
}

fn columns(alloc: Global) -> Mem<Schema> {
    let mut schema = Seq::new(alloc);
    push_column(&mut schema, "id", ColType::Int)?;
    push_column(&mut schema, "x", ColType::Int)?;
    push_column(&mut schema, "d", ColType::Dec)?;
    push_column(&mut schema, "s", ColType::Chr)?;
    push_column(&mut schema, "day", ColType::Date)?;
    push_column(&mut schema, "b", ColType::Lgl)?;
    Ok(schema)
}

fn decimal(text: &str) -> Value {
    match Dec6::parse(text) {
        Some(number) => Value::Dec(number),
        None => Value::Missing,
    }
}

fn row(alloc: Global) -> Mem<Row> {
    let mut row = Seq::new(alloc);
    row.push(Value::Int(7))?;
    row.push(Value::Missing)?;
    row.push(decimal("2.5"))?;
    row.push(Value::Chr(Text::of(alloc, "ab")?))?;
    row.push(Value::Day(19_756))?;
    row.push(Value::Lgl(true))?;
    Ok(row)
}

fn kind_word(kind: ColType) -> &'static str {
    match kind {
        ColType::Int => "int",
        ColType::Dec => "dec",
        ColType::Chr => "chr",
        ColType::Date => "date",
        ColType::Lgl => "lgl",
    }
}

fn fault_word(kind: TermFaultKind) -> &'static str {
    match kind {
        TermFaultKind::UnknownColumn => "UnknownColumn",
        TermFaultKind::UnknownFunction => "UnknownFunction",
        TermFaultKind::OutOfProfile => "OutOfProfile",
        TermFaultKind::WrongArguments => "WrongArguments",
        TermFaultKind::WrongType => "WrongType",
        TermFaultKind::NotBuilt => "NotBuilt",
    }
}

/// The type and the value of an expression, or its first fault with the place in the expression.
fn shown(alloc: Global, term: &Term) -> Result<String, Fail> {
    match expression_of(alloc, &columns(alloc)?, term) {
        Ok((expr, kind)) => {
            let value = eval_row(alloc, &expr, &row(alloc)?)?;
            let mut text = Text::empty(alloc);
            if matches!(value, Value::Day(_)) {
                text.push_str("-")?;
            } else {
                write_value(&value, &mut text)?;
            }
            let (kind, text) = (kind_word(kind), text.as_str());
            Ok(format!(in alloc; "{kind} {text}")?)
        }
        Err(Or::Fault(fault)) => {
            let (kind, at) = (
                fault_word(fault.kind),
                (fault.at as usize).saturating_sub(BEFORE.len()),
            );
            Ok(format!(in alloc; "{kind} {at}")?)
        }
        Err(Or::Memory) => Ok(String::from_str(alloc, "out of memory")?),
    }
}

/// What is shown of an expression as it is written.
fn outcome(alloc: Global, expression: &str) -> Result<String, Fail> {
    let script = format!(in alloc; "{BEFORE}{expression})")?;
    let script = script.as_str();
    if script.len() > 1 << 20 {
        return Ok(String::new(alloc));
    }
    let Ok(tokens) = scan(alloc, script) else {
        return Ok(String::from_str(alloc, "no tokens")?);
    };
    let Ok(tree) = parse(alloc, tokens.as_slice(), script.len() as u32) else {
        return Ok(String::from_str(alloc, "no script")?);
    };
    match tree.last.calls.get(0) {
        Some(call) => match call.args.get(0) {
            Some(arg) => shown(alloc, &arg.value),
            None => Ok(String::new(alloc)),
        },
        None => Ok(String::new(alloc)),
    }
}

/// Each line: an expression, and its type and value over the row `id` 7, `x` NA, `d` 2.5, `s` ab, `day` 2024-02-03, `b` TRUE,
/// or its first fault and the place. A date is written as `-`.
const LINES: &str = "
-id => int -7
-d => dec -2.5
id + 1 => int 8
id + 0.5 => dec 7.5
id * d => dec 17.5
id / 2 => dec 3.5
-id %/% 2 => int -4
id %% 2 => int 1
day + 1 => date -
1 + day => date -
day - 1 => date -
day - as.Date('2024-02-01') => int 2
id == d => lgl FALSE
s < 'b' => lgl TRUE
day >= '2024-02-01' => lgl TRUE
'2024-02-04' == day => lgl FALSE
!b => lgl FALSE
b & NA => lgl NA
b | NA => lgl TRUE
id %in% c(1, 7) => lgl TRUE
x %in% c(1, NA) => lgl TRUE
day %in% c('2024-02-03', NA) => lgl TRUE
id %in% c() => lgl FALSE
id %in% c(-7, 7.0) => lgl TRUE
is.na(x) => lgl TRUE
if_else(b, 1, 2.5) => dec 1
case_when(x > 1 ~ 1, b ~ 2, .default = 0.5) => dec 2
case_when(.default = 1, !b ~ 2) => int 1
coalesce(x, 3) => int 3
between(id, 1, 10) => lgl TRUE
between(day, '2024-01-01', '2024-12-31') => lgl TRUE
between('2024-02-03', day, NA) => lgl NA
abs(-d) => dec 2.5
nchar(s) => int 2
substr(s, 1, 1) => chr a
toupper(s) => chr AB
tolower('Ab') => chr ab
startsWith(s, 'a') => lgl TRUE
endsWith(s, 'a') => lgl FALSE
paste0(s, 1, NA) => chr ab1NA
year(day) => int 2024
wday(day) => int 7
month(day) * 100 + day(day) => int 203
as.integer(d) => int 2
as.integer(b) => int 1
as.numeric(id) => dec 7
as.character(day) => chr 2024-02-03
as.character(day + 1) => chr 2024-02-04
as.character(day - 3) => chr 2024-01-31
TRUE => lgl TRUE
NA => lgl NA
NA_real_ => dec NA
-NA => int NA
NA + NA => int NA
NA + 1.5 => dec NA
NA / NA => dec NA
day - NA => date NA
NA - day => int NA
is.na(NA) => lgl TRUE
NA == NA => lgl NA
if_else(NA, NA, 1) => int NA
if_else(b, NA, NA) => lgl NA
-if_else(b, NA, NA) => int NA
coalesce(NA, 1.5) => dec 1.5
coalesce(if_else(b, NA, NA), s) => chr ab
NA & TRUE => lgl NA
case_when(b ~ NA) => lgl NA
between(NA, 1, 2.5) => lgl NA
nchar(NA) => int NA
year(NA) => int NA
as.integer(NA) => int NA
as.character(NA) => chr NA
substr(NA, 1, NA) => chr NA
nope => UnknownColumn 0
nope + abs(s) => UnknownColumn 0
abs(s) + nope => WrongType 0
id + s + nope => WrongType 0
(id) + s => WrongType 0
1 + abs(s) => WrongType 4
foo(nope) => UnknownColumn 4
foo(a = 1) => UnknownFunction 0
1 + foo(id) => UnknownFunction 4
c(1) => UnknownFunction 0
median(id) => OutOfProfile 0
median(nope) => UnknownColumn 7
sum(nope) => NotBuilt 0
1 + row_number() => NotBuilt 4
id + s => WrongType 0
!id => WrongType 0
abs(s) => WrongType 0
abs(id, 1) => WrongArguments 0
abs(id, nope) => UnknownColumn 8
abs(y = nope) => WrongArguments 4
is.na() => WrongArguments 0
day == 'x' => WrongType 7
day %in% c('2024-01-01', 'x') => WrongType 25
x %in% id => WrongArguments 0
x %in% nope => UnknownColumn 7
x %in% c(nope) => UnknownColumn 9
x %in% c(id) => WrongArguments 0
x %in% c(a = nope) => WrongArguments 9
x %in% c('a') => WrongType 0
x %in% c(--5) => WrongArguments 0
id:x => WrongArguments 0
1 + id:x => WrongArguments 4
nope:x => UnknownColumn 0
b ~ 1 => WrongArguments 0
as.Date('x') => WrongArguments 0
as.Date(s) => WrongArguments 0
as.Date(nope) => UnknownColumn 8
case_when(b) => WrongArguments 0
case_when(nope) => UnknownColumn 10
case_when() => WrongArguments 0
case_when(.default = 1) => WrongArguments 0
case_when(b ~ 1, .default = 2, .default = nope) => WrongArguments 31
case_when(id ~ 1) => WrongType 0
case_when(b ~ 1, b ~ 'a') => WrongType 0
if_else(1, NA, NA) => WrongType 0
if_else(b, 1, 'a') => WrongType 0
between(id, 'a', 1) => WrongType 0
between(day, 'a') => WrongArguments 0
abs(t |> head()) => WrongArguments 4
";

#[test]
fn expressions_have_these_types_values_and_faults(rt: HostRuntime) -> Result<(), Fail> {
    for line in LINES.lines() {
        if let Some((expression, wanted)) = line.split_once(" => ") {
            let found = outcome(rt.alloc(), expression)?;
            assert!(rt; found.as_str() == wanted, "{expression}: {found}");
        }
    }
    Ok(())
}

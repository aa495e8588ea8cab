use super::*;
use row_table::{Field, Row, Schema};
use scalar_fns::read_day;
use scalar_value::{ColType, Dec6, Mem, Seq, Text, Value};
use std::alloc::Global;
use std::test::Fail;

fn kind_of(v: &Value) -> ColType {
    match v {
        Value::Int(_) => ColType::Int,
        Value::Dec(_) => ColType::Dec,
        Value::Chr(_) => ColType::Chr,
        Value::Day(_) => ColType::Date,
        Value::Lgl(_) | Value::Missing => ColType::Lgl,
    }
}

fn literal(v: Value) -> Expr {
    let kind = kind_of(&v);
    Expr::Lit(v, kind)
}

/// The value of a word: a text behind a quote, `NA`, a truth value, a whole number, a decimal with a point, a date, or else
/// a text.
fn value(alloc: Global, word: &str) -> Mem<Value> {
    if let Some(text) = word.strip_prefix('\'') {
        return Ok(Value::Chr(Text::of(alloc, text)?));
    }
    match word {
        "NA" => return Ok(Value::Missing),
        "TRUE" => return Ok(Value::Lgl(true)),
        "FALSE" => return Ok(Value::Lgl(false)),
        _ => {}
    }
    if let Ok(number) = word.parse::<i64>() {
        return Ok(Value::Int(number));
    }
    match (Dec6::parse(word), read_day(word)) {
        (Some(number), _) => Ok(Value::Dec(number)),
        (None, Some(day)) => Ok(Value::Day(day)),
        (None, None) => Ok(Value::Chr(Text::of(alloc, word)?)),
    }
}

/// The operator of a word, and none of another word.
fn operator_named(word: &str) -> Option<ExprFn> {
    Some(match word {
        "neg" => ExprFn::Neg,
        "add" => ExprFn::Add,
        "sub" => ExprFn::Sub,
        "mul" => ExprFn::Mul,
        "div" => ExprFn::Div,
        "floor_div" => ExprFn::FloorDiv,
        "mod" => ExprFn::Mod,
        "eq" => ExprFn::Eq,
        "ne" => ExprFn::Ne,
        "lt" => ExprFn::Lt,
        "le" => ExprFn::Le,
        "gt" => ExprFn::Gt,
        "ge" => ExprFn::Ge,
        "not" => ExprFn::Not,
        "and" => ExprFn::And,
        "or" => ExprFn::Or,
        "is_in" => ExprFn::IsIn,
        _ => return None,
    })
}

/// The operator or function of a word.
fn function_named(word: &str) -> ExprFn {
    if let Some(operator) = operator_named(word) {
        return operator;
    }
    match word {
        "is_na" => ExprFn::IsNa,
        "if_else" => ExprFn::IfElse(ColType::Int),
        "case_when" => ExprFn::CaseWhen(ColType::Int),
        "case_when_dec" => ExprFn::CaseWhen(ColType::Dec),
        "coalesce_dec" => ExprFn::Coalesce(ColType::Dec),
        "between" => ExprFn::Between,
        "abs" => ExprFn::Abs,
        "nchar" => ExprFn::NChar,
        "substr" => ExprFn::Substr,
        "toupper" => ExprFn::ToUpper,
        "tolower" => ExprFn::ToLower,
        "starts_with" => ExprFn::StartsWith,
        "ends_with" => ExprFn::EndsWith,
        "paste0" => ExprFn::Paste0,
        "year" => ExprFn::Year,
        "month" => ExprFn::Month,
        "day" => ExprFn::Day,
        "wday" => ExprFn::Wday,
        "as_integer" => ExprFn::AsInteger,
        "as_numeric" => ExprFn::AsNumeric,
        _ => ExprFn::AsCharacter,
    }
}

/// The value that a row's call gives on the words before `=`.
fn called(alloc: Global, row: &str) -> Mem<Value> {
    let mut words = row.split_whitespace();
    let function = function_named(words.next().unwrap_or(""));
    let mut args = Seq::new(alloc);
    for word in words {
        if word == "=" {
            break;
        }
        args.push(literal(value(alloc, word)?))?;
    }
    eval_row(alloc, &Expr::Call(function, args), &Seq::new(alloc))
}

/// Each row: an operator or function, its arguments, and its value.
const ROWS: &str = "
neg -9223372036854775808 = NA
neg 5 = -5
add 9223372036854775807 1 = NA
add 1 0.5 = 1.5
sub -9223372036854775808 1 = NA
mul -0.000001 0.5 = -0.000001
mul 0.000001 0.4 = 0.0
div 2 3 = 0.666667
div 1 0 = NA
floor_div 7 -2 = -4
floor_div 7 0 = NA
mod 7 -2 = -1
mod -7 3 = 2
mod -7 2 = 1
mod 7 0 = NA
add 9999-12-31 1 = NA
add 1 2024-02-28 = 2024-02-29
sub 2024-03-01 1 = 2024-02-29
sub 2024-03-01 2024-02-28 = 2
sub 0000-01-01 1 = NA
eq NA NA = NA
eq 1 1.0 = TRUE
ne 1 1.0 = FALSE
lt 1 1.5 = TRUE
le 2024-02-29 2024-02-28 = FALSE
gt TRUE FALSE = TRUE
ge b a = TRUE
not NA = NA
not TRUE = FALSE
and NA FALSE = FALSE
and NA TRUE = NA
or NA TRUE = TRUE
or NA FALSE = NA
is_in NA 10 NA = TRUE
is_in NA 10 = FALSE
is_in 1 2 1.0 = TRUE
is_na NA = TRUE
is_na 1 = FALSE
if_else NA 1 2 = NA
if_else FALSE 1 2 = 2
case_when FALSE 1 TRUE 2 = 2
case_when_dec NA 1 0.5 = 0.5
case_when FALSE 1 = NA
coalesce_dec NA 2 1.5 = 2.0
coalesce_dec 9223372036854775807 1.5 = NA
between 2 1 NA = NA
between 0 1 NA = FALSE
abs -1.5 = 1.5
abs -9223372036854775808 = NA
nchar aé€b = 4
substr abc 0 2 = ab
substr aé€b 3 99 = €b
toupper aéZ1 = AéZ1
tolower AÉz1 = aÉz1
starts_with abc ab = TRUE
ends_with abc ab = FALSE
paste0 a NA 1.50 = aNA1.5
year 2024-02-29 = 2024
month 2024-02-29 = 2
day 2024-02-29 = 29
wday 2024-03-03 = 1
as_integer -1.9 = -1
as_integer TRUE = 1
as_numeric 7 = 7.0
as_numeric 9223372036854775807 = NA
as_character 1.50 = '1.5
as_character 2024-02-29 = '2024-02-29
as_character NA = NA
";

#[test]
fn values(rt: HostRuntime) -> Result<(), Fail> {
    let mut count = 0u32;
    for row in ROWS.lines() {
        if let Some(expected) = row.split_whitespace().last() {
            assert_eq!(rt;
                called(rt.alloc(), row)?,
                value(rt.alloc(), expected)?,
                "{row}"
            );
            count = count.saturating_add(1);
        }
    }
    assert_eq!(rt; count, 68);
    Ok(())
}

/// A call of these arguments.
fn call(alloc: Global, function: ExprFn, a: Expr, b: Option<Expr>) -> Mem<Expr> {
    let mut args = Seq::new(alloc);
    args.push(a)?;
    if let Some(b) = b {
        args.push(b)?;
    }
    Ok(Expr::Call(function, args))
}

fn one_column(alloc: Global) -> Mem<Schema> {
    let mut schema: Schema = Seq::new(alloc);
    schema.push(Field {
        name: Text::of(alloc, "x")?,
        kind: ColType::Int,
    })?;
    Ok(schema)
}

#[test]
fn types(rt: HostRuntime) -> Result<(), Fail> {
    let alloc = rt.alloc();
    let schema = one_column(alloc)?;
    let text = Expr::Lit(value(alloc, "a")?, ColType::Chr);
    let faulty = call(alloc, ExprFn::Add, text, Some(Expr::Col(7)))?;
    assert_eq!(rt; type_of(&faulty, &schema), Err(TypeFault::UnknownColumn));
    let negation = call(alloc, ExprFn::Not, Expr::Col(0), None)?;
    assert_eq!(rt; type_of(&negation, &schema), Err(TypeFault::WrongType));
    let cases = call(alloc, ExprFn::CaseWhen(ColType::Int), Expr::Col(0), None)?;
    assert_eq!(rt; type_of(&cases, &schema), Err(TypeFault::WrongArguments));
    Ok(())
}

#[test]
fn sum_on_a_row(rt: HostRuntime) -> Result<(), Fail> {
    let alloc = rt.alloc();
    let half = Expr::Lit(value(alloc, "0.5")?, ColType::Dec);
    let sum = call(alloc, ExprFn::Add, Expr::Col(0), Some(half))?;
    assert_eq!(rt; type_of(&sum, &one_column(alloc)?), Ok(ColType::Dec));
    let mut row: Row = Seq::new(alloc);
    row.push(Value::Int(2))?;
    let given = eval_row(alloc, &sum.copy()?, &row)?;
    assert_eq!(rt; given, value(alloc, "2.5")?);
    Ok(())
}

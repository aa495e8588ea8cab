ghost use Rattle.std.specs.Prelude.{◌≡◌, List, [], ◌∷◌, ◌++◌, map, drop, unwrap_or, slice_get, pos, IfOk, OnOk, true, false};
ghost use Rattle.std.specs.List.{list_any};
ghost use Rattle.scalar_value.specs.Truths.{is_true as true_value};
ghost use Rattle.na_expr.specs.Holding.{held_value};
ghost use Rattle.na_expr.specs.Evaluation.{val, call_value, takes_list as is_list_function, is_day_part, is_text_function, is_text_test, is_comparison, test_of};
ghost use Rattle.scalar_value.specs.Numbers.{as_int};
ghost use Rattle.scalar_fns.specs.Written.{written};
ghost use Rattle.na_expr.specs.Operators.{in_calendar, is_same as same, among, first_case, first_there, pasted, carried as carried_value, compared, between, chosen, part_of, to_text as text_value};

use crate::expr::{Expr, ExprFn};
use crate::held::{Held, carried, owned, value_of};
use crate::operators::{
    absolute, added, both_true, either_true, is_calendar_day, is_false, is_missing, is_same,
    is_true, is_value, negated, negation, on_numbers, order, taken_away, to_decimal, to_integer,
};
use row_table::Row;
use scalar_fns::{chars, day_of, lower, month, substr, upper, wday, write_value, year};
use scalar_value::{ColType, Mem, NumOp, Text, Value};
use std::alloc::Global;
use std::cmp::Ordering;

/// The text of a value, where a day that the calendar does not have counts as missing.
fn push_value(v: &Value, out: &mut Text) -> Mem<()>
    ensures { OnOk result (out.new ≡ out.old ++ written (in_calendar v.now)) }
{
    if is_value(v) {
        write_value(v, out)
    } else {
        out.push_str("NA")
    }
}

/// The value as a text.
fn to_text(alloc: Global, v: &Value) -> Mem<Value>
    ensures { IfOk result (λ t. t ≡ text_value v.now) }
{
    if is_missing(v) || !is_value(v) {
        return Ok(Value::Missing);
    }
    let mut text = Text::empty(alloc);
    push_value(v, &mut text)?;
    Ok(Value::Chr(text))
}

/// A part of a day of the calendar.
fn day_part(function: ExprFn, day: i32) -> Value
    requires { is_day_part function ≡ true }
    ensures { result ≡ call_value function (Value.Day day ∷ []) }
{
    if !is_calendar_day(day) {
        return Value::Missing;
    }
    match function {
        ExprFn::Year => Value::Int(year(day)),
        ExprFn::Month => Value::Int(month(day)),
        ExprFn::Day => Value::Int(day_of(day)),
        ExprFn::Wday => Value::Int(wday(day)),
        _ => unreachable!(),
    }
}

/// A function of one text.
fn text_function(alloc: Global, function: ExprFn, text: &Text) -> Mem<Value>
    requires { is_text_function function ≡ true }
    ensures { IfOk result (λ v. v ≡ call_value function (Value.Chr text.now ∷ [])) }
{
    match function {
        ExprFn::ToUpper => Ok(Value::Chr(upper(alloc, text.as_str())?)),
        ExprFn::ToLower => Ok(Value::Chr(lower(alloc, text.as_str())?)),
        ExprFn::NChar => Ok(int_of_count(chars(text.as_str()))),
        _ => unreachable!(),
    }
}

/// A count as a whole number.
fn int_of_count(count: u64) -> Value
    ensures { result ≡ as_int (pos count) }
{
    match i64::try_from(count) {
        Ok(number) => Value::Int(number),
        Err(_) => Value::Missing,
    }
}

/// Whether an order is one that a comparison looks for.
fn passes(function: ExprFn, order: Ordering) -> bool
    requires { is_comparison function ≡ true }
    ensures { result ≡ test_of function order }
{
    match function {
        ExprFn::Eq => order == Ordering::Equal,
        ExprFn::Ne => order != Ordering::Equal,
        ExprFn::Lt => order == Ordering::Less,
        ExprFn::Le => order != Ordering::Greater,
        ExprFn::Gt => order == Ordering::Greater,
        ExprFn::Ge => order != Ordering::Less,
        _ => unreachable!(),
    }
}

/// A comparison of two values.
fn compare(function: ExprFn, a: &Value, b: &Value) -> Value
    requires { is_comparison function ≡ true }
    ensures { result ≡ compared (test_of function) a.now b.now }
{
    if is_missing(a) || is_missing(b) {
        Value::Missing
    } else {
        Value::Lgl(passes(function, order(a, b)))
    }
}

/// The value of a function of one value.
fn one(alloc: Global, function: ExprFn, a: &Value) -> Mem<Value>
    requires { is_list_function function ≡ false }
    ensures { IfOk result (λ v. v ≡ call_value function (a.now ∷ [])) }
{
    match function {
        ExprFn::Neg => Ok(negated(a)),
        ExprFn::Not => Ok(negation(a)),
        ExprFn::IsNa => Ok(Value::Lgl(is_missing(a))),
        ExprFn::Abs => Ok(absolute(a)),
        ExprFn::AsInteger => Ok(to_integer(a)),
        ExprFn::AsNumeric => Ok(to_decimal(a)),
        ExprFn::AsCharacter => to_text(alloc, a),
        ExprFn::Year | ExprFn::Month | ExprFn::Day | ExprFn::Wday => match a {
            Value::Day(day) => Ok(day_part(function, *day)),
            _ => Ok(Value::Missing),
        },
        ExprFn::NChar | ExprFn::ToUpper | ExprFn::ToLower => match a {
            Value::Chr(text) => text_function(alloc, function, text),
            _ => Ok(Value::Missing),
        },
        _ => Ok(Value::Missing),
    }
}

/// A test on two texts.
fn text_test(function: ExprFn, text: &Text, part: &Text) -> Value
    requires { is_text_test function ≡ true }
    ensures { result ≡ call_value function (Value.Chr text.now ∷ Value.Chr part.now ∷ []) }
{
    match function {
        ExprFn::StartsWith => Value::Lgl(
            text.as_str()
                .as_bytes()
                .starts_with(part.as_str().as_bytes()),
        ),
        ExprFn::EndsWith => Value::Lgl(
            text.as_str().as_bytes().ends_with(part.as_str().as_bytes()),
        ),
        _ => unreachable!(),
    }
}

/// The value of a function of two values.
fn two(function: ExprFn, a: &Value, b: &Value) -> Value
    requires { is_list_function function ≡ false }
    ensures { result ≡ call_value function (a.now ∷ b.now ∷ []) }
{
    match function {
        ExprFn::Add => added(a, b),
        ExprFn::Sub => taken_away(a, b),
        ExprFn::Mul => on_numbers(NumOp::Mul, a, b),
        ExprFn::Div => on_numbers(NumOp::Div, a, b),
        ExprFn::FloorDiv => on_numbers(NumOp::FloorDiv, a, b),
        ExprFn::Mod => on_numbers(NumOp::Mod, a, b),
        ExprFn::Eq | ExprFn::Ne | ExprFn::Lt | ExprFn::Le | ExprFn::Gt | ExprFn::Ge => {
            compare(function, a, b)
        }
        ExprFn::And => both_true(a, b),
        ExprFn::Or => either_true(a, b),
        ExprFn::StartsWith | ExprFn::EndsWith => match (a, b) {
            (Value::Chr(text), Value::Chr(part)) => text_test(function, text, part),
            _ => Value::Missing,
        },
        _ => Value::Missing,
    }
}

/// Whether a value lies between two others, both included.
fn is_between(x: &Value, a: &Value, b: &Value) -> Value
    ensures { result ≡ between x.now a.now b.now }
{
    both_true(&compare(ExprFn::Ge, x, a), &compare(ExprFn::Le, x, b))
}

/// Some code points of a text.
fn part_of_text(alloc: Global, v: &Value, from: &Value, to: &Value) -> Mem<Value>
    ensures { IfOk result (λ p. p ≡ part_of v.now from.now to.now) }
{
    match (v, from, to) {
        (Value::Chr(text), Value::Int(from), Value::Int(to)) => {
            Ok(Value::Chr(Text::of(alloc, substr(text.as_str(), *from, *to))?))
        }
        _ => Ok(Value::Missing),
    }
}

/// The first value where the condition is TRUE, and the second where it is FALSE.
fn choose<'a>(kind: ColType, condition: &Value, a: Held<'a>, b: Held<'a>) -> Held<'a>
    ensures { held_value result ≡ chosen kind condition.now (held_value a.entry) (held_value b.entry) }
{
    if is_true(condition) {
        carried(kind, a)
    } else if is_false(condition) {
        carried(kind, b)
    } else {
        Held::Made(Value::Missing)
    }
}

/// The value of a function of three values.
fn three<'a>(
    alloc: Global,
    function: ExprFn,
    a: Held<'a>,
    b: Held<'a>,
    c: Held<'a>,
) -> Mem<Held<'a>>
    requires { is_list_function function ≡ false }
    ensures { IfOk result (λ v. held_value v ≡ call_value function (held_value a.entry ∷ held_value b.entry ∷ held_value c.entry ∷ [])) }
{
    match function {
        ExprFn::IfElse(kind) => Ok(choose(kind, value_of(&a), b, c)),
        ExprFn::Between => Ok(Held::Made(is_between(value_of(&a), value_of(&b), value_of(&c)))),
        ExprFn::Substr => Ok(Held::Made(part_of_text(
            alloc,
            value_of(&a),
            value_of(&b),
            value_of(&c),
        )?)),
        _ => Ok(Held::Made(Value::Missing)),
    }
}

/// The value of a column, and a missing value where there is none.
fn column_value(row: &Row, at: u32) -> Held<'_>
    ensures { held_value result ≡ unwrap_or (slice_get row.now at) Value.Missing }
{
    match row.get(at as usize) {
        Some(value) => Held::There(value),
        None => Held::Made(Value::Missing),
    }
}

/// The value of an expression on a row. Where no memory is left for a text it answers so; else it always gives a value:
/// a part of another type than its operator takes, and a column that is not there, count as missing. Texts that stand in
/// the row or in the expression are read where they stand: only a text that is made, or that is the value, takes memory.
pub fn eval_row(alloc: Global, e: &Expr, row: &Row) -> Mem<Value>
    ensures { IfOk result (λ v. v ≡ val row.now e.now) }
{
    owned(eval(alloc, e, row)?)
}

#[cycle(eval)]
/// The value of an expression, where it stands or made.
fn eval<'a>(alloc: Global, e: &'a Expr, row: &'a Row) -> Mem<Held<'a>>
    ensures { IfOk result (λ v. held_value v ≡ val row.now e.now) }
{
    match e {
        Expr::Col(at) => Ok(column_value(row, *at)),
        Expr::Lit(value, _) => Ok(Held::There(value)),
        Expr::Call(function, args) => eval_args(alloc, *function, args.as_slice(), row),
    }
}

#[cycle(eval)]
/// The value of a call.
fn eval_args<'a>(alloc: Global, function: ExprFn, args: &'a [Expr], row: &'a Row) -> Mem<Held<'a>>
    ensures { IfOk result (λ v. held_value v ≡ call_value function (map (val row.now) args.now)) }
{
    match function {
        ExprFn::IsIn => eval_in(alloc, args, row),
        ExprFn::CaseWhen(kind) => eval_cases(alloc, kind, args, row),
        ExprFn::Coalesce(kind) => eval_coalesce(alloc, kind, args, row),
        ExprFn::Paste0 => eval_paste(alloc, args, row),
        _ => eval_call(alloc, function, args, row),
    }
}

#[cycle(eval)]
/// The value of a call of a function of one to three values.
fn eval_call<'a>(alloc: Global, function: ExprFn, args: &'a [Expr], row: &'a Row) -> Mem<Held<'a>>
    requires { is_list_function function ≡ false }
    ensures { IfOk result (λ v. held_value v ≡ call_value function (map (val row.now) args.now)) }
{
    match args {
        [a] => {
            let a = eval(alloc, a, row)?;
            Ok(Held::Made(one(alloc, function, value_of(&a))?))
        }
        [a, b] => {
            let (a, b) = (eval(alloc, a, row)?, eval(alloc, b, row)?);
            Ok(Held::Made(two(function, value_of(&a), value_of(&b))))
        }
        [a, b, c] => {
            let (a, b) = (eval(alloc, a, row)?, eval(alloc, b, row)?);
            three(alloc, function, a, b, eval(alloc, c, row)?)
        }
        [] => Ok(Held::Made(Value::Missing)),
        [_, _, _, _, ..] => Ok(Held::Made(Value::Missing)),
    }
}

#[cycle(eval)]
/// Whether one of the literals behind the first argument equals it.
fn eval_in<'a>(alloc: Global, args: &'a [Expr], row: &'a Row) -> Mem<Held<'a>>
    ensures { IfOk result (λ v. held_value v ≡ among (map (val row.now) args.now)) }
{
    if args.is_empty() {
        return Ok(Held::Made(Value::Lgl(false)));
    }
    let x = eval(alloc, &args[0], row)?;
    Ok(Held::Made(Value::Lgl(has_same(alloc, value_of(&x), args, row)?)))
}

#[cycle(eval)]
/// Whether one of the expressions behind the first has this value.
fn has_same(alloc: Global, x: &Value, args: &[Expr], row: &Row) -> Mem<bool>
    ensures { IfOk result (λ b. b ≡ list_any (same x.now) (map (val row.now) (drop 1 args.now))) }
{
    for at in 1..args.len() {
        if is_equal(alloc, x, &args[at], row)? {
            return Ok(true);
        }
    }
    Ok(false)
}

#[cycle(eval)]
/// Whether an expression has this value.
fn is_equal(alloc: Global, x: &Value, literal: &Expr, row: &Row) -> Mem<bool>
    ensures { IfOk result (λ b. b ≡ same x.now (val row.now literal.now)) }
{
    let value = eval(alloc, literal, row)?;
    Ok(is_same(x, value_of(&value)))
}

#[cycle(eval)]
/// Whether a condition is TRUE.
fn holds(alloc: Global, condition: &Expr, row: &Row) -> Mem<bool>
    ensures { IfOk result (λ b. b ≡ true_value (val row.now condition.now)) }
{
    let value = eval(alloc, condition, row)?;
    Ok(is_true(value_of(&value)))
}

#[cycle(eval)]
/// The value behind the first condition that is TRUE, else the default.
fn eval_cases<'a>(alloc: Global, kind: ColType, args: &'a [Expr], row: &'a Row) -> Mem<Held<'a>>
    ensures { IfOk result (λ v. held_value v ≡ first_case kind (map (val row.now) args.now)) }
{
    for at in 0..args.len() / 2 {
        if holds(alloc, &args[2 * at], row)? {
            return Ok(carried(kind, eval(alloc, &args[2 * at + 1], row)?));
        }
    }
    if args.len() % 2 == 0 {
        return Ok(Held::Made(Value::Missing));
    }
    Ok(carried(kind, eval(alloc, &args[args.len() - 1], row)?))
}

#[cycle(eval)]
/// The first value that is not missing.
fn eval_coalesce<'a>(alloc: Global, kind: ColType, args: &'a [Expr], row: &'a Row) -> Mem<Held<'a>>
    ensures { IfOk result (λ v. held_value v ≡ carried_value kind (first_there (map (val row.now) args.now))) }
{
    for arg in args {
        let value = eval(alloc, arg, row)?;
        if !is_missing(value_of(&value)) {
            return Ok(carried(kind, value));
        }
    }
    Ok(carried(kind, Held::Made(Value::Missing)))
}

#[cycle(eval)]
/// The value texts one behind the other.
fn eval_paste<'a>(alloc: Global, args: &'a [Expr], row: &'a Row) -> Mem<Held<'a>>
    ensures { IfOk result (λ v. held_value v ≡ pasted (map (val row.now) args.now)) }
{
    let mut text = Text::empty(alloc);
    for arg in args {
        let value = eval(alloc, arg, row)?;
        push_value(value_of(&value), &mut text)?;
    }
    Ok(Held::Made(Value::Chr(text)))
}

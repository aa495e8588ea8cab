ghost use Rattle.std.specs.Prelude.{◌≡◌, int_div, ◌-ℤ◌, neg_ℤ, pos, IfOk};
ghost use Rattle.scalar_value.specs.Decimals.{million};
ghost use Rattle.scalar_value.specs.Numbers.{as_int};
ghost use Rattle.scalar_value.specs.Order.{is_day};
ghost use Rattle.scalar_fns.specs.Days.{day_plus};
ghost use Rattle.scalar_fns.specs.Written.{is_value as value_of_column};
ghost use Rattle.scalar_value.specs.Truths.{is_missing as missing, is_true as true_value, is_false as false_value};
ghost use Rattle.na_expr.specs.Operators.{negated as negative_of, absolute as size_of, as_day, is_number as number, on_numbers as of_numbers, added as sum_of, taken_away as difference_of, order_of, is_same as same, negation as opposite_of, both_true as conjunction, either_true as disjunction, to_decimal as decimal_of, to_integer as integer_of};

use scalar_fns::day_add;
use scalar_value::{ColType, Dec6, NumOp, Value, num, num_cmp};
use std::cmp::Ordering;

/// Whether the value is missing.
pub fn is_missing(v: &Value) -> bool
    ensures { result ≡ missing v.now }
{
    matches!(v, Value::Missing)
}

/// Whether the value is TRUE.
pub fn is_true(v: &Value) -> bool
    ensures { result ≡ true_value v.now }
{
    matches!(v, Value::Lgl(true))
}

/// Whether the value is FALSE.
pub fn is_false(v: &Value) -> bool
    ensures { result ≡ false_value v.now }
{
    matches!(v, Value::Lgl(false))
}

fn is_number(v: &Value) -> bool
    ensures { result ≡ number v.now }
{
    matches!(v, Value::Int(_) | Value::Dec(_))
}

/// An operator on two numbers.
pub fn on_numbers(op: NumOp, a: &Value, b: &Value) -> Value
    ensures { result ≡ of_numbers op a.now b.now }
{
    if is_number(a) && is_number(b) {
        num(op, a, b)
    } else {
        Value::Missing
    }
}

/// The order of two values, of numbers by their exact size.
pub fn order(a: &Value, b: &Value) -> Ordering
    ensures { result ≡ order_of a.now b.now }
{
    if is_number(a) && is_number(b) {
        num_cmp(a, b)
    } else {
        a.cmp_total(b)
    }
}

/// A day, and a missing value where there is none.
fn day_or_missing(day: Option<i32>) -> Value
    ensures { result ≡ as_day day }
{
    match day {
        Some(day) => Value::Day(day),
        None => Value::Missing,
    }
}

/// `&` of three-valued logic.
pub fn both_true(a: &Value, b: &Value) -> Value
    ensures { result ≡ conjunction a.now b.now }
{
    if is_false(a) || is_false(b) {
        Value::Lgl(false)
    } else if is_missing(a) || is_missing(b) {
        Value::Missing
    } else {
        Value::Lgl(true)
    }
}

/// `|` of three-valued logic.
pub fn either_true(a: &Value, b: &Value) -> Value
    ensures { result ≡ disjunction a.now b.now }
{
    if is_true(a) || is_true(b) {
        Value::Lgl(true)
    } else if is_missing(a) || is_missing(b) {
        Value::Missing
    } else {
        Value::Lgl(false)
    }
}

/// `!` of three-valued logic.
pub fn negation(v: &Value) -> Value
    ensures { result ≡ opposite_of v.now }
{
    match v {
        Value::Lgl(truth) => Value::Lgl(!*truth),
        _ => Value::Missing,
    }
}

/// `+` of numbers, and of a day and a whole number.
pub fn added(a: &Value, b: &Value) -> Value
    ensures { result ≡ sum_of a.now b.now }
{
    match (a, b) {
        (Value::Day(day), Value::Int(n)) | (Value::Int(n), Value::Day(day)) => {
            day_or_missing(day_add(*day, *n))
        }
        _ => on_numbers(NumOp::Add, a, b),
    }
}

/// The day so many days before.
fn day_before(day: i32, n: i64) -> Value
    ensures { result ≡ as_day (day_plus day (neg_ℤ n)) }
{
    match n.checked_neg() {
        Some(days) => day_or_missing(day_add(day, days)),
        None => Value::Missing,
    }
}

/// `-` of numbers, of a day and a whole number, and of two days.
pub fn taken_away(a: &Value, b: &Value) -> Value
    ensures { result ≡ difference_of a.now b.now }
{
    match (a, b) {
        (Value::Day(day), Value::Int(n)) => day_before(*day, *n),
        (Value::Day(day), Value::Day(other)) => Value::Int(i64::from(*day) - i64::from(*other)),
        _ => on_numbers(NumOp::Sub, a, b),
    }
}

/// The size of a number.
pub fn absolute(v: &Value) -> Value
    ensures { result ≡ size_of v.now }
{
    match v {
        Value::Int(number) if *number < 0 => negated(v),
        Value::Int(number) => Value::Int(*number),
        Value::Dec(number) if number.millionths() < 0 => negated(v),
        Value::Dec(number) => Value::Dec(*number),
        _ => Value::Missing,
    }
}

/// The negative of a number.
pub fn negated(v: &Value) -> Value
    ensures { result ≡ negative_of v.now }
{
    match v {
        Value::Int(number) => num(NumOp::Sub, &Value::Int(0), &Value::Int(*number)),
        Value::Dec(number) => num(NumOp::Sub, &Value::Dec(zero()), &Value::Dec(*number)),
        _ => Value::Missing,
    }
}

/// The decimal 0.
fn zero() -> Dec6
    ensures { result ≡ pos 0 }
{
    match Dec6::of(0) {
        Some(number) => number,
        None => unreachable!(),
    }
}

/// Whether two values are equal, a missing one to a missing one alone.
pub fn is_same(a: &Value, b: &Value) -> bool
    ensures { result ≡ same a.now b.now }
{
    order(a, b) == Ordering::Equal
}

/// A number as a decimal.
pub fn to_decimal(v: &Value) -> Value
    ensures { result ≡ decimal_of v.now }
{
    match v {
        Value::Int(number) => num(NumOp::Add, &Value::Int(*number), &Value::Dec(zero())),
        Value::Dec(number) => Value::Dec(*number),
        _ => Value::Missing,
    }
}

/// A decimal cut towards zero.
fn whole_part(number: Dec6) -> Value
    ensures { result ≡ as_int (int_div number million) }
{
    Value::Int(number.millionths() / 1_000_000)
}

/// A number or a truth value as a whole number.
pub fn to_integer(v: &Value) -> Value
    ensures { result ≡ integer_of v.now }
{
    match v {
        Value::Int(number) => Value::Int(*number),
        Value::Dec(number) => whole_part(*number),
        Value::Lgl(truth) => Value::Int(i64::from(*truth)),
        _ => Value::Missing,
    }
}

/// Whether the calendar has the day.
pub fn is_calendar_day(day: i32) -> bool
    ensures { result ≡ is_day day }
{
    day >= -719_528 && day <= 2_932_896
}

/// Whether a column of some type may hold the value.
pub fn is_value(v: &Value) -> bool
    ensures { result ≡ value_of_column v.now }
{
    match v {
        Value::Day(day) => is_calendar_day(*day),
        _ => true,
    }
}

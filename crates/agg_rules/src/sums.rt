ghost use Rattle.std.specs.Prelude.{◌≡◌, ◌≢◌, ◌≤◌, ◌<◌, ◌*◌, ◌^◌, ◌*ℤ◌, pos, length, filter, map, unsigned_abs};
ghost use Rattle.scalar_value.specs.Numbers.{as_int, as_dec, half, half_size as nearest, with_sign};
ghost use Rattle.scalar_value.specs.Truths.{is_there};
ghost use Rattle.agg_rules.specs.Lists.{summed_number, sum_of};
ghost use Rattle.agg_rules.specs.Aggregates.{looked_at, as_sum, as_mean, sum_value, mean_value};

use crate::value::{has_missing, is_missing};
use scalar_value::{ColType, Dec6, Value};

/// A count as a whole number.
pub fn int_of_count(count: u64) -> Value
    ensures { result ≡ as_int (pos count) }
{
    match i64::try_from(count) {
        Ok(number) => Value::Int(number),
        Err(_) => Value::Missing,
    }
}

/// The number that a value counts as in a sum.
fn number(v: &Value) -> i64
    ensures { result ≡ summed_number v.now }
{
    match v {
        Value::Int(number) => *number,
        Value::Dec(number) => number.millionths(),
        Value::Lgl(truth) => i64::from(*truth),
        _ => 0,
    }
}

/// The sum of the values that are there, and how many they are.
#[derive(Clone, Copy)]
struct Total {
    sum: i128,
    count: u64,
}

/// Fewer than 2^64 numbers of 64 bits fit in 128 bits.
fn added_up(values: &[Value]) -> Total
    ensures sum { result.sum ≡ sum_of (map summed_number (filter is_there values.now)) }
    ensures count { result.count ≡ length (filter is_there values.now) }
    ensures small { unsigned_abs result.sum ≤ result.count * 2 ^ 63 }
    ensures few { result.count < 2 ^ 64 }
{
    let mut sum: i128 = 0;
    let mut count: u64 = 0;
    for v in values {
        if is_missing(v) {
            continue;
        }
        sum += i128::from(number(v));
        count += 1;
    }
    Total { sum, count }
}

/// The whole number, and a missing value out of range.
fn int_of_wide(number: i128) -> Value
    ensures { result ≡ as_int number }
{
    match i64::try_from(number) {
        Ok(number) => Value::Int(number),
        Err(_) => Value::Missing,
    }
}

/// The decimal of so many millionths, and a missing value out of range.
fn dec_of_wide(millionths: i128) -> Value
    ensures { result ≡ as_dec millionths }
{
    match i64::try_from(millionths) {
        Ok(number) => dec_or_missing(number),
        Err(_) => Value::Missing,
    }
}

/// The same of a number of 64 bits.
fn dec_or_missing(millionths: i64) -> Value
    ensures { result ≡ as_dec millionths }
{
    match Dec6::of(millionths) {
        Some(number) => Value::Dec(number),
        None => Value::Missing,
    }
}

/// The exact sum of values, of the type that their sum has.
pub fn sum(kind: ColType, na_rm: bool, values: &[Value]) -> Value
    ensures { result ≡ sum_value kind (looked_at na_rm values.now) }
{
    if has_missing(na_rm, values) {
        return Value::Missing;
    }
    let all = added_up(values);
    sum_of_type(kind, all.sum)
}

/// A sum as a value.
fn sum_of_type(kind: ColType, sum: i128) -> Value
    ensures { result ≡ as_sum kind sum }
{
    match kind {
        ColType::Int | ColType::Lgl => int_of_wide(sum),
        ColType::Dec => dec_of_wide(sum),
        ColType::Chr | ColType::Date => Value::Missing,
    }
}

/// The nearest whole number to `a / b`, of two equally near ones the greater.
fn half_size(a: u128, b: u128) -> u128
    requires divisor { 0 < b }
    requires small { a ≤ 2 ^ 127 }
    ensures { result ≡ nearest a b }
{
    let rest = a % b;
    if b - rest <= rest { a / b + 1 } else { a / b }
}

/// The size of a mean: the quotient of the sizes is multiplied before its rest is divided, so that nothing is too large.
fn mean_size(size: u128, scale: u128, count: u128) -> u128
    requires divisor { 0 < count }
    requires scaled { scale ≤ 1000000 }
    requires counted { count < 2 ^ 64 }
    requires small { size ≤ count * 2 ^ 63 }
    ensures size { result ≡ nearest (size * scale) count }
    ensures bounded { result ≤ 2 ^ 90 }
{
    size / count * scale + half_size(size % count * scale, count)
}

/// The number of this size and sign.
fn signed(negative: bool, size: u128) -> i128
    requires { size ≤ 2 ^ 90 }
    ensures { result ≡ with_sign negative size }
{
    if negative {
        -(size as i128)
    } else {
        size as i128
    }
}

/// The number nearest to `sum * scale / count`, as a decimal of so many millionths.
fn mean_of(sum: i128, scale: u64, count: u64) -> Value
    requires divisor { 0 < count }
    requires above { 0 < scale }
    requires scaled { scale ≤ 1000000 }
    requires small { unsigned_abs sum ≤ count * 2 ^ 63 }
    ensures { result ≡ as_dec (half (sum *ℤ pos scale) (pos count)) }
{
    let size = mean_size(sum.unsigned_abs(), u128::from(scale), u128::from(count));
    dec_of_wide(signed(sum < 0, size))
}

/// A mean as a value.
fn mean_of_type(kind: ColType, sum: i128, count: u64) -> Value
    requires divisor { 0 < count }
    requires small { unsigned_abs sum ≤ count * 2 ^ 63 }
    ensures { result ≡ as_mean kind sum count }
{
    match kind {
        ColType::Int | ColType::Lgl => mean_of(sum, 1_000_000, count),
        ColType::Dec => mean_of(sum, 1, count),
        ColType::Chr | ColType::Date => Value::Missing,
    }
}

/// The exact mean of values, rounded half away from zero.
pub fn mean(kind: ColType, na_rm: bool, values: &[Value]) -> Value
    ensures { result ≡ mean_value kind (looked_at na_rm values.now) }
{
    if has_missing(na_rm, values) {
        return Value::Missing;
    }
    let all = added_up(values);
    if all.count == 0 {
        return Value::Missing;
    }
    mean_of_type(kind, all.sum, all.count)
}

ghost use Rattle.std.specs.Prelude.{◌≤◌, ◌^◌, ◌≡◌, ◌≢◌, ◌<◌, ◌*ℤ◌, pos, unsigned_abs};
ghost use Rattle.std.specs.Option.{option_map_or};
ghost use Rattle.scalar_value.specs.Decimals.{million};
ghost use Rattle.scalar_value.specs.Numbers.{with_sign, half, floor_div, floor_rest, as_int, as_dec, unless_zero, on_ints, on_decs, num_value, IsNumberOrMissing, IsNoProduct, HalfIsNearest, FloorIsRoundedDown};

use crate::dec6::{DEC_LIMIT, Dec6};
use crate::sizes::{
    floor_size, floor_size_wide, half_size, half_size_wide, rest_size, rest_size_wide,
    signs_differ, signs_differ_wide,
};
use crate::value::Value;

/// The arithmetic operators, as R writes them: `+`, `-`, `*`, `/`, `%/%` and `%%`.
#[derive(Debug, Clone, Copy, PartialEq, Eq)]
pub enum NumOp {
    Add,
    Sub,
    Mul,
    Div,
    FloorDiv,
    Mod,
}

const MILLION: i64 = 1_000_000;

/// The whole number, and a missing value where there is none.
fn int_or_missing(number: Option<i64>) -> Value
    ensures { result ≡ option_map_or (λ z. Value.Int z) number Value.Missing }
{
    match number {
        Some(whole) => Value::Int(whole),
        None => Value::Missing,
    }
}

/// The whole number of this size and sign, and a missing value out of range.
fn int_of_size(negative: bool, size: u64) -> Value
    ensures { result ≡ as_int (with_sign negative size) }
{
    if negative {
        int_or_missing(0i64.checked_sub_unsigned(size))
    } else {
        int_or_missing(0i64.checked_add_unsigned(size))
    }
}

/// The decimal of so many millionths, and a missing value out of range.
fn dec_or_missing(millionths: i64) -> Value
    ensures { result ≡ as_dec millionths }
{
    match Dec6::of(millionths) {
        Some(number) => Value::Dec(number),
        None => Value::Missing,
    }
}

/// The same of a number of 128 bits.
fn dec_of_wide(millionths: i128) -> Value
    ensures { result ≡ as_dec millionths }
{
    match i64::try_from(millionths) {
        Ok(number) => dec_or_missing(number),
        Err(_) => Value::Missing,
    }
}

/// The same of a number by its sign and size.
fn dec_of_size(negative: bool, size: u128) -> Value
    ensures { result ≡ as_dec (with_sign negative size) }
{
    match i64::try_from(size) {
        Ok(number) => dec_or_missing(if negative { -number } else { number }),
        Err(_) => Value::Missing,
    }
}

/// The number nearest to `a / b`, of so many millionths.
fn dec_half(a: i64, b: i64) -> Value
    requires { b ≢ pos 0 }
    ensures { result ≡ as_dec (half a b) }
{
    let size = half_size(a.unsigned_abs(), b.unsigned_abs());
    dec_of_size(signs_differ(a, b), u128::from(size))
}

/// The same at 128 bits.
fn dec_half_wide(a: i128, b: i128) -> Value
    requires { b ≢ pos 0 }
    ensures { result ≡ as_dec (half a b) }
{
    let size = half_size_wide(a.unsigned_abs(), b.unsigned_abs());
    dec_of_size(signs_differ_wide(a, b), size)
}

/// `a / b`, where a quotient of 1 is a million millionths.
fn dec_quotient(a: i64, b: i64) -> Value
    ensures { result ≡ unless_zero b (as_dec (half (a *ℤ million) b)) }
{
    if b == 0 {
        return Value::Missing;
    }
    match a.checked_mul(MILLION) {
        Some(scaled) => dec_half(scaled, b),
        None => dec_half_wide(i128::from(a) * i128::from(MILLION), i128::from(b)),
    }
}

/// `a / b` rounded down, as a whole number.
fn int_floor(a: i64, b: i64) -> Value
    ensures { result ≡ unless_zero b (as_int (floor_div a b)) }
{
    if b == 0 {
        return Value::Missing;
    }
    let differ = signs_differ(a, b);
    int_of_size(
        differ,
        floor_size(differ, a.unsigned_abs(), b.unsigned_abs()),
    )
}

/// What `a / b` rounded down leaves of `a`, as a whole number.
fn int_rest(a: i64, b: i64) -> Value
    ensures { result ≡ unless_zero b (as_int (floor_rest a b)) }
{
    if b == 0 {
        return Value::Missing;
    }
    let differ = signs_differ(a, b);
    int_of_size(b < 0, rest_size(differ, a.unsigned_abs(), b.unsigned_abs()))
}

/// The operators on two whole numbers.
fn int_num(op: NumOp, x: i64, y: i64) -> Value
    ensures { result ≡ on_ints op x y }
{
    match op {
        NumOp::Add => int_or_missing(x.checked_add(y)),
        NumOp::Sub => int_or_missing(x.checked_sub(y)),
        NumOp::Mul => int_or_missing(x.checked_mul(y)),
        NumOp::Div => dec_quotient(x, y),
        NumOp::FloorDiv => int_floor(x, y),
        NumOp::Mod => int_rest(x, y),
    }
}

/// `a / b` rounded down, both in millionths, as a decimal.
fn dec_floor(a: i64, b: i64) -> Value
    ensures { result ≡ unless_zero b (as_dec (floor_div a b *ℤ million)) }
{
    if b == 0 {
        return Value::Missing;
    }
    let differ = signs_differ(a, b);
    let size = floor_size(differ, a.unsigned_abs(), b.unsigned_abs());
    dec_of_size(differ, u128::from(size) * 1_000_000)
}

/// What that quotient leaves of `a`, as a decimal.
fn dec_rest(a: i64, b: i64) -> Value
    ensures { result ≡ unless_zero b (as_dec (floor_rest a b)) }
{
    if b == 0 {
        return Value::Missing;
    }
    let differ = signs_differ(a, b);
    let size = rest_size(differ, a.unsigned_abs(), b.unsigned_abs());
    dec_of_size(b < 0, u128::from(size))
}

/// The product of two numbers in millionths.
fn dec_product(x: i64, y: i64) -> Value
    ensures { result ≡ as_dec (half (x *ℤ y) million) }
{
    match x.checked_mul(y) {
        Some(product) => dec_half(product, MILLION),
        None => dec_half_wide(i128::from(x) * i128::from(y), i128::from(MILLION)),
    }
}

/// The operators on two decimals.
fn dec_num(op: NumOp, x: Dec6, y: Dec6) -> Value
    ensures { result ≡ on_decs op x y }
{
    let (a, b) = (x.millionths(), y.millionths());
    match op {
        NumOp::Add => dec_or_missing(a + b),
        NumOp::Sub => dec_or_missing(a - b),
        NumOp::Mul => dec_product(a, b),
        NumOp::Div => dec_quotient(a, b),
        NumOp::FloorDiv => dec_floor(a, b),
        NumOp::Mod => dec_rest(a, b),
    }
}

/// `a / b` rounded down, both in millionths of 128 bits, as a decimal.
fn wide_floor(a: i128, b: i128) -> Value
    requires { unsigned_abs a ≤ 2 ^ 84 }
    ensures { result ≡ unless_zero b (as_dec (floor_div a b *ℤ million)) }
{
    if b == 0 {
        return Value::Missing;
    }
    let differ = signs_differ_wide(a, b);
    let size = floor_size_wide(differ, a.unsigned_abs(), b.unsigned_abs());
    dec_of_size(differ, size * 1_000_000)
}

/// What that quotient leaves of `a`, as a decimal.
fn wide_rest(a: i128, b: i128) -> Value
    ensures { result ≡ unless_zero b (as_dec (floor_rest a b)) }
{
    if b == 0 {
        return Value::Missing;
    }
    let differ = signs_differ_wide(a, b);
    dec_of_size(
        b < 0,
        rest_size_wide(differ, a.unsigned_abs(), b.unsigned_abs()),
    )
}

/// `a / b`, both in millionths of 128 bits.
fn wide_quotient(a: i128, b: i128) -> Value
    requires { unsigned_abs a ≤ 2 ^ 84 }
    ensures { result ≡ unless_zero b (as_dec (half (a *ℤ million) b)) }
{
    if b == 0 {
        return Value::Missing;
    }
    dec_half_wide(a * i128::from(MILLION), b)
}

/// The operators but `*` on two numbers in millionths, of which one is a whole number that may be large.
fn wide_num(op: NumOp, a: i128, b: i128) -> Value
    requires sum_wanted { IsNoProduct op }
    requires left { unsigned_abs a ≤ 2 ^ 84 }
    requires right { unsigned_abs b ≤ 2 ^ 84 }
    ensures { result ≡ on_decs op a b }
{
    match op {
        NumOp::Add => dec_of_wide(a + b),
        NumOp::Sub => dec_of_wide(a - b),
        NumOp::Mul => unreachable!(),
        NumOp::Div => wide_quotient(a, b),
        NumOp::FloorDiv => wide_floor(a, b),
        NumOp::Mod => wide_rest(a, b),
    }
}

/// The product of a whole number and a number in millionths. One of more than 64 bits is out of range.
fn whole_product(x: i64, y: i64) -> Value
    ensures { result ≡ as_dec (x *ℤ y) }
{
    match x.checked_mul(y) {
        Some(product) => dec_or_missing(product),
        None => Value::Missing,
    }
}

/// A whole number and a decimal.
fn int_dec_num(op: NumOp, x: i64, y: Dec6) -> Value
    ensures { result ≡ on_decs op (x *ℤ million) y }
{
    match op {
        NumOp::Mul => whole_product(x, y.millionths()),
        _ => wide_num(
            op,
            i128::from(x) * i128::from(MILLION),
            i128::from(y.millionths()),
        ),
    }
}

/// A decimal and a whole number.
fn dec_int_num(op: NumOp, x: Dec6, y: i64) -> Value
    ensures { result ≡ on_decs op x (y *ℤ million) }
{
    match op {
        NumOp::Mul => whole_product(x.millionths(), y),
        _ => wide_num(
            op,
            i128::from(x.millionths()),
            i128::from(y) * i128::from(MILLION),
        ),
    }
}

/// The value of an arithmetic operator on two numbers, exact, for a decimal rounded to millionths half away from zero,
/// and missing where it leaves its range, where the divisor is 0 and where a side is missing.
/// Two whole numbers give a whole number, but for `/`; with a decimal the result is one.
/// `%/%` rounds down, and `%%` is what it leaves, as in R.
pub fn num(op: NumOp, a: &Value, b: &Value) -> Value
    requires left { IsNumberOrMissing a.now }
    requires right { IsNumberOrMissing b.now }
    ensures { result ≡ num_value op a.now b.now }
{
    match (a, b) {
        (Value::Int(x), Value::Int(y)) => int_num(op, *x, *y),
        (Value::Int(x), Value::Dec(y)) => int_dec_num(op, *x, *y),
        (Value::Dec(x), Value::Int(y)) => dec_int_num(op, *x, *y),
        (Value::Dec(x), Value::Dec(y)) => dec_num(op, *x, *y),
        _ => Value::Missing,
    }
}

/// The laws of the two roundings: `half` gives a nearest whole number, of two equally near ones the one farther from zero,
/// and `floor_div` is rounded down.
pub fn rounding_laws()
    ensures nearest { HalfIsNearest }
    ensures down { FloorIsRoundedDown }
{}

//! The values of fields.
ghost use Rattle.std.specs.Prelude.{◌≡◌, ◌^◌, ◌+◌, ◌<◌, neg_ℤ, pos, IsUtf8, IfOk, IfSome};
ghost use Rattle.std.specs.Option.{option_and_then, option_map};
ghost use Rattle.csv_source.specs.Fields.{below, digits_of_text, int_of_text, is_chr, is_missing_text, truth_of_text, value_of_field, value_of_text};

use scalar_fns::read_day;
use scalar_value::{ColType, Dec6, Mem, Text, Value};
use std::alloc::Global;
use std::str;

/// The text of a field.
pub fn text_of(field: &[u8]) -> &str
    requires { IsUtf8 field.now }
    ensures { result.now ≡ field.now }
{
    match str::from_utf8(field) {
        Ok(text) => text,
        Err(_) => unreachable!(),
    }
}

/// The number that digits write, where it is below the limit.
#[tactic(auto, unfolding(crate::specs::Fields::digits_of_text))]
fn number_below(digits: &[u8], limit: u64) -> Option<u64>
    requires { 0 < limit }
    ensures value { result ≡ option_and_then (below limit) (digits_of_text digits.now) }
    ensures small { IfSome result (λ n. n < limit) }
{
    let mut number = 0u128;
    for digit in digits {
        if !digit.is_ascii_digit() {
            return None;
        }
        number = number * 10 + u128::from(*digit - b'0');
        if number >= u128::from(limit) {
            return None;
        }
    }
    if digits.is_empty() {
        None
    } else {
        Some(number as u64)
    }
}

fn positive_of(digits: &[u8]) -> Option<i64>
    ensures { result ≡ option_map (λ n. pos n) (option_and_then (below (2 ^ 63)) (digits_of_text digits.now)) }
{
    match number_below(digits, 1 << 63) {
        Some(number) => Some(number as i64),
        None => None,
    }
}

fn negative_of(digits: &[u8]) -> Option<i64>
    ensures { result ≡ option_map (λ n. neg_ℤ (pos n)) (option_and_then (below (2 ^ 63 + 1)) (digits_of_text digits.now)) }
{
    match number_below(digits, (1 << 63) + 1) {
        Some(number) => Some(-i128::from(number) as i64),
        None => None,
    }
}

/// The whole number of 64 bits that a text writes by digits, or `-` and digits.
fn int_of(text: &[u8]) -> Option<i64>
    ensures { result ≡ int_of_text text.now }
{
    if text.starts_with(b"-") {
        negative_of(&text[1..])
    } else {
        positive_of(text)
    }
}

/// The truth value that a text names.
#[tactic(auto, unfolding(crate::specs::Fields::truth_of_text))]
fn truth_of(text: &[u8]) -> Option<bool>
    ensures { result ≡ truth_of_text text.now }
{
    if text == b"TRUE".as_slice() || text == b"true".as_slice() {
        return Some(true);
    }
    if text == b"FALSE".as_slice() || text == b"false".as_slice() {
        return Some(false);
    }
    None
}

/// Whether a field is missing in a column of this type.
#[tactic(auto, unfolding(crate::specs::Fields::is_missing_text))]
fn is_missing(kind: ColType, field: &[u8]) -> bool
    ensures { result ≡ is_missing_text kind field.now }
{
    if field.is_empty() {
        kind != ColType::Chr
    } else {
        field == b"NA".as_slice()
    }
}

/// The value that a text writes in a column of this type.
#[tactic(auto, unfolding(crate::specs::Fields::value_of_text))]
fn value_of(alloc: Global, kind: ColType, text: &[u8]) -> Mem<Option<Value>>
    requires { IsUtf8 text.now }
    ensures { IfOk result (λ v. v ≡ value_of_text kind text.now) }
{
    match kind {
        ColType::Int => Ok(int_of(text).map(Value::Int)),
        ColType::Dec => Ok(Dec6::parse(text_of(text)).map(Value::Dec)),
        ColType::Chr => Ok(Some(Value::Chr(Text::of(alloc, text_of(text))?))),
        ColType::Date => Ok(read_day(text_of(text)).map(Value::Day)),
        ColType::Lgl => Ok(truth_of(text).map(Value::Lgl)),
    }
}

/// The value of a field in a column of this type, a missing one among them; none where the field writes no value.
#[tactic(auto, unfolding(crate::specs::Fields::value_of_field))]
pub fn read_value(alloc: Global, kind: ColType, field: &[u8]) -> Mem<Option<Value>>
    requires { IsUtf8 field.now }
    ensures { IfOk result (λ v. v ≡ value_of_field kind field.now) }
{
    if is_missing(kind, field) {
        return Ok(Some(Value::Missing));
    }
    value_of(alloc, kind, field)
}

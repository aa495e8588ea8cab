ghost use Rattle.std.specs.Prelude.{◌/◌, ◌==◌, ◌≡◌, ◌≤◌, ◌<◌, ◌+◌, ◌^◌, ◌++◌, ◌∷◌, [], length, codes, decimal, unsigned_abs, nat_lt, OnOk, OnErr, IfOk, true, pos, string_bytes};
ghost use Rattle.scalar_fns.specs.Written.{two_places, six_places, without_end_zeros, part_text, dec_text as text_of_dec, day_text as text_of_day, written, is_value, minus_text};
ghost use Rattle.std.specs.List.{suffix_len, list_all};
ghost use Rattle.scalar_value.specs.Order.{is_day};
ghost use Rattle.scalar_fns.specs.Days.{year_of, month_of, month_day_of};

use crate::day::{day_of, month, year};
use itoa::Buffer;
use scalar_value::{Dec6, Mem, Text, Value};
use std::alloc::Global;

/// Appends ASCII bytes.
fn push_ascii(out: &mut String, bytes: &[u8]) -> Mem<()>
    requires { list_all (λ byte. nat_lt byte 128) bytes.now ≡ true }
    ensures { OnOk result (string_bytes out.new ≡ string_bytes out.old ++ bytes.now) }
{
    for byte in bytes {
        out.push(char::from(*byte))?;
    }
    Ok(())
}

/// Appends two digits of a number.
fn push_two(out: &mut String, n: u64) -> Mem<()>
    ensures { OnOk result (string_bytes out.new ≡ string_bytes out.old ++ two_places n) }
{
    out.push(char::from(b'0' + (n / 10 % 10) as u8))?;
    out.push(char::from(b'0' + (n % 10) as u8))?;
    Ok(())
}

/// The last two digits of a number.
fn two_digits(n: u64) -> [u8; 2]
    ensures { result ≡ two_places n }
{
    [b'0' + (n / 10 % 10) as u8, b'0' + (n % 10) as u8]
}

/// The number of zeros at the end.
fn end_zeros(digits: &[u8]) -> usize
    ensures value { result ≡ suffix_len (λ byte. byte == 48) digits.now }
    ensures within { result ≤ length digits.now }
{
    digits
        .iter()
        .rev()
        .take_while(|byte| **byte == b'0')
        .count()
}

/// The digits without the zeros at their end.
fn trimmed(digits: &[u8]) -> &[u8]
    ensures { result.now ≡ without_end_zeros digits.now }
{
    &digits[..digits.len() - end_zeros(digits)]
}

/// Six digits of a number.
fn six_digits(n: u64) -> [u8; 6]
    ensures { result ≡ six_places n }
{
    let ([a, b], [c, d], [e, f]) = (two_digits(n / 10_000), two_digits(n / 100), two_digits(n));
    [a, b, c, d, e, f]
}

#[tactic(auto, unfolding(crate::specs::Written::part_text))]
/// Appends what millionths are left over: a point and their digits, and nothing of 0.
fn push_part(out: &mut String, rest: u64) -> Mem<()>
    ensures { OnOk result (string_bytes out.new ≡ string_bytes out.old ++ part_text rest) }
{
    if rest != 0 {
        out.push('.')?;
        push_ascii(out, trimmed(&six_digits(rest)))?;
    }
    Ok(())
}

/// `-` for a negative number.
fn minus(millionths: i64) -> &'static str
    ensures { result.now ≡ minus_text millionths }
{
    if millionths < 0 { "-" } else { "" }
}

#[tactic(auto, unfolding(crate::specs::Written::dec_text))]
/// The text of a decimal.
fn dec_text(alloc: Global, number: Dec6) -> Mem<String>
    ensures { IfOk result (λ t. string_bytes t ≡ text_of_dec number) }
{
    let millionths = number.millionths();
    let size = millionths.unsigned_abs();
    let mut text = String::from_str(alloc, minus(millionths))?;
    text.push_str(Buffer::new().format(size / 1_000_000))?;
    push_part(&mut text, size % 1_000_000)?;
    Ok(text)
}

/// Appends the year of a day in four digits.
fn push_year(out: &mut String, day: i32) -> Mem<()>
    requires { is_day day ≡ true }
    ensures { OnOk result (string_bytes out.new ≡ string_bytes out.old ++ two_places (year_of day / 100) ++ two_places (year_of day)) }
{
    let year = year(day) as u64;
    push_two(out, year / 100)?;
    push_two(out, year)
}

#[tactic(auto, unfolding(crate::specs::Written::day_text))]
/// The text of a day.
fn day_text(alloc: Global, day: i32) -> Mem<String>
    requires { is_day day ≡ true }
    ensures { IfOk result (λ t. string_bytes t ≡ text_of_day day) }
{
    let mut text = String::new(alloc);
    push_year(&mut text, day)?;
    text.push('-')?;
    push_two(&mut text, month(day) as u64)?;
    text.push('-')?;
    push_two(&mut text, day_of(day) as u64)?;
    Ok(text)
}

/// Appends the text of a value: a number in digits, a decimal without zeros at its end, a text as it is,
/// a day as `YYYY-MM-DD`, `TRUE` and `FALSE`, and `NA`. After a refusal the text is as before.
pub fn write_value(v: &Value, out: &mut Text) -> Mem<()>
    requires { is_value v.now ≡ true }
    ensures appended { OnOk result (out.new ≡ out.old ++ written v.now) }
    ensures refused { OnErr result (out.new ≡ out.old) }
{
    match v {
        Value::Missing => out.push_str("NA"),
        Value::Int(number) => out.push_str(Buffer::new().format(*number)),
        Value::Dec(number) => out.push_str(dec_text(out.alloc(), *number)?.as_str()),
        Value::Chr(text) => out.push_str(text.as_str()),
        Value::Day(day) => out.push_str(day_text(out.alloc(), *day)?.as_str()),
        Value::Lgl(true) => out.push_str("TRUE"),
        Value::Lgl(false) => out.push_str("FALSE"),
    }
}

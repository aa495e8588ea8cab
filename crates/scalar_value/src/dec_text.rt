//! Reading the texts of decimals.
ghost use Rattle.std.specs.Prelude.{◌+◌, ◌&&◌, nat_le, option_and_then, ◌≡◌, ◌≤◌, ◌<◌, ◌^◌, ◌*◌, length, true, IfSome, nat_lt, Option, Some, None, if◌then◌else◌};
ghost use Rattle.std.specs.Char.{is_ascii_digit};
ghost use Rattle.std.specs.List.{list_all};
ghost use Rattle.scalar_value.specs.Decimals.{is_digits as are_digits, value_of, part_value as value_of_part, within_limit, parted_size as size_of_parts, dec_size};

const WHOLE_LIMIT: u64 = 1_000_000_000_000;

/// Whether each byte is a digit.
fn has_digits_only(text: &str) -> bool
    ensures { result ≡ list_all is_ascii_digit text.now }
{
    text.as_bytes().iter().all(|byte| byte.is_ascii_digit())
}

/// Whether the text has one digit or more, and nothing else.
fn is_digits(text: &str) -> bool
    ensures { result ≡ are_digits text.now }
{
    text.len() > 0 && has_digits_only(text)
}

/// The number that digits stand for, and none from the limit on.
fn value_below(digits: &str, limit: u64) -> Option<u64>
    requires { are_digits digits.now ≡ true }
    ensures { result ≡ (if nat_lt (value_of digits.now) limit then Some (value_of digits.now) else None) }
{
    match digits.parse::<u64>() {
        Ok(number) if number < limit => Some(number),
        _ => None,
    }
}

/// The millionths that one to six digits behind a point stand for.
fn part_value(part: &str) -> Option<u64>
    ensures value { result ≡ (if are_digits part.now && nat_le (length part.now) 6 then Some (value_of_part part.now) else None) }
    ensures small { IfSome result (λ n. n < 1000000) }
{
    let places = part.len();
    if places > 6 || !is_digits(part) {
        return None;
    }
    match value_below(part, 1_000_000) {
        Some(number) => Some(number * 10u64.pow(6 - places as u32)),
        None => None,
    }
}

/// The millionths of digits, a point and one to six digits.
fn parted_size(whole: &str, part: &str) -> Option<u64>
    ensures value { result ≡ option_and_then within_limit (size_of_parts whole.now part.now) }
    ensures small { IfSome result (λ n. n < 10 ^ 18) }
{
    if !is_digits(whole) {
        return None;
    }
    match (value_below(whole, WHOLE_LIMIT), part_value(part)) {
        (Some(above), Some(below)) => Some(above * 1_000_000 + below),
        _ => None,
    }
}

/// The size in millionths of a text without sign, and none where it is no decimal's.
pub fn text_size(text: &str) -> Option<u64>
    ensures value { result ≡ dec_size text.now }
    ensures small { IfSome result (λ n. n < 10 ^ 18) }
{
    if is_digits(text) {
        return match value_below(text, WHOLE_LIMIT) {
            Some(whole) => Some(whole * 1_000_000),
            None => None,
        };
    }
    match text.split_once('.') {
        Some((whole, part)) => parted_size(whole, part),
        None => None,
    }
}

ghost use Rattle.std.specs.Prelude.{◌≡◌, ◌<◌, ◌≤◌, ◌^◌, ◌==◌, if◌then◌else◌, length};
ghost use Rattle.std.specs.Str.Parse.{AllDigits, digits_value_after};
ghost use Rattle.token_scan.specs.Numbers.{below, millionths, whole_of, decimal_of};
ghost use Rattle.token_scan.specs.Pieces.{number_of, number_piece};

use crate::alphabet::{byte_at, digits_from, is_name_byte};
use crate::piece::Piece;
use crate::token::{ScanKind, TokenKind};
use scalar_value::Dec6;

const ZEROS: [u8; 6] = *b"000000";

const WHOLE_LIMIT: u64 = 1 << 63;

const MILLIONTHS_LIMIT: u64 = 1_000_000_000_000_000_000;

// The number that these digits write behind those of `start`, where it is below the limit.
fn value_below(start: u64, digits: &[u8], limit: u64) -> Option<u64>
    requires starts { start < limit }
    requires fits { limit ≤ 2 ^ 63 }
    requires digits { AllDigits 10 digits.now }
    ensures { result ≡ below limit (digits_value_after 10 start digits.now) }
{
    let mut value = u128::from(start);
    for digit in digits {
        value = value * 10 + u128::from(*digit - b'0');
        if value >= u128::from(limit) {
            return None;
        }
    }
    Some(value as u64)
}

fn whole_of(digits: &[u8]) -> Option<TokenKind>
    requires { AllDigits 10 digits.now }
    ensures { result ≡ whole_of digits.now }
{
    match value_below(0, digits, WHOLE_LIMIT) {
        Some(value) => Some(TokenKind::Whole(value as i64)),
        None => None,
    }
}

// All digits in a row, with zeros up to six places behind the point.
fn millionths_of(whole: &[u8], fraction: &[u8]) -> Option<u64>
    requires places { length fraction.now ≤ 6 }
    requires whole { AllDigits 10 whole.now }
    requires fraction { AllDigits 10 fraction.now }
    ensures { result ≡ below (10 ^ 18) (millionths whole.now fraction.now) }
{
    let Some(ones) = value_below(0, whole, MILLIONTHS_LIMIT) else {
        return None;
    };
    let Some(parts) = value_below(ones, fraction, MILLIONTHS_LIMIT) else {
        return None;
    };
    value_below(parts, &ZEROS[fraction.len()..], MILLIONTHS_LIMIT)
}

fn decimal_of(whole: &[u8], fraction: &[u8]) -> Option<TokenKind>
    requires whole { AllDigits 10 whole.now }
    requires fraction { AllDigits 10 fraction.now }
    ensures { result ≡ decimal_of whole.now fraction.now }
{
    if fraction.len() > 6 {
        return None;
    }
    let Some(millionths) = millionths_of(whole, fraction) else {
        return None;
    };
    match Dec6::of(millionths as i64) {
        Some(number) => Some(TokenKind::Decimal(number)),
        None => None,
    }
}

fn number_of(number: Option<TokenKind>, len: usize, bytes: &[u8]) -> Piece
    ensures { result ≡ number_of number len bytes.now }
{
    let Some(kind) = number else {
        return Piece::Wrong(ScanKind::NumberRange, 0);
    };
    if is_name_byte(byte_at(bytes, len)) {
        Piece::Wrong(ScanKind::BadChar, len)
    } else {
        Piece::Made(kind, len)
    }
}

// An `L` behind a whole number's digits belongs to it.
fn suffix_len(byte: u8) -> usize
    ensures { result ≡ (if byte == 76 then 1 else 0) }
{
    if byte == b'L' { 1 } else { 0 }
}

#[tactic(auto, unfolding(crate::specs::Pieces::number_piece))]
pub fn number_piece(bytes: &[u8]) -> Piece
    requires { length bytes.now ≤ 2 ^ 20 }
    ensures { result ≡ number_piece bytes.now }
{
    let whole = digits_from(bytes, 0);
    if byte_at(bytes, whole) == b'.' {
        let fraction = digits_from(bytes, whole + 1);
        let end = whole + 1 + fraction;
        number_of(
            decimal_of(&bytes[..whole], &bytes[whole + 1..end]),
            end,
            bytes,
        )
    } else {
        let end = whole + suffix_len(byte_at(bytes, whole));
        number_of(whole_of(&bytes[..whole]), end, bytes)
    }
}

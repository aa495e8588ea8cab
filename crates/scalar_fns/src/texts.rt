ghost use Rattle.std.specs.Prelude.{◌≡◌, ◌≤◌, map, IfOk, length};
ghost use Rattle.std.specs.Char.{to_ascii_uppercase, to_ascii_lowercase};
ghost use Rattle.std.specs.Str.{IsCharBoundary};
ghost use Rattle.scalar_fns.specs.Texts.{begins_char as starts, char_count, first_chars, part_of_text, place_from, place_to};

use scalar_value::{Mem, Text};
use std::alloc::Global;

/// Whether a code point begins with this byte of a text.
fn begins_char(byte: u8) -> bool
    ensures { result ≡ starts byte }
{
    byte < 128 || byte > 191
}

/// The number of code points, as R's `nchar`.
pub fn chars(s: &str) -> u64
    ensures { result ≡ char_count s.now }
{
    s.as_bytes()
        .iter()
        .filter(|byte| begins_char(**byte))
        .count() as u64
}

/// The length in bytes of the first `n` code points.
fn first_len(s: &str, n: u64) -> usize
    ensures value { result ≡ length (first_chars n s.now) }
    ensures boundary { IsCharBoundary s.now result }
{
    let mut left = n;
    for (at, byte) in s.as_bytes().iter().enumerate() {
        if begins_char(*byte) {
            if left == 0 {
                return at;
            }
            left -= 1;
        }
    }
    s.len()
}

/// The text with its ASCII letters in upper case.
pub fn upper(alloc: Global, s: &str) -> Mem<Text>
    ensures { IfOk result (λ t. t ≡ map to_ascii_uppercase s.now) }
{
    Ok(Text::of_string(s.to_ascii_uppercase(alloc)?))
}

/// The text with its ASCII letters in lower case.
pub fn lower(alloc: Global, s: &str) -> Mem<Text>
    ensures { IfOk result (λ t. t ≡ map to_ascii_lowercase s.now) }
{
    Ok(Text::of_string(s.to_ascii_lowercase(alloc)?))
}

/// A place from which code points are taken, from 1.
fn first_place(from: i64) -> u64
    ensures value { result ≡ place_from from }
    ensures positive { 1 ≤ result }
{
    if from < 1 { 1 } else { from as u64 }
}

/// A place up to which code points are taken.
fn last_place(to: i64) -> u64
    ensures { result ≡ place_to to }
{
    if to < 0 { 0 } else { to as u64 }
}

/// The code points from place `max(from, 1)` to place `to`, counted from 1, as far as they are there, as R's `substr`.
pub fn substr(s: &str, from: i64, to: i64) -> &str
    ensures { result.now ≡ part_of_text s.now from to }
{
    let (first, last) = (first_place(from), last_place(to));
    let (_, rest) = s.split_at(first_len(s, first - 1));
    let (part, _) = rest.split_at(first_len(rest, (last + 1).saturating_sub(first)));
    part
}

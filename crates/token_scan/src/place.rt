ghost use Rattle.std.specs.Prelude.{◌≡◌, ◌+◌, ◌≤◌, ◌^◌, length, count_by, not};
ghost use Rattle.std.specs.List.{after_last, suffix_len};
ghost use Rattle.std.specs.Str.{IsCharBoundary, chars};
ghost use Rattle.token_scan.specs.Places.{is_line_feed, unmarked, place_at};

use crate::scanner::mark_len;
use crate::token::Place;

fn line_feeds(text: &str) -> usize
    ensures value { result ≡ count_by is_line_feed text.now }
    ensures within { result ≤ length text.now }
{
    text.as_bytes().iter().filter(|b| **b == b'\n').count()
}

fn unmarked(text: &str) -> &str
    ensures { result.now ≡ unmarked text.now }
{
    let (_, rest) = text.split_at(mark_len(text.as_bytes()));
    rest
}

// How many bytes stand behind the last line feed.
fn len_in_line(bytes: &[u8]) -> usize
    ensures value { result ≡ suffix_len (λ b. not (is_line_feed b)) bytes.now }
    ensures within { result ≤ length bytes.now }
{
    bytes.iter().rev().take_while(|b| **b != b'\n').count()
}

fn last_line(text: &str) -> &str
    ensures value { result.now ≡ after_last is_line_feed text.now }
    ensures within { length result.now ≤ length text.now }
{
    let (_, line) = text.split_at(text.len() - len_in_line(text.as_bytes()));
    line
}

fn code_points(text: &str) -> usize
    ensures value { result ≡ length (chars text.now) }
    ensures within { result ≤ length text.now }
{
    text.chars().count()
}

/// The line and the column of a byte place of a script, which is the start of a character or the script's end.
///
/// The line is one more than the number of line feeds before the place, and the column one more than the number
/// of code points between the line's start and the place. A UTF-8 mark at the script's start is not counted.
#[tactic(auto, unfolding(crate::specs::Places::place_at))]
pub fn place_of(script: &str, at: u32) -> Place
    requires size { length script.now ≤ 2 ^ 20 }
    requires boundary { IsCharBoundary script.now at }
    ensures { result ≡ place_at script.now at }
{
    let (front, _) = script.split_at(at as usize);
    let lines = line_feeds(front);
    let columns = code_points(last_line(unmarked(front)));
    Place {
        line: 1 + lines as u32,
        column: 1 + columns as u32,
    }
}

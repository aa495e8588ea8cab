ghost use Rattle.std.specs.Prelude.{◌≡◌, ◌≤◌, ◌<◌, ◌+◌, ◌==◌, ◌||◌, not, drop, length, slice_index, IfOk, IsTrue, ◌∷◌, []};
ghost use Rattle.std.specs.List.{prefix_len};
ghost use Rattle.std.specs.Option.{option_map};
ghost use Rattle.token_scan.specs.Alphabet.{is_quote};
ghost use Rattle.token_scan.specs.Texts.{is_plain, escaped};
ghost use Rattle.token_scan.specs.Pieces.{text_piece};

use crate::alphabet::byte_at;
use crate::piece::Piece;
use crate::token::{ScanKind, TokenKind};
use scalar_value::{Mem, Text};
use std::alloc::Global;

// The number of bytes from this place on that are neither this quote nor a backslash.
fn plain_len(quote: u8, bytes: &[u8], from: usize) -> usize
    requires { from ≤ length bytes.now }
    ensures value { result ≡ prefix_len (is_plain quote) (drop from bytes.now) }
    ensures within { from + result ≤ length bytes.now }
{
    let (_, rest) = bytes.split_at(from);
    rest.iter()
        .take_while(|b| !(**b == quote || **b == b'\\'))
        .count()
}

// The character that a backslash and this byte stand for.
fn escaped(byte: u8) -> Option<&'static str>
    ensures { option_map (λ text. text.now) result ≡ option_map (λ b. b ∷ []) (escaped byte) }
{
    match byte {
        b'\\' => Some("\\"),
        b'"' => Some("\""),
        b'\'' => Some("'"),
        b'n' => Some("\n"),
        b't' => Some("\t"),
        b'r' => Some("\r"),
        _ => None,
    }
}

#[tactic(auto, unfolding(crate::specs::Pieces::text_piece))]
pub fn text_piece(alloc: Global, rest: &str) -> Mem<Piece>
    requires { IsTrue (is_quote (slice_index rest.now 0)) }
    ensures { IfOk result (λ piece. piece ≡ text_piece rest.now) }
{
    let bytes = rest.as_bytes();
    let quote = byte_at(bytes, 0);
    let mut text = Text::empty(alloc);
    let mut at = 1;
    while at < bytes.len() {
        let end = at + plain_len(quote, bytes, at);
        text.push_str(&rest[at..end])?;
        let byte = byte_at(bytes, end);
        if byte == quote {
            return Ok(Piece::Made(TokenKind::Str(text), end + 1));
        }
        if bytes.len() - end < 2 {
            return Ok(Piece::Wrong(ScanKind::OpenText, 0));
        }
        let Some(character) = escaped(byte_at(bytes, end + 1)) else {
            return Ok(Piece::Wrong(ScanKind::BadChar, end));
        };
        text.push_str(character)?;
        at = end + 2;
    }
    Ok(Piece::Wrong(ScanKind::OpenText, 0))
}

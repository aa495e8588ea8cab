ghost use Rattle.std.specs.Prelude.{◌≡◌, ◌<◌, length, slice_index, IfOk};
ghost use Rattle.token_scan.specs.Spelling.{reserved_word};
ghost use Rattle.token_scan.specs.Pieces.{word_or_name, name_piece, quoted_name};

use crate::alphabet::{byte_at, name_len, quotable_len};
use crate::piece::Piece;
use crate::spelling::reserved_word;
use crate::token::{ScanKind, TokenKind};
use scalar_value::{Mem, Text};
use std::alloc::Global;

fn word_or_name(alloc: Global, name: &str) -> Mem<TokenKind>
    ensures { IfOk result (λ kind. kind ≡ word_or_name (reserved_word name.now) name.now) }
{
    match reserved_word(name) {
        Some(word) => Ok(TokenKind::Word(word)),
        None => Ok(TokenKind::Name(Text::of(alloc, name)?)),
    }
}

#[tactic(auto, unfolding(crate::specs::Pieces::name_piece))]
pub fn name_piece(alloc: Global, rest: &str) -> Mem<Piece>
    ensures { IfOk result (λ piece. piece ≡ name_piece rest.now) }
{
    let len = name_len(rest.as_bytes());
    let (name, _) = rest.split_at(len);
    Ok(Piece::Made(word_or_name(alloc, name)?, len))
}

#[tactic(auto, unfolding(crate::specs::Pieces::quoted_name))]
pub fn quoted_name(alloc: Global, rest: &str) -> Mem<Piece>
    requires { slice_index rest.now 0 ≡ 96 }
    ensures { IfOk result (λ piece. piece ≡ quoted_name rest.now) }
{
    let (_, inside) = rest.split_at(1);
    let len = quotable_len(inside.as_bytes());
    if byte_at(inside.as_bytes(), len) != b'`' {
        return Ok(Piece::Wrong(ScanKind::OpenText, 0));
    }
    if len == 0 {
        return Ok(Piece::Wrong(ScanKind::BadChar, 0));
    }
    let (name, _) = inside.split_at(len);
    Ok(Piece::Made(TokenKind::Name(Text::of(alloc, name)?), len + 2))
}

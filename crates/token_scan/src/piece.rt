ghost use Rattle.std.specs.Prelude.{◌≡◌, ◌≤◌, ◌^◌, length, IfOk};
ghost use Rattle.token_scan.specs.Pieces.{piece, oper_piece};

use crate::alphabet::{begins_name, begins_number, blank_len, byte_at, is_blank, line_len};
use crate::name::{name_piece, quoted_name};
use crate::number::number_piece;
use crate::spelling::oper_at;
use crate::text::text_piece;
use crate::token::{ScanKind, TokenKind};
use scalar_value::Mem;
use std::alloc::Global;

/// What the first bytes of a rest of a script are: so many that are passed over, a token on so many,
/// or a fault so many bytes on.
#[derive(Drop)]
pub enum Piece {
    Passed(usize),
    Made(TokenKind, usize),
    Wrong(ScanKind, usize),
}

#[tactic(auto, unfolding(crate::specs::Pieces::oper_piece))]
fn oper_piece(bytes: &[u8]) -> Piece
    ensures { result ≡ oper_piece bytes.now }
{
    match oper_at(bytes) {
        Some(oper) => Piece::Made(TokenKind::Op(oper), oper.spelling().len()),
        None => Piece::Wrong(ScanKind::BadChar, 0),
    }
}

// What a rest of a script begins with.
#[tactic(auto, unfolding(crate::specs::Pieces::piece))]
pub fn piece_at(alloc: Global, rest: &str) -> Mem<Piece>
    requires { length rest.now ≤ 2 ^ 20 }
    ensures { IfOk result (λ made. made ≡ piece rest.now) }
{
    let bytes = rest.as_bytes();
    let first = byte_at(bytes, 0);
    if begins_name(bytes) {
        name_piece(alloc, rest)
    } else if begins_number(bytes) {
        Ok(number_piece(bytes))
    } else if first == b'\n' {
        Ok(Piece::Made(TokenKind::Line, 1))
    } else if is_blank(first) {
        Ok(Piece::Passed(blank_len(bytes)))
    } else if first == b'#' {
        Ok(Piece::Passed(line_len(bytes)))
    } else if first == b'`' {
        quoted_name(alloc, rest)
    } else if first == b'"' || first == b'\'' {
        text_piece(alloc, rest)
    } else {
        Ok(oper_piece(bytes))
    }
}

ghost use Rattle.std.specs.Prelude.{◌≡◌, ◌+◌, ◌^◌, ◌<◌, false};
ghost use Rattle.scalar_value.specs.Gives.{Gives};
ghost use Rattle.token_scan.specs.Spans.{AreInOrder};
ghost use Rattle.verb_syntax.specs.Lines.{is_line, is_passed, deeper, goes_on};
ghost use Rattle.verb_syntax.specs.Operators.{ends_operand, is_counted, count_at};
ghost use Rattle.verb_syntax.specs.Reader.{limited, reads};
ghost use Rattle.verb_syntax.specs.Parsing.{IsParsed, DeriveOne};
ghost use Rattle.verb_syntax.specs.Parsed.{parsed, ParsedByGrammar};
ghost use Rattle.verb_syntax.specs.Counting.{CountsOperators};
ghost use Rattle.verb_syntax.specs.Opening.{OpenOne, OpensAll};

use crate::fault::{SyntaxFault, SyntaxKind};
use scalar_value::{Or, Res};
use std::alloc::Global;
use syntax_steps::{State, advanced, begun, ended, rule_of};
use syntax_tree::Script;
use token_scan::{Oper, Token, TokenKind};

/// How many levels may be open at a place of a script.
const MOST_LEVELS: usize = 128;

/// How many binary operators an argument of an outermost call may have.
const MOST_OPERATORS: usize = 1024;

/// What has been read of a script, with what is counted behind the last token: the open parentheses, whether the line
/// goes on, whether an operand ends there, and the binary operators of the argument.
#[derive(Drop)]
pub struct Reader {
    state: State,
    depth: usize,
    goes_on: bool,
    whole: bool,
    count: usize,
}

fn is_line_feed(kind: &TokenKind) -> bool
    ensures { result ≡ is_line kind.now }
{
    match kind {
        TokenKind::Line => true,
        TokenKind::Name(_)
        | TokenKind::Whole(_)
        | TokenKind::Decimal(_)
        | TokenKind::Str(_)
        | TokenKind::Word(_)
        | TokenKind::Op(_) => false,
    }
}

/// The open parentheses behind a token.
fn depth_behind(kind: &TokenKind, depth: usize) -> usize
    requires { depth + 1 < 2 ^ 64 }
    ensures { result ≡ deeper kind.now depth }
{
    match kind {
        TokenKind::Op(Oper::LeftParen) => depth + 1,
        TokenKind::Op(Oper::RightParen) => depth.saturating_sub(1),
        TokenKind::Op(_)
        | TokenKind::Name(_)
        | TokenKind::Whole(_)
        | TokenKind::Decimal(_)
        | TokenKind::Str(_)
        | TokenKind::Word(_)
        | TokenKind::Line => depth,
    }
}

/// Whether a line goes on behind this token.
fn line_goes_on(kind: &TokenKind) -> bool
    ensures { result ≡ goes_on kind.now }
{
    match kind {
        TokenKind::Op(Oper::BarPipe)
        | TokenKind::Op(Oper::PercentPipe)
        | TokenKind::Op(Oper::Assign) => true,
        TokenKind::Op(_)
        | TokenKind::Name(_)
        | TokenKind::Whole(_)
        | TokenKind::Decimal(_)
        | TokenKind::Str(_)
        | TokenKind::Word(_)
        | TokenKind::Line => false,
    }
}

/// Whether an operand ends with this token.
fn operand_ends(kind: &TokenKind) -> bool
    ensures { result ≡ ends_operand kind.now }
{
    match kind {
        TokenKind::Op(Oper::RightParen) => true,
        TokenKind::Op(_) | TokenKind::Line => false,
        TokenKind::Name(_)
        | TokenKind::Whole(_)
        | TokenKind::Decimal(_)
        | TokenKind::Str(_)
        | TokenKind::Word(_) => true,
    }
}

fn counts(op: Oper) -> bool
    ensures { result ≡ is_counted op }
{
    let rule = rule_of(op);
    1 <= rule && rule < 10
}

/// The binary operators of the argument, behind a token.
fn count_behind(kind: &TokenKind, depth: usize, whole: bool, count: usize) -> usize
    requires { count + 1 < 2 ^ 64 }
    ensures { result ≡ count_at kind.now depth whole count }
{
    match kind {
        TokenKind::Op(Oper::LeftParen) => {
            if depth == 0 {
                return 0;
            }
            count
        }
        TokenKind::Op(Oper::Comma) => {
            if depth == 1 {
                return 0;
            }
            count
        }
        TokenKind::Op(op) => {
            if whole && counts(*op) {
                return count + 1;
            }
            count
        }
        TokenKind::Name(_)
        | TokenKind::Whole(_)
        | TokenKind::Decimal(_)
        | TokenKind::Str(_)
        | TokenKind::Word(_)
        | TokenKind::Line => count,
    }
}

fn within(token: &Token, next: Reader) -> Res<Reader, SyntaxFault>
    ensures { Gives result (limited token.now next) }
{
    if MOST_LEVELS < next.state.frames.levels() || MOST_OPERATORS < next.count {
        return Err(Or::Fault(SyntaxFault {
            kind: SyntaxKind::TooDeep,
            at: token.from,
        }));
    }
    Ok(next)
}

/// One more token is read, or it is the first fault.
fn read(alloc: Global, token: &Token, reader: Reader) -> Res<Reader, SyntaxFault>
    requires deep { reader.depth + 1 < 2 ^ 64 }
    requires many { reader.count + 1 < 2 ^ 64 }
    ensures { Gives result (reads token.now reader) }
{
    let Reader {
        state,
        depth,
        goes_on,
        whole,
        count,
    } = reader;
    if is_line_feed(&token.kind) && (0 < depth || goes_on) {
        return Ok(Reader {
            state,
            depth,
            goes_on,
            whole,
            count,
        });
    }
    match advanced(alloc, token, state) {
        Ok(state) => within(
            token,
            Reader {
                state,
                depth: depth_behind(&token.kind, depth),
                goes_on: line_goes_on(&token.kind),
                whole: operand_ends(&token.kind),
                count: count_behind(&token.kind, depth, whole, count),
            },
        ),
        Err(Or::Fault(_)) => Err(Or::Fault(SyntaxFault {
            kind: SyntaxKind::Unexpected,
            at: token.from,
        })),
        Err(Or::Memory) => Err(Or::Memory),
    }
}

fn read_all(alloc: Global, tokens: &[Token], end: u32) -> Res<Script, SyntaxFault>
    ensures { Gives result (parsed tokens.now end) }
{
    let mut reader = Reader {
        state: begun(alloc)?,
        depth: 0,
        goes_on: false,
        whole: false,
        count: 0,
    };
    for token in tokens {
        reader = match read(alloc, token, reader) {
            Ok(next) => next,
            Err(why) => return Err(why),
        };
    }
    match ended(alloc, reader.state) {
        Ok(script) => Ok(script),
        Err(Or::Fault(_)) => Err(Or::Fault(SyntaxFault {
            kind: SyntaxKind::Unfinished,
            at: end,
        })),
        Err(Or::Memory) => Err(Or::Memory),
    }
}

/// The syntax tree of a script, or its first fault, from its tokens. `end` is the script's length in bytes.
///
/// The grammar is a small part of R's: assignments and one last pipeline of calls, whose arguments are expressions with
/// R's operators in R's precedences. A fault is `Unexpected` at a token with which no script goes on, `TooDeep` at one
/// that opens level 129 of nesting or is the 1,025th binary operator of an argument, and `Unfinished` at `end` where the
/// tokens only begin a script. The time is linear in the number of tokens.
pub fn parse(alloc: Global, tokens: &[Token], end: u32) -> Res<Script, SyntaxFault>
    requires in_order { AreInOrder 0 tokens.now end }
    ensures parsed { IsParsed result tokens.now end }
    ensures given { Gives result (parsed tokens.now end) }
    ensures by_grammar { ParsedByGrammar }
    ensures one_tree { DeriveOne }
    ensures one_opening { OpenOne }
    ensures all_open { OpensAll }
    ensures counted { CountsOperators }
{
    read_all(alloc, tokens, end)
}

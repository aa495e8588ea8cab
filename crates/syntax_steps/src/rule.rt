ghost use Rattle.std.specs.Prelude.{◌≡◌, ◌≤◌};
ghost use Rattle.syntax_steps.specs.Rules.{binary_rule, left_rule, prefix_rule};
ghost use Rattle.syntax_steps.specs.Levels.{need, takes_pipe, takes_call};
ghost use Rattle.syntax_steps.specs.Machine.{is_body, is_args};

use crate::frame::{Frame, Frames};
use token_scan::Oper;

/// The rule of a binary operator, by number.
pub fn rule_of(op: Oper) -> u8
    ensures value { result ≡ binary_rule op }
    ensures small { result ≤ 11 }
{
    match op {
        Oper::Tilde => 0,
        Oper::Or => 1,
        Oper::And => 2,
        Oper::Eq | Oper::Ne | Oper::Lt | Oper::Le | Oper::Gt | Oper::Ge => 4,
        Oper::Add | Oper::Sub => 5,
        Oper::Mul | Oper::Div => 6,
        Oper::Mod | Oper::FloorDiv | Oper::IsIn => 7,
        Oper::Colon => 8,
        _ => 11,
    }
}

/// The rule of a binary operator's left operand.
pub fn left_of(op: Oper) -> u8
    ensures { result ≡ left_rule op }
{
    match op {
        Oper::Tilde | Oper::Or => 1,
        Oper::And => 2,
        Oper::Eq | Oper::Ne | Oper::Lt | Oper::Le | Oper::Gt | Oper::Ge => 5,
        Oper::Add | Oper::Sub => 5,
        Oper::Mul | Oper::Div => 6,
        Oper::Mod | Oper::FloorDiv | Oper::IsIn => 7,
        Oper::Colon => 9,
        _ => 11,
    }
}

/// The rule of an operator before its operand.
pub fn prefix_of(op: Oper) -> u8
    ensures { result ≡ prefix_rule op }
{
    match op {
        Oper::Not => 3,
        Oper::Sub => 9,
        _ => 11,
    }
}

/// The loosest rule of an expression that may stand where the innermost unfinished rule goes on, 11 where none may.
pub fn need_of(frames: &Frames) -> u8
    ensures { result ≡ need frames.now }
{
    match frames.top() {
        Some(Frame::Right(op, _, _)) => rule_of(*op) + 1,
        Some(Frame::Under(op, _)) => prefix_of(*op),
        Some(Frame::Paren(_)) => 1,
        Some(Frame::Args(_, _, _)) | Some(Frame::Label(_, _)) => 0,
        Some(Frame::Piped(_, _, _)) | Some(Frame::Target(_)) | Some(Frame::Body(_)) | None => 11,
    }
}

/// Whether a pipeline may stand there.
pub fn may_pipe(frames: &Frames) -> bool
    ensures { result ≡ takes_pipe frames.now }
{
    match frames.top() {
        Some(Frame::Args(_, _, _))
        | Some(Frame::Label(_, _))
        | Some(Frame::Target(_))
        | Some(Frame::Body(_)) => true,
        Some(Frame::Right(_, _, _))
        | Some(Frame::Under(_, _))
        | Some(Frame::Paren(_))
        | Some(Frame::Piped(_, _, _))
        | None => false,
    }
}

/// Whether a call may stand there.
pub fn may_call(frames: &Frames) -> bool
    ensures { result ≡ takes_call frames.now }
{
    match frames.top() {
        Some(Frame::Target(_)) | Some(Frame::Body(_)) | None => false,
        Some(Frame::Right(_, _, _))
        | Some(Frame::Under(_, _))
        | Some(Frame::Paren(_))
        | Some(Frame::Args(_, _, _))
        | Some(Frame::Label(_, _))
        | Some(Frame::Piped(_, _, _)) => true,
    }
}

/// Whether statements go on there.
pub fn in_body(frames: &Frames) -> bool
    ensures { result ≡ is_body frames.now }
{
    match frames.top() {
        Some(Frame::Body(_)) => true,
        Some(Frame::Right(_, _, _))
        | Some(Frame::Under(_, _))
        | Some(Frame::Paren(_))
        | Some(Frame::Args(_, _, _))
        | Some(Frame::Label(_, _))
        | Some(Frame::Piped(_, _, _))
        | Some(Frame::Target(_))
        | None => false,
    }
}

/// Whether arguments go on there.
pub fn in_args(frames: &Frames) -> bool
    ensures { result ≡ is_args frames.now }
{
    match frames.top() {
        Some(Frame::Args(_, _, _)) => true,
        Some(Frame::Right(_, _, _))
        | Some(Frame::Under(_, _))
        | Some(Frame::Paren(_))
        | Some(Frame::Label(_, _))
        | Some(Frame::Piped(_, _, _))
        | Some(Frame::Target(_))
        | Some(Frame::Body(_))
        | None => false,
    }
}

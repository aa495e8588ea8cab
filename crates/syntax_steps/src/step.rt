ghost use Rattle.std.specs.Prelude.{◌≡◌, ◌∷◌, IfOk};
ghost use Rattle.scalar_value.specs.Gives.{GivesSome};
ghost use Rattle.syntax_tree.specs.Trees.{binary_term, unary_term};
ghost use Rattle.syntax_steps.specs.Rules.{is_package};
ghost use Rattle.syntax_steps.specs.Machine.{settle, held, infix_step, prefix_step, operator_step, open_step, whole, argument, comma_step, called, close_bare, close_value, close_step, labels, label_step, pipe_step, assign_step, pipe_held, stored, sep_step, name_step, literal_in, literal_step, text_step, oper_step, kind_step, begin, step, finished, finish};

use crate::frame::{Frame, Frames};
use crate::rule::{in_args, in_body, left_of, may_call, may_pipe, need_of, prefix_of, rule_of};
use crate::state::{Held, Mode, Pending, Refused, State};
use scalar_value::{Boxed, Mem, Or, Res, Seq, Text};
use std::alloc::Global;
use syntax_tree::{Arg, Call, Pipe, Script, Term, TermKind};
use token_scan::{Oper, Token, TokenKind};

fn binary_of(alloc: Global, at: u32, op: Oper, left: Term, right: Term) -> Mem<Term>
    ensures { IfOk result (λ made. made ≡ binary_term at op left right) }
{
    let first = Boxed::new(alloc, left)?;
    let second = Boxed::new(alloc, right)?;
    Ok(Term {
        at,
        kind: TermKind::Binary(op, first, second),
    })
}

fn unary_of(alloc: Global, at: u32, op: Oper, operand: Term) -> Mem<Term>
    ensures { IfOk result (λ made. made ≡ unary_term at op operand) }
{
    let only = Boxed::new(alloc, operand)?;
    Ok(Term {
        at,
        kind: TermKind::Unary(op, only),
    })
}

/// Applies the operators of this rule and of tighter ones that stand before an expression to it.
fn settled(alloc: Global, rule: u8, held: Held) -> Mem<Held>
    ensures { IfOk result (λ made. made ≡ settle rule held.start held.term held.frames) }
{
    let Held {
        mut start,
        mut term,
        mut frames,
    } = held;
    while let Some(frame) = frames.pop() {
        match frame {
            Frame::Right(op, at, left) if rule <= rule_of(op) => {
                term = binary_of(alloc, at, op, left, term)?;
                start = at;
            }
            Frame::Under(op, at) if rule <= prefix_of(op) => {
                term = unary_of(alloc, at, op, term)?;
                start = at;
            }
            other => {
                frames.push(other)?;
                return Ok(Held {
                    start,
                    term,
                    frames,
                });
            }
        }
    }
    Ok(Held {
        start,
        term,
        frames,
    })
}

/// The expression that is read, and none where there is none.
fn held_in(mode: Mode, frames: Frames) -> Res<Held, Refused>
    ensures { GivesSome result (held mode frames) }
{
    match mode {
        Mode::Named(name, at) if need_of(&frames) <= 10 => Ok(Held {
            start: at,
            term: Term {
                at,
                kind: TermKind::Name(name),
            },
            frames,
        }),
        Mode::Texted(text, at) => Ok(Held {
            start: at,
            term: Term {
                at,
                kind: TermKind::Str(text),
            },
            frames,
        }),
        Mode::Have(start, term) => Ok(Held {
            start,
            term,
            frames,
        }),
        Mode::Named(_, _)
        | Mode::Want
        | Mode::Piping(_, _, _)
        | Mode::Library
        | Mode::Package
        | Mode::Loaded
        | Mode::Last(_) => Err(Or::Fault(Refused)),
    }
}

fn infix(alloc: Global, op: Oper, mode: Mode, frames: Frames) -> Res<State, Refused>
    ensures { GivesSome result (infix_step op mode frames) }
{
    let read = held_in(mode, frames)?;
    let Held {
        start,
        term,
        mut frames,
    } = settled(alloc, left_of(op), read)?;
    let rule = rule_of(op);
    if rule < 10 && need_of(&frames) <= rule {
        frames.push(Frame::Right(op, start, term))?;
        return Ok(State {
            mode: Mode::Want,
            frames,
        });
    }
    Err(Or::Fault(Refused))
}

fn prefix(op: Oper, at: u32, mut frames: Frames) -> Res<State, Refused>
    ensures { GivesSome result (prefix_step op at frames) }
{
    let rule = prefix_of(op);
    if rule < 10 && need_of(&frames) <= rule {
        frames.push(Frame::Under(op, at))?;
        return Ok(State {
            mode: Mode::Want,
            frames,
        });
    }
    Err(Or::Fault(Refused))
}

fn operator(alloc: Global, op: Oper, at: u32, mode: Mode, frames: Frames) -> Res<State, Refused>
    ensures { GivesSome result (operator_step op at mode frames) }
{
    match mode {
        Mode::Want => prefix(op, at, frames),
        Mode::Named(_, _)
        | Mode::Texted(_, _)
        | Mode::Have(_, _)
        | Mode::Piping(_, _, _)
        | Mode::Library
        | Mode::Package
        | Mode::Loaded
        | Mode::Last(_) => infix(alloc, op, mode, frames),
    }
}

fn open_name(alloc: Global, name: Text, at: u32, mut frames: Frames) -> Res<State, Refused>
    ensures { GivesSome result (open_step at (Mode.Named name at) frames) }
{
    if may_call(&frames) {
        frames.push(Frame::Args(name, at, Seq::new(alloc)))?;
        return Ok(State {
            mode: Mode::Want,
            frames,
        });
    }
    if in_body(&frames) && name.as_str() == "library" {
        return Ok(State {
            mode: Mode::Library,
            frames,
        });
    }
    Err(Or::Fault(Refused))
}

fn open(alloc: Global, at: u32, mode: Mode, mut frames: Frames) -> Res<State, Refused>
    ensures { GivesSome result (open_step at mode frames) }
{
    match mode {
        Mode::Want if need_of(&frames) <= 10 => {
            frames.push(Frame::Paren(at))?;
            Ok(State {
                mode: Mode::Want,
                frames,
            })
        }
        Mode::Named(name, begin) => open_name(alloc, name, begin, frames),
        Mode::Want
        | Mode::Texted(_, _)
        | Mode::Have(_, _)
        | Mode::Piping(_, _, _)
        | Mode::Library
        | Mode::Package
        | Mode::Loaded
        | Mode::Last(_) => Err(Or::Fault(Refused)),
    }
}

fn whole_in(alloc: Global, mode: Mode, frames: Frames) -> Res<Held, Refused>
    ensures { GivesSome result (whole mode frames) }
{
    match mode {
        Mode::Piping(table, at, calls) => {
            if need_of(&frames) != 0 {
                return Err(Or::Fault(Refused));
            }
            let pipe = Boxed::new(alloc, Pipe { table, at, calls })?;
            Ok(Held {
                start: at,
                term: Term {
                    at,
                    kind: TermKind::Pipe(pipe),
                },
                frames,
            })
        }
        Mode::Want
        | Mode::Named(_, _)
        | Mode::Texted(_, _)
        | Mode::Have(_, _)
        | Mode::Library
        | Mode::Package
        | Mode::Loaded
        | Mode::Last(_) => {
            let read = held_in(mode, frames)?;
            Ok(settled(alloc, 0, read)?)
        }
    }
}

fn labelled_argument(
    label: Text,
    begin: u32,
    term: Term,
    mut frames: Frames,
) -> Res<Pending, Refused>
    ensures { GivesSome result (argument begin term (Frame.Label label begin ∷ frames)) }
{
    match frames.pop() {
        Some(Frame::Args(name, at, mut args)) => {
            args.push(Arg {
                name: Some(label),
                at: begin,
                value: term,
            })?;
            Ok(Pending {
                name,
                at,
                args,
                frames,
            })
        }
        Some(Frame::Right(_, _, _))
        | Some(Frame::Under(_, _))
        | Some(Frame::Paren(_))
        | Some(Frame::Label(_, _))
        | Some(Frame::Piped(_, _, _))
        | Some(Frame::Target(_))
        | Some(Frame::Body(_))
        | None => Err(Or::Fault(Refused)),
    }
}

fn argument_of(start: u32, term: Term, mut frames: Frames) -> Res<Pending, Refused>
    ensures { GivesSome result (argument start term frames) }
{
    match frames.pop() {
        Some(Frame::Args(name, at, mut args)) => {
            args.push(Arg {
                name: None,
                at: start,
                value: term,
            })?;
            Ok(Pending {
                name,
                at,
                args,
                frames,
            })
        }
        Some(Frame::Label(label, begin)) => labelled_argument(label, begin, term, frames),
        Some(Frame::Right(_, _, _))
        | Some(Frame::Under(_, _))
        | Some(Frame::Paren(_))
        | Some(Frame::Piped(_, _, _))
        | Some(Frame::Target(_))
        | Some(Frame::Body(_))
        | None => Err(Or::Fault(Refused)),
    }
}

fn comma(alloc: Global, mode: Mode, frames: Frames) -> Res<State, Refused>
    ensures { GivesSome result (comma_step mode frames) }
{
    let read = whole_in(alloc, mode, frames)?;
    let Pending {
        name,
        at,
        args,
        mut frames,
    } = argument_of(read.start, read.term, read.frames)?;
    frames.push(Frame::Args(name, at, args))?;
    Ok(State {
        mode: Mode::Want,
        frames,
    })
}

/// Behind a call: it is the next of a pipeline, or an expression.
fn call_ends(pending: Pending) -> Mem<State>
    ensures { IfOk result (λ made. made ≡ called pending.name pending.at pending.args pending.frames) }
{
    let Pending {
        name,
        at,
        args,
        mut frames,
    } = pending;
    let call = Call { name, at, args };
    match frames.pop() {
        Some(Frame::Piped(table, begin, mut calls)) => {
            calls.push(call)?;
            Ok(State {
                mode: Mode::Piping(table, begin, calls),
                frames,
            })
        }
        Some(other) => {
            frames.push(other)?;
            Ok(State {
                mode: Mode::Have(
                    at,
                    Term {
                        at,
                        kind: TermKind::Call(call),
                    },
                ),
                frames,
            })
        }
        None => Ok(State {
            mode: Mode::Have(
                at,
                Term {
                    at,
                    kind: TermKind::Call(call),
                },
            ),
            frames,
        }),
    }
}

fn close_call(mut frames: Frames) -> Res<State, Refused>
    ensures { GivesSome result (close_bare frames) }
{
    match frames.pop() {
        Some(Frame::Args(name, at, args)) => {
            if !args.is_empty() {
                return Err(Or::Fault(Refused));
            }
            Ok(call_ends(Pending {
                name,
                at,
                args,
                frames,
            })?)
        }
        Some(Frame::Right(_, _, _))
        | Some(Frame::Under(_, _))
        | Some(Frame::Paren(_))
        | Some(Frame::Label(_, _))
        | Some(Frame::Piped(_, _, _))
        | Some(Frame::Target(_))
        | Some(Frame::Body(_))
        | None => Err(Or::Fault(Refused)),
    }
}

fn close_whole(read: Held) -> Res<State, Refused>
    ensures { GivesSome result (close_value read.start read.term read.frames) }
{
    let Held {
        start,
        term,
        mut frames,
    } = read;
    match frames.pop() {
        Some(Frame::Paren(at)) => Ok(State {
            mode: Mode::Have(at, term),
            frames,
        }),
        Some(other) => {
            frames.push(other)?;
            let pending = argument_of(start, term, frames)?;
            Ok(call_ends(pending)?)
        }
        None => Err(Or::Fault(Refused)),
    }
}

fn close(alloc: Global, mode: Mode, frames: Frames) -> Res<State, Refused>
    ensures { GivesSome result (close_step mode frames) }
{
    match mode {
        Mode::Want => close_call(frames),
        Mode::Package => Ok(State {
            mode: Mode::Loaded,
            frames,
        }),
        Mode::Named(_, _)
        | Mode::Texted(_, _)
        | Mode::Have(_, _)
        | Mode::Piping(_, _, _)
        | Mode::Library
        | Mode::Loaded
        | Mode::Last(_) => {
            let read = whole_in(alloc, mode, frames)?;
            close_whole(read)
        }
    }
}

fn label_of(label: Text, at: u32, mut frames: Frames) -> Res<State, Refused>
    ensures { GivesSome result (labels label at frames) }
{
    if in_args(&frames) {
        frames.push(Frame::Label(label, at))?;
        return Ok(State {
            mode: Mode::Want,
            frames,
        });
    }
    Err(Or::Fault(Refused))
}

fn label(mode: Mode, frames: Frames) -> Res<State, Refused>
    ensures { GivesSome result (label_step mode frames) }
{
    match mode {
        Mode::Named(name, at) => label_of(name, at, frames),
        Mode::Texted(text, at) => label_of(text, at, frames),
        Mode::Want
        | Mode::Have(_, _)
        | Mode::Piping(_, _, _)
        | Mode::Library
        | Mode::Package
        | Mode::Loaded
        | Mode::Last(_) => Err(Or::Fault(Refused)),
    }
}

fn pipe(alloc: Global, mode: Mode, mut frames: Frames) -> Res<State, Refused>
    ensures { GivesSome result (pipe_step mode frames) }
{
    match mode {
        Mode::Named(name, at) if may_pipe(&frames) => {
            frames.push(Frame::Piped(name, at, Seq::new(alloc)))?;
            Ok(State {
                mode: Mode::Want,
                frames,
            })
        }
        Mode::Piping(table, at, calls) => {
            frames.push(Frame::Piped(table, at, calls))?;
            Ok(State {
                mode: Mode::Want,
                frames,
            })
        }
        Mode::Named(_, _)
        | Mode::Want
        | Mode::Texted(_, _)
        | Mode::Have(_, _)
        | Mode::Library
        | Mode::Package
        | Mode::Loaded
        | Mode::Last(_) => Err(Or::Fault(Refused)),
    }
}

fn assign(mode: Mode, mut frames: Frames) -> Res<State, Refused>
    ensures { GivesSome result (assign_step mode frames) }
{
    match mode {
        Mode::Named(name, _) if in_body(&frames) => {
            frames.push(Frame::Target(name))?;
            Ok(State {
                mode: Mode::Want,
                frames,
            })
        }
        Mode::Named(_, _)
        | Mode::Want
        | Mode::Texted(_, _)
        | Mode::Have(_, _)
        | Mode::Piping(_, _, _)
        | Mode::Library
        | Mode::Package
        | Mode::Loaded
        | Mode::Last(_) => Err(Or::Fault(Refused)),
    }
}

/// The pipeline that is read, and none where there is none.
fn pipe_in(alloc: Global, mode: Mode) -> Res<Pipe, Refused>
    ensures { GivesSome result (pipe_held mode) }
{
    match mode {
        Mode::Named(table, at) => Ok(Pipe {
            table,
            at,
            calls: Seq::new(alloc),
        }),
        Mode::Piping(table, at, calls) => Ok(Pipe { table, at, calls }),
        Mode::Last(pipe) => Ok(pipe),
        Mode::Want
        | Mode::Texted(_, _)
        | Mode::Have(_, _)
        | Mode::Library
        | Mode::Package
        | Mode::Loaded => Err(Or::Fault(Refused)),
    }
}

fn store_target(name: Text, pipe: Pipe, mut frames: Frames) -> Res<State, Refused>
    ensures { GivesSome result (stored pipe (Frame.Target name ∷ frames)) }
{
    match frames.pop() {
        Some(Frame::Body(mut assigns)) => {
            assigns.push((name, pipe))?;
            frames.push(Frame::Body(assigns))?;
            Ok(State {
                mode: Mode::Want,
                frames,
            })
        }
        Some(Frame::Right(_, _, _))
        | Some(Frame::Under(_, _))
        | Some(Frame::Paren(_))
        | Some(Frame::Args(_, _, _))
        | Some(Frame::Label(_, _))
        | Some(Frame::Piped(_, _, _))
        | Some(Frame::Target(_))
        | None => Err(Or::Fault(Refused)),
    }
}

fn store(pipe: Pipe, mut frames: Frames) -> Res<State, Refused>
    ensures { GivesSome result (stored pipe frames) }
{
    match frames.pop() {
        Some(Frame::Target(name)) => store_target(name, pipe, frames),
        Some(Frame::Body(assigns)) => {
            frames.push(Frame::Body(assigns))?;
            Ok(State {
                mode: Mode::Last(pipe),
                frames,
            })
        }
        Some(Frame::Right(_, _, _))
        | Some(Frame::Under(_, _))
        | Some(Frame::Paren(_))
        | Some(Frame::Args(_, _, _))
        | Some(Frame::Label(_, _))
        | Some(Frame::Piped(_, _, _))
        | None => Err(Or::Fault(Refused)),
    }
}

fn separator(alloc: Global, mode: Mode, frames: Frames) -> Res<State, Refused>
    ensures { GivesSome result (sep_step mode frames) }
{
    match mode {
        Mode::Want => {
            if in_body(&frames) {
                return Ok(State {
                    mode: Mode::Want,
                    frames,
                });
            }
            Err(Or::Fault(Refused))
        }
        Mode::Loaded => Ok(State {
            mode: Mode::Want,
            frames,
        }),
        Mode::Named(_, _)
        | Mode::Texted(_, _)
        | Mode::Have(_, _)
        | Mode::Piping(_, _, _)
        | Mode::Library
        | Mode::Package
        | Mode::Last(_) => {
            let pipe = pipe_in(alloc, mode)?;
            store(pipe, frames)
        }
    }
}

/// Whether a script may load this package.
fn may_load(name: &Text) -> bool
    ensures { result ≡ is_package name.now }
{
    let name = name.as_str();
    name == "dplyr" || name == "tidyr" || name == "lubridate" || name == "tidyverse"
}

fn name(name: &Text, at: u32, mode: Mode, frames: Frames) -> Res<State, Refused>
    ensures { GivesSome result (name_step name.now at mode frames) }
{
    match mode {
        Mode::Want => Ok(State {
            mode: Mode::Named(name.copy()?, at),
            frames,
        }),
        Mode::Library => {
            if may_load(name) {
                return Ok(State {
                    mode: Mode::Package,
                    frames,
                });
            }
            Err(Or::Fault(Refused))
        }
        Mode::Named(_, _)
        | Mode::Texted(_, _)
        | Mode::Have(_, _)
        | Mode::Piping(_, _, _)
        | Mode::Package
        | Mode::Loaded
        | Mode::Last(_) => Err(Or::Fault(Refused)),
    }
}

fn literal_of(kind: TermKind, at: u32, frames: Frames) -> Res<State, Refused>
    ensures { GivesSome result (literal_in kind at frames) }
{
    if need_of(&frames) <= 10 {
        return Ok(State {
            mode: Mode::Have(at, Term { at, kind }),
            frames,
        });
    }
    Err(Or::Fault(Refused))
}

fn literal(kind: TermKind, at: u32, mode: Mode, frames: Frames) -> Res<State, Refused>
    ensures { GivesSome result (literal_step kind at mode frames) }
{
    match mode {
        Mode::Want => literal_of(kind, at, frames),
        Mode::Named(_, _)
        | Mode::Texted(_, _)
        | Mode::Have(_, _)
        | Mode::Piping(_, _, _)
        | Mode::Library
        | Mode::Package
        | Mode::Loaded
        | Mode::Last(_) => Err(Or::Fault(Refused)),
    }
}

fn text(text: &Text, at: u32, mode: Mode, frames: Frames) -> Res<State, Refused>
    ensures { GivesSome result (text_step text.now at mode frames) }
{
    match mode {
        Mode::Want => {
            let read = text.copy()?;
            if in_args(&frames) {
                return Ok(State {
                    mode: Mode::Texted(read, at),
                    frames,
                });
            }
            literal_of(TermKind::Str(read), at, frames)
        }
        Mode::Named(_, _)
        | Mode::Texted(_, _)
        | Mode::Have(_, _)
        | Mode::Piping(_, _, _)
        | Mode::Library
        | Mode::Package
        | Mode::Loaded
        | Mode::Last(_) => Err(Or::Fault(Refused)),
    }
}

fn oper(alloc: Global, op: Oper, at: u32, mode: Mode, frames: Frames) -> Res<State, Refused>
    ensures { GivesSome result (oper_step op at mode frames) }
{
    match op {
        Oper::LeftParen => open(alloc, at, mode, frames),
        Oper::RightParen => close(alloc, mode, frames),
        Oper::Comma => comma(alloc, mode, frames),
        Oper::Set => label(mode, frames),
        Oper::BarPipe | Oper::PercentPipe => pipe(alloc, mode, frames),
        Oper::Assign => assign(mode, frames),
        Oper::Semicolon => separator(alloc, mode, frames),
        _ => operator(alloc, op, at, mode, frames),
    }
}

/// What has been read before the first token of a script: no statement.
pub fn begun(alloc: Global) -> Mem<State>
    ensures { IfOk result (λ made. made ≡ begin) }
{
    let mut frames = Frames::new(alloc);
    frames.push(Frame::Body(Seq::new(alloc)))?;
    Ok(State {
        mode: Mode::Want,
        frames,
    })
}

/// What has been read behind one more token, and none where the token is not the next of a script.
pub fn advanced(alloc: Global, token: &Token, state: State) -> Res<State, Refused>
    ensures { GivesSome result (step token.now state) }
{
    let State { mode, frames } = state;
    let at = token.from;
    match &token.kind {
        TokenKind::Name(read) => name(read, at, mode, frames),
        TokenKind::Whole(number) => literal(TermKind::Whole(*number), at, mode, frames),
        TokenKind::Decimal(number) => literal(TermKind::Decimal(*number), at, mode, frames),
        TokenKind::Word(word) => literal(TermKind::Word(*word), at, mode, frames),
        TokenKind::Str(read) => text(read, at, mode, frames),
        TokenKind::Op(op) => oper(alloc, *op, at, mode, frames),
        TokenKind::Line => separator(alloc, mode, frames),
    }
}

fn finish_body(pipe: Pipe, mut frames: Frames) -> Res<Script, Refused>
    ensures { GivesSome result (finished pipe frames) }
{
    match frames.pop() {
        Some(Frame::Body(assigns)) => Ok(Script {
            assigns,
            last: pipe,
        }),
        Some(Frame::Right(_, _, _))
        | Some(Frame::Under(_, _))
        | Some(Frame::Paren(_))
        | Some(Frame::Args(_, _, _))
        | Some(Frame::Label(_, _))
        | Some(Frame::Piped(_, _, _))
        | Some(Frame::Target(_))
        | None => Err(Or::Fault(Refused)),
    }
}

/// The script that has been read whole, and none where it has not.
pub fn ended(alloc: Global, state: State) -> Res<Script, Refused>
    ensures { GivesSome result (finish state) }
{
    let pipe = pipe_in(alloc, state.mode)?;
    finish_body(pipe, state.frames)
}

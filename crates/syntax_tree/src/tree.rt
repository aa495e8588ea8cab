ghost use Rattle.std.specs.Prelude.{◌≡◌, IfOk};

use scalar_value::{Boxed, Dec6, Duplicate, Mem, Seq, Text};
use token_scan::{Oper, Reserved};

/// A script: its assignments in their order, and the pipeline whose table is shown.
#[derive(Debug, Drop)]
pub struct Script {
    pub assigns: Seq<(Text, Pipe)>,
    pub last: Pipe,
}

/// A pipeline: the table that it begins with, and the calls through which that table goes.
#[cycle(term)]
#[derive(Debug, Drop)]
pub struct Pipe {
    pub table: Text,
    pub at: u32,
    pub calls: Seq<Call>,
}

/// A call of a verb or a function. It stands at its name.
#[cycle(term)]
#[derive(Debug, Drop)]
pub struct Call {
    pub name: Text,
    pub at: u32,
    pub args: Seq<Arg>,
}

/// An argument, with the name or the text before its `=` where it has one. It stands at its first token.
#[cycle(term)]
#[derive(Debug, Drop)]
pub struct Arg {
    pub name: Option<Text>,
    pub at: u32,
    pub value: Term,
}

/// An expression. It stands at its first token, which parentheses around it are not.
#[cycle(term)]
#[derive(Debug, Drop)]
pub struct Term {
    pub at: u32,
    pub kind: TermKind,
}

/// What an expression is: a name, a literal, an operator with its operands, a call, or a pipeline of at least one call.
#[cycle(term)]
#[derive(Debug, Drop)]
pub enum TermKind {
    Name(Text),
    Whole(i64),
    Decimal(Dec6),
    Str(Text),
    Word(Reserved),
    Unary(Oper, Boxed<Term>),
    Binary(Oper, Boxed<Term>, Boxed<Term>),
    Call(Call),
    Pipe(Boxed<Pipe>),
}

impl Script {
    /// An equal script.
    pub fn copy(&self) -> Mem<Script>
        ensures { IfOk result (λ made. made ≡ self.now) }
    {
        Ok(Script {
            assigns: self.assigns.copy()?,
            last: self.last.copy()?,
        })
    }
}

impl Pipe {
    /// An equal pipeline.
    #[cycle(copy)]
    pub fn copy(&self) -> Mem<Pipe>
        ensures { IfOk result (λ made. made ≡ self.now) }
    {
        let mut calls = Seq::new(self.calls.alloc());
        for call in self.calls.as_slice() {
            calls.push(call.copy()?)?;
        }
        Ok(Pipe {
            table: self.table.copy()?,
            at: self.at,
            calls,
        })
    }
}

impl Duplicate for Pipe {
    fn duplicate(&self) -> Mem<Pipe> {
        self.copy()
    }
}

impl Call {
    /// An equal call.
    #[cycle(copy)]
    pub fn copy(&self) -> Mem<Call>
        ensures { IfOk result (λ made. made ≡ self.now) }
    {
        let mut args = Seq::new(self.args.alloc());
        for arg in self.args.as_slice() {
            args.push(arg.copy()?)?;
        }
        Ok(Call {
            name: self.name.copy()?,
            at: self.at,
            args,
        })
    }
}

impl Arg {
    /// An equal argument.
    #[cycle(copy)]
    pub fn copy(&self) -> Mem<Arg>
        ensures { IfOk result (λ made. made ≡ self.now) }
    {
        Ok(Arg {
            name: self.name.duplicate()?,
            at: self.at,
            value: self.value.copy()?,
        })
    }
}

impl Term {
    /// An equal expression.
    #[cycle(copy)]
    pub fn copy(&self) -> Mem<Term>
        ensures { IfOk result (λ made. made ≡ self.now) }
    {
        Ok(Term {
            at: self.at,
            kind: self.kind.copy()?,
        })
    }
}

impl TermKind {
    /// An equal kind of expression.
    #[cycle(copy)]
    pub fn copy(&self) -> Mem<TermKind>
        ensures { IfOk result (λ made. made ≡ self.now) }
    {
        match self {
            TermKind::Name(name) => Ok(TermKind::Name(name.copy()?)),
            TermKind::Whole(number) => Ok(TermKind::Whole(*number)),
            TermKind::Decimal(number) => Ok(TermKind::Decimal(*number)),
            TermKind::Str(text) => Ok(TermKind::Str(text.copy()?)),
            TermKind::Word(word) => Ok(TermKind::Word(*word)),
            TermKind::Unary(oper, operand) => {
                let copied = Boxed::new(operand.alloc(), operand.get().copy()?)?;
                Ok(TermKind::Unary(*oper, copied))
            }
            TermKind::Binary(oper, left, right) => {
                let first = Boxed::new(left.alloc(), left.get().copy()?)?;
                let second = Boxed::new(right.alloc(), right.get().copy()?)?;
                Ok(TermKind::Binary(*oper, first, second))
            }
            TermKind::Call(call) => Ok(TermKind::Call(call.copy()?)),
            TermKind::Pipe(pipe) => {
                let copied = Boxed::new(pipe.alloc(), pipe.get().copy()?)?;
                Ok(TermKind::Pipe(copied))
            }
        }
    }
}

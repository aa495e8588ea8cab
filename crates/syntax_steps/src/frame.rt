ghost use Rattle.std.specs.Prelude.{◌≡◌, ◌≤◌, [], ◌∷◌, OnOk, MatchOption, drop};
ghost use Rattle.syntax_steps.specs.Levels.{levels, level_of};

use scalar_value::{Mem, Seq, Text};
use std::alloc::Global;
use std::marker::Model;
use syntax_tree::{Arg, Call, Pipe, Term};
use token_scan::Oper;

/// A rule of the grammar that the tokens read so far leave unfinished, with the parts that it has.
#[derive(Drop)]
pub enum Frame {
    /// A binary operator, the place of its left operand and that operand.
    Right(Oper, u32, Term),
    /// An operator before its operand, and its place.
    Under(Oper, u32),
    /// An open parenthesis of an expression, and its place.
    Paren(u32),
    /// A call behind its parenthesis: its name and place, and the arguments before this one.
    Args(Text, u32, Seq<Arg>),
    /// The name of an argument, and its place.
    Label(Text, u32),
    /// A pipeline behind a pipe: its table and place, and the calls so far.
    Piped(Text, u32, Seq<Call>),
    /// The name that is assigned to.
    Target(Text),
    /// The assignments so far.
    Body(Seq<(Text, Pipe)>),
}

/// The unfinished rules, which contracts see as a list with the innermost first, and how many of them are levels.
#[derive(Drop)]
pub struct Frames {
    items: Vec<Frame>,
    levels: usize,
}

impl Model for Frames {
    ghost use Rattle.std.specs.Prelude.{List, reverse, ◌≡◌};
    ghost use Rattle.syntax_steps.specs.declared.frame.Frame.{Frame as Unfinished};
    ghost use Rattle.syntax_steps.specs.Levels.{levels as levels_of};
    ghost use Rattle.syntax_steps.specs.contracts.frame.Frame as unfinished;
    ghost use Rattle.std.specs.Coded.{coded_list};

    ghost Value = { List Unfinished };

    ghost coded = { coded_list unfinished.the_row.coded };

    ghost view = { λ f. reverse f.items.items };

    ghost invariant = { λ f. f.levels ≡ levels_of (reverse f.items.items) };
}

impl Frame {
    /// Whether the rule is a level, as a number.
    fn level(&self) -> usize
        ensures value { result ≡ level_of self.now }
        ensures small { result ≤ 1 }
    {
        match self {
            Frame::Under(_, _) | Frame::Paren(_) | Frame::Args(_, _, _) => 1,
            Frame::Right(_, _, _)
            | Frame::Label(_, _)
            | Frame::Piped(_, _, _)
            | Frame::Target(_)
            | Frame::Body(_) => 0,
        }
    }
}

impl Frames {
    /// No rule.
    pub(crate) fn new(alloc: Global) -> Frames
        ensures { result ≡ [] }
    {
        Frames {
            items: Vec::new(alloc),
            levels: 0,
        }
    }

    /// The innermost rule.
    pub(crate) fn top(&self) -> Option<&Frame>
        ensures { MatchOption result (self.now ≡ []) (λ frame. self.now ≡ frame.now ∷ drop 1 self.now) }
    {
        self.items.last()
    }

    /// The number of open levels.
    pub fn levels(&self) -> usize
        ensures { result ≡ levels self.now }
    {
        self.levels
    }

    /// One more rule inside the others.
    pub(crate) fn push(&mut self, frame: Frame) -> Mem<()>
        ensures { OnOk result (self.new ≡ frame ∷ self.old) }
    {
        let level = frame.level();
        self.items.push(frame)?;
        let length = self.items.len();
        prove!(self.levels < length);
        self.levels += level;
        Ok(())
    }

    /// Takes the innermost rule off.
    pub(crate) fn pop(&mut self) -> Option<Frame>
        ensures { MatchOption result ((self.old ≡ []) × (self.new ≡ [])) (λ frame. self.old ≡ frame ∷ self.new) }
    {
        let frame = self.items.pop()?;
        self.levels -= frame.level();
        Some(frame)
    }
}

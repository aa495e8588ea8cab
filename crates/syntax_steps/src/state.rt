use crate::frame::Frames;
use scalar_value::{Seq, Text};
use syntax_tree::{Arg, Call, Pipe, Term};

/// What stands behind the innermost unfinished rule.
#[derive(Drop)]
pub enum Mode {
    /// Nothing: its next part is to begin.
    Want,
    /// A name, and its place.
    Named(Text, u32),
    /// A text at the begin of an argument, and its place.
    Texted(Text, u32),
    /// An expression of the rule primary, and the place of its first token.
    Have(u32, Term),
    /// A pipeline with at least one call: its table and place, and the calls.
    Piping(Text, u32, Seq<Call>),
    /// `library (`.
    Library,
    /// `library ( package`.
    Package,
    /// `library ( package )`.
    Loaded,
    /// The last pipeline and a separator.
    Last(Pipe),
}

/// What has been read of a script.
#[derive(Drop)]
pub struct State {
    pub mode: Mode,
    pub frames: Frames,
}

/// An expression with the place of its first token, and the unfinished rules around it.
#[derive(Drop)]
pub struct Held {
    pub start: u32,
    pub term: Term,
    pub frames: Frames,
}

/// A call with its arguments up to this one, and the unfinished rules around it.
#[derive(Drop)]
pub struct Pending {
    pub name: Text,
    pub at: u32,
    pub args: Seq<Arg>,
    pub frames: Frames,
}

/// The next token is not one of a script.
#[derive(Drop)]
pub struct Refused;

//! The grammar of scripts: the syntax tree of a list of tokens, or the first fault.
#![tactic(auto)]

mod fault;
mod reader;
#[cfg(test)]
mod tests;

pub use fault::{SyntaxFault, SyntaxKind};
pub use reader::parse;
pub use syntax_tree::{Arg, Call, Pipe, Script, Term, TermKind};

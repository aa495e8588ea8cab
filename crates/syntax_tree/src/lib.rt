//! The syntax tree of a script: assignments and pipelines of calls, whose arguments are expressions. Each part stands at
//! a byte place of the script. `verb_syntax` says which tokens have which tree.
#![tactic(auto)]

mod tree;

pub use tree::{Arg, Call, Pipe, Script, Term, TermKind};

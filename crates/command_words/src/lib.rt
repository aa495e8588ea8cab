//! The words of the command line: what they say of a run, or that they are no command.
#![tactic(auto)]

mod command;
mod names;
mod tables;
mod words;

pub use names::{is_free_name, is_name};
pub use words::{BadWords, Words, settings};

#[cfg(test)]
mod tests;

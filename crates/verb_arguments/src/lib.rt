//! The names of verbs and the forms of their arguments: what a name stands for behind a pipe, and whether a call's arguments
//! are what its verb takes.
#![tactic(auto)]

mod arguments;
mod forms;
mod names;

pub use arguments::{arguments_of, column_name, is_named, is_unnamed, truth_of};
pub use forms::has_form;
pub use names::{Known, VerbName, known_by};

#[cfg(test)]
mod tests;

//! From the syntax of expressions to typed expressions: the expression of a term over a table's columns, or its first fault;
//! and the laws that it has the type that is told.
#![tactic(auto)]

mod cases;
mod laws;
mod parts;
mod terms;

pub use laws::{terms_are_typed, terms_are_typed_as};
pub use term_calls::{Piece, TermFault, TermFaultKind};
pub use terms::{expression_of, piece_of};

#[cfg(test)]
mod tests;

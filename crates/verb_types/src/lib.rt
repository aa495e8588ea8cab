//! The check of verbs: a call of a verb over a table's shape as a checked verb with the shape after it, or its first fault.
#![tactic(auto)]

mod checks;
mod choice;
mod columns;
mod conditions;
mod fault;
mod groups;
mod laws;
mod moves;
mod replaced;
mod values;

pub use checks::check;
pub use fault::{VerbFault, VerbKind};
pub use laws::checked_verbs_suit;

#[cfg(test)]
mod tests;

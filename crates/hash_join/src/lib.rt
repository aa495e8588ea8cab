//! Acero's hashjoin node, in its plain form: each right row is looked at for each left row.
#![tactic(auto)]

mod columns;
mod gather;
mod join;
mod matches;
mod offers;
mod unmatched;
mod window;

pub use join::{Built, JoinOp};

#[cfg(test)]
mod tests;

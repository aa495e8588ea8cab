//! The operators of a plan's nodes, as one type.
#![tactic(auto)]

mod any;
mod choice;
mod parts;

pub use any::{AnyLocal, AnyOp, AnyShared};
pub use choice::op_of;

#[cfg(test)]
mod tests;

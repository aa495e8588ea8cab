//! The nodes of a plan, and what the work of each is on batches.
#![tactic(auto)]

mod laws;
mod node;
mod operator;
mod options;

pub use laws::{plans_are_well_formed, plans_exist};
pub use node::{Node, NodeKind, Plan, mark_of};
pub use operator::{Operator, Streamed};
pub use options::{AggSpec, JoinSpec, LongerSpec, SortKey, WindowCall, WindowSpec};

#[cfg(test)]
mod tests;

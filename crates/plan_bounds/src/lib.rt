//! How many entries a run of a plan of nodes can have at most.
#![tactic(auto)]

mod computed;
mod laws;

pub use computed::most_entries_of;
pub use laws::{bounds_are_budgets, plans_are_sorted, plans_end, worked_bound};

#[cfg(test)]
mod tests;

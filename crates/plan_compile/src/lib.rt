//! Plans of verbs: the tree of filters and projects that a pipeline's checked verbs become, and its plan.
#![tactic(auto)]

mod laws;
mod steps;
mod tree;

pub use laws::{plans_mean, trees_mean, verbs_are_steps};
pub use tree::{TooLarge, Tree};

#[cfg(test)]
mod tests;

//! The evaluation of a script: what its assignments and pipelines mean over tables, and the tree of nodes that computes it.
#![tactic(auto)]

mod evaluation;
mod fault;
mod laws;
mod stage;

pub use evaluation::evaluate;
pub use fault::{EvaluationFault, EvaluationKind};
pub use laws::plans_mean_their_tables;
pub use stage::Stage;

#[cfg(test)]
mod tests;

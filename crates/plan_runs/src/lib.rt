//! Plans of nodes, run over tables with the operators of their nodes.
#![tactic(auto)]

mod chain;
mod operators;
mod run;

pub use chain::{ChainRun, run_chain};
pub use operators::operators_of;
pub use run::run_plan;

#[cfg(test)]
mod tests;

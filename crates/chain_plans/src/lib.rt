//! Plans of one path: a source, filters and projects, and the sink.
#![tactic(auto)]

mod laws;
mod nodes;

pub use laws::{chains_are_plans, chains_mean};
pub use nodes::{Step, chain};

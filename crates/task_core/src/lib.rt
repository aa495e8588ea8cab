//! The state of a plan's run, its history, and which entry comes next: the plan machine as the engine drives it.
#![tactic(auto)]

mod choice;
mod claim;
mod deliver;
mod due;
mod legal;
mod room;
mod state;
mod stopping;

pub use run_state::{Ending, Finished, Setting};
pub use state::PlanState;

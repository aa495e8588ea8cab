//! What is stored of a plan's run: what waits, what is in flight and the history that led there; what can be done next; and
//! what each entry leaves.
#![tactic(auto)]

mod choice;
mod claim;
mod deliver;
mod due;
mod failing;
mod legal;
mod opening;
mod outcome;
mod reading;
mod result;
mod room;
mod state;
mod stopping;
mod upkeep;

pub use plan_store::{Ending, Setting};
pub use result::Finished;
pub use state::RunState;

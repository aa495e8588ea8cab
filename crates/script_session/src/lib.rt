//! A command from its words to the bytes that it writes: the top call and its parts.
#![tactic(auto)]

mod answer;
mod fault;
mod laws;
mod printing;
mod reading;
mod run;
mod script;
mod stage;
mod status;
mod tables;

pub use command_words::{BadWords, Words, settings};
pub use laws::scripts_are_read;
pub use run::run_single;
pub use run_report::{PlanRun, RunRecord};
pub use script::{ScriptFault, ScriptKind};
pub use status::{Refusal, Status};

#[cfg(test)]
mod tests;

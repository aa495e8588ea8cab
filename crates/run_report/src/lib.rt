//! The record of a command's runs, and plans and runs as text.
#![tactic(auto)]

mod plan_text;
mod record;
mod report;

pub use plan_text::{explain_plans, explain_text};
pub use record::{PlanRun, RunRecord};
pub use report::report_text;

#[cfg(test)]
mod tests;

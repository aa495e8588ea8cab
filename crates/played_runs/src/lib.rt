//! Runs of plans by a schedule: which worker claims, delivers or fails, and when upkeep is done.
#![tactic(auto)]

mod moves;
mod playing;

pub use moves::Move;
pub use playing::{Played, play};

#[cfg(test)]
mod tests;

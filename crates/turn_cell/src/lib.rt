//! A machine that is stepped in turns: one thread at a time takes it out of its cell, adds one entry to its history or none, and gives it back.
//!
//! Each thread steps through a seat. A seat knows the history that it has seen, the entries that it left and the numbers that were given out, so the contracts of the calls speak of the one history that all seats share. Nothing is promised of progress, fairness or wake-ups: `enter` and `wait_change` may wait, and may never return.
#![tactic(auto)]

mod cell;
mod knowledge;
mod machine;
mod seat;
mod steps;
#[cfg(test)]
mod tests;

pub use cell::TurnCell;
pub use machine::Machine;
pub use seat::Seat;

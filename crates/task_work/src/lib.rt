//! The work of a task, which a worker does outside of the plan's state.
#![tactic(auto)]

mod batches;
mod row;
mod source;
mod task;
mod work;

pub use task::{Done, Task, run_task};
pub use work::{Fruit, Part, Share, Waiting, Work};

#[cfg(test)]
mod tests;

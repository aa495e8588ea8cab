//! Plans, run: by one worker alone.
#![tactic(auto)]

mod alone;

pub use alone::{keep_up, run_alone};
pub use task_core::{Finished, Setting};

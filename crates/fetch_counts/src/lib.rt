//! What fetches count of the batches that they have folded: how many rows are there from the front on, without a gap.
#![tactic(auto)]

mod counting;
mod front;
mod fronts;

pub use counting::is_met;
pub use front::{Front, Run};
pub use fronts::{fronts_of, note_at, reserve_fronts};

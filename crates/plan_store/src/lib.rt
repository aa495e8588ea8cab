//! What is stored of a plan's run, list by list: nodes, stages, edges, tasks in flight and shares; how they begin; and what a
//! claim takes out of them and a delivery puts into them.
#![tactic(auto)]

mod infos;
mod putting;
mod queue;
mod setting;
mod shares;
mod stage;
mod stages;
mod taking;
#[cfg(test)]
mod tests;

pub use infos::{infos_of, is_source, shape_of};
pub use putting::{
    begin_phase, depart, first_input, has_ended, put_back, put_rest, put_row, put_share, shape_at,
};
pub use queue::{Queue, set_paused};
pub use setting::{Ending, Setting};
pub use shares::rows_of;
pub use stage::{Flight, NodeInfo, Stage};
pub use stages::{queues_of, seats_of, stages_of};
pub use taking::{enter, take_front, take_row, take_share};

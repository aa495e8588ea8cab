//! Back pressure on an edge of a plan, counted in batches: when a node has to pause its producer, and when the
//! producer may go on. As in Acero, a node that receives tells its producer to pause and later to resume; the
//! thresholds are this project's own.
#![tactic(auto)]

mod edge;

pub use edge::Edge;

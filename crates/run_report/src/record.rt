use plan_machine::Entry;
use plan_nodes::Plan;
use scalar_value::Seq;

/// What one run of a plan was: the plan, its setting, its history, and the greatest number of batches that waited on each
/// edge, in the order of the nodes.
#[derive(Debug, Drop)]
pub struct PlanRun {
    pub plan: Plan,
    pub batch: u32,
    pub workers: u32,
    pub pause: u32,
    pub resume: u32,
    pub history: Seq<Entry>,
    pub peaks: Seq<u32>,
}

/// The runs of a command, in their order.
#[derive(Debug, Drop)]
pub struct RunRecord {
    pub runs: Seq<PlanRun>,
}

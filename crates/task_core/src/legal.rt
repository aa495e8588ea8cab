ghost use Rattle.std.specs.Prelude.{◌≡◌, ◌↔◌, IsTrue, false};
ghost use Rattle.plan_machine.specs.Plan.{IsNode, IsWorker};
ghost use Rattle.plan_machine.specs.Enabled.{Enabled};
ghost use Rattle.plan_store.specs.Told.{plan_of, state_of};

use crate::state::PlanState;
use plan_machine::{Entry, Job};
use plan_nodes::Operator;

impl<O: Operator> PlanState<O> {
    /// Whether a worker without a task can claim a job at a node with this number, where no fetch stops what it reads and no
    /// edge has to be paused before.
    fn can_take(&self, worker: u32, node: u32, job: Job, number: u64) -> bool
        requires worker { IsWorker (plan_of self.now.given) worker }
        requires node { IsNode (plan_of self.now.given) node }
        requires sound { (state_of self.now).failed ≡ false }
        ensures { IsTrue result ↔ Enabled (plan_of self.now.given) (state_of self.now) (Entry.Claim worker node job number) }
    {
        if self.run.has_task(worker) {
            return false;
        }
        if self.first_stop().is_some() {
            return false;
        }
        if self.run.pause_due() {
            return false;
        }
        self.run.can_do(node, job, number)
    }

    /// Whether a worker can claim a job at a node with this number.
    fn can_claim(&self, worker: u32, node: u32, job: Job, number: u64) -> bool
        ensures { IsTrue result ↔ Enabled (plan_of self.now.given) (state_of self.now) (Entry.Claim worker node job number) }
    {
        !self.run.has_failed()
            && self.run.is_worker(worker)
            && self.run.is_node(node)
            && self.can_take(worker, node, job, number)
    }

    /// Whether an edge has to be paused now.
    fn can_pause(&self, edge: u32) -> bool
        ensures { IsTrue result ↔ Enabled (plan_of self.now.given) (state_of self.now) (Entry.Pause edge) }
    {
        !self.run.has_failed() && self.run.is_edge(edge) && self.run.is_over(edge)
    }

    /// Whether an edge may go on now.
    fn can_resume(&self, edge: u32) -> bool
        ensures { IsTrue result ↔ Enabled (plan_of self.now.given) (state_of self.now) (Entry.Resume edge) }
    {
        !self.run.has_failed() && self.run.is_edge(edge) && self.run.may_resume(edge)
    }

    /// Whether a node may end now.
    fn can_finish(&self, node: u32) -> bool
        ensures { IsTrue result ↔ Enabled (plan_of self.now.given) (state_of self.now) (Entry.Finish node) }
    {
        !self.run.has_failed() && self.run.is_node(node) && self.run.may_finish(node)
    }

    /// Whether a node stops what it reads now.
    fn can_stop(&self, node: u32) -> bool
        ensures { IsTrue result ↔ Enabled (plan_of self.now.given) (state_of self.now) (Entry.Stop node) }
    {
        !self.run.has_failed() && self.run.is_node(node) && self.may_stop(node)
    }

    /// Whether an entry can be added now. Its numbers may be any.
    pub fn enabled(&self, entry: &Entry) -> bool
        ensures { IsTrue result ↔ Enabled (plan_of self.now.given) (state_of self.now) entry.now }
    {
        match *entry {
            Entry::Claim {
                worker,
                node,
                job,
                batch,
            } => self.can_claim(worker, node, job, batch),
            Entry::Deliver { worker } | Entry::Fail { worker } => self.run.has_hand(worker),
            Entry::Pause { edge } => self.can_pause(edge),
            Entry::Resume { edge } => self.can_resume(edge),
            Entry::Finish { node } => self.can_finish(node),
            Entry::Stop { node } => self.can_stop(node),
        }
    }
}

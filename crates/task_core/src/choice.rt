ghost use Rattle.std.specs.Prelude.{◌≡◌, IfSome, IfNone};
ghost use Rattle.plan_machine.specs.Plan.{IsWorker};
ghost use Rattle.plan_machine.specs.Driver.{IsClaimChoice, NoClaim};
ghost use Rattle.plan_store.specs.Told.{plan_of, state_of};

use crate::state::PlanState;
use plan_nodes::Operator;
use plan_store::Flight;

impl<O: Operator> PlanState<O> {
    /// What a worker can claim first: at the lowest node, there the first job, there the lowest batch. None after a
    /// failure, or while the worker has a task in flight, a fetch stops what it reads, or an edge has to be paused.
    pub fn choice(&self, worker: u32) -> Option<Flight>
        requires { IsWorker (plan_of self.now.given) worker }
        ensures some { IfSome result (λ f. IsClaimChoice (plan_of self.now.given) (state_of self.now) worker f.node f.job f.number) }
        ensures none { IfNone result (NoClaim (plan_of self.now.given) (state_of self.now) worker) }
    {
        if self.run.has_failed() {
            return None;
        }
        if self.run.has_task(worker) {
            return None;
        }
        if self.first_stop().is_some() {
            return None;
        }
        if self.run.pause_due() {
            return None;
        }
        self.run.first_work()
    }
}

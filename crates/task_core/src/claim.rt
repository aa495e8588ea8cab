ghost use Rattle.std.specs.Prelude.{◌≡◌, ◌≤◌, IfSome, IfNone};
ghost use Rattle.plan_machine.specs.Plan.{IsWorker};
ghost use Rattle.plan_machine.specs.Driver.{IsClaimChoice, NoClaim};
ghost use Rattle.plan_store.specs.Told.{plan_of, state_of};
ghost use Rattle.run_state.specs.Calls.{Claimed};

use crate::state::PlanState;
use plan_nodes::Operator;
use plan_store::Flight;
use task_work::Task;

impl<O: Operator> PlanState<O> {
    /// Claims what was chosen for a worker.
    fn start(&mut self, worker: u32, flight: Flight) -> Task<O>
        requires chosen { IsClaimChoice (plan_of self.old.given) (state_of self.old) worker flight.node flight.job flight.number }
        requires room { 2 ≤ self.old.room }
        ensures { Claimed O.meaning O.local_is O.shared_is self.old self.new worker result.node result.kept result.batch result.work }
    {
        self.run.start(worker, flight)
    }

    /// Claims what a worker can claim first, and gives it its work; none where nothing can be claimed. The room for two
    /// entries is used: the claim's and its delivery's.
    pub fn claim(&mut self, worker: u32) -> Option<Task<O>>
        requires worker { IsWorker (plan_of self.old.given) worker }
        requires room { 2 ≤ self.old.room }
        ensures claimed { IfSome result (λ task. Claimed O.meaning O.local_is O.shared_is self.old self.new worker task.node task.kept task.batch task.work) }
        ensures none { IfNone result ((self.new ≡ self.old) × NoClaim (plan_of self.old.given) (state_of self.old) worker) }
    {
        match self.choice(worker) {
            Some(flight) => Some(self.start(worker, flight)),
            None => None,
        }
    }
}

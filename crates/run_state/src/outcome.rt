ghost use Rattle.std.specs.Prelude.{◌≡◌, ◌↔◌};
ghost use Rattle.plan_machine.specs.History.{IsEnded, HasFailed};
ghost use Rattle.plan_store.specs.Told.{plan_of, state_of};
ghost use Rattle.run_state.specs.Outcome.{ending_by};

use crate::state::RunState;
use plan_machine::Phase;
use plan_nodes::Operator;
use plan_store::Ending;

/// How a run stands with so many tasks in flight, by whether it failed and where its sink stands.
fn ending_of(flying: usize, failed: bool, sink: Phase) -> Ending
    ensures { result ≡ ending_by flying failed sink }
{
    if flying > 0 {
        Ending::Running
    } else if failed {
        Ending::Failed
    } else if sink == Phase::Done {
        Ending::Ended
    } else {
        Ending::Running
    }
}

impl<O: Operator> RunState<O> {
    /// Whether the run has ended, with its sink Done, or has failed, in both cases with nothing in flight; else it goes on.
    pub fn ended(&self) -> Ending
        ensures ended { (result ≡ Ending.Ended) ↔ IsEnded (plan_of self.now.given) (state_of self.now) }
        ensures failed { (result ≡ Ending.Failed) ↔ HasFailed (plan_of self.now.given) (state_of self.now) }
    {
        let sink = self.stages.len() - 1;
        ending_of(self.flying, self.failed, self.stages[sink].phase)
    }
}

ghost use Rattle.std.specs.Prelude.{◌≡◌, IfSome, IfNone};
ghost use Rattle.plan_machine.specs.Driver.{NoUpkeep, IsUpkeepChoice};
ghost use Rattle.plan_store.specs.Told.{plan_of, state_of};

use crate::state::PlanState;
use plan_machine::Entry;
use plan_nodes::Operator;

impl<O: Operator> PlanState<O> {
    /// The upkeep that is due first: to stop what a fetch reads, to pause an edge, to end a node, or to let an edge go on,
    /// each at its lowest number. None is due after a failure.
    pub fn upkeep(&self) -> Option<Entry>
        ensures some { IfSome result (λ x. IsUpkeepChoice (plan_of self.now.given) (state_of self.now) x) }
        ensures none { IfNone result (NoUpkeep (plan_of self.now.given) (state_of self.now)) }
    {
        if self.run.has_failed() {
            return None;
        }
        if let Some(node) = self.first_stop() {
            return Some(Entry::Stop { node });
        }
        if let Some(edge) = self.run.first_pause() {
            return Some(Entry::Pause { edge });
        }
        if let Some(node) = self.run.first_finish() {
            return Some(Entry::Finish { node });
        }
        match self.run.first_resume() {
            Some(edge) => Some(Entry::Resume { edge }),
            None => None,
        }
    }
}

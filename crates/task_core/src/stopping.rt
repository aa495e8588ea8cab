//! Which fetch stops what it reads.
ghost use Rattle.std.specs.Prelude.{◌≡◌, ◌↔◌, IsTrue, false, IfSome, IfNone};
ghost use Rattle.plan_machine.specs.Plan.{IsNode};
ghost use Rattle.plan_machine.specs.Enabled.{Enabled};
ghost use Rattle.plan_machine.specs.Driver.{NoneOf, IsLowest};
ghost use Rattle.plan_store.specs.Told.{plan_of, state_of};

use crate::state::PlanState;
use fetch_counts::is_met;
use plan_machine::Entry;
use plan_nodes::Operator;

impl<O: Operator> PlanState<O> {
    /// Whether a node is a fetch that has folded what it wants while its input goes on.
    pub(crate) fn may_stop(&self, node: u32) -> bool
        requires node { IsNode (plan_of self.now.given) node }
        requires sound { (state_of self.now).failed ≡ false }
        ensures { IsTrue result ↔ Enabled (plan_of self.now.given) (state_of self.now) (Entry.Stop node) }
    {
        is_met(&self.fronts[(node - 1) as usize]) && self.run.gathers_on(node)
    }

    /// The lowest fetch that stops what it reads.
    pub(crate) fn first_stop(&self) -> Option<u32>
        requires sound { (state_of self.now).failed ≡ false }
        ensures some { IfSome result (λ n. IsLowest (plan_of self.now.given) (state_of self.now) Entry.Stop n) }
        ensures none { IfNone result (NoneOf (plan_of self.now.given) (state_of self.now) Entry.Stop) }
    {
        for place in 0..self.run.node_count() {
            if self.may_stop(place + 1) {
                return Some(place + 1);
            }
        }
        None
    }
}

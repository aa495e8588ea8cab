ghost use Rattle.std.specs.Prelude.{◌≡◌, max, OnOk, OnErr};

use crate::state::PlanState;
use fetch_counts::reserve_fronts;
use plan_nodes::Operator;
use scalar_value::Mem;

impl<O: Operator> PlanState<O> {
    /// Makes room in the history for two entries more than there are tasks in flight, whose deliveries always have room:
    /// for a claim with its delivery, or for two other entries; and at each fetch room to count what may be folded till
    /// then. Refused for want of memory alone, and then all is as before.
    pub fn reserve(&mut self) -> Mem<()>
        ensures ok { OnOk result (self.new ≡ record self.old { room = max self.old.room 2 }) }
        ensures err { OnErr result (self.new ≡ self.old) }
    {
        reserve_fronts(&mut self.fronts, self.run.due_entries())?;
        self.run.reserve()
    }
}

ghost use Rattle.std.specs.Prelude.{◌≡◌, ◌+◌, length, max, OnOk, OnErr};
ghost use Rattle.plan_store.specs.Told.{plan_of, state_of};
ghost use Rattle.run_state.specs.Stored.{flying_in};

use crate::state::RunState;
use plan_nodes::Operator;
use scalar_value::Mem;

impl<O: Operator> RunState<O> {
    /// Makes room in the history for two entries more than there are tasks in flight, whose deliveries always have room:
    /// for a claim with its delivery, or for two other entries. Refused for want of memory alone, and then all is as before.
    pub fn reserve(&mut self) -> Mem<()>
        ensures ok { OnOk result (self.new ≡ record self.old { room = max self.old.room 2 }) }
        ensures err { OnErr result (self.new ≡ self.old) }
    {
        let room = self.room.max(2);
        self.history.reserve(self.flying + room)?;
        self.room = room;
        Ok(())
    }

    /// How many entries have room once there is room for two more: the deliveries of what is in flight, and those.
    pub fn due_entries(&self) -> usize
        ensures { result ≡ flying_in (plan_of self.now.given) (state_of self.now) + max self.now.room 2 }
    {
        self.flying + self.room.max(2)
    }

    /// How many entries the history has.
    pub fn length(&self) -> u64
        ensures { result ≡ length self.now.history }
    {
        self.history.len() as u64
    }
}

ghost use Rattle.std.specs.Prelude.{◌≡◌, ◌<◌, ◌≤◌, slice_set, slice_index_or, vec_len, Option, Some, None, IsSome};
ghost use Rattle.plan_machine.specs.Enabled.{Enabled};
ghost use Rattle.plan_store.specs.declared.stage.Stage.{Stage};
ghost use Rattle.plan_store.specs.declared.stage.Flight.{Flight};
ghost use Rattle.plan_store.specs.Putting.{less_busy};
ghost use Rattle.plan_store.specs.Told.{plan_of, state_of, with_entry};

use crate::state::RunState;
use plan_machine::Entry;
use plan_nodes::Operator;
use plan_store::{Flight, Stage};

/// Takes the task in flight from a seat that has one.
pub fn leave_seat(seats: &mut Vec<Option<Flight>>, place: usize) -> Flight
    requires within { place < vec_len seats.old }
    requires taken { (d : Option Flight) → IsSome (slice_index_or seats.old.items place d) }
    ensures was { (d : Option Flight) → slice_index_or seats.old.items place d ≡ Some result }
    ensures left { seats.new.items ≡ slice_set seats.old.items place None }
{
    seats[place].take().unwrap()
}

/// One task less is in flight at a node.
pub fn leave_node(stages: &mut Vec<Stage>, place: usize)
    requires within { place < vec_len stages.old }
    requires busy { (d : Stage) → 1 ≤ (slice_index_or stages.old.items place d).busy }
    ensures { (d : Stage) → stages.new.items ≡ slice_set stages.old.items place (less_busy (slice_index_or stages.old.items place d)) }
{
    stages[place].busy -= 1;
}

impl<O: Operator> RunState<O> {
    /// Ends the task of a worker that found no memory for it, and with it the run: from then on nothing is claimed, and
    /// what is still in flight is dropped when it is delivered.
    pub fn fail(&mut self, worker: u32)
        requires { Enabled (plan_of self.old.given) (state_of self.old) (Entry.Fail worker) }
        ensures { self.new ≡ with_entry self.old (Entry.Fail worker) 0 }
    {
        let _room = self.room;
        let flight = leave_seat(&mut self.seats, (worker - 1) as usize);
        leave_node(&mut self.stages, (flight.node - 1) as usize);
        self.flying -= 1;
        self.failed = true;
        self.history.push_reserved(Entry::Fail { worker });
    }
}

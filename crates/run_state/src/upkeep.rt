ghost use Rattle.std.specs.Prelude.{◌≡◌, ◌<◌, ◌≤◌, slice_set, slice_index_or, vec_len};
ghost use Rattle.plan_machine.specs.Enabled.{Enabled};
ghost use Rattle.plan_store.specs.declared.stage.Stage.{Stage};
ghost use Rattle.run_state.specs.Stages.{ended};
ghost use Rattle.plan_store.specs.Told.{plan_of, state_of, with_entry};

use crate::state::RunState;
use plan_machine::{Entry, Phase};
use plan_nodes::Operator;
use plan_store::{Stage, set_paused};

/// A node ends.
fn set_done(stages: &mut Vec<Stage>, place: usize)
    requires { place < vec_len stages.old }
    ensures { (d : Stage) → stages.new.items ≡ slice_set stages.old.items place (ended (slice_index_or stages.old.items place d)) }
{
    stages[place].phase = Phase::Done;
}

impl<O: Operator> RunState<O> {
    /// Lets an edge go on that is paused, and on which no more batches wait than the lower threshold.
    pub fn resume(&mut self, edge: u32)
        requires enabled { Enabled (plan_of self.old.given) (state_of self.old) (Entry.Resume edge) }
        requires room { 1 ≤ self.old.room }
        ensures { self.new ≡ with_entry self.old (Entry.Resume edge) 1 }
    {
        let _room = self.room;
        set_paused(&mut self.queues, (edge - 1) as usize, false);
        self.history.push_reserved(Entry::Resume { edge });
        self.room -= 1;
    }

    /// Ends a node that has given all of its rows, with none of its tasks in flight. As in Acero, a node is finished once
    /// it has sent its last batch on.
    pub fn finish(&mut self, node: u32)
        requires enabled { Enabled (plan_of self.old.given) (state_of self.old) (Entry.Finish node) }
        requires room { 1 ≤ self.old.room }
        ensures { self.new ≡ with_entry self.old (Entry.Finish node) 1 }
    {
        let _room = self.room;
        set_done(&mut self.stages, (node - 1) as usize);
        self.history.push_reserved(Entry::Finish { node });
        self.room -= 1;
    }
}

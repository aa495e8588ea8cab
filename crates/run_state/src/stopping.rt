//! A fetch that has seen the rows that it wants stops what it reads, as Acero's fetch node does.
ghost use Rattle.std.specs.Prelude.{◌≡◌, ◌-◌, ◌<◌, ◌≤◌, ◌&&◌, ◌||◌, ℕ, suc, false, nat_eq, nat_lt, length, slice_set, slice_index_or, vec_len};
ghost use Rattle.plan_machine.specs.Enabled.{Enabled};
ghost use Rattle.plan_store.specs.declared.stage.NodeInfo.{NodeInfo};
ghost use Rattle.plan_store.specs.declared.stage.Stage.{Stage};
ghost use Rattle.plan_store.specs.declared.queue.Queue.{Queue};
ghost use Rattle.plan_store.specs.Told.{plan_of, state_of, with_entry};
ghost use Rattle.run_state.specs.Stages.{ended};
ghost use Rattle.plan_store.specs.Putting.{HasPlace};
ghost use Rattle.run_state.specs.Stopping.{IsEmptied, AreEnded, AreEmptied};

use crate::state::RunState;
use plan_machine::{Entry, Phase};
use plan_nodes::Operator;
use plan_store::{NodeInfo, Queue, Stage};

/// Nothing waits on an edge any more.
fn empty_edge(queue: &mut Queue)
    ensures { IsEmptied queue.old queue.new }
{
    queue.waiting.clear();
    queue.edge.clear();
}

/// A node ends, and nothing waits on its edge any more.
fn end_node(stages: &mut Vec<Stage>, queues: &mut Vec<Queue>, place: usize)
    requires stage { place < vec_len stages.old }
    requires queue { place < vec_len queues.old }
    ensures stages { (d : Stage) → stages.new.items ≡ slice_set stages.old.items place (ended (slice_index_or stages.old.items place d)) }
    ensures queues { (d : Queue) → (q : Queue) × (queues.new.items ≡ slice_set queues.old.items place q) × IsEmptied (slice_index_or queues.old.items place d) q }
{
    stages[place].phase = Phase::Done;
    empty_edge(&mut queues[place]);
}

/// Whether a node with this user is below the other, where the nodes behind it that are below have their mark.
fn leads_to(below: &[bool], user: u32, node: u32) -> bool
    requires user { 1 ≤ user }
    requires marks { node ≤ length below.now }
    ensures { result ≡ (nat_eq user node || (nat_lt user node && slice_index_or below.now (user - 1) false)) }
{
    user == node || (user < node && below[(user - 1) as usize])
}

/// Ends all nodes from which edges lead to this one, each once: a node is below where its user is the node, or is below.
fn end_below(infos: &[NodeInfo], stages: &mut Vec<Stage>, queues: &mut Vec<Queue>, node: u32)
    requires few { length infos.now ≤ 256 }
    requires node { HasPlace infos.now node }
    requires users { (k : ℕ) (d : NodeInfo) → suc k < length infos.now → suc k < (slice_index_or infos.now k d).user }
    requires stages { vec_len stages.old ≡ length infos.now }
    requires queues { vec_len queues.old ≡ length infos.now }
    ensures stages { AreEnded infos.now node stages.old.items stages.new.items }
    ensures queues { AreEmptied infos.now node queues.old.items queues.new.items }
{
    let mut below = [false; 256];
    for done in 0..node - 1 {
        let place = (node - 2 - done) as usize;
        if leads_to(&below, infos[place].user, node) {
            below[place] = true;
            end_node(stages, queues, place);
        }
    }
}

impl<O: Operator> RunState<O> {
    /// Ends all nodes below a fetch that has seen the rows that it wants: nothing waits on their edges any more, and what is
    /// in flight at them is dropped when it is delivered.
    pub fn stop(&mut self, node: u32)
        requires enabled { Enabled (plan_of self.old.given) (state_of self.old) (Entry.Stop node) }
        requires room { 1 ≤ self.old.room }
        ensures { self.new ≡ with_entry self.old (Entry.Stop node) 1 }
    {
        let _room = self.room;
        end_below(&self.infos, &mut self.stages, &mut self.queues, node);
        self.history.push_reserved(Entry::Stop { node });
        self.room -= 1;
    }
}

ghost use Rattle.std.specs.Prelude.{◌≡◌, ◌↔◌, IsTrue, false, IfSome, IfNone};
ghost use Rattle.plan_machine.specs.Plan.{IsNode, IsEdge};
ghost use Rattle.plan_machine.specs.Enabled.{Enabled, CanResume};
ghost use Rattle.plan_machine.specs.Driver.{NoneOf, IsLowest};
ghost use Rattle.plan_store.specs.Told.{plan_of, state_of};
ghost use Rattle.run_state.specs.Due.{finish_by};

use crate::choice::input_of;
use crate::state::RunState;
use plan_machine::{Entry, Phase};
use plan_nodes::Operator;
use plan_store::Stage;

/// Whether a node has nothing left to do. `ended` says whether the input that its phase reads has ended.
fn may_end(stage: &Stage, tails: bool, ended: bool) -> bool
    ensures { result ≡ finish_by stage.now.phase stage.now.next stage.now.count stage.now.busy tails ended }
{
    let idle = stage.busy == 0;
    match stage.phase {
        Phase::Emitting | Phase::Tailing => idle && stage.next == stage.count,
        Phase::Streaming => idle && !tails && ended,
        Phase::Sealed => idle,
        Phase::Folding | Phase::Done => false,
    }
}

impl<O: Operator> RunState<O> {
    /// Whether an edge may go on.
    pub fn may_resume(&self, edge: u32) -> bool
        requires { IsEdge (plan_of self.now.given) edge }
        ensures { IsTrue result ↔ CanResume (plan_of self.now.given) (state_of self.now) edge }
    {
        self.queues[(edge - 1) as usize]
            .edge
            .may_resume(self.setting.resume)
    }

    /// Whether a node may end.
    pub fn may_finish(&self, node: u32) -> bool
        requires node { IsNode (plan_of self.now.given) node }
        requires sound { (state_of self.now).failed ≡ false }
        ensures { IsTrue result ↔ Enabled (plan_of self.now.given) (state_of self.now) (Entry.Finish node) }
    {
        let place = (node - 1) as usize;
        let stage = self.stages[place];
        let info = self.infos[place];
        let input = input_of(stage.phase, &info, node);
        let ended = self.is_ended(input);
        may_end(&stage, info.shape.tails, ended)
    }

    /// The lowest edge that has to be paused.
    pub fn first_pause(&self) -> Option<u32>
        requires sound { (state_of self.now).failed ≡ false }
        ensures some { IfSome result (λ e. IsLowest (plan_of self.now.given) (state_of self.now) Entry.Pause e) }
        ensures none { IfNone result (NoneOf (plan_of self.now.given) (state_of self.now) Entry.Pause) }
    {
        for edge in 1..self.node_count() {
            if self.is_over(edge) {
                return Some(edge);
            }
        }
        None
    }

    /// The lowest node that may end.
    pub fn first_finish(&self) -> Option<u32>
        requires sound { (state_of self.now).failed ≡ false }
        ensures some { IfSome result (λ n. IsLowest (plan_of self.now.given) (state_of self.now) Entry.Finish n) }
        ensures none { IfNone result (NoneOf (plan_of self.now.given) (state_of self.now) Entry.Finish) }
    {
        for place in 0..self.node_count() {
            if self.may_finish(place + 1) {
                return Some(place + 1);
            }
        }
        None
    }

    /// The lowest edge that may go on.
    pub fn first_resume(&self) -> Option<u32>
        requires sound { (state_of self.now).failed ≡ false }
        ensures some { IfSome result (λ e. IsLowest (plan_of self.now.given) (state_of self.now) Entry.Resume e) }
        ensures none { IfNone result (NoneOf (plan_of self.now.given) (state_of self.now) Entry.Resume) }
    {
        for edge in 1..self.node_count() {
            if self.may_resume(edge) {
                return Some(edge);
            }
        }
        None
    }
}

ghost use Rattle.std.specs.Prelude.{◌≡◌, ℕ, ◌<◌, ◌↔◌, IsTrue, true, false, length, None, IfSome, IfNone};
ghost use Rattle.plan_machine.specs.declared.entry.Phase.TheVariants.{Folding, Done};
ghost use Rattle.plan_machine.specs.Plan.{IsNode, IsEdge, IsWorker, folds_from};
ghost use Rattle.plan_machine.specs.State.{IsEndedEdge};
ghost use Rattle.plan_machine.specs.Enabled.{CanPause};
ghost use Rattle.plan_store.specs.Told.{plan_of, state_of};
ghost use Rattle.run_state.specs.Choosing.{job_by, input_by, number_by, NoJob, IsFirstJob, IsFirstWork, NoWork};

use crate::state::RunState;
use plan_machine::{Job, Phase};
use plan_nodes::Operator;
use plan_store::{Flight, NodeInfo, Stage};

/// The job that a node's phase allows. `waits` says whether a batch waits on the input that the phase reads, `ended`
/// whether that input has ended, and `paused` whether the node's own edge is paused.
fn job_of(stage: &Stage, tails: bool, paused: bool, waits: bool, ended: bool) -> Option<Job>
    ensures { result ≡ job_by stage.now.phase stage.now.next stage.now.count stage.now.busy tails paused waits ended }
{
    let gives = stage.next < stage.count && !paused;
    let idle = stage.busy == 0;
    match stage.phase {
        Phase::Emitting if gives => Some(Job::Emit),
        Phase::Folding if waits => Some(Job::Fold),
        Phase::Folding if ended && idle => Some(Job::Seal),
        Phase::Streaming if waits && !paused => Some(Job::Stream),
        Phase::Streaming if ended && tails && idle => Some(Job::Close),
        Phase::Tailing if gives => Some(Job::Tail),
        _ => None,
    }
}

/// Whether a node gathers an input. `ended` says whether the node that gives it has ended.
fn is_gathering(stage: &Stage, ended: bool) -> bool
    ensures { IsTrue result ↔ ((stage.now.phase ≡ Folding) × (ended ≡ false)) }
{
    stage.phase == Phase::Folding && !ended
}

/// The input that a node reads in this phase; in a phase that reads none, the node itself.
pub fn input_of(phase: Phase, info: &NodeInfo, node: u32) -> u32
    ensures { result ≡ input_by phase info.now.shape.streams info.now.first info.now.second node }
{
    match phase {
        Phase::Folding if info.shape.streams => info.second,
        Phase::Folding | Phase::Streaming => info.first,
        Phase::Emitting | Phase::Tailing | Phase::Sealed | Phase::Done => node,
    }
}

/// The number of the batch that the job gives, or the place of the one that it takes.
fn number_of(job: Job, stage: &Stage) -> u64
    ensures { result ≡ number_by job stage.now.next }
{
    match job {
        Job::Emit | Job::Tail => stage.next,
        Job::Fold | Job::Seal | Job::Stream | Job::Close => 0,
    }
}

impl<O: Operator> RunState<O> {
    /// How many nodes the plan has.
    pub fn node_count(&self) -> u32
        ensures { result ≡ (plan_of self.now.given).sink }
    {
        self.stages.len() as u32
    }

    /// Whether a worker failed.
    pub fn has_failed(&self) -> bool
        ensures { result ≡ (state_of self.now).failed }
    {
        self.failed
    }

    /// Whether a batch waits on an edge.
    fn waits(&self, edge: u32) -> bool
        requires { IsNode (plan_of self.now.given) edge }
        ensures { IsTrue result ↔ (0 < length ((state_of self.now).waiting edge)) }
    {
        self.queues[(edge - 1) as usize].edge.waiting > 0
    }

    /// Whether an edge is paused.
    pub fn is_paused(&self, edge: u32) -> bool
        requires { IsNode (plan_of self.now.given) edge }
        ensures { result ≡ (state_of self.now).paused edge }
    {
        self.queues[(edge - 1) as usize].edge.paused
    }

    /// Whether a node has ended.
    pub fn is_done(&self, node: u32) -> bool
        requires { IsNode (plan_of self.now.given) node }
        ensures { IsTrue result ↔ ((state_of self.now).phase node ≡ Done) }
    {
        self.stages[(node - 1) as usize].phase == Phase::Done
    }

    /// Whether a node gathers an input that goes on.
    pub fn gathers_on(&self, node: u32) -> bool
        requires node { IsNode (plan_of self.now.given) node }
        requires sound { (state_of self.now).failed ≡ false }
        ensures { IsTrue result ↔ (((state_of self.now).phase node ≡ Folding) × ((state_of self.now).phase (folds_from (plan_of self.now.given) node) ≡ Done → ⊥)) }
    {
        let place = (node - 1) as usize;
        let stage = self.stages[place];
        let info = self.infos[place];
        let input = input_of(stage.phase, &info, node);
        let ended = self.is_done(input);
        is_gathering(&stage, ended)
    }

    /// Whether an edge has ended: the node that gives it has, and nothing waits on it.
    pub fn is_ended(&self, edge: u32) -> bool
        requires { IsNode (plan_of self.now.given) edge }
        ensures { IsTrue result ↔ IsEndedEdge (plan_of self.now.given) (state_of self.now) edge }
    {
        self.is_done(edge) && !self.waits(edge)
    }

    /// Whether an edge has to be paused.
    pub fn is_over(&self, edge: u32) -> bool
        requires { IsEdge (plan_of self.now.given) edge }
        ensures { IsTrue result ↔ CanPause (plan_of self.now.given) (state_of self.now) edge }
    {
        self.queues[(edge - 1) as usize]
            .edge
            .over(self.setting.pause)
    }

    /// Whether any edge has to be paused.
    pub fn pause_due(&self) -> bool
        ensures yes { result ≡ true → (e : ℕ) × CanPause (plan_of self.now.given) (state_of self.now) e }
        ensures no { result ≡ false → (e : ℕ) → CanPause (plan_of self.now.given) (state_of self.now) e → ⊥ }
    {
        for edge in 1..self.node_count() {
            if self.is_over(edge) {
                return true;
            }
        }
        false
    }

    /// Whether a worker has a task in flight.
    pub fn has_task(&self, worker: u32) -> bool
        requires { IsWorker (plan_of self.now.given) worker }
        ensures { result ≡ false ↔ ((state_of self.now).tasks worker ≡ None) }
    {
        self.seats[(worker - 1) as usize].is_some()
    }

    /// What can be done first at a node, or none where nothing can be done there.
    fn job_at(&self, node: u32) -> Option<Flight>
        requires node { IsNode (plan_of self.now.given) node }
        requires sound { (state_of self.now).failed ≡ false }
        ensures some { IfSome result (λ f. (f.node ≡ node) × IsFirstJob (plan_of self.now.given) (state_of self.now) node f.job f.number) }
        ensures none { IfNone result (NoJob (plan_of self.now.given) (state_of self.now) node) }
    {
        let place = (node - 1) as usize;
        let stage = self.stages[place];
        let info = self.infos[place];
        let input = input_of(stage.phase, &info, node);
        let waits = self.waits(input);
        let ended = self.is_ended(input);
        let paused = self.is_paused(node);
        match job_of(&stage, info.shape.tails, paused, waits, ended) {
            Some(job) => Some(Flight {
                node,
                job,
                number: number_of(job, &stage),
            }),
            None => None,
        }
    }

    /// What can be done first at the lowest node at which anything can be done.
    pub fn first_work(&self) -> Option<Flight>
        requires sound { (state_of self.now).failed ≡ false }
        ensures some { IfSome result (λ f. IsFirstWork (plan_of self.now.given) (state_of self.now) f.node f.job f.number) }
        ensures none { IfNone result (NoWork (plan_of self.now.given) (state_of self.now)) }
    {
        for place in 0..self.node_count() {
            if let Some(flight) = self.job_at(place + 1) {
                return Some(flight);
            }
        }
        None
    }
}

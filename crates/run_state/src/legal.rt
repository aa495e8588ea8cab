ghost use Rattle.std.specs.Prelude.{◌≡◌, ◌↔◌, ◌<◌, IsTrue, false, length};
ghost use Rattle.plan_machine.specs.InFlight.{phase_of};
ghost use Rattle.plan_machine.specs.Plan.{IsNode, IsEdge, IsWorker};
ghost use Rattle.plan_machine.specs.Enabled.{CanDo, HasTask};
ghost use Rattle.plan_store.specs.Told.{plan_of, state_of};
ghost use Rattle.run_state.specs.Legal.{MayDo};

use crate::choice::input_of;
use crate::state::RunState;
use plan_machine::{Job, Phase};
use plan_nodes::Operator;
use plan_store::Stage;

/// The phase at which a job is done.
fn phase_for(job: Job) -> Phase
    ensures { result ≡ phase_of job }
{
    match job {
        Job::Emit => Phase::Emitting,
        Job::Fold | Job::Seal => Phase::Folding,
        Job::Stream | Job::Close => Phase::Streaming,
        Job::Tail => Phase::Tailing,
    }
}

/// Whether a job of its phase can be done at a node with this number. `waiting` says how many batches wait on the input
/// that the phase reads, `ended` whether it has ended, and `paused` whether the node's own edge is paused.
fn may_do(
    job: Job,
    stage: &Stage,
    tails: bool,
    paused: bool,
    waiting: u32,
    ended: bool,
    number: u64,
) -> bool
    ensures { IsTrue result ↔ MayDo job stage.now.next stage.now.count stage.now.busy tails paused waiting ended number }
{
    let at_end = stage.busy == 0 && ended && number == 0;
    match job {
        Job::Emit | Job::Tail => stage.next == number && number < stage.count && !paused,
        Job::Fold => number < u64::from(waiting),
        Job::Seal => at_end,
        Job::Stream => number < u64::from(waiting) && !paused,
        Job::Close => at_end && tails,
    }
}

impl<O: Operator> RunState<O> {
    /// Whether there is a node of this number.
    pub fn is_node(&self, node: u32) -> bool
        ensures { IsTrue result ↔ IsNode (plan_of self.now.given) node }
    {
        node >= 1 && node <= self.node_count()
    }

    /// Whether there is an edge of this number, which every node but the sink gives.
    pub fn is_edge(&self, edge: u32) -> bool
        ensures { IsTrue result ↔ IsEdge (plan_of self.now.given) edge }
    {
        edge >= 1 && edge < self.node_count()
    }

    /// Whether there is a worker of this number.
    pub fn is_worker(&self, worker: u32) -> bool
        ensures { IsTrue result ↔ IsWorker (plan_of self.now.given) worker }
    {
        worker >= 1 && worker <= self.setting.workers
    }

    /// How many batches wait on an edge.
    fn waiting(&self, edge: u32) -> u32
        requires { IsNode (plan_of self.now.given) edge }
        ensures { result ≡ length ((state_of self.now).waiting edge) }
    {
        self.queues[(edge - 1) as usize].edge.waiting
    }

    /// Whether a job can be done at a node with this number.
    pub fn can_do(&self, node: u32, job: Job, number: u64) -> bool
        requires node { IsNode (plan_of self.now.given) node }
        requires sound { (state_of self.now).failed ≡ false }
        ensures { IsTrue result ↔ CanDo (plan_of self.now.given) (state_of self.now) node job number }
    {
        let place = (node - 1) as usize;
        let stage = self.stages[place];
        let info = self.infos[place];
        if stage.phase != phase_for(job) {
            return false;
        }
        let input = input_of(stage.phase, &info, node);
        let waiting = self.waiting(input);
        let ended = self.is_ended(input);
        let paused = self.is_paused(node);
        may_do(
            job,
            &stage,
            info.shape.tails,
            paused,
            waiting,
            ended,
            number,
        )
    }

    /// Whether a worker has a task in flight to deliver, or to fail at.
    pub fn has_hand(&self, worker: u32) -> bool
        ensures { IsTrue result ↔ HasTask (plan_of self.now.given) (state_of self.now) worker }
    {
        self.is_worker(worker) && self.has_task(worker)
    }
}

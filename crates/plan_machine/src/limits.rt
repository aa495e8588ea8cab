// The laws on what a run never does: hold too much, or come to a stop. A law has nothing to run.

ghost use Rattle.plan_machine.specs.Examples.{StoppingPremisesCanBeMet};
ghost use Rattle.plan_machine.specs.Laws.{Bounded, NeverStuck, PremisesCanBeMet};

/// The bound, in every state of every history: on each edge, the waiting batches and the tasks in flight
/// that give a batch to it or took one from it are together at most `pause` and one for each worker.
pub fn bounded<R>()
    ensures { Bounded R }
{}

/// Never stuck: in a state of a history where no Fail came, the sink isn't Done, nothing is in flight and
/// no upkeep is due, each worker has something to claim.
pub fn never_stuck<R>()
    ensures { NeverStuck R }
{}

/// What the laws ask of a plan can be met: there is a plan with a full join, a budget of it, and a history
/// of it that ends.
pub fn premises_can_be_met()
    ensures { PremisesCanBeMet }
{}

/// What the laws ask of a plan can also be met by one with a filter, an order_by and a fetch, and a history
/// of it in which an edge is paused and resumed, and the fetch stops the nodes below it.
pub fn stopping_premises_can_be_met()
    ensures { StoppingPremisesCanBeMet }
{}

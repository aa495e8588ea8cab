//! The laws of plans. Each is a function that does nothing: its contract is the law.
ghost use Rattle.plan_nodes.specs.PlanLaws.{PlansAreLawful, PlansAreWellFormed, PlansExist};

/// What the plan machine's laws ask is met by every plan of nodes, over all tables and at every pace: the machine's plan
/// is well formed, and each of its nodes is lawful.
pub fn plans_are_well_formed()
    ensures well_formed { PlansAreWellFormed }
    ensures lawful { PlansAreLawful }
{}

/// There are such plans: one over two tables, with a full join, a filter and a sink.
pub fn plans_exist()
    ensures { PlansExist }
{}

//! The laws of bounds. Each is a function that does nothing: its contract is the law.
ghost use Rattle.plan_bounds.specs.BoundLaws.{BoundsAreBudgets, PlansEnd, WorkedBound};
ghost use Rattle.plan_bounds.specs.Computed.{PlansAreSorted};

use plan_machine::no_more_entries;
use plan_nodes::plans_are_well_formed;
use row_table::Row;

/// The bounds on rows and batches are a budget of the machine's plan, for every plan, over all tables and at every pace:
/// no node gives more rows, and none more batches, in any run.
pub fn bounds_are_budgets()
    ensures { BoundsAreBudgets }
{}

/// Every run of a plan ends: no history, also none that fails, has more entries than ten for each batch of the bounds
/// and eight for each node.
pub fn plans_end()
    ensures { PlansEnd }
{
    plans_are_well_formed();
    bounds_are_budgets();
    no_more_entries::<Row>();
}

/// A worked number: with sources of three and of two rows, a hashjoin, a project and the sink, in batches of two rows, a run
/// has at most 330 entries.
pub fn worked_bound()
    ensures { WorkedBound }
{}

/// In every plan, each input stands before its user.
pub fn plans_are_sorted()
    ensures { PlansAreSorted }
{}

//! The laws of chains. Each is a function that gives nothing: its contract is the law.
ghost use Rattle.chain_plans.specs.ChainLaws.{ChainsArePlans, ChainsMean};

use plan_machine::meaning_is_whole;
use plan_nodes::plans_are_well_formed;
use row_table::Row;

/// A source, steps whose expressions have types over the columns before them, and a sink are a plan.
pub fn chains_are_plans()
    ensures { ChainsArePlans }
{}

/// Such a plan means what its steps give of the table's rows, one after another, whatever the pace of the run.
pub fn chains_mean()
    ensures { ChainsMean }
{
    plans_are_well_formed();
    meaning_is_whole::<Row>();
}

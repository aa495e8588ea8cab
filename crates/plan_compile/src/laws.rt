//! What the plans of verbs mean. These functions do nothing: each is its contract.
ghost use Rattle.plan_compile.specs.CompileLaws.{VerbsAreSteps, TreesMean, PlansMean};

use chain_plans::{chains_are_plans, chains_mean};
use verb_meaning::verbs_keep_sameness;

/// The steps of a verb that suits a table fit its columns, leave the verb's columns, and give the verb's rows.
pub fn verbs_are_steps()
    ensures { VerbsAreSteps }
{}

/// The tree of verbs, each of which suits the table before it, gives the rows and columns of the table that they mean.
pub fn trees_mean()
    ensures { TreesMean }
{
    verbs_are_steps();
    verbs_keep_sameness();
}

/// The plan of such a tree is well formed and means that table's rows, whatever the pace of the run.
pub fn plans_mean()
    ensures { PlansMean }
{
    trees_mean();
    chains_are_plans();
    chains_mean();
}

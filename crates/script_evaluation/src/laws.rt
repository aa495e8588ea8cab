//! What the evaluation of a script says of its plan. This function does nothing: it is its contract.
ghost use Rattle.script_evaluation.specs.EvaluationLaws.{PlansMeanTheirTables};

use plan_compile::trees_mean;
use verb_meaning::verbs_keep_sameness;
use verb_types::checked_verbs_suit;

/// The tree of an evaluated script is over one of the tables, is no larger than a plan may be, and gives the rows and columns
/// of the table that the script means.
pub fn plans_mean_their_tables()
    ensures { PlansMeanTheirTables }
{
    checked_verbs_suit();
    verbs_keep_sameness();
    trees_mean();
}

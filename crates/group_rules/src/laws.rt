//! What holds of grouping columns, whatever their names. These functions do nothing: each is its contract.
ghost use Rattle.group_rules.specs.GroupLaws.{OnceAmong, OnceDistinct, OnceItself, SummarisedDistinct};

/// Names that are each taken once are distinct, are the same names, and are just the names where these are distinct.
pub fn names_once()
    ensures distinct { OnceDistinct }
    ensures the_same { OnceAmong }
    ensures itself { OnceItself }
{}

/// The groups that a summary leaves of distinct groups are distinct.
pub fn summarised_groups_differ()
    ensures { SummarisedDistinct }
{}

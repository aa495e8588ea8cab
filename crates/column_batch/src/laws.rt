//! What holds of rows that fit the types of columns, whatever the rows. These functions do nothing:
//! each is its contract.
ghost use Rattle.column_batch.specs.BatchLaws.{FitsByKinds, FitsJoined, FitsTaken, FitsDropped, FitsFiltered, FitsPlaced};

/// Rows fit the columns of a table exactly where they fit the types of these columns.
pub fn fits_by_kinds()
    ensures { FitsByKinds }
{}

/// Rows behind rows fit exactly where both fit; the first rows, the rows but the first, those that pass a test,
/// and those at some places fit where all do.
pub fn fits_parts()
    ensures joined { FitsJoined }
    ensures taken { FitsTaken }
    ensures dropped { FitsDropped }
    ensures filtered { FitsFiltered }
    ensures placed { FitsPlaced }
{}

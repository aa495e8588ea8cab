use plan_machine::Entry;
use row_table::Row;
use scalar_value::Seq;

/// What a run gives that has ended: the rows of its sink, its history, and the greatest number of batches that waited on
/// each edge, in the order of the nodes.
#[derive(Debug, Drop)]
pub struct Finished {
    pub rows: Seq<Row>,
    pub history: Seq<Entry>,
    pub peaks: Seq<u32>,
}

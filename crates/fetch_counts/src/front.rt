ghost use Rattle.std.specs.Prelude.{◌≡◌, ◌≤◌};

/// Folded batches whose indexes follow one another without a gap: from which index on, below which one, and how many rows.
#[derive(Debug, Clone, Copy)]
pub struct Run {
    pub from: u128,
    pub upto: u128,
    pub rows: u64,
    ghost ordered: { from ≤ upto },
}

/// For a fetch the rows that it wants to see; the run of folded batches from index 0 on; and the runs behind gaps.
#[derive(Debug, Drop)]
pub struct Front {
    pub wanted: Option<u64>,
    pub first: Run,
    pub behind: Vec<Run>,
    ghost begins: { first.from ≡ 0 },
}

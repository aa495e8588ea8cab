// What a node does with its inputs, and how long its lists of batches are.

ghost use Rattle.std.specs.Prelude.{◌≡◌, ◌<◌};
ghost use Rattle.plan_machine.specs.Phases.{first_phase_of, phase_after_seal_of, part_count_of};

use crate::entry::Phase;

/// What a node does: it may gather one input whole before it gives a row, as an aggregate, an order_by
/// or the build side of a hashjoin; give rows for each batch of an input, as a filter, a project or the
/// probe side of a hashjoin; and give rows at its end, as an aggregate, or a right or full hashjoin.
#[derive(Clone, Copy, PartialEq, Eq, Debug)]
pub struct OpShape {
    pub folds: bool,
    pub streams: bool,
    pub tails: bool,
}

/// The phase in which a node starts. The shape of a source is not looked at.
pub fn first_phase(is_source: bool, shape: OpShape) -> Phase
    ensures { result ≡ first_phase_of is_source shape }
{
    if is_source {
        Phase::Emitting
    } else if shape.folds {
        Phase::Folding
    } else {
        Phase::Streaming
    }
}

/// The phase of a node that has sealed what it gathered.
pub fn phase_after_seal(shape: OpShape) -> Phase
    ensures { result ≡ phase_after_seal_of shape.streams shape.tails }
{
    if shape.streams {
        Phase::Streaming
    } else if shape.tails {
        Phase::Tailing
    } else {
        Phase::Sealed
    }
}

/// How many batches hold this many rows, where each but the last has `batch` rows: none where there are
/// no rows.
pub fn part_count(rows: u64, batch: u32) -> u64
    requires { 0 < batch }
    ensures { result ≡ part_count_of rows batch }
{
    let size = u64::from(batch);
    if rows % size == 0 {
        rows / size
    } else {
        rows / size + 1
    }
}

//! The right rows that match no left row, and the parts in which they are given.
ghost use Rattle.std.specs.Prelude.{◌≡◌, ◌*◌, ◌++◌, IfOk, map, take, drop};
ghost use Rattle.plan_nodes.specs.Kinds.{unmatched};

use crate::matches::is_matched;
use crate::window::joined;
use plan_nodes::JoinSpec;
use row_table::Row;
use scalar_value::{Mem, Seq, Value};
use std::alloc::Global;

/// Copies of the right rows that match none of these left rows.
pub(crate) fn unmatched_of(
    alloc: Global,
    spec: &JoinSpec,
    built: &[Row],
    streamed: &[Row],
) -> Mem<Seq<Row>>
    ensures { IfOk result (λ made. made ≡ unmatched spec.now built.now streamed.now) }
{
    let mut made = Seq::new(alloc);
    for y in built {
        if !is_matched(spec, y, streamed) {
            made.push(y.copy()?)?;
        }
    }
    Ok(made)
}

/// The rows of part `k`, where each part but the last has `size` rows. Behind the last there are none.
pub(crate) fn part_of(rows: &[Row], k: u64, size: u32) -> &[Row]
    ensures { result.now ≡ take size (drop (k * size) rows.now) }
{
    let count = rows.len() as u64;
    let skip = match k.checked_mul(u64::from(size)) {
        Some(skip) => skip.min(count),
        None => count,
    };
    let start = skip as usize;
    let length = (rows.len() - start).min(size as usize);
    &rows[start..start + length]
}

/// These values before each of the rows.
pub(crate) fn behind(alloc: Global, missing: &[Value], rows: &[Row]) -> Mem<Seq<Row>>
    ensures { IfOk result (λ made. made ≡ map (λ y. missing.now ++ y) rows.now) }
{
    let mut made = Seq::new(alloc);
    for y in rows {
        made.push(joined(alloc, missing, y.as_slice())?)?;
    }
    Ok(made)
}

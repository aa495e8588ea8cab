//! The part of a batch's output that is made now: at most so many rows behind those that were given before.
ghost use Rattle.std.specs.Prelude.{◌≡◌, ◌++◌, [], false, IfOk, OnOk};
ghost use Rattle.hash_join.specs.Windows.{offered};

use row_table::Row;
use scalar_value::{Mem, Seq, Value};
use std::alloc::Global;

/// How many rows are still to be passed over, how many are wanted behind them, those that came, and whether there are
/// more of them.
#[derive(Debug, Drop)]
pub(crate) struct Window {
    pub(crate) skip: u64,
    pub(crate) size: u32,
    pub(crate) rows: Seq<Row>,
    pub(crate) more: bool,
}

fn push_copies(row: &mut Vec<Value>, values: &[Value]) -> Mem<()>
    ensures { OnOk result (row.new.items ≡ row.old.items ++ values.now) }
{
    for value in values {
        row.push(value.copy()?)?;
    }
    Ok(())
}

/// The values of one row behind those of another.
pub(crate) fn joined(alloc: Global, x: &[Value], y: &[Value]) -> Mem<Row>
    ensures { IfOk result (λ row. row ≡ x.now ++ y.now) }
{
    let mut row = Vec::with_capacity(alloc, x.len().saturating_add(y.len()))?;
    push_copies(&mut row, x)?;
    push_copies(&mut row, y)?;
    Ok(Seq::of(row))
}

impl Window {
    pub(crate) fn new(alloc: Global, from: u64, size: u32) -> Window
        ensures { result ≡ record { skip = from; size = size; rows = []; more = false } }
    {
        Window {
            skip: from,
            size,
            rows: Seq::new(alloc),
            more: false,
        }
    }

    /// Offers the next row of the output, the values of `x` before those of `y`. A row outside the window is not made.
    pub(crate) fn offer(&mut self, x: &[Value], y: &[Value]) -> Mem<()>
        ensures { OnOk result (self.new ≡ offered self.old (x.now ++ y.now)) }
    {
        if self.more {
            return Ok(());
        }
        if self.skip > 0 {
            self.skip -= 1;
            return Ok(());
        }
        if self.rows.len() < self.size as usize {
            let row = joined(self.rows.alloc(), x, y)?;
            return self.rows.push(row);
        }
        self.more = true;
        Ok(())
    }
}

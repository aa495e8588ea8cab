ghost use Rattle.std.specs.Prelude.{◌≡◌};
ghost use Rattle.row_table.specs.Sorting.{row_order, sorted_rows};

use crate::table::{Row, Table};
use scalar_value::Seq;
use std::cmp::Ordering;
use std::mem;

/// The order of two rows: by the first column, then by the next and so on, each by the order of values,
/// in which missing values come last. Rows that tie are equal.
pub fn row_cmp(a: &Row, b: &Row) -> Ordering
    ensures { result ≡ row_order a.now b.now }
{
    a.cmp(b)
}

/// Puts the rows into their canonical order, that of [`row_cmp`], and takes no memory.
///
/// Rows that tie are equal, so this order depends on nothing but how often each row stands in the table.
pub fn canonical(t: &mut Table)
    ensures { t.new ≡ record t.old { rows = sorted_rows t.old.rows } }
{
    let none = Seq::new(t.rows.alloc());
    let mut rows = mem::replace(&mut t.rows, none).into_vec();
    rows.sort_unstable_by(row_cmp);
    t.rows = Seq::of(rows);
}

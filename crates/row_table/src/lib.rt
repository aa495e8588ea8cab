//! Tables of rows: named and typed columns, grouping columns, a mark of order, and the rows in their canonical order.
#![tactic(auto)]

mod field;
mod join;
mod laws;
mod order;
mod table;

pub use field::{Field, Schema};
pub use join::JoinKind;
pub use laws::{
    keys_different, rows_in_order, rows_sorted, rows_sorted_by, tables_same, tables_shown,
};
pub use order::{canonical, row_cmp};
pub use table::{Mark, Row, Table};

#[cfg(test)]
mod tests;

ghost use Rattle.std.specs.Prelude.{◌≡◌, IfOk};

use crate::field::Schema;
use scalar_value::{Mem, Seq, Text, Value};
use std::marker::Model;

/// One value for each column of a table.
pub type Row = Seq<Value>;

/// Whether the order of a table's rows means something: that of its source or of an `arrange`, or none.
#[derive(Debug, Clone, Copy, PartialEq, Eq)]
pub enum Mark {
    Kept,
    Unordered,
}

/// A table. Its names are distinct, each of its rows has one value of the column's type or a missing one
/// for each column, and its groups are distinct names of columns.
#[derive(Debug, Drop)]
pub struct Table {
    pub schema: Schema,
    pub groups: Seq<Text>,
    pub mark: Mark,
    pub rows: Seq<Row>,
}

impl Model for Table {
    ghost use Rattle.row_table.specs.Tables.{TableValue, IsTable};

    ghost Value = { TableValue };

    ghost view = { λ t. record { schema = t.schema; groups = t.groups; mark = t.mark; rows = t.rows } };

    ghost invariant = { λ t. IsTable (record { schema = t.schema; groups = t.groups; mark = t.mark; rows = t.rows }) };
}

impl Table {
    /// An equal table.
    pub fn copy(&self) -> Mem<Table>
        ensures { IfOk result (λ t. t ≡ self.now) }
    {
        Ok(Table {
            schema: self.schema.copy()?,
            groups: self.groups.copy()?,
            mark: self.mark,
            rows: self.rows.copy()?,
        })
    }
}

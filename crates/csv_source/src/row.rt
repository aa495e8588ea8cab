//! The rows of a table.
ghost use Rattle.std.specs.Prelude.{◌≡◌, ◌≤◌, length, IfOk, IsTrue};
ghost use Rattle.csv.specs.Records.{AllText, fields_of};
ghost use Rattle.row_table.specs.Tables.{fits_row};
ghost use Rattle.scalar_value.specs.Gives.{Gives};
ghost use Rattle.csv_source.specs.Typed.{row_at};

use crate::fault::{TableFault, TableKind};
use crate::value::read_value;
use csv::ByteRecord;
use row_table::{Field, Row};
use scalar_value::{Res, Seq};
use std::alloc::Global;

/// The row of this number that the fields of a record write: a value for each column.
pub fn read_row(
    alloc: Global,
    columns: &[Field],
    number: u64,
    fields: &ByteRecord,
) -> Res<Row, TableFault>
    requires few { length columns.now ≤ 1024 }
    requires text { AllText (fields_of fields.now) }
    ensures value { Gives result (row_at columns.now number (fields_of fields.now)) }
    ensures fits { IfOk result (λ row. IsTrue (fits_row columns.now row)) }
{
    if fields.len() != columns.len() {
        return Err(TableKind::Ragged.at(number, 0));
    }
    let mut values = Vec::with_capacity(alloc, columns.len())?;
    for (place, column) in columns.iter().enumerate() {
        let Some(field) = fields.get(place) else {
            unreachable!()
        };
        let Some(value) = read_value(alloc, column.kind, field)? else {
            return Err(TableKind::BadField.at(number, place + 1));
        };
        values.push(value)?;
    }
    Ok(Seq::of(values))
}

//! A table that is printed and read back.
ghost use Rattle.std.specs.Prelude.{Ok};
ghost use Rattle.scalar_value.specs.Gives.{Gives};
ghost use Rattle.csv_source.specs.Typed.{kept_table, typed};
ghost use Rattle.table_print.specs.CsvText.{csv_text};
ghost use Rattle.table_round_trip.specs.RoundTrip.{IsFileTable};

use crate::laws::printed_is_read;
use csv_source::{TableFault, read_table};
use row_table::Table;
use scalar_value::Res;
use std::alloc::Global;
use table_print::write_csv;

/// The table that a file with this table's print has: the table is printed as CSV, and the print is read.
///
/// A table that a file can hold comes back with its columns and rows, in their order and without groups, and with no
/// fault. Of any other table it is what its print reads as, or the print's first fault. Errors: that fault, or want of
/// memory.
pub fn reread(alloc: Global, table: &Table) -> Res<Table, TableFault>
    ensures given { Gives result (typed (csv_text table.now)) }
    ensures same { IsFileTable table.now → Gives result (Ok (kept_table table.now.schema table.now.rows)) }
{
    let printed = write_csv(alloc, table)?;
    printed_is_read();
    read_table(alloc, printed.as_str().as_bytes())
}

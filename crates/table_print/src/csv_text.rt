//! A table as CSV.
ghost use Rattle.std.specs.Prelude.{◌≡◌, ◌++◌, ℕ, List, [], IfOk, OnOk};
ghost use Rattle.std.specs.List.{flat_map};
ghost use Rattle.csv.specs.Records.{AllText, fields_of};
ghost use Rattle.table_print.specs.Cells.{written_row};
ghost use Rattle.table_print.specs.CsvText.{csv_line, csv_text};
ghost use Rattle.table_print.specs.Writers.{HasWritten};

use crate::cells::{fill_headings, fill_values};
use csv::{StringRecord, Writer};
use row_table::Table;
use scalar_value::{Mem, NoMemory, Text};
use std::alloc::Global;

/// Writes a line. Over a vector only memory is refused, and all lines of a table have as many fields.
fn put_line(writer: &mut Writer<Vec<u8>>, line: &StringRecord) -> Mem<()>
    requires { AllText (fields_of line.now) }
    ensures { OnOk result ((text : List ℕ) → HasWritten writer.old text → HasWritten writer.new (text ++ csv_line (fields_of line.now))) }
{
    if writer.write_byte_record(line.as_byte_record()).is_err() {
        return Err(NoMemory);
    }
    Ok(())
}

/// Writes a line for each row.
fn put_rows(
    alloc: Global,
    writer: &mut Writer<Vec<u8>>,
    line: &mut StringRecord,
    t: &Table,
) -> Mem<()>
    ensures { OnOk result ((text : List ℕ) → HasWritten writer.old text → HasWritten writer.new (text ++ flat_map (λ row. csv_line (written_row row)) t.now.rows)) }
{
    let rows = t.rows.as_slice();
    for row in rows {
        fill_values(alloc, line, row.as_slice())?;
        put_line(writer, line)?;
    }
    Ok(())
}

/// A writer over an empty vector.
fn new_writer(alloc: Global) -> Writer<Vec<u8>>
    ensures { HasWritten result [] }
{
    Writer::from_writer(Vec::new(alloc))
}

/// What was written.
fn written_text(writer: Writer<Vec<u8>>) -> Mem<Text>
    requires { (text : List ℕ) × HasWritten writer text }
    ensures { IfOk result (λ text. HasWritten writer text) }
{
    let bytes = match writer.into_inner() {
        Ok(bytes) => bytes,
        Err(_) => return Err(NoMemory),
    };
    match String::from_utf8(bytes) {
        Ok(text) => Ok(Text::of_string(text)),
        Err(_) => unreachable!(),
    }
}

/// The text of a table as CSV: a line of `name:type` for each column, then a line for each row, with commas between the
/// fields and LF behind each line. A field with a comma, a quote or a line end stands between quotes, as csv's default
/// writer writes it; a missing value is `NA`. The rows stand in the table's own order.
pub fn write_csv(alloc: Global, t: &Table) -> Mem<Text>
    ensures { IfOk result (λ text. text ≡ csv_text t.now) }
{
    let mut writer = new_writer(alloc);
    let mut line = StringRecord::new(alloc);
    fill_headings(alloc, &mut line, t.schema.as_slice())?;
    put_line(&mut writer, &line)?;
    put_rows(alloc, &mut writer, &mut line, t)?;
    written_text(writer)
}

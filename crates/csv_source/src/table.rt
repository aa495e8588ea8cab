//! A typed table from the bytes of a file.
ghost use Rattle.std.specs.Prelude.{◌≡◌, IfOk, IsUtf8};
ghost use Rattle.csv.specs.Reading.{strip_bom};
ghost use Rattle.csv.specs.Records.{fields_of};
ghost use Rattle.csv.specs.declared.parser.State.TheVariants as st;
ghost use Rattle.scalar_value.specs.Gives.{Gives};
ghost use Rattle.csv_source.specs.Readers.{IsAt, ReadsNextRecord};
ghost use Rattle.csv_source.specs.Records.{records_of};
ghost use Rattle.csv_source.specs.Typed.{table_of_records, typed};

use crate::fault::{TableFault, TableKind};
use crate::header::read_header;
use crate::row::read_row;
use csv::{ByteRecord, Reader, ReaderBuilder};
use row_table::{Mark, Table};
use scalar_value::{Mem, NoMemory, Or, Res, Seq};
use std::alloc::Global;
use std::str;

/// The greatest number of columns of a table.
const COLUMN_LIMIT: usize = 1024;

/// A reader at the start of a text: of csv's default settings, but that records may have any number of fields and none
/// is a header.
fn reader_of(alloc: Global, text: &[u8]) -> Reader<&[u8]>
    ensures { IsAt result st.StartRecord (strip_bom text.now) }
{
    ReaderBuilder::new()
        .has_headers(false)
        .flexible(true)
        .from_reader(alloc, text)
}

/// The next record, and whether there is one. Each error of csv is want of memory here: of bytes in memory, whose
/// records may have any number of fields, csv has no other.
fn read_next(reader: &mut Reader<&[u8]>, fields: &mut ByteRecord) -> Mem<bool>
    ensures { IfOk result (λ found. ReadsNextRecord reader.old reader.new found (fields_of fields.new)) }
{
    match reader.read_byte_record(fields) {
        Ok(found) => Ok(found),
        Err(_) => Err(NoMemory),
    }
}

/// The table that the records of a text write: the first is the header, and each other one a row.
fn read_records(alloc: Global, text: &[u8]) -> Res<Table, TableFault>
    requires { IsUtf8 text.now }
    ensures { Gives result (table_of_records (records_of text.now)) }
{
    let mut reader = reader_of(alloc, text);
    let mut fields = ByteRecord::new(alloc);
    if !read_next(&mut reader, &mut fields)? {
        return Err(TableKind::NoHeader.at(0, 0));
    }
    if fields.len() > COLUMN_LIMIT {
        return Err(TableKind::TooManyColumns.at(0, COLUMN_LIMIT + 1));
    }
    let schema = match read_header(alloc, &fields) {
        Ok(schema) => schema,
        Err(refusal) => return Err(refusal),
    };
    let mut rows = Vec::new(alloc);
    for number in 1..u64::MAX {
        if !read_next(&mut reader, &mut fields)? {
            return Ok(Table {
                schema,
                groups: Seq::new(alloc),
                mark: Mark::Kept,
                rows: Seq::of(rows),
            });
        }
        match read_row(alloc, schema.as_slice(), number, &fields) {
            Ok(row) => rows.push(row)?,
            Err(refusal) => return Err(refusal),
        }
    }
    Err(Or::Memory)
}

/// The typed table that the bytes of a CSV file are, with its rows in the order of the file and no groups; or their
/// first fault.
///
/// The first record is the header, whose fields are `name:type` with a type of int, dec, chr, date and lgl; each other
/// record is a row. `NA` is a missing value, and so is an empty field but in a text column. The faults, in order: bytes
/// that aren't UTF-8; no record; more than 1,024 columns; in the header, column by column, a field that is no name and
/// type, or a name that stood before; then row by row another number of fields than the header's, or the leftmost field
/// that writes no value of its column's type. docs/LANGUAGE.md has the form of tables; which records a text has is said
/// by RFC 4180 and by the crate csv.
#[tactic(auto, unfolding(crate::specs::Typed::typed))]
pub fn read_table(alloc: Global, bytes: &[u8]) -> Res<Table, TableFault>
    ensures { Gives result (typed bytes.now) }
{
    match str::from_utf8(bytes) {
        Ok(_) => read_records(alloc, bytes),
        Err(_) => Err(TableKind::NotText.at(0, 0)),
    }
}

//! The header of a table: its columns.
ghost use Rattle.std.specs.Prelude.{◌≡◌, ◌-◌, ◌<◌, ◌≤◌, not, length, map, slice_index, IfOk, IsTrue, IsUtf8};
ghost use Rattle.std.specs.List.{suffix_len};
ghost use Rattle.csv.specs.Records.{AllText, fields_of};
ghost use Rattle.row_table.specs.Tables.{among_texts, names_differ};
ghost use Rattle.scalar_value.specs.Gives.{Gives};
ghost use Rattle.csv_source.specs.Fields.{column_of_text, is_colon, type_of_text};
ghost use Rattle.csv_source.specs.Typed.{columns_of};

use crate::fault::{TableFault, TableKind};
use crate::value::text_of;
use csv::ByteRecord;
use row_table::{Field, Schema};
use scalar_value::{ColType, Mem, Res, Seq, Text};
use std::alloc::Global;

/// Where the text behind the last colon begins, and 0 where there is no colon.
fn behind_colon(text: &[u8]) -> usize
    ensures value { result ≡ length text.now - suffix_len (λ byte. not (is_colon byte)) text.now }
    ensures colon { 0 < result → slice_index text.now (result - 1) ≡ 58 }
{
    let mut behind = 0;
    for (place, byte) in text.iter().enumerate() {
        if *byte == b':' {
            behind = place + 1;
        }
    }
    behind
}

/// The type that a text names.
#[tactic(auto, unfolding(crate::specs::Fields::type_of_text))]
fn type_of(text: &[u8]) -> Option<ColType>
    ensures { result ≡ type_of_text text.now }
{
    if text == b"int".as_slice() {
        Some(ColType::Int)
    } else if text == b"dec".as_slice() {
        Some(ColType::Dec)
    } else if text == b"chr".as_slice() {
        Some(ColType::Chr)
    } else if text == b"date".as_slice() {
        Some(ColType::Date)
    } else if text == b"lgl".as_slice() {
        Some(ColType::Lgl)
    } else {
        None
    }
}

/// The column that a field of the header names.
fn column_of(alloc: Global, field: &[u8]) -> Mem<Option<Field>>
    requires { IsUtf8 field.now }
    ensures { IfOk result (λ f. f ≡ column_of_text field.now) }
{
    let behind = behind_colon(field);
    if behind < 2 {
        return Ok(None);
    }
    match type_of(&field[behind..]) {
        Some(kind) => Ok(Some(Field {
            name: Text::of(alloc, text_of(&field[..behind - 1]))?,
            kind,
        })),
        None => Ok(None),
    }
}

/// Whether one of the columns has this name.
fn is_named(columns: &[Field], name: &str) -> bool
    ensures { result ≡ among_texts name.now (map (λ f. f.name) columns.now) }
{
    for column in columns {
        if column.name.as_str() == name {
            return true;
        }
    }
    false
}

/// The columns that the fields of a header name.
pub fn read_header(alloc: Global, header: &ByteRecord) -> Res<Schema, TableFault>
    requires few { length (fields_of header.now) ≤ 1024 }
    requires text { AllText (fields_of header.now) }
    ensures value { Gives result (columns_of (fields_of header.now)) }
    ensures few { IfOk result (λ columns. length columns ≤ 1024) }
    ensures differ { IfOk result (λ columns. IsTrue (names_differ columns)) }
{
    let mut columns: Vec<Field> = Vec::with_capacity(alloc, header.len())?;
    for place in 0..header.len() {
        let Some(field) = header.get(place) else {
            unreachable!()
        };
        let Some(column) = column_of(alloc, field)? else {
            return Err(TableKind::HeaderType.at(0, place + 1));
        };
        if is_named(columns.as_slice(), column.name.as_str()) {
            return Err(TableKind::NameTwice.at(0, place + 1));
        }
        columns.push(column)?;
    }
    Ok(Seq::of(columns))
}

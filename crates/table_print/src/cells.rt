//! The cells of a line: headings, names, types, values.
ghost use Rattle.std.specs.Prelude.{◌≡◌, ◌<◌, ◌++◌, ◌∷◌, [], length, map, slice_index_or, IfOk, OnOk, true, string_bytes};
ghost use Rattle.std.specs.List.{list_all};
ghost use Rattle.csv.specs.Records.{AllText, fields_of};
ghost use Rattle.scalar_fns.specs.Written.{written, is_value};
ghost use Rattle.table_print.specs.Cells.{type_name, heading as heading_of, shown_type as shown_type_of, name_of, written_row};

use csv::StringRecord;
use itoa::Buffer;
use row_table::Field;
use scalar_fns::write_value;
use scalar_value::{ColType, Mem, Text, Value};
use std::alloc::Global;

fn type_name(kind: ColType) -> &'static str
    ensures { result.now ≡ type_name kind }
{
    match kind {
        ColType::Int => "int",
        ColType::Dec => "dec",
        ColType::Chr => "chr",
        ColType::Date => "date",
        ColType::Lgl => "lgl",
    }
}

/// `name:type`
fn heading(alloc: Global, field: &Field) -> Mem<String>
    ensures { IfOk result (λ text. string_bytes text ≡ heading_of field.now) }
{
    let mut text = String::from_str(alloc, field.name.as_str())?;
    text.push_str(":")?;
    text.push_str(type_name(field.kind))?;
    Ok(text)
}

/// `<type>`
fn shown_type(alloc: Global, field: &Field) -> Mem<String>
    ensures { IfOk result (λ text. string_bytes text ≡ shown_type_of field.now) }
{
    let mut text = String::from_str(alloc, "<")?;
    text.push_str(type_name(field.kind))?;
    text.push_str(">")?;
    Ok(text)
}

/// Fills the line with the columns' headings.
pub fn fill_headings(alloc: Global, line: &mut StringRecord, fields: &[Field]) -> Mem<()>
    ensures cells { OnOk result (fields_of line.new ≡ map heading_of fields.now) }
    ensures text { OnOk result (AllText (fields_of line.new)) }
{
    line.clear();
    for field in fields {
        line.push_field(heading(alloc, field)?.as_str())?;
    }
    Ok(())
}

/// Fills the line with the columns' names.
pub fn fill_names(line: &mut StringRecord, fields: &[Field]) -> Mem<()>
    ensures { OnOk result (fields_of line.new ≡ map name_of fields.now) }
{
    line.clear();
    for field in fields {
        line.push_field(field.name.as_str())?;
    }
    Ok(())
}

/// Fills the line with the columns' types.
pub fn fill_types(alloc: Global, line: &mut StringRecord, fields: &[Field]) -> Mem<()>
    ensures { OnOk result (fields_of line.new ≡ map shown_type_of fields.now) }
{
    line.clear();
    for field in fields {
        line.push_field(shown_type(alloc, field)?.as_str())?;
    }
    Ok(())
}

/// Appends the text of a value. Texts and whole numbers take no memory of their own.
fn put_value(alloc: Global, line: &mut StringRecord, value: &Value) -> Mem<()>
    requires { is_value value.now ≡ true }
    ensures cells { OnOk result (fields_of line.new ≡ fields_of line.old ++ written value.now ∷ []) }
    ensures text { OnOk result (AllText (fields_of line.old) → AllText (fields_of line.new)) }
{
    match value {
        Value::Chr(text) => line.push_field(text.as_str())?,
        Value::Int(number) => line.push_field(Buffer::new().format(*number))?,
        _ => {
            let mut text = Text::empty(alloc);
            write_value(value, &mut text)?;
            line.push_field(text.as_str())?;
        }
    }
    Ok(())
}

/// Fills the line with the texts of a row's values.
pub fn fill_values(alloc: Global, line: &mut StringRecord, row: &[Value]) -> Mem<()>
    requires { list_all is_value row.now ≡ true }
    ensures cells { OnOk result (fields_of line.new ≡ written_row row.now) }
    ensures text { OnOk result (AllText (fields_of line.new)) }
{
    line.clear();
    for value in row {
        put_value(alloc, line, value)?;
    }
    Ok(())
}

/// The cell at a place of the line.
pub fn cell_at(line: &StringRecord, place: usize) -> &str
    requires { place < length (fields_of line.now) }
    ensures { result.now ≡ slice_index_or (fields_of line.now) place [] }
{
    match line.get(place) {
        Some(text) => text,
        None => unreachable!(),
    }
}

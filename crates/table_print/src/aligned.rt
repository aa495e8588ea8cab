//! A table with aligned columns.
ghost use Rattle.std.specs.Prelude.{◌≡◌, ◌++◌, ◌∷◌, [], ◌==◌, length, map, decimal, IfOk, OnOk, string_bytes};
ghost use Rattle.std.specs.List.{flat_map, list_any};
ghost use Rattle.csv.specs.Records.{fields_of};
ghost use Rattle.table_print.specs.Cells.{written_row};
ghost use Rattle.table_print.specs.Aligned.{is_hidden as hides, shown_byte, shown, spaces, padded, gap_at, cells_from, line_text, size_line, comma_at, names_from, groups_line, cell_lines, aligned_text};

use crate::cells::{cell_at, fill_names, fill_types, fill_values};
use crate::column::{Column, columns_of};
use csv::StringRecord;
use itoa::Buffer;
use row_table::Table;
use scalar_fns::chars;
use scalar_value::{Mem, Text};
use std::alloc::Global;

/// Appends spaces.
fn push_spaces(out: &mut String, count: u64) -> Mem<()>
    ensures { OnOk result (string_bytes out.new ≡ string_bytes out.old ++ spaces count) }
{
    for _done in 0..count {
        out.push(' ')?;
    }
    Ok(())
}

/// The character as it is shown: `?` below U+0020, and for U+007F.
fn shown_char(c: char) -> char
    ensures { result ≡ shown_byte c }
{
    if c < ' ' || c == '\u{7f}' { '?' } else { c }
}

/// Whether a byte is shown as a question mark.
fn is_hidden(byte: u8) -> bool
    ensures { result ≡ hides byte }
{
    byte < 32 || byte == 127
}

fn has_hidden(text: &str) -> bool
    ensures { result ≡ list_any hides text.now }
{
    text.as_bytes().iter().any(|byte| is_hidden(*byte))
}

/// Appends a text, of which each character below U+0020, and U+007F, is shown as `?`.
fn push_shown(out: &mut String, text: &str) -> Mem<()>
    ensures { OnOk result (string_bytes out.new ≡ string_bytes out.old ++ shown text.now) }
{
    if !has_hidden(text) {
        out.push_str(text)?;
        return Ok(());
    }
    for c in text.chars() {
        out.push(shown_char(c))?;
    }
    Ok(())
}

/// Appends a cell, with spaces up to the width of its column.
fn push_cell(out: &mut String, column: Column, text: &str) -> Mem<()>
    ensures { OnOk result (string_bytes out.new ≡ string_bytes out.old ++ padded column text.now) }
{
    let room = column.width.saturating_sub(chars(text));
    if column.right {
        push_spaces(out, room)?;
        push_shown(out, text)
    } else {
        push_shown(out, text)?;
        push_spaces(out, room)
    }
}

/// Appends two spaces before each column but the first.
fn push_gap(out: &mut String, place: usize) -> Mem<()>
    ensures { OnOk result (string_bytes out.new ≡ string_bytes out.old ++ gap_at place) }
{
    if place > 0 {
        out.push_str("  ")?;
    }
    Ok(())
}

/// Appends the cells of a line beside one another, and LF.
fn push_line(out: &mut String, columns: &[Column], line: &StringRecord) -> Mem<()>
    requires { length columns.now ≡ length (fields_of line.now) }
    ensures { OnOk result (string_bytes out.new ≡ string_bytes out.old ++ line_text columns.now (fields_of line.now)) }
{
    for place in 0..columns.len() {
        push_gap(out, place)?;
        push_cell(out, columns[place], cell_at(line, place))?;
    }
    out.push('\n')?;
    Ok(())
}

/// Appends the line `# R rows, C columns`.
fn push_sizes(out: &mut String, rows: usize, columns: usize) -> Mem<()>
    ensures { OnOk result (string_bytes out.new ≡ string_bytes out.old ++ size_line rows columns) }
{
    out.push_str("# ")?;
    out.push_str(Buffer::new().format(rows))?;
    out.push_str(" rows, ")?;
    out.push_str(Buffer::new().format(columns))?;
    out.push_str(" columns\n")?;
    Ok(())
}

/// Appends a comma and a space before each name but the first.
fn push_comma(out: &mut String, place: usize) -> Mem<()>
    ensures { OnOk result (string_bytes out.new ≡ string_bytes out.old ++ comma_at place) }
{
    if place > 0 {
        out.push_str(", ")?;
    }
    Ok(())
}

/// Appends the line `# Groups: a, b`, with the names as they are, where there are groups.
fn push_groups(out: &mut String, groups: &[Text]) -> Mem<()>
    ensures { OnOk result (string_bytes out.new ≡ string_bytes out.old ++ groups_line groups.now) }
{
    if groups.is_empty() {
        return Ok(());
    }
    out.push_str("# Groups: ")?;
    for (place, name) in groups.iter().enumerate() {
        push_comma(out, place)?;
        out.push_str(name.as_str())?;
    }
    out.push('\n')?;
    Ok(())
}

/// Appends a line for each row.
fn push_rows(
    alloc: Global,
    out: &mut String,
    columns: &[Column],
    line: &mut StringRecord,
    t: &Table,
) -> Mem<()>
    requires { length columns.now ≡ length t.now.schema }
    ensures { OnOk result (string_bytes out.new ≡ string_bytes out.old ++ flat_map (line_text columns.now) (map written_row t.now.rows)) }
{
    let rows = t.rows.as_slice();
    for row in rows {
        fill_values(alloc, line, row.as_slice())?;
        push_line(out, columns, line)?;
    }
    Ok(())
}

/// Appends the names, the types and the rows of a table.
fn push_table(
    alloc: Global,
    out: &mut String,
    columns: &[Column],
    line: &mut StringRecord,
    t: &Table,
) -> Mem<()>
    requires { length columns.now ≡ length t.now.schema }
    ensures { OnOk result (string_bytes out.new ≡ string_bytes out.old ++ flat_map (line_text columns.now) (cell_lines t.now)) }
{
    let fields = t.schema.as_slice();
    fill_names(line, fields)?;
    push_line(out, columns, line)?;
    fill_types(alloc, line, fields)?;
    push_line(out, columns, line)?;
    push_rows(alloc, out, columns, line, t)
}

/// The text of a table with aligned columns: the line `# R rows, C columns`; where there are groups the line `# Groups: a, b`;
/// the names; the types as `<int>`; the rows in the table's own order. A column is as wide as the longest of its cells, name
/// and type among them, in code points. Numbers stand at the right, all else at the left, padded with spaces; columns are two
/// spaces apart. In a cell each character below U+0020, and U+007F, is shown as `?`.
pub fn write_aligned(alloc: Global, t: &Table) -> Mem<Text>
    ensures { IfOk result (λ text. text ≡ aligned_text t.now) }
{
    let mut line = StringRecord::new(alloc);
    let columns = columns_of(alloc, &mut line, t)?;
    let mut out = String::new(alloc);
    push_sizes(&mut out, t.rows.len(), t.schema.len())?;
    push_groups(&mut out, t.groups.as_slice())?;
    push_table(alloc, &mut out, &columns, &mut line, t)?;
    Ok(Text::of_string(out))
}

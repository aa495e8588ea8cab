ghost use Rattle.std.specs.Prelude.{◌≡◌, map, IfOk};
ghost use Rattle.std.specs.List.{filter};
ghost use Rattle.scalar_value.specs.Truths.{is_true as true_value, is_missing as missing};
ghost use Rattle.agg_rules.specs.Windows.{value_at};
ghost use Rattle.verb_forms.specs.Columns.{put as put_at};
ghost use Rattle.verb_meaning.specs.Rows.{part_value, passes as passing, with_value as row_with, with_values as rows_with, picked as picks, is_whole as whole, with_cell as cell_in, with_cells as cells_in, rows_after as rows_of_verb};

use na_expr::eval_row;
use row_table::{Row, Schema};
use scalar_value::{Mem, Seq, Text, Value};
use std::alloc::Global;
use verb_forms::{Part, Verb, place_of, put, with_part};

fn is_true(value: &Value) -> bool
    ensures { result ≡ true_value value.now }
{
    matches!(value, Value::Lgl(true))
}

fn is_missing(value: &Value) -> bool
    ensures { result ≡ missing value.now }
{
    matches!(value, Value::Missing)
}

fn holds(alloc: Global, part: &Part, row: &Row) -> Mem<bool>
    ensures { IfOk result (λ b. b ≡ true_value (part_value part.now row.now)) }
{
    let value = eval_row(alloc, &part.value, row)?;
    Ok(is_true(&value))
}

fn passes(alloc: Global, conditions: &[Part], row: &Row) -> Mem<bool>
    ensures { IfOk result (λ b. b ≡ passing conditions.now row.now) }
{
    for part in conditions {
        if !holds(alloc, part, row)? {
            return Ok(false);
        }
    }
    Ok(true)
}

/// The rows on which every condition is TRUE.
fn filtered(alloc: Global, conditions: &[Part], rows: &[Row]) -> Mem<Seq<Row>>
    ensures { IfOk result (λ made. made ≡ filter (passing conditions.now) rows.now) }
{
    let mut made = Seq::new(alloc);
    for row in rows {
        if passes(alloc, conditions, row)? {
            made.push(row.copy()?)?;
        }
    }
    Ok(made)
}

/// The row, which is moved, with the value of one expression.
fn with_value(alloc: Global, place: Option<usize>, part: &Part, row: Row) -> Mem<Row>
    ensures { IfOk result (λ made. made ≡ put_at place (part_value part.now row) row) }
{
    let value = eval_row(alloc, &part.value, &row)?;
    put(place, value, row)
}

/// The rows, which are moved, each with the value of one expression.
fn with_column(
    alloc: Global,
    value: &(Text, Part),
    schema: &Schema,
    rows: Seq<Row>,
) -> Mem<Seq<Row>>
    ensures { IfOk result (λ made. made ≡ map (row_with schema.now value.now) rows) }
{
    let place = place_of(&value.0, schema);
    let mut made = Seq::new(alloc);
    for row in rows.into_vec() {
        made.push(with_value(alloc, place, &value.1, row)?)?;
    }
    Ok(made)
}

/// The rows, which are moved, with one expression after the other.
fn mutated(alloc: Global, values: &[(Text, Part)], schema: Schema, rows: Seq<Row>) -> Mem<Seq<Row>>
    ensures { IfOk result (λ made. made ≡ rows_with schema values.now rows) }
{
    let (mut schema, mut rows) = (schema, rows);
    for value in values {
        rows = with_column(alloc, value, &schema, rows)?;
        schema = with_part(value, schema)?;
    }
    Ok(rows)
}

/// A copy of the value in a column, and a missing value where there is none.
fn value_copy(row: &Row, at: u32) -> Mem<Value>
    ensures { IfOk result (λ v. v ≡ value_at row.now at) }
{
    match row.get(at as usize) {
        Some(value) => value.copy(),
        None => Ok(Value::Missing),
    }
}

fn picked(alloc: Global, chosen: &[(u32, Text)], row: &Row) -> Mem<Row>
    ensures { IfOk result (λ made. made ≡ picks chosen.now row.now) }
{
    let mut made = Seq::new(alloc);
    for column in chosen {
        made.push(value_copy(row, column.0)?)?;
    }
    Ok(made)
}

/// Of each row the values of the chosen columns.
fn picked_rows(alloc: Global, chosen: &[(u32, Text)], rows: &[Row]) -> Mem<Seq<Row>>
    ensures { IfOk result (λ made. made ≡ map (picks chosen.now) rows.now) }
{
    let mut made = Seq::new(alloc);
    for row in rows {
        made.push(picked(alloc, chosen, row)?)?;
    }
    Ok(made)
}

/// Whether the value in a column is missing.
fn is_missing_at(row: &Row, at: u32) -> bool
    ensures { result ≡ missing (value_at row.now at) }
{
    match row.get(at as usize) {
        Some(value) => is_missing(value),
        None => true,
    }
}

/// Whether no value in these columns is missing.
fn is_whole(columns: &[u32], row: &Row) -> bool
    ensures { result ≡ whole columns.now row.now }
{
    for at in columns {
        if is_missing_at(row, *at) {
            return false;
        }
    }
    true
}

/// The rows without missing values in these columns.
fn whole_rows(alloc: Global, columns: &[u32], rows: &[Row]) -> Mem<Seq<Row>>
    ensures { IfOk result (λ made. made ≡ filter (whole columns.now) rows.now) }
{
    let mut made = Seq::new(alloc);
    for row in rows {
        if is_whole(columns, row) {
            made.push(row.copy()?)?;
        }
    }
    Ok(made)
}

/// The row, which is moved, with another value where the one in a column is missing.
fn with_cell(cell: &(u32, Value), row: Row) -> Mem<Row>
    ensures { IfOk result (λ made. made ≡ cell_in row cell.now) }
{
    if is_missing_at(&row, cell.0) {
        put(Some(cell.0 as usize), cell.1.copy()?, row)
    } else {
        Ok(row)
    }
}

fn with_cells(cells: &[(u32, Value)], row: Row) -> Mem<Row>
    ensures { IfOk result (λ made. made ≡ cells_in cells.now row) }
{
    let mut row = row;
    for cell in cells {
        row = with_cell(cell, row)?;
    }
    Ok(row)
}

/// The rows with other values where the ones in these columns are missing.
fn replaced_rows(alloc: Global, cells: &[(u32, Value)], rows: &[Row]) -> Mem<Seq<Row>>
    ensures { IfOk result (λ made. made ≡ map (cells_in cells.now) rows.now) }
{
    let mut made = Seq::new(alloc);
    for row in rows {
        made.push(with_cells(cells, row.copy()?)?)?;
    }
    Ok(made)
}

/// The rows after a verb.
pub fn rows_after(alloc: Global, verb: &Verb, schema: &Schema, rows: &Seq<Row>) -> Mem<Seq<Row>>
    ensures { IfOk result (λ made. made ≡ rows_of_verb verb.now schema.now rows.now) }
{
    match verb {
        Verb::Filter { conditions, .. } => {
            filtered(alloc, conditions.as_slice(), rows.as_slice())
        }
        Verb::Mutate { values, .. } => {
            mutated(alloc, values.as_slice(), schema.copy()?, rows.copy()?)
        }
        Verb::Select(chosen) | Verb::Rename(chosen) | Verb::Relocate(chosen) => {
            picked_rows(alloc, chosen.as_slice(), rows.as_slice())
        }
        Verb::DropNa(columns) => whole_rows(alloc, columns.as_slice(), rows.as_slice()),
        Verb::ReplaceNa(cells) => replaced_rows(alloc, cells.as_slice(), rows.as_slice()),
        _ => rows.copy(),
    }
}

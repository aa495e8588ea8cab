//! How the cells of each column stand.
ghost use Rattle.std.specs.Prelude.{◌≡◌, map, length, IfOk, OnOk};
ghost use Rattle.csv.specs.Records.{fields_of};
ghost use Rattle.table_print.specs.Cells.{written_row};
ghost use Rattle.table_print.specs.Aligned.{stands_right as right_of, cell_lines, columns_of as all_columns};
ghost use Rattle.table_print.specs.Widths.{narrow, widened, widened_by};

use crate::cells::{cell_at, fill_names, fill_types, fill_values};
use csv::StringRecord;
use row_table::{Field, Table};
use scalar_fns::chars;
use scalar_value::{ColType, Mem};
use std::alloc::Global;

/// Whether its cells stand at the right, and how many code points fit in it.
#[derive(Debug, Clone, Copy)]
pub struct Column {
    pub right: bool,
    pub width: u64,
}

fn stands_right(kind: ColType) -> bool
    ensures { result ≡ right_of kind }
{
    match kind {
        ColType::Int | ColType::Dec => true,
        ColType::Chr | ColType::Date | ColType::Lgl => false,
    }
}

/// Columns whose cells have not been seen.
fn narrow_columns(alloc: Global, fields: &[Field]) -> Mem<Vec<Column>>
    ensures { IfOk result (λ columns. columns.items ≡ map narrow fields.now) }
{
    let mut columns = Vec::new(alloc);
    for field in fields {
        columns.push(Column {
            right: stands_right(field.kind),
            width: 0,
        })?;
    }
    Ok(columns)
}

/// Makes each column as wide as its cell of the line needs.
fn widen(columns: &mut [Column], line: &StringRecord)
    requires { length columns.old ≡ length (fields_of line.now) }
    ensures { columns.new ≡ widened columns.old (fields_of line.now) }
{
    for place in 0..columns.len() {
        let width = columns[place].width.max(chars(cell_at(line, place)));
        columns[place].width = width;
    }
}

/// Makes each column as wide as its cells in all rows need.
fn widen_to_rows(
    alloc: Global,
    columns: &mut [Column],
    line: &mut StringRecord,
    t: &Table,
) -> Mem<()>
    requires { length columns.old ≡ length t.now.schema }
    ensures { OnOk result (columns.new ≡ widened_by columns.old (map written_row t.now.rows)) }
{
    let rows = t.rows.as_slice();
    for row in rows {
        fill_values(alloc, line, row.as_slice())?;
        widen(columns, line);
    }
    Ok(())
}

/// Makes each column as wide as its name, its type and its cells in all rows need.
fn widen_to_table(
    alloc: Global,
    columns: &mut [Column],
    line: &mut StringRecord,
    t: &Table,
) -> Mem<()>
    requires { length columns.old ≡ length t.now.schema }
    ensures { OnOk result (columns.new ≡ widened_by columns.old (cell_lines t.now)) }
{
    let fields = t.schema.as_slice();
    fill_names(line, fields)?;
    widen(columns, line);
    fill_types(alloc, line, fields)?;
    widen(columns, line);
    widen_to_rows(alloc, columns, line, t)
}

/// The columns of a table, each as wide as its widest cell.
pub fn columns_of(alloc: Global, line: &mut StringRecord, t: &Table) -> Mem<Vec<Column>>
    ensures { IfOk result (λ columns. columns.items ≡ all_columns t.now) }
{
    let mut columns = narrow_columns(alloc, t.schema.as_slice())?;
    widen_to_table(alloc, &mut columns, line, t)?;
    Ok(columns)
}

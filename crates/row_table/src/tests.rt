//! The canonical order and copies of a small table, with missing values and rows that stand twice.
ghost use Rattle.std.specs.Prelude.{◌≡◌, [], ◌∷◌, IfOk};

use crate::{Field, Mark, Row, Schema, Table, canonical, row_cmp};
use scalar_value::{ColType, Mem, Seq, Text, Value};
use std::alloc::Global;
use std::cmp::Ordering;
use std::process::Abort;
use std::test::Fail;

fn row_of(alloc: Global, first: Value, second: Value) -> Mem<Row>
    ensures { IfOk result (λ r. r ≡ first ∷ second ∷ []) }
{
    let mut row = Seq::new(alloc);
    row.push(first)?;
    row.push(second)?;
    Ok(row)
}

fn schema_of(alloc: Global) -> Mem<Schema>
    ensures { IfOk result (λ s. s ≡ record { name = 110 ∷ []; kind = ColType.Int } ∷ record { name = 116 ∷ []; kind = ColType.Lgl } ∷ []) }
{
    let mut schema = Seq::new(alloc);
    schema.push(Field {
        name: Text::of(alloc, "n")?,
        kind: ColType::Int,
    })?;
    schema.push(Field {
        name: Text::of(alloc, "t")?,
        kind: ColType::Lgl,
    })?;
    Ok(schema)
}

fn table_of(alloc: Global) -> Mem<Table> {
    let mut rows = Seq::new(alloc);
    rows.push(row_of(alloc, Value::Missing, Value::Lgl(false))?)?;
    rows.push(row_of(alloc, Value::Int(10), Value::Missing)?)?;
    rows.push(row_of(alloc, Value::Int(-3), Value::Lgl(true))?)?;
    rows.push(row_of(alloc, Value::Int(10), Value::Lgl(true))?)?;
    rows.push(row_of(alloc, Value::Int(10), Value::Missing)?)?;
    rows.push(row_of(alloc, Value::Int(10), Value::Lgl(false))?)?;
    let mut groups = Seq::new(alloc);
    groups.push(Text::of(alloc, "t")?)?;
    Ok(Table {
        schema: schema_of(alloc)?,
        groups,
        mark: Mark::Unordered,
        rows,
    })
}

/// Whether the row at one place of the table stands to that at another as wanted.
fn expect_order<R: Abort>(rt: &R, table: &Table, pair: (usize, usize), wanted: Ordering) {
    if let (Some(a), Some(b)) = (table.rows.get(pair.0), table.rows.get(pair.1)) {
        assert_eq!(rt; row_cmp(a, b), wanted);
    } else {
        assert!(rt; false, "no row");
    }
}

/// Whether all but the rows of two tables is equal.
fn expect_frame<R: Abort>(rt: &R, made: &Table, table: &Table) {
    assert_eq!(rt; made.schema.len(), table.schema.len());
    for (column, wanted) in made.schema.as_slice().iter().zip(table.schema.as_slice()) {
        assert!(rt; column.name == wanted.name);
        assert!(rt; column.kind == wanted.kind);
    }
    assert!(rt; made.groups == table.groups);
    assert!(rt; made.mark == table.mark);
}

#[test]
fn rows_are_put_into_canonical_order(rt: HostRuntime) -> Result<(), Fail> {
    let table = table_of(rt.alloc())?;
    let orders = [
        ((2, 5), Ordering::Less),
        ((0, 2), Ordering::Greater),
        ((5, 3), Ordering::Less),
        ((3, 1), Ordering::Less),
        ((1, 5), Ordering::Greater),
        ((1, 4), Ordering::Equal),
    ];
    for (pair, wanted) in orders {
        expect_order(&rt, &table, pair, wanted);
    }
    let mut sorted = table.copy()?;
    expect_frame(&rt, &sorted, &table);
    assert!(rt; sorted.rows == table.rows);
    canonical(&mut sorted);
    expect_frame(&rt, &sorted, &table);
    assert_eq!(rt; sorted.rows.len(), 6);
    for (place, source) in [2, 5, 3, 1, 4, 0].into_iter().enumerate() {
        assert!(rt;
            sorted.rows.get(place) == table.rows.get(source),
            "at {place}"
        );
    }
    Ok(())
}

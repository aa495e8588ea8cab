//! Tables that are printed, and what is read back of them.
ghost use Rattle.std.specs.Prelude.{◌≡◌, [], ◌∷◌, IfOk, codes};

use crate::reread;
use csv_source::TableKind;
use row_table::{Field, Mark, Row, Schema, Table};
use scalar_value::{ColType, Dec6, Mem, NoMemory, Or, Seq, Text, Value};
use std::alloc::Global;
use std::process::Abort;
use std::test::Fail;
use table_print::write_csv;

fn field(alloc: Global, name: &str, kind: ColType) -> Mem<Field>
    ensures { IfOk result (λ f. f ≡ record { name = name.now; kind = kind }) }
{
    Ok(Field {
        name: Text::of(alloc, name)?,
        kind,
    })
}

fn text(alloc: Global, s: &str) -> Mem<Value>
    ensures { IfOk result (λ v. v ≡ Value.Chr s.now) }
{
    Ok(Value::Chr(Text::of(alloc, s)?))
}

fn dec(millionths: i64) -> Mem<Dec6> {
    match Dec6::of(millionths) {
        Some(number) => Ok(number),
        None => Err(NoMemory),
    }
}

fn row(alloc: Global, a: Value, b: Value, c: Value, d: Value, e: Value) -> Mem<Row>
    ensures { IfOk result (λ r. r ≡ a ∷ b ∷ c ∷ d ∷ e ∷ []) }
{
    let mut row = Seq::new(alloc);
    row.push(a)?;
    row.push(b)?;
    row.push(c)?;
    row.push(d)?;
    row.push(e)?;
    Ok(row)
}

fn single(alloc: Global, a: Value) -> Mem<Row>
    ensures { IfOk result (λ r. r ≡ a ∷ []) }
{
    let mut row = Seq::new(alloc);
    row.push(a)?;
    Ok(row)
}

/// A column of each type, with a colon in one name and a comma and quotes in another.
fn schema(alloc: Global) -> Mem<Schema>
    ensures { IfOk result (λ fields. fields ≡ record { name = codes "id"; kind = ColType.Int } ∷ record { name = codes "per:unit"; kind = ColType.Dec } ∷ record { name = codes "a, \"b\""; kind = ColType.Chr } ∷ record { name = codes "day"; kind = ColType.Date } ∷ record { name = codes "ok"; kind = ColType.Lgl } ∷ []) }
{
    let mut schema = Seq::new(alloc);
    schema.push(field(alloc, "id", ColType::Int)?)?;
    schema.push(field(alloc, "per:unit", ColType::Dec)?)?;
    schema.push(field(alloc, "a, \"b\"", ColType::Chr)?)?;
    schema.push(field(alloc, "day", ColType::Date)?)?;
    schema.push(field(alloc, "ok", ColType::Lgl)?)?;
    Ok(schema)
}

/// The least values and a text with a comma, quotes and a line end; an empty text; a row of missing values.
fn all_types(alloc: Global) -> Mem<Table> {
    let least = Value::Int(i64::MIN);
    let marks = text(alloc, "x, \"y\"\r\nz")?;
    let tiny = Value::Dec(dec(-1)?);
    let first = row(
        alloc,
        least,
        tiny,
        marks,
        Value::Day(-719_528),
        Value::Lgl(true),
    )?;
    let half = Value::Dec(dec(1_500_000)?);
    let empty = text(alloc, "")?;
    let leap = Value::Day(19_782);
    let second = row(alloc, Value::Int(0), half, empty, leap, Value::Lgl(false))?;
    let (a, b, c) = (Value::Missing, Value::Missing, Value::Missing);
    let third = row(alloc, a, b, c, Value::Missing, Value::Missing)?;
    let mut rows = Seq::new(alloc);
    rows.push(first)?;
    rows.push(second)?;
    rows.push(third)?;
    Ok(Table {
        schema: schema(alloc)?,
        groups: Seq::new(alloc),
        mark: Mark::Kept,
        rows,
    })
}

/// A lone column of texts, with an empty one.
fn lone_column(alloc: Global) -> Mem<Table> {
    let mut schema: Schema = Seq::new(alloc);
    schema.push(field(alloc, "t", ColType::Chr)?)?;
    let mut rows = Seq::new(alloc);
    rows.push(single(alloc, text(alloc, "")?)?)?;
    rows.push(single(alloc, text(alloc, "é")?)?)?;
    Ok(Table {
        schema,
        groups: Seq::new(alloc),
        mark: Mark::Kept,
        rows,
    })
}

/// The table is printed as this text, and the text is read as the same columns and rows.
fn expect_back<R: Abort>(rt: &R, alloc: Global, t: &Table, wanted: &str) -> Mem<()> {
    let printed = write_csv(alloc, t)?;
    assert_eq!(rt; printed.as_str(), wanted);
    match reread(alloc, t) {
        Ok(read) => {
            assert_eq!(rt; read.schema.len(), t.schema.len());
            for (there, here) in read.schema.as_slice().iter().zip(t.schema.as_slice()) {
                assert_eq!(rt; there.name.as_str(), here.name.as_str());
                assert_eq!(rt; there.kind, here.kind);
            }
            assert!(rt; read.rows == t.rows);
            Ok(())
        }
        Err(Or::Fault(_)) => panic!(rt; "a fault"),
        Err(Or::Memory) => Err(NoMemory),
    }
}

/// A column without a name, which no file holds.
fn nameless_column(alloc: Global) -> Mem<Table> {
    let mut schema: Schema = Seq::new(alloc);
    schema.push(field(alloc, "", ColType::Int)?)?;
    Ok(Table {
        schema,
        groups: Seq::new(alloc),
        mark: Mark::Kept,
        rows: Seq::new(alloc),
    })
}

#[test]
fn a_table_that_no_file_holds_has_a_fault(rt: HostRuntime) -> Result<(), Fail> {
    let alloc = rt.alloc();
    match reread(alloc, &nameless_column(alloc)?) {
        Err(Or::Fault(fault)) => {
            assert_eq!(rt; fault.kind, TableKind::HeaderType);
            assert_eq!(rt; fault.row, 0);
            assert_eq!(rt; fault.column, 1);
        }
        Ok(_) => panic!(rt; "a table"),
        Err(Or::Memory) => panic!(rt; "no memory"),
    }
    Ok(())
}

#[test]
fn a_printed_table_is_read_back(rt: HostRuntime) -> Result<(), Fail> {
    let alloc = rt.alloc();
    expect_back(
        &rt,
        alloc,
        &all_types(alloc)?,
        "id:int,per:unit:dec,\"a, \"\"b\"\":chr\",day:date,ok:lgl\n\
         -9223372036854775808,-0.000001,\"x, \"\"y\"\"\r\nz\",0000-01-01,TRUE\n\
         0,1.5,,2024-02-29,FALSE\n\
         NA,NA,NA,NA,NA\n",
    )?;
    expect_back(&rt, alloc, &lone_column(alloc)?, "t:chr\n\"\"\né\n")?;
    Ok(())
}

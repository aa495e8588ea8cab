//! The bytes of small tables, as CSV and aligned.
ghost use Rattle.std.specs.Prelude.{◌≡◌, [], ◌∷◌, IfOk, codes};

use crate::{write_aligned, write_csv};
use row_table::{Field, Mark, Row, Schema, Table};
use scalar_value::{ColType, Dec6, Mem, NoMemory, Seq, Text, Value};
use std::alloc::Global;
use std::process::Abort;
use std::test::Fail;

fn field(alloc: Global, name: &str, kind: ColType) -> Mem<Field>
    ensures { IfOk result (λ f. f ≡ record { name = name.now; kind = kind }) }
{
    Ok(Field {
        name: Text::of(alloc, name)?,
        kind,
    })
}

fn text(alloc: Global, s: &str) -> Mem<Value>
    ensures { IfOk result (λ v. v ≡ Value.Chr s.now) }
{
    Ok(Value::Chr(Text::of(alloc, s)?))
}

fn dec(millionths: i64) -> Mem<Dec6> {
    match Dec6::of(millionths) {
        Some(number) => Ok(number),
        None => Err(NoMemory),
    }
}

fn pair(alloc: Global, a: Value, b: Value) -> Mem<Row>
    ensures { IfOk result (λ r. r ≡ a ∷ b ∷ []) }
{
    let mut row = Seq::new(alloc);
    row.push(a)?;
    row.push(b)?;
    Ok(row)
}

fn triple(alloc: Global, a: Value, b: Value, c: Value) -> Mem<Row>
    ensures { IfOk result (λ r. r ≡ a ∷ b ∷ c ∷ []) }
{
    let mut row = Seq::new(alloc);
    row.push(a)?;
    row.push(b)?;
    row.push(c)?;
    Ok(row)
}

fn expect_csv<R: Abort>(rt: &R, alloc: Global, t: &Table, wanted: &str) -> Mem<()> {
    assert_eq!(rt; write_csv(alloc, t)?.as_str(), wanted);
    Ok(())
}

fn expect_aligned<R: Abort>(rt: &R, alloc: Global, t: &Table, wanted: &str) -> Mem<()> {
    assert_eq!(rt; write_aligned(alloc, t)?.as_str(), wanted);
    Ok(())
}

/// Two rows of numbers and a text.
fn numbers(alloc: Global) -> Mem<Table> {
    let mut schema: Schema = Seq::new(alloc);
    schema.push(field(alloc, "id", ColType::Int)?)?;
    schema.push(field(alloc, "g", ColType::Chr)?)?;
    schema.push(field(alloc, "x", ColType::Int)?)?;
    let mut rows = Seq::new(alloc);
    rows.push(triple(alloc, Value::Int(1), text(alloc, "a")?, Value::Int(10))?)?;
    rows.push(triple(alloc, Value::Int(3), text(alloc, "a")?, Value::Int(30))?)?;
    Ok(Table {
        schema,
        groups: Seq::new(alloc),
        mark: Mark::Kept,
        rows,
    })
}

#[test]
fn numbers_stand_right(rt: HostRuntime) -> Result<(), Fail> {
    let t = numbers(rt.alloc())?;
    expect_csv(&rt, rt.alloc(), &t, "id:int,g:chr,x:int\n1,a,10\n3,a,30\n")?;
    let wanted =
        "# 2 rows, 3 columns\n   id  g          x\n<int>  <chr>  <int>\n    1  a         10\n    3  a         30\n";
    expect_aligned(&rt, rt.alloc(), &t, wanted)?;
    Ok(())
}

/// A text of six wide characters, one with a tab and U+007F, a decimal and a missing one.
fn wide(alloc: Global) -> Mem<Table> {
    let mut schema: Schema = Seq::new(alloc);
    schema.push(field(alloc, "w", ColType::Chr)?)?;
    schema.push(field(alloc, "n", ColType::Dec)?)?;
    let mut rows = Seq::new(alloc);
    rows.push(pair(alloc, text(alloc, "日本語の表示")?, Value::Dec(dec(1_500_000)?))?)?;
    rows.push(pair(alloc, text(alloc, "x\ty\u{7f}")?, Value::Missing)?)?;
    Ok(Table {
        schema,
        groups: Seq::new(alloc),
        mark: Mark::Kept,
        rows,
    })
}

#[test]
fn widths_count_code_points(rt: HostRuntime) -> Result<(), Fail> {
    let t = wide(rt.alloc())?;
    expect_csv(
        &rt,
        rt.alloc(),
        &t,
        "w:chr,n:dec\n日本語の表示,1.5\nx\ty\u{7f},NA\n",
    )?;
    let wanted =
        "# 2 rows, 2 columns\nw           n\n<chr>   <dec>\n日本語の表示    1.5\nx?y?       NA\n";
    expect_aligned(&rt, rt.alloc(), &t, wanted)?;
    Ok(())
}

/// Grouped by a column whose name has a tab, and by truth values.
fn grouped(alloc: Global) -> Mem<Table> {
    let mut schema: Schema = Seq::new(alloc);
    schema.push(field(alloc, "a\tb", ColType::Chr)?)?;
    schema.push(field(alloc, "d", ColType::Date)?)?;
    schema.push(field(alloc, "f", ColType::Lgl)?)?;
    let mut groups = Seq::new(alloc);
    groups.push(Text::of(alloc, "a\tb")?)?;
    groups.push(Text::of(alloc, "f")?)?;
    let mut rows = Seq::new(alloc);
    rows.push(triple(
        alloc,
        text(alloc, "x")?,
        Value::Day(19_782),
        Value::Lgl(true),
    )?)?;
    rows.push(triple(alloc, Value::Missing, Value::Missing, Value::Missing)?)?;
    Ok(Table {
        schema,
        groups,
        mark: Mark::Kept,
        rows,
    })
}

#[test]
fn groups_are_named(rt: HostRuntime) -> Result<(), Fail> {
    let t = grouped(rt.alloc())?;
    expect_csv(
        &rt,
        rt.alloc(),
        &t,
        "a\tb:chr,d:date,f:lgl\nx,2024-02-29,TRUE\nNA,NA,NA\n",
    )?;
    let wanted =
        "# 2 rows, 3 columns\n# Groups: a\tb, f\na?b    d           f    \n<chr>  <date>      <lgl>\nx      2024-02-29  TRUE \nNA     NA          NA   \n";
    expect_aligned(&rt, rt.alloc(), &t, wanted)?;
    Ok(())
}

/// Texts with commas, quotes and line ends, and an empty one.
fn quoted(alloc: Global) -> Mem<Table> {
    let mut schema: Schema = Seq::new(alloc);
    schema.push(field(alloc, "a,b", ColType::Chr)?)?;
    schema.push(field(alloc, "q", ColType::Chr)?)?;
    let mut rows = Seq::new(alloc);
    rows.push(pair(alloc, text(alloc, "x,y")?, text(alloc, "say \"hi\"")?)?)?;
    rows.push(pair(alloc, text(alloc, "one\ntwo")?, text(alloc, "\r")?)?)?;
    rows.push(pair(alloc, text(alloc, "")?, Value::Missing)?)?;
    Ok(Table {
        schema,
        groups: Seq::new(alloc),
        mark: Mark::Kept,
        rows,
    })
}

#[test]
fn quotes_stand_where_they_must(rt: HostRuntime) -> Result<(), Fail> {
    let t = quoted(rt.alloc())?;
    let wanted = "\"a,b:chr\",q:chr\n\"x,y\",\"say \"\"hi\"\"\"\n\"one\ntwo\",\"\r\"\n,NA\n";
    expect_csv(&rt, rt.alloc(), &t, wanted)?;
    Ok(())
}

/// One column with an empty text.
fn lone(alloc: Global) -> Mem<Table> {
    let mut schema: Schema = Seq::new(alloc);
    schema.push(field(alloc, "a", ColType::Chr)?)?;
    let mut row: Row = Seq::new(alloc);
    row.push(text(alloc, "")?)?;
    let mut rows = Seq::new(alloc);
    rows.push(row)?;
    Ok(Table {
        schema,
        groups: Seq::new(alloc),
        mark: Mark::Kept,
        rows,
    })
}

#[test]
fn a_lone_empty_text_is_two_quotes(rt: HostRuntime) -> Result<(), Fail> {
    let t = lone(rt.alloc())?;
    expect_csv(&rt, rt.alloc(), &t, "a:chr\n\"\"\n")?;
    expect_aligned(
        &rt,
        rt.alloc(),
        &t,
        "# 1 rows, 1 columns\na    \n<chr>\n     \n",
    )?;
    Ok(())
}

/// Sums by region and month.
fn sums_schema(alloc: Global) -> Mem<Schema>
    ensures { IfOk result (λ s. s ≡ record { name = codes "region"; kind = ColType.Chr } ∷ record { name = codes "month"; kind = ColType.Int } ∷ record { name = codes "n"; kind = ColType.Int } ∷ record { name = codes "total"; kind = ColType.Dec } ∷ []) }
{
    let mut schema = Seq::new(alloc);
    schema.push(field(alloc, "region", ColType::Chr)?)?;
    schema.push(field(alloc, "month", ColType::Int)?)?;
    schema.push(field(alloc, "n", ColType::Int)?)?;
    schema.push(field(alloc, "total", ColType::Dec)?)?;
    Ok(schema)
}

fn no_sums(alloc: Global) -> Mem<Table> {
    Ok(Table {
        schema: sums_schema(alloc)?,
        groups: Seq::new(alloc),
        mark: Mark::Kept,
        rows: Seq::new(alloc),
    })
}

#[test]
fn no_rows(rt: HostRuntime) -> Result<(), Fail> {
    let t = no_sums(rt.alloc())?;
    expect_csv(
        &rt,
        rt.alloc(),
        &t,
        "region:chr,month:int,n:int,total:dec\n",
    )?;
    let wanted = "# 0 rows, 4 columns\nregion  month      n  total\n<chr>   <int>  <int>  <dec>\n";
    expect_aligned(&rt, rt.alloc(), &t, wanted)?;
    Ok(())
}

fn sum(alloc: Global, region: Value, month: i64, n: i64, total: Dec6) -> Mem<Row>
    ensures { IfOk result (λ r. r ≡ region ∷ Value.Int month ∷ Value.Int n ∷ Value.Dec total ∷ []) }
{
    let mut row = Seq::new(alloc);
    row.push(region)?;
    row.push(Value::Int(month))?;
    row.push(Value::Int(n))?;
    row.push(Value::Dec(total))?;
    Ok(row)
}

fn sums(alloc: Global) -> Mem<Table> {
    let mut rows = Seq::new(alloc);
    rows.push(sum(alloc, text(alloc, "north")?, 2, 750, dec(4_525_000_000)?)?)?;
    rows.push(sum(alloc, text(alloc, "north")?, 3, 750, dec(4_475_000_000)?)?)?;
    rows.push(sum(alloc, text(alloc, "south")?, 3, 400, dec(2_600_000_000)?)?)?;
    rows.push(sum(alloc, text(alloc, "south")?, 2, 350, dec(2_275_000_000)?)?)?;
    rows.push(sum(alloc, Value::Missing, 2, 350, dec(2_125_000_000)?)?)?;
    rows.push(sum(alloc, Value::Missing, 3, 400, dec(2_000_000_000)?)?)?;
    Ok(Table {
        schema: sums_schema(alloc)?,
        groups: Seq::new(alloc),
        mark: Mark::Kept,
        rows,
    })
}

#[test]
fn sums_stand_right(rt: HostRuntime) -> Result<(), Fail> {
    let t = sums(rt.alloc())?;
    let wanted =
        "# 6 rows, 4 columns\nregion  month      n  total\n<chr>   <int>  <int>  <dec>\nnorth       2    750   4525\nnorth       3    750   4475\nsouth       3    400   2600\nsouth       2    350   2275\nNA          2    350   2125\nNA          3    400   2000\n";
    expect_aligned(&rt, rt.alloc(), &t, wanted)?;
    Ok(())
}

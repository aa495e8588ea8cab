//! The bytes of files, and the table that each is, or its first fault.
use crate::read_table;
use row_table::{Row, Schema, Table};
use scalar_value::{ColType, Mem, Or, Text, Value};
use std::alloc::{AllocError, Global};
use std::test::Fail;

fn kind_name(kind: ColType) -> &'static str {
    match kind {
        ColType::Int => "int",
        ColType::Dec => "dec",
        ColType::Chr => "chr",
        ColType::Date => "date",
        ColType::Lgl => "lgl",
    }
}

/// A value with what tells its type: decimals as their millionths, days as their numbers, texts in brackets.
fn shown_value(alloc: Global, value: &Value) -> Result<String, AllocError> {
    match value {
        Value::Missing => String::from_str(alloc, "NA"),
        Value::Int(number) => format!(in alloc; "{number}"),
        Value::Dec(number) => {
            let millionths = number.millionths();
            format!(in alloc; "{millionths}u")
        }
        Value::Chr(text) => {
            let text = text.as_str();
            format!(in alloc; "[{text}]")
        }
        Value::Day(day) => format!(in alloc; "day {day}"),
        Value::Lgl(truth) => format!(in alloc; "{truth}"),
    }
}

fn push_schema(made: &mut Text, schema: &Schema) -> Mem<()> {
    for (place, column) in schema.as_slice().iter().enumerate() {
        if place > 0 {
            made.push_str(" ")?;
        }
        made.push_str(column.name.as_str())?;
        made.push_str(":")?;
        made.push_str(kind_name(column.kind))?;
    }
    Ok(())
}

fn push_row(alloc: Global, made: &mut Text, row: &Row) -> Mem<()> {
    for (place, value) in row.as_slice().iter().enumerate() {
        made.push_str(if place > 0 { " " } else { " / " })?;
        made.push_str(shown_value(alloc, value)?.as_str())?;
    }
    Ok(())
}

fn shown_table(alloc: Global, table: &Table) -> Mem<Text> {
    let mut made = Text::empty(alloc);
    push_schema(&mut made, &table.schema)?;
    for row in table.rows.as_slice() {
        push_row(alloc, &mut made, row)?;
    }
    Ok(made)
}

fn shown(alloc: Global, bytes: &[u8]) -> Result<Text, Fail> {
    match read_table(alloc, bytes) {
        Ok(table) => Ok(shown_table(alloc, &table)?),
        Err(Or::Fault(fault)) => {
            let kind = fault.kind;
            let row = fault.row;
            let column = fault.column;
            let line = format!(in alloc; "{kind:?} {row} {column}")?;
            Ok(Text::of_string(line))
        }
        Err(Or::Memory) => Ok(Text::of(alloc, "Memory")?),
    }
}

const T: &str = "id:int g:chr x:int / 1 [a] 10 / 2 [b] NA / 3 [a] 30 / 4 NA 5";

#[test]
fn files_are_tables_or_have_a_first_fault(rt: HostRuntime) -> Result<(), Fail> {
    let cases: [(&[u8], &str); 74] = [
        (b"id:int,g:chr,x:int\n1,a,10\n2,b,NA\n3,a,30\n4,NA,5\n", T),
        (
            b"id:int,g:chr,x:int\r\n1,a,10\r\n2,b,NA\r\n3,a,30\r\n4,NA,5\r\n",
            T,
        ),
        (b"id:int,g:chr,x:int\r1,a,10\r2,b,NA\r3,a,30\r4,NA,5\r", T),
        (b"id:int,g:chr,x:int\n1,a,10\n2,b,NA\n3,a,30\n4,NA,5", T),
        (
            b"\xEF\xBB\xBFid:int,g:chr,x:int\n1,a,10\n2,b,NA\n3,a,30\n4,NA,5\n",
            T,
        ),
        (
            b"\n\r\nid:int,g:chr,x:int\n\n1,a,10\n\r\n2,b,\n3,a,30\n4,\"NA\",5\n\n",
            T,
        ),
        (b"\xEF\xBB\xBF\xEF\xBB\xBFx:int\n", "\u{FEFF}x:int"),
        (b"", "NoHeader 0 0"),
        (b"\xEF\xBB\xBF", "NoHeader 0 0"),
        (b"\n\r\n\n", "NoHeader 0 0"),
        (b"x:int", "x:int"),
        (b"x:int,g:chr\n", "x:int g:chr"),
        (b"x:int\n1\xFF", "NotText 0 0"),
        (b"x\n\xC3", "NotText 0 0"),
        (b"a:int,a:chr\n1", "NameTwice 0 2"),
        (b"a:int,b:chr,a:dec,b\n", "NameTwice 0 3"),
        (b"a:int,b,a:int\n", "HeaderType 0 2"),
        (b"a:int,a:int,b\n", "NameTwice 0 2"),
        (b"a:int,A:int\n", "a:int A:int"),
        (
            b"\"a:b:int\",\"c,d:chr\",\"\"\"q\"\":lgl\"\n",
            "a:b:int c,d:chr \"q\":lgl",
        ),
        (b":int\n", "HeaderType 0 1"),
        (b"::int\n", "::int"),
        (b"x\n", "HeaderType 0 1"),
        (b"int\n", "HeaderType 0 1"),
        (b"x:int,y:real\n", "HeaderType 0 2"),
        (b"x:Int\n", "HeaderType 0 1"),
        (b"x:int \n", "HeaderType 0 1"),
        (b"x:\n", "HeaderType 0 1"),
        (b"x:int:\n", "HeaderType 0 1"),
        (b"\"\"\n", "HeaderType 0 1"),
        (b"id:int,x:int\n1,1.5\n", "BadField 1 2"),
        (b"id:int,x:int\n1\n", "Ragged 1 0"),
        (b"id:int,x:int\n1,2\n1,2,3\n", "Ragged 2 0"),
        (b"id:int,x:int\n1,2\na,b\n1\n", "BadField 2 1"),
        (b"id:int,x:int\n1,2\n1\na,b\n", "Ragged 2 0"),
        (b"id:int,x:int\n1,2\n3,b\n", "BadField 2 2"),
        (
            b"x:int\n-9223372036854775808\n9223372036854775807\n",
            "x:int / -9223372036854775808 / 9223372036854775807",
        ),
        (b"x:int\n-9223372036854775809\n", "BadField 1 1"),
        (b"x:int\n9223372036854775808\n", "BadField 1 1"),
        (
            b"x:int\n99999999999999999999999999999999999999999999\n",
            "BadField 1 1",
        ),
        (
            b"x:int\n-0\n007\n0000000000000000000000000000000000000000012\n-01\n",
            "x:int / 0 / 7 / 12 / -1",
        ),
        (b"x:int\nNA\n\"\"\n", "x:int / NA / NA"),
        (b"x:int\n+1\n", "BadField 1 1"),
        (b"x:int\n-\n", "BadField 1 1"),
        (b"x:int\n--1\n", "BadField 1 1"),
        (b"x:int\n 1\n", "BadField 1 1"),
        (b"x:int\nna\n", "BadField 1 1"),
        (b"x:int\n1e3\n", "BadField 1 1"),
        (
            b"x:dec\n999999999999.999999\n-999999999999.999999\n",
            "x:dec / 999999999999999999u / -999999999999999999u",
        ),
        (b"x:dec\n1000000000000\n", "BadField 1 1"),
        (b"x:dec\n-1000000000000.0\n", "BadField 1 1"),
        (
            b"x:dec\n1\n-1.5\n0.000001\n-0\n007.250000\nNA\n",
            "x:dec / 1000000u / -1500000u / 1u / 0u / 7250000u / NA",
        ),
        (b"x:dec\n1.\n", "BadField 1 1"),
        (b"x:dec\n.5\n", "BadField 1 1"),
        (b"x:dec\n1.0000001\n", "BadField 1 1"),
        (b"x:dec\n1.5.5\n", "BadField 1 1"),
        (b"x:dec\n\"1,5\"\n", "BadField 1 1"),
        (
            b"d:date\n0000-01-01\n1970-01-01\n2024-02-29\n9999-12-31\nNA\n",
            "d:date / day -719528 / day 0 / day 19782 / day 2932896 / NA",
        ),
        (b"d:date\n2023-02-29\n", "BadField 1 1"),
        (b"d:date\n2024-13-01\n", "BadField 1 1"),
        (b"d:date\n2024-00-10\n", "BadField 1 1"),
        (b"d:date\n2024-04-31\n", "BadField 1 1"),
        (b"d:date\n2024-1-01\n", "BadField 1 1"),
        (b"d:date\n10000-01-01\n", "BadField 1 1"),
        (b"d:date\n2024/01/01\n", "BadField 1 1"),
        (
            b"b:lgl\nTRUE\ntrue\nFALSE\nfalse\nNA\n",
            "b:lgl / true / true / false / false / NA",
        ),
        (b"b:lgl\nTrue\n", "BadField 1 1"),
        (b"b:lgl\nT\n", "BadField 1 1"),
        (b"b:lgl\n1\n", "BadField 1 1"),
        (
            b"a:chr,b:chr\n,NA\n\"\",\"x\"\n",
            "a:chr b:chr / [] NA / [] [x]",
        ),
        (
            b"a:chr\n\"b,c\"\n\"say \"\"hi\"\"\"\n\"two\r\nlines\"\n d \n",
            "a:chr / [b,c] / [say \"hi\"] / [two\r\nlines] / [ d ]",
        ),
        (
            b"a:chr\n\xC3\xA9t\xC3\xA9\nNAN\n",
            "a:chr / [\u{E9}t\u{E9}] / [NAN]",
        ),
        (b"a:chr,x:int\n\"open, 1\n", "Ragged 1 0"),
        (
            b"a:int,b:dec,c:chr,d:date,e:lgl\n,,,,\n",
            "a:int b:dec c:chr d:date e:lgl / NA NA [] NA NA",
        ),
    ];
    for (bytes, wanted) in cases {
        assert_eq!(rt; shown(rt.alloc(), bytes)?.as_str(), wanted);
    }
    Ok(())
}

fn wide_header(alloc: Global, columns: u32) -> Result<String, AllocError> {
    let mut made = String::new(alloc);
    for column in 0..columns {
        if column > 0 {
            made.push_str(",")?;
        }
        made.push_str(format!(in alloc; "c{column}:int")?.as_str())?;
    }
    Ok(made)
}

#[test]
fn at_most_1024_columns_are_read(rt: HostRuntime) -> Result<(), Fail> {
    let widest = wide_header(rt.alloc(), 1024)?;
    match read_table(rt.alloc(), widest.as_bytes()) {
        Ok(table) => assert_eq!(rt; table.schema.len(), 1024),
        Err(_) => assert!(rt; false, "no table"),
    }
    let wider = wide_header(rt.alloc(), 1025)?;
    assert_eq!(rt;
        shown(rt.alloc(), wider.as_bytes())?.as_str(),
        "TooManyColumns 0 1025"
    );
    Ok(())
}

use super::*;
use scalar_value::{ColType, Dec6, Mem, Text, Value};
use std::alloc::Global;
use std::test::Fail;

#[test]
fn types(rt: HostRuntime) {
    let rows = [
        (AggKind::Count, ColType::Chr, Some(ColType::Int)),
        (AggKind::Sum, ColType::Lgl, Some(ColType::Int)),
        (AggKind::Sum, ColType::Dec, Some(ColType::Dec)),
        (AggKind::Sum, ColType::Date, None),
        (AggKind::Mean, ColType::Int, Some(ColType::Dec)),
        (AggKind::Mean, ColType::Chr, None),
        (AggKind::Min, ColType::Date, Some(ColType::Date)),
        (AggKind::Max, ColType::Chr, Some(ColType::Chr)),
        (AggKind::Distinct, ColType::Date, Some(ColType::Int)),
        (AggKind::Any, ColType::Lgl, Some(ColType::Lgl)),
        (AggKind::All, ColType::Int, None),
        (AggKind::First, ColType::Dec, Some(ColType::Dec)),
        (AggKind::Last, ColType::Lgl, Some(ColType::Lgl)),
    ];
    for (kind, arg, expected) in rows {
        assert_eq!(rt; agg_type(kind, arg), expected);
    }
}

/// The value of a word of this type, and a missing value of every other word.
fn value(alloc: Global, kind: ColType, word: &str) -> Mem<Value> {
    if word == "NA" {
        return Ok(Value::Missing);
    }
    Ok(match kind {
        ColType::Int => word.parse::<i64>().map_or(Value::Missing, Value::Int),
        ColType::Dec => Dec6::parse(word).map_or(Value::Missing, Value::Dec),
        ColType::Chr => Value::Chr(Text::of(alloc, word)?),
        ColType::Date => word.parse::<i32>().map_or(Value::Missing, Value::Day),
        ColType::Lgl => Value::Lgl(word == "TRUE"),
    })
}

fn kind_named(word: &str) -> AggKind {
    match word {
        "sum" => AggKind::Sum,
        "mean" => AggKind::Mean,
        "min" => AggKind::Min,
        "max" => AggKind::Max,
        "distinct" => AggKind::Distinct,
        "any" => AggKind::Any,
        "all" => AggKind::All,
        "first" => AggKind::First,
        "last" => AggKind::Last,
        _ => AggKind::Count,
    }
}

fn type_named(word: &str) -> ColType {
    match word {
        "int" => ColType::Int,
        "dec" => ColType::Dec,
        "chr" => ColType::Chr,
        "date" => ColType::Date,
        _ => ColType::Lgl,
    }
}

/// The value of the aggregate that a row names, on the values of its words before `=`.
fn summed(alloc: Global, row: &str) -> Mem<Value> {
    let mut words = row.split_whitespace();
    let kind = kind_named(words.next().unwrap_or(""));
    let arg_type = type_named(words.next().unwrap_or(""));
    let na_rm = words.next() == Some("drop");
    let mut values = Vec::new(alloc);
    for word in words {
        if word == "=" {
            break;
        }
        values.push(value(alloc, arg_type, word)?)?;
    }
    let call = AggCall {
        kind,
        arg: 0,
        arg_type,
        na_rm,
    };
    agg_value(alloc, &call, values.as_slice())
}

/// The value that a row expects, of the type that the aggregate has.
fn expected(alloc: Global, row: &str) -> Mem<Value> {
    let mut words = row.split_whitespace();
    let kind = kind_named(words.next().unwrap_or(""));
    let arg_type = type_named(words.next().unwrap_or(""));
    let result_type = agg_type(kind, arg_type).unwrap_or(ColType::Chr);
    value(alloc, result_type, words.last().unwrap_or(""))
}

/// The aggregate, the type of its argument, whether missing values are kept or dropped, the values, and the result.
const ROWS: &str = "
count chr drop a NA a = 3
count int keep = 0
sum int keep 9223372036854775807 1 -1 = 9223372036854775807
sum int keep 9223372036854775807 1 = NA
sum int keep -9223372036854775808 -1 1 = -9223372036854775808
sum int keep -9223372036854775808 -1 = NA
sum int keep = 0
sum dec keep = 0
sum int keep 1 NA 2 = NA
sum int drop 1 NA 2 = 3
sum int drop NA NA = 0
sum lgl keep TRUE FALSE TRUE = 2
sum dec keep 999999999999.999999 0.000001 -0.000001 = 999999999999.999999
sum dec keep 999999999999.999999 0.000001 = NA
sum dec keep -999999999999.999999 -0.000001 = NA
mean int keep 1 1 0 = 0.666667
mean int keep -1 -1 0 = -0.666667
mean int keep = NA
mean int drop NA = NA
mean int keep 1 NA = NA
mean int drop 1 NA 2 = 1.5
mean int keep 9223372036854775807 = NA
mean int keep 9223372036854775807 9223372036854775807 -9223372036854775808 -9223372036854775808 = -0.5
mean dec keep 0.000001 0 = 0.000001
mean dec keep -0.000001 0 = -0.000001
mean dec keep 0.000001 0 0 = 0
mean dec keep 999999999999.999999 999999999999.999999 999999999999.999999 = 999999999999.999999
mean lgl keep TRUE FALSE FALSE FALSE = 0.25
min int keep 3 -9223372036854775808 9223372036854775807 = -9223372036854775808
max int keep 3 -9223372036854775808 9223372036854775807 = 9223372036854775807
min chr keep b a ab = a
max chr drop b NA ba = ba
min date keep 2 -1 5 = -1
max lgl keep FALSE TRUE FALSE = TRUE
min dec keep 0.5 NA = NA
min dec drop 0.5 NA -0.5 = -0.5
max int keep = NA
max int drop NA = NA
distinct int keep 1 NA 1 NA = 2
distinct int drop 1 NA 1 NA = 1
distinct chr keep a b a c = 3
distinct chr keep = 0
any lgl keep FALSE NA TRUE = TRUE
any lgl keep FALSE NA = NA
any lgl drop FALSE NA = FALSE
any lgl keep = FALSE
all lgl keep TRUE NA FALSE = FALSE
all lgl keep TRUE NA = NA
all lgl drop TRUE NA = TRUE
all lgl keep = TRUE
first chr drop NA b c = NA
first chr keep a b c = a
first int keep = NA
last chr keep a b c = c
last int drop 1 NA = NA
last int keep = NA
";

#[test]
fn values(rt: HostRuntime) -> Result<(), Fail> {
    let mut count = 0u32;
    for row in ROWS.lines() {
        if !row.is_empty() {
            assert_eq!(rt;
                summed(rt.alloc(), row)?,
                expected(rt.alloc(), row)?,
                "{row}"
            );
            count = count.saturating_add(1);
        }
    }
    assert_eq!(rt; count, 56);
    Ok(())
}

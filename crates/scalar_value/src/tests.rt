use super::*;
use std::cmp::Ordering;
use std::test::Fail;

fn int(number: i64) -> Value {
    Value::Int(number)
}

fn dec(text: &str) -> Value {
    match Dec6::parse(text) {
        Some(number) => Value::Dec(number),
        None => Value::Missing,
    }
}

fn computed(op: NumOp, a: &Value, b: &Value) -> Value {
    match (a, b) {
        (
            Value::Int(_) | Value::Dec(_) | Value::Missing,
            Value::Int(_) | Value::Dec(_) | Value::Missing,
        ) => num(op, a, b),
        _ => Value::Lgl(false),
    }
}

#[test]
fn whole_numbers(rt: HostRuntime) {
    let (least, most) = (i64::MIN, i64::MAX);
    let rows = [
        (NumOp::Add, most, 1, Value::Missing),
        (NumOp::Add, most, -1, int(most - 1)),
        (NumOp::Sub, least, 1, Value::Missing),
        (NumOp::Mul, least, -1, Value::Missing),
        (NumOp::Mul, -3, 4, int(-12)),
        (NumOp::FloorDiv, 7, -2, int(-4)),
        (NumOp::Mod, 7, -2, int(-1)),
        (NumOp::FloorDiv, -7, 3, int(-3)),
        (NumOp::Mod, -7, 3, int(2)),
        (NumOp::FloorDiv, least, -1, Value::Missing),
        (NumOp::Mod, least, -1, int(0)),
        (NumOp::Mod, 5, 0, Value::Missing),
        (NumOp::Div, 5, 0, Value::Missing),
        (NumOp::Div, 1, 3, dec("0.333333")),
        (NumOp::Div, 2, 3, dec("0.666667")),
        (NumOp::Div, -2, 3, dec("-0.666667")),
        (NumOp::Div, most, most, dec("1")),
        (NumOp::Div, most, 1, Value::Missing),
    ];
    for (op, x, y, expected) in rows {
        let given = computed(op, &int(x), &int(y));
        assert_eq!(rt; given, expected, "{x} {y}");
    }
}

#[test]
fn decimals(rt: HostRuntime) {
    let most = "999999999999.999999";
    let rows = [
        (NumOp::Add, most, "0.000001", "NA"),
        (NumOp::Sub, most, "0.000001", "999999999999.999998"),
        (NumOp::Mul, "0.000001", "0.5", "0.000001"),
        (NumOp::Mul, "-0.000001", "0.5", "-0.000001"),
        (NumOp::Mul, "0.000001", "0.499999", "0"),
        (NumOp::Mul, "1000000", "1000000", "NA"),
        (NumOp::Div, "1", "8", "0.125"),
        (NumOp::Div, "0.000001", "2", "0.000001"),
        (NumOp::Div, "-0.000001", "2", "-0.000001"),
        (NumOp::FloorDiv, "7.5", "-2", "-4"),
        (NumOp::Mod, "7.5", "-2", "-0.5"),
        (NumOp::FloorDiv, most, "0.000001", "NA"),
        (NumOp::Mod, most, "0.000001", "0"),
        (NumOp::Mod, "1", "0", "NA"),
    ];
    for (op, x, y, expected) in rows {
        let given = computed(op, &dec(x), &dec(y));
        assert_eq!(rt; given, dec(expected), "{x} {y}");
    }
    assert_eq!(rt; computed(NumOp::Mul, &int(3), &dec("0.5")), dec("1.5"));
    assert_eq!(rt; computed(NumOp::Sub, &dec("0.5"), &int(1)), dec("-0.5"));
    assert_eq!(rt; computed(NumOp::Mod, &int(i64::MAX), &dec("10")), dec("7"));
    assert_eq!(rt;
        computed(NumOp::Add, &Value::Missing, &int(1)),
        Value::Missing
    );
}

#[test]
fn decimal_texts(rt: HostRuntime) {
    let rows = [
        ("0", Some(0)),
        ("-0.5", Some(-500_000)),
        ("007.000001", Some(7_000_001)),
        ("999999999999.999999", Some(999_999_999_999_999_999)),
        ("1000000000000", None),
        ("1.0000001", None),
        ("1.", None),
        (".5", None),
        ("+1", None),
        ("--1", None),
        ("1e3", None),
        ("NA", None),
        ("", None),
        ("-", None),
    ];
    for (text, millionths) in rows {
        let given = match Dec6::parse(text) {
            Some(number) => Some(number.millionths()),
            None => None,
        };
        assert_eq!(rt; given, millionths, "{text}");
    }
}

#[test]
fn order_of_values(rt: HostRuntime) -> Result<(), Fail> {
    let text = Value::Chr(Text::of(rt.alloc(), "b")?);
    let rows = [
        (int(2), int(10), Ordering::Less),
        (int(10), dec("2"), Ordering::Less),
        (dec("2"), text.copy()?, Ordering::Less),
        (text, Value::Day(0), Ordering::Less),
        (Value::Lgl(false), Value::Lgl(true), Ordering::Less),
        (Value::Lgl(true), Value::Missing, Ordering::Less),
        (Value::Missing, Value::Missing, Ordering::Equal),
    ];
    for (a, b, expected) in rows {
        assert_eq!(rt; a.cmp_total(&b), expected);
    }
    if let Some(half) = Dec6::of(1_500_000) {
        assert_eq!(rt; num_cmp(&Value::Int(1), &Value::Dec(half)), Ordering::Less);
    }
    Ok(())
}

#[test]
fn owners(rt: HostRuntime) -> Result<(), Fail> {
    let mut text = Text::of(rt.alloc(), "day")?;
    text.push_str("s")?;
    assert_eq!(rt; text.copy()?.as_str(), "days");
    let mut list = Seq::of_slice(rt.alloc(), [1u32, 2].as_slice())?;
    list.push(3)?;
    assert_eq!(rt; list.copy()?.as_slice(), [1, 2, 3].as_slice());
    assert_eq!(rt; *Boxed::new(rt.alloc(), 7u32)?.get(), 7);
    Ok(())
}

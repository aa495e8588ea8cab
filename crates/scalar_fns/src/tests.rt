use super::*;
use scalar_value::{Dec6, Text, Value};
use std::test::Fail;

fn parts(text: &str) -> Option<(i64, i64, i64, i64)> {
    match read_day(text) {
        Some(day) if day >= -719_528 && day <= 2_932_896 => {
            Some((year(day), month(day), day_of(day), wday(day)))
        }
        _ => None,
    }
}

#[test]
fn days(rt: HostRuntime) {
    let rows = [
        ("1970-01-01", Some(0)),
        ("0000-01-01", Some(-719_528)),
        ("9999-12-31", Some(2_932_896)),
        ("2024-02-29", Some(19_782)),
        ("2023-02-29", None),
        ("1900-02-29", None),
        ("2024-13-01", None),
        ("2024-00-01", None),
        ("2024-2-29", None),
        ("-024-02-29", None),
        ("2024-02-29 ", None),
        ("NA", None),
    ];
    for (text, day) in rows {
        assert_eq!(rt; read_day(text), day, "{text}");
    }
    assert_eq!(rt; day_add(0, 1), Some(1));
    assert_eq!(rt; day_add(-719_528, -1), None);
    assert_eq!(rt; day_add(2_932_896, 1), None);
    assert_eq!(rt; day_add(0, i64::MIN), None);
}

#[test]
fn parts_of_days(rt: HostRuntime) {
    let rows = [
        ("1970-01-01", (1970, 1, 1, 5)),
        ("2024-02-29", (2024, 2, 29, 5)),
        ("2024-03-03", (2024, 3, 3, 1)),
        ("0000-01-01", (0, 1, 1, 7)),
        ("0000-12-31", (0, 12, 31, 1)),
        ("9999-12-31", (9999, 12, 31, 6)),
    ];
    for (text, expected) in rows {
        assert_eq!(rt; parts(text), Some(expected), "{text}");
    }
}

#[test]
fn texts(rt: HostRuntime) -> Result<(), Fail> {
    let text = "aé€b";
    let rows = [
        (2, 3, "é€"),
        (0, 2, "aé"),
        (-5, 1, "a"),
        (3, 99, "€b"),
        (5, 9, ""),
        (3, 2, ""),
    ];
    for (from, to, expected) in rows {
        assert_eq!(rt; substr(text, from, to), expected, "{from} {to}");
    }
    assert_eq!(rt; chars(text), 4);
    assert_eq!(rt; chars(""), 0);
    assert_eq!(rt; upper(rt.alloc(), "aéZ1")?.as_str(), "AéZ1");
    assert_eq!(rt; lower(rt.alloc(), "AÉz1")?.as_str(), "aÉz1");
    Ok(())
}

fn dec(text: &str) -> Value {
    match Dec6::parse(text) {
        Some(number) => Value::Dec(number),
        None => Value::Missing,
    }
}

#[test]
fn value_texts(rt: HostRuntime) -> Result<(), Fail> {
    let rows = [
        (Value::Missing, "NA"),
        (Value::Int(i64::MIN), "-9223372036854775808"),
        (dec("1.5"), "1.5"),
        (dec("-0.000001"), "-0.000001"),
        (dec("7.000"), "7"),
        (dec("007.5"), "7.5"),
        (dec("12.304500"), "12.3045"),
        (Value::Day(19_782), "2024-02-29"),
        (Value::Day(-719_528), "0000-01-01"),
        (Value::Lgl(true), "TRUE"),
        (Value::Lgl(false), "FALSE"),
        (Value::Chr(Text::of(rt.alloc(), "a,b")?), "a,b"),
    ];
    for (value, expected) in rows {
        let mut text = Text::of(rt.alloc(), "=")?;
        match &value {
            Value::Day(day) if *day < -719_528 || *day > 2_932_896 => {}
            _ => write_value(&value, &mut text)?,
        }
        assert_eq!(rt; text.as_str().strip_prefix('='), Some(expected));
    }
    Ok(())
}

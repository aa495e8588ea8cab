use crate::{Place, TokenKind, place_of, scan};
use scalar_value::Or;
use std::alloc::{AllocError, Global};
use std::process::Abort;
use std::test::Fail;

// A token's kind and value, as the tables below write it.
fn shown(alloc: Global, kind: &TokenKind) -> Result<String, AllocError> {
    match kind {
        TokenKind::Name(text) => {
            let name = text.as_str();
            format!(in alloc; "name {name}")
        }
        TokenKind::Whole(number) => format!(in alloc; "whole {number}"),
        TokenKind::Decimal(number) => {
            let millionths = number.millionths();
            format!(in alloc; "decimal {millionths}")
        }
        TokenKind::Str(text) => {
            let text = text.as_str();
            format!(in alloc; "text {text}")
        }
        TokenKind::Word(word) => {
            let word = word.spelling();
            format!(in alloc; "word {word}")
        }
        TokenKind::Op(oper) => {
            let oper = oper.spelling();
            format!(in alloc; "op {oper}")
        }
        TokenKind::Line => format!(in alloc; "line"),
    }
}

// All tokens of a script, each as `from-to kind` and a bar; or its fault, as `kind at place`.
fn read(alloc: Global, script: &str) -> Result<String, Fail> {
    let mut all = String::new(alloc);
    if script.len() > 1 << 20 {
        return Ok(all);
    }
    match scan(alloc, script) {
        Ok(tokens) => {
            for token in tokens.as_slice() {
                let (from, to) = (token.from, token.to);
                let kind = shown(alloc, &token.kind)?;
                let one = format!(in alloc; "{from}-{to} {kind}|")?;
                all.push_str(one.as_str())?;
            }
        }
        Err(Or::Fault(fault)) => all.push_str(fault.to_string(alloc)?.as_str())?,
        Err(Or::Memory) => all.push_str("out of memory")?,
    }
    Ok(all)
}

#[test]
fn reads_each_kind_of_token(rt: HostRuntime) -> Result<(), Fail> {
    let rows = [
        ("", ""),
        ("\u{feff}x", "3-4 name x|"),
        (" \t\rx", "3-4 name x|"),
        ("a\r\nb", "0-1 name a|2-3 line|3-4 name b|"),
        ("x # y\nz", "0-1 name x|5-6 line|6-7 name z|"),
        (
            "a.b_1 .x ..5 .",
            "0-5 name a.b_1|6-8 name .x|9-12 name ..5|13-14 name .|",
        ),
        ("`a b`+`TRUE`", "0-5 name a b|5-6 op +|6-12 name TRUE|"),
        ("`\u{e9} \"`", "0-6 name \u{e9} \"|"),
        (
            "TRUE FALSE NA",
            "0-4 word TRUE|5-10 word FALSE|11-13 word NA|",
        ),
        (
            "NA_integer_ NA_real_ NA_character_",
            "0-11 word NA_integer_|12-20 word NA_real_|21-34 word NA_character_|",
        ),
        (
            "TRUE1 NA.x true",
            "0-5 name TRUE1|6-10 name NA.x|11-15 name true|",
        ),
        ("0 007 5L", "0-1 whole 0|2-5 whole 7|6-8 whole 5|"),
        ("9223372036854775807", "0-19 whole 9223372036854775807|"),
        (
            "1.5 .25 3. 0.000001",
            "0-3 decimal 1500000|4-7 decimal 250000|8-10 decimal 3000000|11-19 decimal 1|",
        ),
        ("999999999999.999999", "0-19 decimal 999999999999999999|"),
        ("'a' \"b'c\" ''", "0-3 text a|4-9 text b'c|10-12 text |"),
        ("'\\\\ \\\" \\' \\n \\t \\r'", "0-19 text \\ \" ' \n \t \r|"),
        ("'a\nb' '\u{20ac}'", "0-5 text a\nb|6-11 text \u{20ac}|"),
        ("x<-5", "0-1 name x|1-3 op <-|3-4 whole 5|"),
        (
            "|>%>%<-<=>===!=%%%/%%in%",
            "0-2 op |>|2-5 op %>%|5-7 op <-|7-9 op <=|9-11 op >=|11-13 op ==|13-15 op !=|15-17 op %%|17-20 op %/%|20-24 op %in%|",
        ),
        (
            "< > = + - * / ! & | ~ : ( ) , ;",
            "0-1 op <|2-3 op >|4-5 op =|6-7 op +|8-9 op -|10-11 op *|12-13 op /|14-15 op !|16-17 op &|18-19 op ||20-21 op ~|22-23 op :|24-25 op (|26-27 op )|28-29 op ,|30-31 op ;|",
        ),
        ("<<-=|>>", "0-1 op <|1-3 op <-|3-4 op =|4-6 op |>|6-7 op >|"),
    ];
    for (script, tokens) in rows {
        let text = read(rt.alloc(), script)?;
        assert_eq!(rt; text.as_str(), tokens, "{script}");
    }
    Ok(())
}

#[test]
fn finds_the_first_fault(rt: HostRuntime) -> Result<(), Fail> {
    let rows = [
        ("t |> filter(x > 1e3)", "unexpected character at byte 17"),
        ("t |> filter(x > 'a\\q')", "unexpected character at byte 18"),
        ("x $ y", "unexpected character at byte 2"),
        ("% 1", "unexpected character at byte 0"),
        ("_x", "unexpected character at byte 0"),
        ("x \u{e9}", "unexpected character at byte 2"),
        ("1x", "unexpected character at byte 1"),
        ("5L3", "unexpected character at byte 2"),
        ("5L.", "unexpected character at byte 2"),
        ("1.5L", "unexpected character at byte 3"),
        ("1.2.3", "unexpected character at byte 3"),
        ("1_", "unexpected character at byte 1"),
        ("``", "unexpected character at byte 0"),
        ("x 'ab", "unclosed text at byte 2"),
        ("x \"ab'", "unclosed text at byte 2"),
        ("'\\", "unclosed text at byte 0"),
        ("`ab", "unclosed text at byte 0"),
        ("`a\nb`", "unclosed text at byte 0"),
        ("'a\\qb", "unexpected character at byte 2"),
        ("'a\\q' 'b\\z", "unexpected character at byte 2"),
        ("y 9223372036854775808", "number out of range at byte 2"),
        ("9223372036854775808x $", "number out of range at byte 0"),
        ("1000000000000.0", "number out of range at byte 0"),
        (".0000001", "number out of range at byte 0"),
        ("1.0000000", "number out of range at byte 0"),
        ("\u{feff}\u{feff}x", "unexpected character at byte 3"),
        ("1e3 'a", "unexpected character at byte 1"),
    ];
    for (script, fault) in rows {
        let text = read(rt.alloc(), script)?;
        assert_eq!(rt; text.as_str(), fault, "{script}");
    }
    Ok(())
}

#[test]
fn counts_lines_and_columns(rt: HostRuntime) {
    assert_eq!(rt; place_of("", 0), Place { line: 1, column: 1 });
    assert_eq!(rt;
        place_of("t |> filter(x > 'a\\q')", 18),
        Place {
            line: 1,
            column: 19
        }
    );
    assert_eq!(rt; place_of("a\nb\n\nc", 5), Place { line: 4, column: 1 });
    assert_eq!(rt; place_of("a\r\nb", 4), Place { line: 2, column: 2 });
    assert_eq!(rt; place_of("\u{feff}x", 3), Place { line: 1, column: 1 });
}

#[test]
fn counts_a_column_in_code_points(rt: HostRuntime) -> Result<(), Fail> {
    let script = "x\n'\u{e9}\u{20ac}' $";
    let fault = match scan(rt.alloc(), script) {
        Err(Or::Fault(fault)) => fault,
        Ok(_) | Err(Or::Memory) => return Err("a fault was expected".into()),
    };
    assert_eq!(rt; fault.at, 10);
    assert_eq!(rt; place_of(script, fault.at), Place { line: 2, column: 6 });
    Ok(())
}

#[test]
fn copies_each_kind(rt: HostRuntime) -> Result<(), Fail> {
    let tokens = match scan(rt.alloc(), "x `y` 5 1.5 'a' NA + \n") {
        Ok(tokens) => tokens,
        Err(_) => return Err("tokens were expected".into()),
    };
    assert_eq!(rt; tokens.len(), 8);
    for token in tokens.as_slice() {
        let made = token.copy()?;
        assert_eq!(rt; (made.from, made.to), (token.from, token.to));
        let (first, second) = (
            shown(rt.alloc(), &token.kind)?,
            shown(rt.alloc(), &made.kind)?,
        );
        assert_eq!(rt; first.as_str(), second.as_str());
    }
    Ok(())
}

#[test]
fn reads_the_longest_script(rt: HostRuntime) -> Result<(), Fail> {
    let mut half = String::from_str(rt.alloc(), "a")?;
    for _ in 0..19 {
        let same = half.clone()?;
        half.push_str(same.as_str())?;
    }
    assert_eq!(rt; half.len(), 1 << 19);
    let mut script = String::from_str(rt.alloc(), half.as_str())?;
    script.push_str(half.as_str())?;
    assert_eq!(rt; script.len(), 1 << 20);
    let tokens = match scan(rt.alloc(), script.as_str()) {
        Ok(tokens) => tokens,
        Err(_) => return Err("a token was expected".into()),
    };
    assert_eq!(rt; tokens.len(), 1);
    Ok(())
}

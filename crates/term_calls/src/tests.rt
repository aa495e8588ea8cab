//! Calls over parts, with the type of what is made of them or their fault, and names by what they stand for.
use super::*;
use na_expr::{Expr, ExprFn};
use scalar_value::{ColType, Dec6, Mem, Or, Res, Seq, Text, Value};
use std::alloc::Global;
use std::test::Fail;

/// The place of each call of the tests; the parts stand at 1, 2 and so on.
const AT: u32 = 9;

fn decimal(text: &str) -> Value {
    match Dec6::parse(text) {
        Some(number) => Value::Dec(number),
        None => Value::Missing,
    }
}

/// A part by a word: a missing or free one, a number, a column by its type, or a text as it is written.
fn piece(alloc: Global, word: &str) -> Mem<Piece> {
    match word {
        "na" => Ok(Piece::Na),
        "free" => Ok(Piece::Free),
        "1" => Ok(Piece::Number(Value::Int(1), ColType::Int)),
        "1.5" => Ok(Piece::Number(decimal(word), ColType::Dec)),
        "int" => Ok(Piece::Typed(Expr::Col(0), ColType::Int)),
        "chr" => Ok(Piece::Typed(Expr::Col(1), ColType::Chr)),
        "date" => Ok(Piece::Typed(Expr::Col(2), ColType::Date)),
        "lgl" => Ok(Piece::Typed(Expr::Col(3), ColType::Lgl)),
        text => Ok(Piece::Literal(Value::Chr(Text::of(alloc, text)?), ColType::Chr)),
    }
}

fn pieces(alloc: Global, words: &[&str]) -> Mem<Seq<Piece>> {
    let mut made = Seq::new(alloc);
    for word in words {
        made.push(piece(alloc, word)?)?;
    }
    Ok(made)
}

/// The parts of a list, from place 2 on.
fn items(alloc: Global, words: &[&str]) -> Mem<Seq<Part>> {
    let mut made = Seq::new(alloc);
    for (at, word) in (2u32..).zip(words) {
        made.push((at, piece(alloc, word)?))?;
    }
    Ok(made)
}

/// The call of a line's words.
fn called(alloc: Global, words: &[&str]) -> Res<Piece, TermFault> {
    match words {
        ["-", a] => of_one(alloc, AT, ExprFn::Neg, piece(alloc, a)?),
        ["+", a, b] => of_two(alloc, AT, ExprFn::Add, piece(alloc, a)?, piece(alloc, b)?),
        ["if_else", c, a, b] => of_three(
            alloc,
            AT,
            ExprFn::IfElse(ColType::Lgl),
            piece(alloc, c)?,
            piece(alloc, a)?,
            piece(alloc, b)?,
        ),
        ["<", a, b] => operated(
            alloc,
            AT,
            ExprFn::Lt,
            (1, piece(alloc, a)?),
            (2, piece(alloc, b)?),
        ),
        ["between", x, a, b] => between_parts(
            alloc,
            AT,
            (1, piece(alloc, x)?),
            (2, piece(alloc, a)?),
            (3, piece(alloc, b)?),
        ),
        ["coalesce", values @ ..] => first_there(alloc, AT, pieces(alloc, values)?),
        ["paste0", values @ ..] => pasted(alloc, AT, pieces(alloc, values)?),
        ["in", x, list @ ..] => {
            let list = items(alloc, list)?;
            membership(alloc, AT, (1, piece(alloc, x)?), Some(list))
        }
        _ => membership(alloc, AT, (1, Piece::Na), None),
    }
}

/// The type of the call of a line, `free` where it has none, or its fault with its place.
fn outcome(alloc: Global, line: &str) -> Result<String, Fail> {
    let words: Vec<&str> = line.split(' ').collect(alloc)?;
    match called(alloc, words.as_slice()) {
        Ok(made) => match made.copy()?.kind() {
            Some(kind) => Ok(format!(in alloc; "{kind:?}")?),
            None => Ok(String::from_str(alloc, "free")?),
        },
        Err(Or::Fault(fault)) => Ok(format!(in alloc; "{:?} {}", fault.kind, fault.at)?),
        Err(Or::Memory) => Ok(String::from_str(alloc, "out of memory")?),
    }
}

/// Each line: a call of parts, and its type or its fault with the place.
const LINES: &str = "
- int => Int
- na => Int
- chr => WrongType 9
+ int 1.5 => Dec
+ na na => Int
if_else lgl na 1.5 => Dec
if_else lgl na free => free
if_else int na 1 => WrongType 9
< chr na => Lgl
< date 2024-02-01 => Lgl
< nope date => WrongType 1
between 2024-02-03 date na => Lgl
between date 2024-02-03 nope => WrongType 3
coalesce na 1.5 => Dec
coalesce na free => free
paste0 chr 1 na => Chr
in int 1 na => Lgl
in int => Lgl
in date 2024-02-01 nope => WrongType 3
in int int => WrongArguments 9
no list => WrongArguments 9
";

#[test]
fn calls_have_these_types_and_faults(rt: HostRuntime) -> Result<(), Fail> {
    for line in LINES.lines() {
        if let Some((call, wanted)) = line.split_once(" => ") {
            let found = outcome(rt.alloc(), call)?;
            assert!(rt; found.as_str() == wanted, "{call}: {found}");
        }
    }
    Ok(())
}

#[test]
fn names_stand_for_these_callees(rt: HostRuntime) {
    let table = [
        ("is.na", Callee::Row(ExprFn::IsNa)),
        ("as.character", Callee::Row(ExprFn::AsCharacter)),
        ("as.Date", Callee::AsDate),
        ("sum", Callee::Grouped),
        ("median", Callee::LeftOut),
        ("c", Callee::Unknown),
        ("", Callee::Unknown),
    ];
    for (name, wanted) in table {
        assert_eq!(rt; callee_named(name), wanted);
    }
}

use crate::{Arg, Call, Pipe, Script, Term, TermKind, parse};
use scalar_value::Or;
use std::alloc::{AllocError, Global};
use std::test::Fail;
use token_scan::scan;

// Each expression with parentheses round its operands, a pipeline in brackets; with `places`, each part behind the
// place where it stands.
#[cycle(show)]
fn show_pipe(out: &mut String, pipe: &Pipe, places: bool) -> Result<(), AllocError> {
    show_place(out, pipe.at, places)?;
    out.push_str(pipe.table.as_str())?;
    for call in pipe.calls.as_slice() {
        out.push_str(" |> ")?;
        show_call(out, call, places)?;
    }
    Ok(())
}

#[cycle(show)]
fn show_call(out: &mut String, call: &Call, places: bool) -> Result<(), AllocError> {
    show_place(out, call.at, places)?;
    out.push_str(call.name.as_str())?;
    out.push_str("(")?;
    for (i, arg) in call.args.as_slice().iter().enumerate() {
        if i > 0 {
            out.push_str(", ")?;
        }
        show_arg(out, arg, places)?;
    }
    out.push_str(")")
}

#[cycle(show)]
fn show_arg(out: &mut String, arg: &Arg, places: bool) -> Result<(), AllocError> {
    if let Some(name) = &arg.name {
        show_place(out, arg.at, places)?;
        out.push_str(name.as_str())?;
        out.push_str(" = ")?;
    }
    show_term(out, &arg.value, places)
}

#[cycle(show)]
fn show_term(out: &mut String, term: &Term, places: bool) -> Result<(), AllocError> {
    show_place(out, term.at, places)?;
    show_kind(out, &term.kind, places)
}

#[cycle(show)]
fn show_kind(out: &mut String, kind: &TermKind, places: bool) -> Result<(), AllocError> {
    match kind {
        TermKind::Name(name) => out.push_str(name.as_str()),
        TermKind::Whole(number) => write!(out, "{number}"),
        TermKind::Decimal(number) => {
            let millionths = number.millionths();
            write!(out, "{millionths}u")
        }
        TermKind::Str(text) => {
            out.push_str("'")?;
            out.push_str(text.as_str())?;
            out.push_str("'")
        }
        TermKind::Word(word) => out.push_str(word.spelling()),
        TermKind::Unary(oper, operand) => {
            out.push_str("(")?;
            out.push_str(oper.spelling())?;
            show_term(out, operand.get(), places)?;
            out.push_str(")")
        }
        TermKind::Binary(oper, left, right) => {
            out.push_str("(")?;
            show_term(out, left.get(), places)?;
            out.push_str(" ")?;
            out.push_str(oper.spelling())?;
            out.push_str(" ")?;
            show_term(out, right.get(), places)?;
            out.push_str(")")
        }
        TermKind::Call(call) => show_call(out, call, places),
        TermKind::Pipe(pipe) => {
            out.push_str("[")?;
            show_pipe(out, pipe.get(), places)?;
            out.push_str("]")
        }
    }
}

fn show_place(out: &mut String, at: u32, places: bool) -> Result<(), AllocError> {
    if places {
        return write!(out, "{at}:");
    }
    Ok(())
}

fn show_script(alloc: Global, script: &Script, places: bool) -> Result<String, AllocError> {
    let mut out = String::new(alloc);
    for (name, pipe) in script.assigns.as_slice() {
        out.push_str(name.as_str())?;
        out.push_str(" <- ")?;
        show_pipe(&mut out, pipe, places)?;
        out.push_str("; ")?;
    }
    show_pipe(&mut out, &script.last, places)?;
    Ok(out)
}

// The tree of a script, or its fault.
fn read(alloc: Global, script: &str, places: bool) -> Result<String, Fail> {
    if script.len() > 1 << 20 {
        return Ok(String::new(alloc));
    }
    let tokens = match scan(alloc, script) {
        Ok(tokens) => tokens,
        Err(Or::Fault(fault)) => return Ok(fault.to_string(alloc)?),
        Err(Or::Memory) => return Ok(String::from_str(alloc, "out of memory")?),
    };
    match parse(alloc, tokens.as_slice(), script.len() as u32) {
        Ok(tree) => Ok(show_script(alloc, &tree.copy()?, places)?),
        Err(Or::Fault(fault)) => Ok(fault.to_string(alloc)?),
        Err(Or::Memory) => Ok(String::from_str(alloc, "out of memory")?),
    }
}

fn repeated(
    alloc: Global,
    first: &str,
    part: &str,
    times: u32,
    last: &str,
) -> Result<String, AllocError> {
    let mut out = String::from_str(alloc, first)?;
    for _ in 0..times {
        out.push_str(part)?;
    }
    out.push_str(last)?;
    Ok(out)
}

#[test]
fn each_production_gives_its_tree(rt: HostRuntime) -> Result<(), Fail> {
    let rows = [
        ("t", "t"),
        ("\n;t;\n\n", "t"),
        ("t |> head()", "t |> head()"),
        ("t %>% f() |>\n g()", "t |> f() |> g()"),
        (
            "library(dplyr)\nlibrary(tidyr);library(lubridate)\nlibrary(tidyverse)\nt",
            "t",
        ),
        ("library |> f()", "library |> f()"),
        ("r <-\n t |> f(x)\ns <- r; s", "r <- t |> f(x); s <- r; s"),
        ("t |> f(\n x,\n y\n)", "t |> f(x, y)"),
        (
            "t |> f(n = 1, \"m\" = 'x', b = u |> g())",
            "t |> f(n = 1, m = 'x', b = [u |> g()])",
        ),
        (
            "t |> f(u |> g(v |> h()) |> k(), 'a' == b)",
            "t |> f([u |> g([v |> h()]) |> k()], ('a' == b))",
        ),
        (
            "t |> f(TRUE, NA, NA_integer_, 1.5, 5L, \"s\")",
            "t |> f(TRUE, NA, NA_integer_, 1500000u, 5, 's')",
        ),
        (
            "t |> f(a + b - c * d / e)",
            "t |> f(((a + b) - ((c * d) / e)))",
        ),
        (
            "t |> f(a %% b %/% c %in% c(1, 2))",
            "t |> f((((a %% b) %/% c) %in% c(1, 2)))",
        ),
        ("t |> f(a | b & c | d)", "t |> f(((a | (b & c)) | d))"),
        ("t |> f(!a == b & !!c)", "t |> f(((!(a == b)) & (!(!c))))"),
        (
            "t |> f(-2:3, 2:-3, --x * y)",
            "t |> f(((-2) : 3), (2 : (-3)), ((-(-x)) * y))",
        ),
        (
            "t |> f(a < b, a <= b, a > b, a >= b, a != b)",
            "t |> f((a < b), (a <= b), (a > b), (a >= b), (a != b))",
        ),
        (
            "t |> f(x > 1 ~ 'p', a - (b - c))",
            "t |> f(((x > 1) ~ 'p'), (a - (b - c)))",
        ),
        (
            "t |> f((x), g((1 + 2) * 3)(y))",
            "unexpected token at byte 26",
        ),
    ];
    for (script, tree) in rows {
        assert_eq!(rt; read(rt.alloc(), script, false)?.as_str(), tree, "{script}");
    }
    Ok(())
}

#[test]
fn each_part_stands_at_its_first_token(rt: HostRuntime) -> Result<(), Fail> {
    let rows = [
        ("t |> f(n = x + 1)", "0:t |> 5:f(7:n = 11:(11:x + 15:1))"),
        ("t |> f((x) + 1, ((y)))", "0:t |> 5:f(7:(8:x + 13:1), 18:y)"),
        (
            "t |> f(-x * g(2))",
            "0:t |> 5:f(7:(7:(-8:x) * 12:12:g(14:2)))",
        ),
        ("t |> f(u |> g())", "0:t |> 5:f(7:[7:u |> 12:g()])"),
        ("a <- b\n  c |> f()", "a <- 5:b; 9:c |> 14:f()"),
    ];
    for (script, tree) in rows {
        assert_eq!(rt; read(rt.alloc(), script, true)?.as_str(), tree, "{script}");
    }
    Ok(())
}

#[test]
fn each_first_fault_stands_at_its_place(rt: HostRuntime) -> Result<(), Fail> {
    let rows = [
        ("", "unfinished script at byte 0"),
        ("\n", "unfinished script at byte 1"),
        ("t |>", "unfinished script at byte 4"),
        ("t |> f(x", "unfinished script at byte 8"),
        ("t <- u", "unfinished script at byte 6"),
        ("library(dplyr)", "unfinished script at byte 14"),
        ("t |> filter(x<-5)", "unexpected token at byte 13"),
        ("1", "unexpected token at byte 0"),
        ("t u", "unexpected token at byte 2"),
        ("t\nu", "unexpected token at byte 2"),
        ("t\n|> f()", "unexpected token at byte 2"),
        ("f(x)", "unexpected token at byte 1"),
        ("t |> (x)", "unexpected token at byte 5"),
        ("t |> f", "unfinished script at byte 6"),
        ("t |> f(,)", "unexpected token at byte 7"),
        ("t |> f(a,)", "unexpected token at byte 9"),
        ("t |> f(a b)", "unexpected token at byte 9"),
        ("t |> f(a))", "unexpected token at byte 9"),
        ("t |> f(a == b == c)", "unexpected token at byte 14"),
        ("t |> f(a ~ b ~ c)", "unexpected token at byte 13"),
        ("t |> f((a ~ b))", "unexpected token at byte 10"),
        ("t |> f(1:2:3)", "unexpected token at byte 10"),
        ("t |> f(- !x)", "unexpected token at byte 9"),
        ("t |> f(a + !b)", "unexpected token at byte 11"),
        ("t |> f(a |> g() + 1)", "unexpected token at byte 16"),
        ("t |> f((u |> g()))", "unexpected token at byte 10"),
        ("t |> f(u |> g)", "unexpected token at byte 13"),
        ("t |> f(a = b = c)", "unexpected token at byte 13"),
        ("t |> f(1 = b)", "unexpected token at byte 9"),
        ("library(ggplot2)", "unexpected token at byte 8"),
        ("library(dplyr) t", "unexpected token at byte 15"),
        ("t <- u |> f() <- v", "unexpected token at byte 14"),
        ("TRUE <- t; t", "unexpected token at byte 0"),
    ];
    for (script, fault) in rows {
        assert_eq!(rt;
            read(rt.alloc(), script, false)?.as_str(),
            fault,
            "{script}"
        );
    }
    Ok(())
}

#[test]
fn the_limits_hold(rt: HostRuntime) -> Result<(), Fail> {
    let alloc = rt.alloc();
    let rows = [
        (
            repeated(alloc, "t |> filter(", "(", 128, "")?,
            "nested too deep at byte 139",
        ),
        (
            repeated(alloc, "t |> filter(", "(", 127, "")?,
            "unfinished script at byte 139",
        ),
        (
            repeated(alloc, "t |> filter(", "-", 128, "x)")?,
            "nested too deep at byte 139",
        ),
        (
            repeated(alloc, "t |> filter(", "!", 127, ";")?,
            "unexpected token at byte 139",
        ),
        (
            repeated(alloc, "t |> f(", "1+", 1025, "1)")?,
            "nested too deep at byte 2056",
        ),
        (
            repeated(alloc, "t |> f(", "1+", 1024, "")?,
            "unfinished script at byte 2055",
        ),
        (
            repeated(
                alloc,
                repeated(alloc, "t |> f(", "1+", 1024, "1, ")?.as_str(),
                "1|",
                1024,
                "",
            )?,
            "unfinished script at byte 4106",
        ),
        (
            repeated(
                alloc,
                repeated(alloc, "t |> f(g(", "1+", 512, "1, ")?.as_str(),
                "1|",
                513,
                "1))",
            )?,
            "nested too deep at byte 2061",
        ),
    ];
    for (script, fault) in rows {
        assert_eq!(rt; read(alloc, script.as_str(), false)?.as_str(), fault);
    }
    let open = repeated(alloc, "t |> filter(", "(", 127, "x > 5")?;
    let closed = repeated(alloc, open.as_str(), ")", 128, "")?;
    assert_eq!(rt;
        read(alloc, closed.as_str(), false)?.as_str(),
        "t |> filter((x > 5))"
    );
    Ok(())
}

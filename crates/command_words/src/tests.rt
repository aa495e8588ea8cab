//! Command lines, and what their words say.
use crate::{BadWords, Words, settings};
use scalar_value::Or;
use std::alloc::{AllocError, Global};
use std::test::Fail;

/// The words between the spaces of a line; two spaces hold an empty word, and an empty line has no words.
fn words_of(alloc: Global, line: &str) -> Result<Vec<String>, AllocError> {
    let mut words = Vec::new(alloc);
    if !line.is_empty() {
        for word in line.split(' ') {
            words.push(String::from_str(alloc, word)?)?;
        }
    }
    Ok(words)
}

fn push_named(shown: &mut String, given: bool, name: &str) -> Result<(), AllocError> {
    if given {
        shown.push_str(name)?;
    }
    Ok(())
}

fn shown_words(alloc: Global, words: &Words) -> Result<String, AllocError> {
    let workers = words.setting.workers;
    let batch = words.setting.batch;
    let pause = words.setting.pause;
    let resume = words.setting.resume;
    let mut shown = format!(in alloc; "{workers} {batch} {pause} {resume}")?;
    push_named(&mut shown, words.csv, " csv")?;
    push_named(&mut shown, words.explain, " explain")?;
    push_named(&mut shown, words.report, " report")?;
    push_named(&mut shown, words.make.is_some(), " make")?;
    shown.push_str(" [")?;
    shown.push_str(words.script.as_str())?;
    shown.push_str("]")?;
    for table in words.tables.as_slice() {
        shown.push_str(" ")?;
        shown.push_str(table.0.as_str())?;
        shown.push_str("@")?;
        shown.push_str(table.1.as_str())?;
    }
    Ok(shown)
}

fn shown(alloc: Global, line: &str) -> Result<String, Fail> {
    let words = words_of(alloc, line)?;
    match settings(alloc, &words) {
        Ok(said) => Ok(shown_words(alloc, &said)?),
        Err(Or::Fault(BadWords)) => Ok(String::from_str(alloc, "bad")?),
        Err(Or::Memory) => Ok(String::from_str(alloc, "memory")?),
    }
}

#[test]
fn words_of_a_command_line(rt: HostRuntime) -> Result<(), Fail> {
    let cases: [(&str, &str); 57] = [
        ("s.R", "4 4096 8 4 [s.R]"),
        ("s.R t=t.csv", "4 4096 8 4 [s.R] t@t.csv"),
        ("s.R t=a=b u=c.csv", "4 4096 8 4 [s.R] t@a=b u@c.csv"),
        ("--workers 1 s.R", "1 4096 8 4 [s.R]"),
        ("--workers 64 s.R", "64 4096 8 4 [s.R]"),
        ("--workers=3 s.R", "3 4096 8 4 [s.R]"),
        ("--workers +4 s.R", "4 4096 8 4 [s.R]"),
        ("--workers 04 s.R", "4 4096 8 4 [s.R]"),
        ("--batch 1 s.R", "4 1 8 4 [s.R]"),
        ("--batch 65536 s.R", "4 65536 8 4 [s.R]"),
        ("--pause 1 s.R", "4 4096 1 0 [s.R]"),
        ("--pause 1024 s.R", "4 4096 1024 512 [s.R]"),
        ("--pause 7 s.R", "4 4096 7 3 [s.R]"),
        ("--pause 1024 --resume 1023 s.R", "4 4096 1024 1023 [s.R]"),
        ("--resume 0 s.R", "4 4096 8 0 [s.R]"),
        ("--resume=-0 s.R", "4 4096 8 0 [s.R]"),
        ("--format table s.R", "4 4096 8 4 [s.R]"),
        ("--format csv s.R", "4 4096 8 4 csv [s.R]"),
        ("--explain s.R", "4 4096 8 4 explain [s.R]"),
        ("--report s.R", "4 4096 8 4 report [s.R]"),
        ("--workers 2 -- s.R t=t.csv", "2 4096 8 4 [s.R] t@t.csv"),
        ("-- --explain t=t.csv", "4 4096 8 4 [--explain] t@t.csv"),
        ("-- s.R t=--workers", "4 4096 8 4 [s.R] t@--workers"),
        (" t=t.csv", "4 4096 8 4 [] t@t.csv"),
        ("s.R .a=x a.1_b=y .=z", "4 4096 8 4 [s.R] .a@x a.1_b@y .@z"),
        ("s.R T=a t=b TRUE.=c", "4 4096 8 4 [s.R] T@a t@b TRUE.@c"),
        ("", "bad"),
        ("--explain", "bad"),
        ("--workers 0 s.R", "bad"),
        ("--workers 65 s.R", "bad"),
        ("--workers -1 s.R", "bad"),
        ("--workers= s.R", "bad"),
        ("--workers 2 --workers 3 s.R", "bad"),
        ("--batch 0 s.R", "bad"),
        ("--batch 65537 s.R", "bad"),
        ("--pause 0 s.R", "bad"),
        ("--pause 1025 s.R", "bad"),
        ("--resume 1024 s.R", "bad"),
        ("--resume 8 s.R", "bad"),
        ("--pause 3 --resume 3 s.R", "bad"),
        ("--format CSV s.R", "bad"),
        ("--format csv --format csv s.R", "bad"),
        ("--explain --report s.R", "bad"),
        ("--explain=true s.R", "bad"),
        ("--help", "bad"),
        ("--make 3 s.R", "bad"),
        ("--unknown s.R", "bad"),
        ("s.R t", "bad"),
        ("s.R ", "bad"),
        ("s.R =t.csv", "bad"),
        ("s.R t=", "bad"),
        ("s.R 1t=t.csv", "bad"),
        ("s.R .1=t.csv", "bad"),
        ("s.R t-u=t.csv", "bad"),
        ("s.R TRUE=t.csv", "bad"),
        ("s.R NA_character_=t.csv", "bad"),
        ("s.R t=t.csv t=u.csv", "bad"),
    ];
    for (line, wanted) in cases {
        assert_eq!(rt; shown(rt.alloc(), line)?.as_str(), wanted);
    }
    Ok(())
}

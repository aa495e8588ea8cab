//! The command over files and sinks in memory: what it writes, with which status it ends, and what its record tells.
use crate::{RunRecord, Status, run_single};
use outside_io::{MemFiles, MemSink};
use scalar_value::{Mem, Seq, Text};
use std::alloc::Global;
use std::process::Abort;
use std::test::Fail;
use std::thread::Threads;

const SCRIPT: &str = "t |> filter(x > 5) |> select(id, x)";

const TABLE: &[u8] = b"id:int,x:int\n1,10\n2,NA\n3,30\n4,5\n";

fn files_of(alloc: Global, script: &[u8], table: &[u8], failing: &[u64]) -> Mem<MemFiles> {
    let mut files = Seq::new(alloc);
    files.push((Text::of(alloc, "s.R")?, Seq::of_slice(alloc, script)?))?;
    files.push((Text::of(alloc, "t.csv")?, Seq::of_slice(alloc, table)?))?;
    MemFiles::new(alloc, files, Seq::of_slice(alloc, failing)?)
}

fn words_of(alloc: Global, words: &[&str]) -> Result<Vec<String>, Fail> {
    let mut made = Vec::new(alloc);
    for word in words {
        made.push(String::from_str(alloc, word)?)?;
    }
    Ok(made)
}

/// Runs the script as CSV, where reads and writes of these numbers fail, and compares all that it did.
fn expect<R: Abort + Threads + Sync>(
    rt: &R,
    alloc: Global,
    failing: (&[u64], &[u64]),
    wanted: (Status, &[u8], &str),
) -> Result<(), Fail> {
    let words = words_of(alloc, &["--format", "csv", "s.R", "t=t.csv"])?;
    let mut files = files_of(alloc, SCRIPT.as_bytes(), TABLE, failing.0)?;
    let mut out = MemSink::new(alloc, 4096, 8, Seq::of_slice(alloc, failing.1)?)?;
    let mut err = MemSink::new(alloc, 4096, 5, Seq::new(alloc))?;
    let mut journal = RunRecord {
        runs: Seq::new(alloc),
    };
    let status = run_single(
        rt,
        alloc,
        &words,
        &mut files,
        &mut out,
        &mut err,
        &mut journal,
    );
    assert_eq!(rt; status, wanted.0);
    assert_eq!(rt; out.bytes(), wanted.1);
    assert_eq!(rt; err.bytes(), wanted.2.as_bytes());
    let ran = match wanted.0 {
        Status::Done | Status::Write => 1,
        _ => 0,
    };
    assert_eq!(rt; journal.runs.len(), ran);
    for run in journal.runs.as_slice() {
        assert_eq!(rt; run.plan.nodes.len(), 4);
        assert_eq!(rt;
            (run.batch, run.workers, run.pause, run.resume),
            (4096, 1, 8, 4)
        );
        assert_eq!(rt; run.history.len(), 14);
        assert_eq!(rt; run.peaks.as_slice(), [1, 1, 1].as_slice());
    }
    Ok(())
}

#[test]
fn the_record_has_the_run(rt: HostRuntime) -> Result<(), Fail> {
    let kept: &[u8] = b"id:int,x:int\n1,10\n3,30\n";
    expect(&rt, rt.alloc(), (&[], &[]), (Status::Done, kept, ""))
}

#[test]
fn faults_of_files_and_sinks_are_told(rt: HostRuntime) -> Result<(), Fail> {
    let alloc = rt.alloc();
    let unread = "acero_run: cannot read s.R\n";
    expect(&rt, alloc, (&[1], &[]), (Status::Read, b"", unread))?;
    let unread = "acero_run: cannot read t.csv\n";
    expect(&rt, alloc, (&[3], &[]), (Status::Read, b"", unread))?;
    let unwritten = "acero_run: cannot write the result\n";
    let front: &[u8] = b"id:int,x";
    expect(&rt, alloc, (&[], &[2]), (Status::Write, front, unwritten))
}

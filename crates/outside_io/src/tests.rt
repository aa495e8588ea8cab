use crate::{
    Failed, Files, Gate, MemFiles, MemSink, OpenGate, ReadFault, Sink, read_whole, write_all,
};
use scalar_value::{Mem, Or, Seq, Text};
use std::alloc::Global;
use std::sync::Wait;
use std::test::Fail;
use std::thread::Threads;

const LONG: usize = 600_000;

/// Files of 5, of no and of 600,000 bytes, which are read in three pieces.
fn three_files(alloc: Global, failing: &[u64]) -> Mem<MemFiles> {
    let mut long: Vec<u8> = Vec::new(alloc);
    long.resize(LONG, b'x')?;
    let files = vec![in alloc;
        (
            Text::of(alloc, "t.csv")?,
            Seq::of_slice(alloc, b"1,2\n\n".as_slice())?
        ),
        (Text::of(alloc, "empty")?, Seq::new(alloc)),
        (Text::of(alloc, "long")?, Seq::of(long)),
    ]?;
    MemFiles::new(alloc, Seq::of(files), Seq::of_slice(alloc, failing)?)
}

/// The length of what was read, or the fault.
fn length_read(
    alloc: Global,
    files: &mut MemFiles,
    name: &str,
    limit: u64,
) -> Mem<Result<usize, ReadFault>> {
    match read_whole(alloc, files, name, limit) {
        Ok(bytes) => Ok(Ok(bytes.len())),
        Err(Or::Fault(fault)) => Ok(Err(fault)),
        Err(Or::Memory) => Err(scalar_value::NoMemory),
    }
}

#[test]
fn whole_files_are_read(rt: HostRuntime) -> Result<(), Fail> {
    let alloc = rt.alloc();
    let rows: [(&str, u64, &[u64], Result<usize, ReadFault>); 9] = [
        ("t.csv", 5, &[], Ok(5)),
        ("t.csv", 4, &[], Err(ReadFault::TooLong)),
        ("empty", 0, &[], Ok(0)),
        ("long", 600_000, &[], Ok(LONG)),
        ("long", 599_999, &[], Err(ReadFault::TooLong)),
        ("long", u64::MAX, &[9], Ok(LONG)),
        ("none.csv", 5, &[], Err(ReadFault::Failed)),
        ("t.csv", 5, &[1], Err(ReadFault::Failed)),
        ("long", 600_000, &[4], Err(ReadFault::Failed)),
    ];
    for (name, limit, failing, answer) in rows {
        let mut files = three_files(alloc, failing)?;
        assert_eq!(rt;
            length_read(alloc, &mut files, name, limit)?,
            answer,
            "{name} {limit}"
        );
    }
    Ok(())
}

#[test]
fn bytes_are_written(rt: HostRuntime) -> Result<(), Fail> {
    let alloc = rt.alloc();
    let rows: [(usize, usize, &[u64], Result<(), Failed>, &[u8]); 6] = [
        (9, 100, &[], Ok(()), b"id:int,g\n".as_slice()),
        (9, 1, &[], Ok(()), b"id:int,g\n".as_slice()),
        (20, 8, &[2], Err(Failed), b"id:int,g".as_slice()),
        (20, 8, &[3], Ok(()), b"id:int,g\n".as_slice()),
        (20, 8, &[1], Err(Failed), b"".as_slice()),
        (5, 3, &[], Err(Failed), b"id:in".as_slice()),
    ];
    for (room, most, failing, answer, taken) in rows {
        let mut sink = MemSink::new(alloc, room, most.max(1), Seq::of_slice(alloc, failing)?)?;
        assert_eq!(rt;
            write_all(&mut sink, b"id:int,g\n".as_slice()),
            answer,
            "{room} {most}"
        );
        assert_eq!(rt; sink.bytes(), taken, "{room} {most}");
    }
    Ok(())
}

#[test]
fn parts_are_read_and_written(rt: HostRuntime) -> Result<(), Fail> {
    let alloc = rt.alloc();
    let mut files = three_files(alloc, &[3])?;
    let mut into = [b'.'; 4];
    assert_eq!(rt; files.read("t.csv", 2, &mut into), Ok(3));
    assert_eq!(rt; into.as_slice(), b"2\n\n.".as_slice());
    assert_eq!(rt; files.read("t.csv", 5, &mut into), Ok(0));
    assert_eq!(rt; files.read("t.csv", 0, &mut into), Err(Failed));
    assert_eq!(rt; files.read("t.csv", 0, &mut into), Ok(4));
    let mut sink = MemSink::new(alloc, 3, 2, Seq::new(alloc))?;
    assert_eq!(rt; sink.write(b"abc".as_slice()), Ok(2));
    assert_eq!(rt; sink.write(b"cd".as_slice()), Ok(1));
    assert_eq!(rt; sink.write(b"d".as_slice()), Err(Failed));
    assert_eq!(rt; sink.write(b"".as_slice()), Ok(0));
    assert_eq!(rt; sink.bytes(), b"abc".as_slice());
    Ok(())
}

fn pass_once<G: Gate, R: Threads + Wait + Sync>(gate: &G, rt: &R) {
    gate.pass(rt, 0, 1)
}

#[test]
fn an_open_gate_is_passed(rt: HostRuntime) {
    pass_once(&OpenGate, &rt);
}

//! The program: the files and streams of the system, and the top call over them.
#![tactic(auto)]

ghost use Rattle.std.specs.Prelude.{◌≡◌};
ghost use Rattle.acero_run.specs.Codes.{code_of};

mod real;

use crate::real::{RealFiles, RealSink};
use outside_io::{Failed, Sink, write_all};
use scalar_value::Seq;
use script_session::{RunRecord, Status, run_single};
use std::env;
use std::process::ExitCode;

fn main(rt: HostRuntime) -> ExitCode {
    let alloc = rt.alloc();
    let mut files = RealFiles::new(&rt, alloc);
    let mut out = RealSink::new(rt.stdout());
    let mut err = RealSink::new(rt.stderr());
    let mut journal = RunRecord {
        runs: Seq::new(alloc),
    };
    let Some(words) = words_of(&rt) else {
        return without_memory(&mut err);
    };
    let status = run_single(
        &rt,
        alloc,
        &words,
        &mut files,
        &mut out,
        &mut err,
        &mut journal,
    );
    ExitCode::from(code_of(status))
}

// The words behind the program's name. Where they are no texts there are none, which is a faulty command line.
fn words_of(rt: &HostRuntime) -> Option<Vec<String>> {
    match env::args(rt) {
        Ok(args) => args.skip(1).collect(rt.alloc()).ok(),
        Err(_) => Some(Vec::new(rt.alloc())),
    }
}

fn without_memory<E: Sink>(err: &mut E) -> ExitCode {
    match write_all(err, b"acero_run: out of memory\n") {
        Ok(()) | Err(Failed) => ExitCode::from(code_of(Status::Memory)),
    }
}

/// The exit status of the program.
fn code_of(status: Status) -> u8
    ensures { result ≡ code_of status }
{
    match status {
        Status::Done => 0,
        Status::Usage => 2,
        Status::Script => 3,
        Status::Table => 4,
        Status::Read => 5,
        Status::Write => 6,
        Status::Memory => 7,
    }
}

#[cfg(test)]
mod tests {
    use super::*;
    use outside_io::{Failed, Files, ReadFault, Sink, read_whole, write_all};
    use scalar_value::Or;
    use std::io::Write;
    use std::test::Fail;
    use std::{fs, io};

    /// A stream that takes nothing.
    #[derive(Drop)]
    struct Stuck;

    impl Write for Stuck {
        fn write(&mut self, _buf: &[u8]) -> io::Result<usize> {
            Ok(0)
        }

        fn flush(&mut self) -> io::Result<()> {
            Ok(())
        }
    }

    #[test]
    fn files_are_read(rt: HostRuntime) -> Result<(), Fail> {
        let alloc = rt.alloc();
        fs::write(&rt, "t.csv", b"x:int\n7\n".as_slice())?;
        let mut files = RealFiles::new(&rt, alloc);
        let mut into = [b'.'; 4];
        assert_eq!(rt; files.read("t.csv", 0, &mut into), Ok(4));
        assert_eq!(rt; into.as_slice(), b"x:in".as_slice());
        assert_eq!(rt; files.read("t.csv", 4, &mut into), Ok(4));
        assert_eq!(rt; into.as_slice(), b"t\n7\n".as_slice());
        assert_eq!(rt; files.read("t.csv", 8, &mut into), Ok(0));
        assert_eq!(rt; files.read("none.csv", 0, &mut into), Err(Failed));
        assert_eq!(rt; files.read("t.csv", 2, &mut into), Ok(4));
        assert_eq!(rt; into.as_slice(), b"int\n".as_slice());
        let read = read_whole(alloc, &mut files, "t.csv", 8);
        assert!(rt; matches!(&read, Ok(bytes) if bytes.as_slice() == b"x:int\n7\n".as_slice()));
        let long = read_whole(alloc, &mut files, "t.csv", 7);
        assert!(rt; matches!(long, Err(Or::Fault(ReadFault::TooLong))));
        Ok(())
    }

    #[test]
    fn streams_are_written(rt: HostRuntime) -> Result<(), Fail> {
        let mut sink = RealSink::new(fs::create(&rt, "out.csv")?);
        assert_eq!(rt; write_all(&mut sink, b"x:int\n".as_slice()), Ok(()));
        assert_eq!(rt; sink.write(b"7\n".as_slice()), Ok(2));
        assert_eq!(rt; fs::read_to_string(&rt, "out.csv")?.as_str(), "x:int\n7\n");
        let mut stuck = RealSink::new(Stuck);
        assert_eq!(rt; stuck.write(b"7\n".as_slice()), Err(Failed));
        assert_eq!(rt; stuck.write(b"".as_slice()), Ok(0));
        Ok(())
    }
}

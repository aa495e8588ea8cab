ghost use Rattle.std.specs.Prelude.{◌≤◌, None, length, IfOk};

use outside_io::{Failed, Files, Sink};
use std::alloc::Global;
use std::io::{Read, Seek, SeekFrom, Write};
use std::rt::Files as Folder;
use std::{fs, io};

/// A file that is open, and the place at which its next byte is read.
#[derive(Drop)]
struct Opened<F: Drop> {
    /// None where there was no memory for it; then the file is opened again for the next read.
    name: Option<String>,
    file: F,
    place: u64,
}

impl<F: Drop> Opened<F> {
    fn is_named(&self, name: &str) -> bool {
        match &self.name {
            Some(own) => own.as_str() == name,
            None => false,
        }
    }
}

/// The file system. The file that was read last stays open, so one that is read in pieces is opened once; a read that
/// goes on where the last one ended does not seek, so a pipe can be read too. It tells no bytes, and counts each error.
#[derive(Drop)]
pub struct RealFiles<'r, R: Folder> {
    rt: &'r R,
    alloc: Global,
    opened: Option<Opened<R::File>>,
    faults: u64,
}

impl<'r, R: Folder> RealFiles<'r, R> {
    /// The file system, of which no file is open.
    pub fn new(rt: &'r R, alloc: Global) -> RealFiles<'r, R> {
        RealFiles {
            rt,
            alloc,
            opened: None,
            faults: 0,
        }
    }
}

/// Opens the file, or goes on with the one that is open where it is that file.
fn open<R: Folder>(
    rt: &R,
    alloc: Global,
    last: Option<Opened<R::File>>,
    name: &str,
) -> io::Result<Opened<R::File>> {
    match last {
        Some(opened) if opened.is_named(name) => Ok(opened),
        _ => Ok(Opened {
            name: String::from_str(alloc, name).ok(),
            file: fs::open(rt, name)?,
            place: 0,
        }),
    }
}

/// Reads the open file from `at` on.
fn read_at<F: Read + Seek + Drop>(
    opened: &mut Opened<F>,
    at: u64,
    into: &mut [u8],
) -> io::Result<usize>
    ensures { IfOk result (λ n. n ≤ length into.new) }
{
    if opened.place != at {
        opened.place = opened.file.seek(SeekFrom::Start(at))?;
    }
    let count = opened.file.read(into)?;
    opened.place = at.saturating_add(count as u64);
    Ok(count)
}

impl<'r, R: Folder> Files for RealFiles<'r, R> {
    ghost held = { λ _. None };

    ghost faults = { λ f. f.faults };

    ghost faults_of = { λ _ _. None };

    ghost told = { λ _ _ _ is. Prim.cc };

    fn read(&mut self, name: &str, at: u64, into: &mut [u8]) -> Result<usize, Failed> {
        let last = self.opened.take();
        if let Ok(mut opened) = open(self.rt, self.alloc, last, name) {
            if let Ok(count) = read_at(&mut opened, at, into) {
                self.opened = Some(opened);
                return Ok(count);
            }
        }
        self.faults = self.faults.saturating_add(1);
        Err(Failed)
    }
}

/// A stream of the system, as standard output. It tells no bytes, and counts each error and each write that takes
/// nothing of a piece that is not empty.
#[derive(Drop)]
pub struct RealSink<W: Write + Drop> {
    stream: W,
    faults: u64,
}

impl<W: Write + Drop> RealSink<W> {
    /// The stream, of which no write failed.
    pub fn new(stream: W) -> RealSink<W> {
        RealSink { stream, faults: 0 }
    }
}

impl<W: Write + Drop> Sink for RealSink<W> {
    ghost taken = { λ _. None };

    ghost faults = { λ s. s.faults };

    fn write(&mut self, piece: &[u8]) -> Result<usize, Failed> {
        match self.stream.write(piece) {
            Ok(count) if count > 0 || piece.is_empty() => Ok(count),
            _ => {
                self.faults = self.faults.saturating_add(1);
                Err(Failed)
            }
        }
    }
}

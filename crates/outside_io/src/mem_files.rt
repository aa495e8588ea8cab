ghost use Rattle.std.specs.Prelude.{◌≡◌, ◌≤◌, ◌<◌, ◌+◌, ◌-◌, Some, min, length, IfOk, OnOk, OnErr, IsTrue, vec_len, slice_index, slice_set};
ghost use Rattle.std.proofs.Common.{rules};
ghost use Rattle.outside_io.specs.Counts.{FailedAt, NoneRose, NoneFell};
ghost use Rattle.outside_io.specs.Outside.{ReadsFrom, OthersKept, FillsFrom};
ghost use Rattle.outside_io.specs.Memory.{place_named, file_named, are_distinct, next_count};

use crate::files::{Failed, Files};
use scalar_value::{Mem, Seq, Text};
use std::alloc::Global;

/// Files in memory, by name. A read fails where its number, from 1, is among those that are to fail, and where no
/// file has the name. Faults are counted for each file, and once for all names that are not there.
#[derive(Debug, Drop)]
pub struct MemFiles {
    files: Seq<(Text, Seq<u8>)>,
    failing: Seq<u64>,
    calls: u64,
    faults: u64,
    counts: Vec<u64>,
    ghost counted: { vec_len counts ≡ length files + 1 },
}

impl MemFiles {
    ghost use Rattle.outside_io.specs.MemoryCalls.{AreNewFiles};

    /// These files, of which no two have one name; no read was made.
    pub fn new(alloc: Global, files: Seq<(Text, Seq<u8>)>, failing: Seq<u64>) -> Mem<MemFiles>
        requires { IsTrue (are_distinct files) }
        ensures { IfOk result (λ m. AreNewFiles files failing m) }
    {
        let mut counts: Vec<u64> = Vec::new(alloc);
        counts.resize(files.len(), 0)?;
        counts.push(0)?;
        Ok(MemFiles {
            files,
            failing,
            calls: 0,
            faults: 0,
            counts,
        })
    }

    /// Counts a fault of the file at this place, or of a name that is not there.
    fn fail(&mut self, place: usize) -> Failed
        requires { place ≤ length self.old.files }
        ensures files { self.new.files ≡ self.old.files }
        ensures failing { self.new.failing ≡ self.old.failing }
        ensures calls { self.new.calls ≡ self.old.calls }
        ensures faults { self.new.faults ≡ next_count self.old.faults }
        ensures later { self.old.faults ≤ self.new.faults }
        ensures counts { self.new.counts.items ≡ slice_set self.old.counts.items place (next_count (slice_index self.old.counts.items place)) }
        ensures counts_later { slice_index self.old.counts.items place ≤ next_count (slice_index self.old.counts.items place) }
    {
        self.faults = self.faults.saturating_add(1);
        raise(&mut self.counts, place);
        Failed
    }
}

/// The place of the first file of this name, and the number of files where none has it.
fn place_of(files: &[(Text, Seq<u8>)], name: &str) -> usize
    ensures value { result ≡ place_named files.now name.now }
    ensures within { result ≤ length files.now }
{
    files
        .iter()
        .take_while(|file| file.0.as_str() != name)
        .count()
}

/// Copies the bytes from `at` on to the front of `into`, as many as there are and as there is room for.
fn copy_from(bytes: &[u8], at: u64, into: &mut [u8]) -> usize
    ensures filled { FillsFrom bytes.now at into.new result }
    ensures count { result ≡ min (length into.new) (length bytes.now - at) }
{
    if at >= bytes.len() as u64 {
        return 0;
    }
    let rest = &bytes[at as usize..];
    let count = into.len().min(rest.len());
    into[..count].copy_from_slice(&rest[..count]);
    count
}

/// One more fault at this place, but for a count that stands at its end.
fn raise(counts: &mut [u64], place: usize)
    requires { place < length counts.old }
    ensures raised { counts.new ≡ slice_set counts.old place (next_count (slice_index counts.old place)) }
    ensures later { slice_index counts.old place ≤ next_count (slice_index counts.old place) }
{
    counts[place] = counts[place].saturating_add(1);
}

impl Files for MemFiles {
    ghost use Rattle.outside_io.specs.MemoryCalls.{IsAfterRead, next_read, count_of};

    ghost held = { λ m. Some (file_named m.files) };

    ghost faults = { λ m. m.faults };

    ghost faults_of = { λ m name. Some (count_of m name) };

    ghost told = { λ m bytes name is. Prim.search rules };

    fn read(&mut self, name: &str, at: u64, into: &mut [u8]) -> Result<usize, Failed>
        ensures answer { result ≡ next_read self.old name.now at (length into.old) }
        ensures after { IsAfterRead self.old self.new }

        // What the trait says.
        ensures within { IfOk result (λ n. n ≤ length into.new) }
        ensures bytes { IfOk result (λ n. ReadsFrom (Some (file_named self.old.files)) name.now at into.new n) }
        ensures held { Some (file_named self.new.files) ≡ Some (file_named self.old.files) }
        ensures failed { OnErr result (FailedAt (Some (count_of self.old name.now)) (Some (count_of self.new name.now)) self.old.faults self.new.faults) }
        ensures kept { OnOk result (NoneRose self.old.faults self.new.faults (λ other. Some (count_of self.old other)) (λ other. Some (count_of self.new other))) }
        ensures later { NoneFell self.old.faults self.new.faults (λ other. Some (count_of self.old other)) (λ other. Some (count_of self.new other)) }
        ensures others { OthersKept (Some (file_named self.old.files)) name.now (λ other. Some (count_of self.old other)) (λ other. Some (count_of self.new other)) }
    {
        self.calls = self.calls.saturating_add(1);
        let place = place_of(self.files.as_slice(), name);
        if self.failing.as_slice().contains(&self.calls) {
            return Err(self.fail(place));
        }
        if place >= self.files.len() {
            return Err(self.fail(place));
        }
        let file = &self.files.as_slice()[place];
        Ok(copy_from(file.1.as_slice(), at, into))
    }
}

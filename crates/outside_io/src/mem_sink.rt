ghost use Rattle.std.specs.Prelude.{◌≡◌, ◌≤◌, ◌<◌, Some, length, take, IfOk, OnErr, vec_capacity, vec_len};
ghost use Rattle.outside_io.specs.Counts.{HasCause};
ghost use Rattle.outside_io.specs.Outside.{Takes};

use crate::files::Failed;
use crate::sink::Sink;
use scalar_value::{Mem, Seq};
use std::alloc::Global;

/// A sink in memory. It takes the room for its bytes when it is made, and takes at most `most` bytes in one write.
/// A write fails where its number, from 1, is among those that are to fail, and where the piece is not empty and no
/// room is left.
#[derive(Debug, Drop)]
pub struct MemSink {
    bytes: Vec<u8>,
    room: usize,
    most: usize,
    failing: Seq<u64>,
    calls: u64,
    faults: u64,
    ghost within: { vec_len bytes ≤ room },
    ghost reserved: { room ≤ vec_capacity bytes },
    ghost moves: { 0 < most },
}

impl MemSink {
    ghost use Rattle.outside_io.specs.MemoryCalls.{IsNewSink, sink_bytes};

    /// A sink that has taken nothing.
    pub fn new(alloc: Global, room: usize, most: usize, failing: Seq<u64>) -> Mem<MemSink>
        requires { 0 < most }
        ensures { IfOk result (λ s. IsNewSink room most failing s) }
    {
        Ok(MemSink {
            bytes: Vec::with_capacity(alloc, room)?,
            room,
            most,
            failing,
            calls: 0,
            faults: 0,
        })
    }

    /// The bytes that were taken.
    pub fn bytes(&self) -> &[u8]
        ensures { result.now ≡ sink_bytes self.now }
    {
        &self.bytes
    }
}

impl Sink for MemSink {
    ghost use Rattle.outside_io.specs.MemoryCalls.{IsAfterWrite, next_write, sink_bytes};

    ghost taken = { λ s. Some (sink_bytes s) };

    ghost faults = { λ s. s.faults };

    fn write(&mut self, piece: &[u8]) -> Result<usize, Failed>
        ensures answer { result ≡ next_write self.old (length piece.now) }
        ensures after { IsAfterWrite self.old self.new }

        // What the trait says.
        ensures within { IfOk result (λ n. n ≤ length piece.now) }
        ensures progress { IfOk result (λ n. 0 < length piece.now → 0 < n) }
        ensures bytes { IfOk result (λ n. Takes (Some (sink_bytes self.old)) (Some (sink_bytes self.new)) (take n piece.now)) }
        ensures none { OnErr result (Some (sink_bytes self.new) ≡ Some (sink_bytes self.old)) }
        ensures cause { HasCause self.old.faults self.new.faults result }
    {
        self.calls = self.calls.saturating_add(1);
        let left = self.room - self.bytes.len();
        let full = left == 0 && !piece.is_empty();
        if full || self.failing.as_slice().contains(&self.calls) {
            self.faults = self.faults.saturating_add(1);
            return Err(Failed);
        }
        let count = piece.len().min(self.most).min(left);
        match self.bytes.extend_from_slice(&piece[..count]) {
            Ok(()) => Ok(count),
            Err(_) => unreachable!(),
        }
    }
}

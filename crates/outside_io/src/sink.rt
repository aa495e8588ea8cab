ghost use Rattle.std.specs.Prelude.{◌≡◌, ◌<◌, ◌≤◌, List, ℕ, Option, length, take, IfOk, OnOk, OnErr};
ghost use Rattle.outside_io.specs.Counts.{HasCause};
ghost use Rattle.outside_io.specs.Outside.{Takes, TakesPart};

use crate::files::Failed;

/// A stream that takes bytes.
pub trait Sink {
    /// The bytes that were taken so far, where they are told.
    ghost taken: { Self → Option (List ℕ) };

    /// How many calls failed. The count never falls, and ends at 2^64 - 1.
    ghost faults: { Self → ℕ };

    /// Takes bytes from the front of the piece and answers how many, at least one of a piece that is not empty.
    /// Where it fails it has taken none.
    fn write(&mut self, piece: &[u8]) -> Result<usize, Failed>
        ensures within { IfOk result (λ n. n ≤ length piece.now) }
        ensures progress { IfOk result (λ n. 0 < length piece.now → 0 < n) }
        ensures bytes { IfOk result (λ n. Takes (taken self.old) (taken self.new) (take n piece.now)) }
        ensures none { OnErr result (taken self.new ≡ taken self.old) }
        ensures cause { HasCause (faults self.old) (faults self.new) result };
}

/// Writes all these bytes. Where a write fails, a front part of them was taken.
pub fn write_all<S: Sink>(sink: &mut S, bytes: &[u8]) -> Result<(), Failed>
    ensures all { OnOk result (Takes (S.taken sink.old) (S.taken sink.new) bytes.now) }
    ensures part { OnErr result (TakesPart (S.taken sink.old) (S.taken sink.new) bytes.now) }
    ensures cause { HasCause (S.faults sink.old) (S.faults sink.new) result }
{
    let mut at = 0;
    while at < bytes.len() {
        at += sink.write(&bytes[at..])?;
    }
    Ok(())
}

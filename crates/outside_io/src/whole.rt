ghost use Rattle.std.specs.Prelude.{◌≡◌, ◌≤◌, ◌<◌, ◌+◌, Some, length, take, IfOk, OnOk, OnErr};
ghost use Rattle.outside_io.specs.Counts.{FailedAt, NoneRose, NoneFell};
ghost use Rattle.outside_io.specs.Outside.{Held, IsWhole, ByFailed, OthersKept, IsNext};

use crate::files::{Failed, Files};
use scalar_value::{Mem, Or, Res, Seq};
use std::alloc::Global;

/// How many bytes a read of a whole file asks for at once.
const PIECE: usize = 1 << 18;

/// Why a whole file was not read.
#[derive(Debug, Clone, Copy, PartialEq, Eq)]
pub enum ReadFault {
    /// A read failed.
    Failed,
    /// The file has more bytes than the limit.
    TooLong,
}

/// All bytes of the file, which are at most `limit`. It takes memory for about that many, in large pieces.
pub fn read_whole<F: Files>(
    alloc: Global,
    files: &mut F,
    name: &str,
    limit: u64,
) -> Res<Seq<u8>, ReadFault>
    // Where the bytes are told, these are the bytes of the file, or it has more than `limit`.
    ensures known { (held : Held) → F.held files.old ≡ Some held → IsWhole result (held name.now) limit }
    ensures within { IfOk result (λ read. length read ≤ limit) }
    ensures held { F.held files.new ≡ F.held files.old }

    // It fails only where the count rose, and that of the name with it; else every count is as it was.
    ensures cause { ByFailed result (FailedAt (F.faults_of files.old name.now) (F.faults_of files.new name.now) (F.faults files.old) (F.faults files.new))
        (NoneRose (F.faults files.old) (F.faults files.new) (F.faults_of files.old) (F.faults_of files.new)) }
    ensures later { NoneFell (F.faults files.old) (F.faults files.new) (F.faults_of files.old) (F.faults_of files.new) }
    ensures others { OthersKept (F.held files.old) name.now (F.faults_of files.old) (F.faults_of files.new) }
{
    let mut buffer: Vec<u8> = Vec::new(alloc);
    let mut filled = 0;
    'pieces: loop {
        make_room(&mut buffer, filled, limit)?;
        let Ok(count) = read_next(files, name, &mut buffer, filled) else {
            return Err(Or::Fault(ReadFault::Failed));
        };
        filled += count;
        if filled as u64 > limit {
            return Err(Or::Fault(ReadFault::TooLong));
        }
        if count == 0 {
            break 'pieces;
        }
    }
    buffer.truncate(filled);
    Ok(Seq::of(buffer))
}

/// Sees that the buffer has room behind its first `filled` bytes: where it has none, for one more piece, but for no
/// more than `limit` bytes and one in all.
fn make_room(buffer: &mut Vec<u8>, filled: usize, limit: u64) -> Mem<()>
    requires in_buffer { filled ≤ length buffer.old.items }
    requires in_limit { filled ≤ limit }
    ensures kept { take filled buffer.new.items ≡ take filled buffer.old.items }
    ensures room { OnOk result (filled < length buffer.new.items) }
{
    if filled < buffer.len() {
        return Ok(());
    }
    let left = (limit - filled as u64).saturating_add(1);
    let more = left.min(PIECE as u64) as usize;
    buffer.resize(filled.saturating_add(more), 0)?;
    Ok(())
}

/// Reads the file's next bytes, which stand behind the first `filled`, to their place in the buffer.
fn read_next<F: Files>(
    files: &mut F,
    name: &str,
    buffer: &mut [u8],
    filled: usize,
) -> Result<usize, Failed>
    requires { filled ≤ length buffer.old }
    ensures within { IfOk result (λ n. filled + n ≤ length buffer.new) }
    ensures kept_front { take filled buffer.new ≡ take filled buffer.old }
    ensures bytes { (held : Held) → F.held files.old ≡ Some held → IfOk result (λ n. IsNext (held name.now) filled buffer.new n) }
    ensures held { F.held files.new ≡ F.held files.old }
    ensures failed { OnErr result (FailedAt (F.faults_of files.old name.now) (F.faults_of files.new name.now) (F.faults files.old) (F.faults files.new)) }
    ensures kept { OnOk result (NoneRose (F.faults files.old) (F.faults files.new) (F.faults_of files.old) (F.faults_of files.new)) }
    ensures later { NoneFell (F.faults files.old) (F.faults files.new) (F.faults_of files.old) (F.faults_of files.new) }
    ensures others { OthersKept (F.held files.old) name.now (F.faults_of files.old) (F.faults_of files.new) }
{
    files.read(name, filled as u64, &mut buffer[filled..])
}

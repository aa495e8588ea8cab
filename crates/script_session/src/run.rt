ghost use Rattle.std.specs.Prelude.{◌≡◌, ◌<◌, ◌⊎◌, [], List, ℕ, Option, Some, Ok, Err, map};
ghost use Rattle.std.specs.String.{string_bytes};
ghost use Rattle.outside_io.specs.Counts.{Rose, NoneRose};
ghost use Rattle.outside_io.specs.Outside.{Held};
ghost use Rattle.command_words.specs.Settings.{settings_of};
ghost use Rattle.script_session.specs.Answer.{answer, plans};
ghost use Rattle.script_session.specs.RunRecord.{IsRecord};
ghost use Rattle.script_session.specs.Outcome.{NamedReadFailed, NamedReadGrew, WritesLine, TellsLine, IsFaultLine, IsAnswer, IsTaken, IsGiven, IsReadOrMemory, IsWriteOrMemory, IsUsageOrMemory, OnSilent, IsWritten, IsWriteTold};
ghost use Rattle.script_session.specs.FaultLines.{memory_line};
ghost use Rattle.script_session.specs.Laws.{ScriptsAreRead};

use crate::answer::answer;
use crate::fault::{MEMORY_LINE, WRITE_LINE, unread_line};
use crate::laws::scripts_are_read;
use crate::status::{Status, Stop};
use outside_io::{Failed, Files, Sink, write_all};
use run_report::RunRecord;
use scalar_value::{NoMemory, Or, Seq};
use std::alloc::Global;
use std::thread::Threads;

// Writes a refusal's line. Where that fails, nothing else can be told.
fn tell<E: Sink>(err: &mut E, line: &str)
    ensures { WritesLine (E.faults err.old) (E.faults err.new) (E.taken err.old) (E.taken err.new) line.now }
{
    match write_all(err, line.as_bytes()) {
        Ok(()) => {}
        Err(Failed) => {}
    }
}

/// Runs the command of these words on one worker, whatever its number of workers, and always returns.
///
/// The result is written to `out`; a refusal's one line to `err`. `journal` is emptied first. Nothing is written
/// to `out` before the whole result is known.
pub fn run_single<R: Threads + Sync, F: Files, O: Sink, E: Sink>(
    rt: &R,
    alloc: Global,
    words: &[String],
    files: &mut F,
    out: &mut O,
    err: &mut E,
    journal: &mut RunRecord,
) -> Status
    // Where the files tell their bytes, no named read failed and the output had no fault, the status, the
    // output's bytes and the line are those of the answer to these words and bytes.
    ensures answered { (held : Held) → F.held files.old ≡ Some held
        → (NamedReadFailed (map (λ w. string_bytes w) words.now) (F.faults_of files.old) (F.faults_of files.new) (F.faults files.old) (F.faults files.new) → ⊥)
        → (Rose (O.faults out.old) (O.faults out.new) → ⊥)
        → IsAnswer (answer (map (λ w. string_bytes w) words.now) held journal.new.runs) result (O.taken out.old) (O.taken out.new) (E.faults err.old) (E.faults err.new) (E.taken err.old) (E.taken err.new) }

    // Usage comes exactly where the words are refused.
    ensures usage { (result ≡ Status.Usage → settings_of (map (λ w. string_bytes w) words.now) ≡ Err (record {}))
        × (settings_of (map (λ w. string_bytes w) words.now) ≡ Err (record {}) → IsUsageOrMemory result) }

    // Where a named read failed the status is Read; where the output failed it is Write.
    ensures read_failed { NamedReadGrew (map (λ w. string_bytes w) words.now) (F.faults_of files.old) (F.faults_of files.new) (F.faults files.old) (F.faults files.new) → IsReadOrMemory result }
    ensures write_failed { O.faults out.old < O.faults out.new → IsWriteOrMemory result }

    // Write comes only where the output failed, and only where the answer is no refusal.
    ensures write_cause { result ≡ Status.Write → Rose (O.faults out.old) (O.faults out.new) }
    ensures write_answer { (held : Held) → F.held files.old ≡ Some held → (O.faults out.old < O.faults out.new) ⊎ (result ≡ Status.Write) → IsGiven (answer (map (λ w. string_bytes w) words.now) held journal.new.runs) }

    // Done comes only where no read failed and the output had no fault.
    ensures done { result ≡ Status.Done → NoneRose (F.faults files.old) (F.faults files.new) (F.faults_of files.old) (F.faults_of files.new) × (O.faults out.new ≡ O.faults out.old) }

    // What the output took is a front of the answer's bytes, for Done all of them, and nothing for a refusal.
    ensures part { (held : Held) → F.held files.old ≡ Some held → IsTaken result (answer (map (λ w. string_bytes w) words.now) held journal.new.runs) (O.taken out.old) (O.taken out.new) }
    ensures silent { OnSilent result ((O.taken out.new ≡ O.taken out.old) × (O.faults out.new ≡ O.faults out.old)) }

    // What err took is a front of the status's line, all of it where its count didn't rise, and nothing for Done.
    ensures line { TellsLine result (E.faults err.old) (E.faults err.new) (E.taken err.old) (E.taken err.new)
        (IsFaultLine (map (λ w. string_bytes w) words.now) (F.held files.old) (F.faults_of files.old) (F.faults_of files.new) (F.faults files.old) (F.faults files.new) result) }

    // The record has a run for each plan of the answer, in their order: its history is legal and ended with the rows of the
    // plan's meaning, and no edge held more than the pause threshold and one batch. Where memory was refused it has a front of
    // them, and where a named read failed none.
    ensures record { (held : Held) → F.held files.old ≡ Some held
        → (NamedReadFailed (map (λ w. string_bytes w) words.now) (F.faults_of files.old) (F.faults_of files.new) (F.faults files.old) (F.faults files.new) → ⊥)
        → IsRecord result (plans (map (λ w. string_bytes w) words.now) held) journal.new.runs }
    ensures unread { NamedReadGrew (map (λ w. string_bytes w) words.now) (F.faults_of files.old) (F.faults_of files.new) (F.faults files.old) (F.faults files.new) → journal.new.runs ≡ [] }
    ensures held { F.held files.new ≡ F.held files.old }

    // What `answer` reads a script as is what its tokens and the grammar say, and so is a fault with its place.
    ensures scripts { ScriptsAreRead }
{
    scripts_are_read();
    journal.runs = Seq::new(alloc);
    match answer(rt, alloc, files, words) {
        Ok(answered) => {
            journal.runs = answered.runs;
            write_result(out, err, answered.text.as_str())
        }
        Err(Or::Fault(Stop::Refused(refusal))) => {
            tell(err, refusal.line.as_str());
            refusal.status
        }
        Err(Or::Fault(Stop::Unread(path))) => match unread_line(alloc, path.as_str()) {
            Ok(line) => {
                tell(err, line.as_str());
                Status::Read
            }
            Err(NoMemory) => without_memory(err),
        },
        Err(Or::Memory) => without_memory(err),
    }
}

// The end of a run that had no memory.
fn without_memory<E: Sink>(err: &mut E) -> Status
    ensures status { result ≡ Status.Memory }
    ensures line { WritesLine (E.faults err.old) (E.faults err.new) (E.taken err.old) (E.taken err.new) memory_line }
{
    tell(err, MEMORY_LINE);
    Status::Memory
}

// Writes the whole result, or tells that it can't be written.
fn write_result<O: Sink, E: Sink>(out: &mut O, err: &mut E, text: &str) -> Status
    ensures written { IsWritten result text.now (O.faults out.old) (O.faults out.new) (O.taken out.old) (O.taken out.new) }
    ensures line { IsWriteTold result (E.faults err.old) (E.faults err.new) (E.taken err.old) (E.taken err.new) }
{
    match write_all(out, text.as_bytes()) {
        Ok(()) => Status::Done,
        Err(Failed) => {
            tell(err, WRITE_LINE);
            Status::Write
        }
    }
}

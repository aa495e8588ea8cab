//! The files that the words name, read in the order in which they are needed.
ghost use Rattle.std.specs.Prelude.{◌≡◌, ◌≤◌, ◌^◌, All, List, ℕ, Some, map, length, IfOk, Contains};
ghost use Rattle.outside_io.specs.Counts.{FailedAt, NoneRose};
ghost use Rattle.outside_io.specs.Outside.{Held};
ghost use Rattle.row_table.specs.declared.table.Mark.TheVariants as mark;
ghost use Rattle.script_session.specs.Answer.{file_of, script_of, table_of, tables_of, tables_reached};
ghost use Rattle.script_session.specs.Outcome.{Comes, StopsBy, ByUnread, IsTooLong, IsRefusedOf, IsTableStop, IsAmong};

use crate::fault::{bad_script, bad_table, too_long};
use crate::reading::read_script;
use crate::status::Stop;
use command_words::Words;
use csv_source::read_table;
use outside_io::{Files, ReadFault, read_whole};
use row_table::Table;
use scalar_value::{Or, Res, Seq, Text};
use std::alloc::Global;
use verb_syntax::Script;

/// The greatest length of a script, in bytes.
pub const SCRIPT_LIMIT: u64 = 1 << 20;

/// The greatest length of a table's file, in bytes.
pub const TABLE_LIMIT: u64 = 1 << 28;

// The bytes of a file that the words name.
fn read_file<F: Files>(alloc: Global, files: &mut F, path: &Text, limit: u64) -> Res<Seq<u8>, Stop>
    ensures known { (held : Held) → F.held files.old ≡ Some held → Comes result (file_of (held path.now) path.now limit) }
    ensures within { IfOk result (λ bytes. length bytes ≤ limit) }
    ensures stops { StopsBy result (IsTooLong path.now) (λ p. p ≡ path.now) }
    ensures counts { ByUnread result (λ p. FailedAt (F.faults_of files.old p) (F.faults_of files.new p) (F.faults files.old) (F.faults files.new))
        (NoneRose (F.faults files.old) (F.faults files.new) (F.faults_of files.old) (F.faults_of files.new)) }
    ensures held { F.held files.new ≡ F.held files.old }
{
    match read_whole(alloc, files, path.as_str(), limit) {
        Ok(bytes) => Ok(bytes),
        Err(Or::Fault(ReadFault::Failed)) => Err(Or::Fault(Stop::Unread(path.copy()?))),
        Err(Or::Fault(ReadFault::TooLong)) => Err(Or::Fault(Stop::Refused(too_long(
            alloc,
            path.as_str(),
        )?))),
        Err(Or::Memory) => Err(Or::Memory),
    }
}

/// The script that the words name, with its bytes.
#[tactic(auto, unfolding(crate::specs::Answer::script_of))]
pub fn script_of<F: Files>(
    alloc: Global,
    files: &mut F,
    words: &Words,
) -> Res<(Seq<u8>, Script), Stop>
    ensures known { (held : Held) → F.held files.old ≡ Some held → Comes result (script_of words.now held) }
    ensures within { IfOk result (λ script. length script.0 ≤ 2 ^ 20) }
    ensures stops { StopsBy result (λ r. IsRefusedOf words.now r.status r.line) (λ p. p ≡ words.now.script) }
    ensures counts { ByUnread result (λ p. FailedAt (F.faults_of files.old p) (F.faults_of files.new p) (F.faults files.old) (F.faults files.new))
        (NoneRose (F.faults files.old) (F.faults files.new) (F.faults_of files.old) (F.faults_of files.new)) }
    ensures held { F.held files.new ≡ F.held files.old }
{
    let bytes = read_file(alloc, files, &words.script, SCRIPT_LIMIT)?;
    match read_script(alloc, bytes.as_slice()) {
        Ok(script) => Ok((bytes, script)),
        Err(Or::Fault(fault)) => Err(Or::Fault(Stop::Refused(bad_script(
            alloc,
            words.script.as_str(),
            fault,
        )?))),
        Err(Or::Memory) => Err(Or::Memory),
    }
}

// The typed table of a TABLE word.
#[tactic(auto, unfolding(crate::specs::Answer::table_of))]
fn table_of<F: Files>(alloc: Global, files: &mut F, word: &(Text, Text)) -> Res<(Text, Table), Stop>
    ensures known { (held : Held) → F.held files.old ≡ Some held → Comes result (table_of word.now held) }
    ensures kept { IfOk result (λ t. t.1.mark ≡ mark.Kept) }
    ensures stops { StopsBy result (IsTableStop word.now) (λ p. p ≡ word.now.1) }
    ensures counts { ByUnread result (λ p. FailedAt (F.faults_of files.old p) (F.faults_of files.new p) (F.faults files.old) (F.faults files.new))
        (NoneRose (F.faults files.old) (F.faults files.new) (F.faults_of files.old) (F.faults_of files.new)) }
    ensures held { F.held files.new ≡ F.held files.old }
{
    let (name, path) = word;
    let bytes = read_file(alloc, files, path, TABLE_LIMIT)?;
    match read_table(alloc, bytes.as_slice()) {
        Ok(table) => Ok((name.copy()?, table)),
        Err(Or::Fault(fault)) => Err(Or::Fault(Stop::Refused(bad_table(
            alloc,
            name.as_str(),
            fault,
        )?))),
        Err(Or::Memory) => Err(Or::Memory),
    }
}

/// The typed tables of the TABLE words, in their order.
pub fn tables_of<F: Files>(
    alloc: Global,
    files: &mut F,
    words: &[(Text, Text)],
) -> Res<Seq<(Text, Table)>, Stop>
    ensures known { (held : Held) → F.held files.old ≡ Some held → Comes result (tables_of words.now held) }
    ensures kept { IfOk result (λ tables. All (λ t. t.1.mark ≡ mark.Kept) tables) }
    ensures stops { StopsBy result (λ r. (word : List ℕ × List ℕ) × Contains words.now word × IsAmong word.1 (map (λ w. w.1) words.now) × IsTableStop word r) (λ p. IsAmong p (map (λ word. word.1) words.now)) }
    ensures reached { (held : Held) → F.held files.old ≡ Some held → StopsBy result (λ _. Unit {0}) (λ p. IsAmong p (tables_reached words.now held)) }
    ensures counts { ByUnread result (λ p. FailedAt (F.faults_of files.old p) (F.faults_of files.new p) (F.faults files.old) (F.faults files.new))
        (NoneRose (F.faults files.old) (F.faults files.new) (F.faults_of files.old) (F.faults_of files.new)) }
    ensures held { F.held files.new ≡ F.held files.old }
{
    let mut tables = Seq::new(alloc);
    for word in words {
        tables.push(table_of(alloc, files, word)?)?;
    }
    Ok(tables)
}

ghost use Rattle.std.specs.Prelude.{◌≡◌, ◌≤◌, ◌^◌, All, List, ℕ, Some, Ok, Err, map, length};
ghost use Rattle.std.specs.String.{string_bytes};
ghost use Rattle.outside_io.specs.Counts.{FailedAt, NoneRose};
ghost use Rattle.outside_io.specs.Outside.{Held};
ghost use Rattle.row_table.specs.declared.table.Mark.TheVariants as mark;
ghost use Rattle.plan_store.specs.Beginning.{IsSetting};
ghost use Rattle.command_words.specs.Settings.{settings_of};
ghost use Rattle.script_session.specs.Answer.{answer, plans, planned_of, plan_over, lone, paths_of, paths_reached, paths_reached_of};
ghost use Rattle.script_session.specs.Outcome.{ComesBy, HasRuns, IsAnswered, IsAnswerTo, StopsBy, ByUnread, IsRefused, IsRefusedOf, IsUsage, IsNamed, IsAmong};

use crate::fault::{bad_script, bad_words};
use crate::printing::answered;
use crate::stage::run_script;
use crate::status::{Answered, Stop};
use crate::tables::{script_of, tables_of};
use command_words::{BadWords, Words, settings};
use outside_io::Files;
use row_table::Table;
use scalar_value::{Or, Res, Seq, Text};
use std::alloc::Global;
use std::thread::Threads;
use verb_syntax::Script;
use worker_run::Setting;

// One worker, whatever the words say.
fn lone(setting: Setting) -> Setting
    requires { IsSetting setting }
    ensures given { result ≡ lone setting }
    ensures within { IsSetting result }
{
    Setting {
        workers: 1,
        ..setting
    }
}

// The result of the script over the tables, with the run that gave it.
#[tactic(auto, unfolding(crate::specs::Answer::plan_over))]
fn result_of<R: Threads + Sync>(
    rt: &R,
    alloc: Global,
    words: &Words,
    script: &(Seq<u8>, Script),
    tables: Seq<(Text, Table)>,
) -> Res<Answered, Stop>
    requires within { IsSetting words.now.setting }
    requires short { length script.now.0 ≤ 2 ^ 20 }
    requires kept { All (λ t. t.1.mark ≡ mark.Kept) tables }
    ensures known { ComesBy (IsAnswered words.now) result (plan_over words.now script.now tables) }
    ensures stops { StopsBy result (λ r. IsRefusedOf words.now r.status r.line) (λ _. ⊥) }
{
    let setting = lone(words.setting);
    match run_script(rt, alloc, setting, script.0.as_slice(), &script.1, tables) {
        Ok(ran) => Ok(answered(alloc, words, ran)?),
        Err(Or::Fault(fault)) => Err(Or::Fault(Stop::Refused(bad_script(
            alloc,
            words.script.as_str(),
            fault,
        )?))),
        Err(Or::Memory) => Err(Or::Memory),
    }
}

// What accepted words name: the result, with the run that gave it.
#[tactic(auto, unfolding(crate::specs::Answer::planned_of))]
fn answer_of<R: Threads + Sync, F: Files>(
    rt: &R,
    alloc: Global,
    files: &mut F,
    words: &Words,
) -> Res<Answered, Stop>
    requires within { IsSetting words.now.setting }
    ensures known { (held : Held) → F.held files.old ≡ Some held → ComesBy (IsAnswered words.now) result (planned_of words.now held) }
    ensures stops { StopsBy result (λ r. IsRefusedOf words.now r.status r.line) (λ p. IsAmong p (paths_of (Ok words.now))) }
    ensures reached { (held : Held) → F.held files.old ≡ Some held → StopsBy result (λ _. Unit {0}) (λ p. IsAmong p (paths_reached_of (Ok words.now) held)) }
    ensures counts { ByUnread result (λ p. FailedAt (F.faults_of files.old p) (F.faults_of files.new p) (F.faults files.old) (F.faults files.new))
        (NoneRose (F.faults files.old) (F.faults files.new) (F.faults_of files.old) (F.faults_of files.new)) }
    ensures held { F.held files.new ≡ F.held files.old }
{
    let script = script_of(alloc, files, words)?;
    let tables = tables_of(alloc, files, words.tables.as_slice())?;
    result_of(rt, alloc, words, &script, tables)
}

/// The text of the result that the words name, from the files that they name, and the runs that gave it.
pub fn answer<R: Threads + Sync, F: Files>(
    rt: &R,
    alloc: Global,
    files: &mut F,
    words: &[String],
) -> Res<Answered, Stop>
    ensures text { (held : Held) → F.held files.old ≡ Some held → IsAnswerTo (map (λ w. string_bytes w) words.now) held result }
    ensures runs { (held : Held) → F.held files.old ≡ Some held → HasRuns result (plans (map (λ w. string_bytes w) words.now) held) }
    ensures stops { StopsBy result (λ r. IsRefused (map (λ w. string_bytes w) words.now) r.status r.line) (IsNamed (map (λ w. string_bytes w) words.now)) }
    ensures reached { (held : Held) → F.held files.old ≡ Some held → StopsBy result (λ _. Unit {0}) (λ p. IsAmong p (paths_reached (map (λ w. string_bytes w) words.now) held)) }
    ensures usage { settings_of (map (λ w. string_bytes w) words.now) ≡ Err (record {}) → IsUsage result }
    ensures counts { ByUnread result (λ p. FailedAt (F.faults_of files.old p) (F.faults_of files.new p) (F.faults files.old) (F.faults files.new))
        (NoneRose (F.faults files.old) (F.faults files.new) (F.faults_of files.old) (F.faults_of files.new)) }
    ensures held { F.held files.new ≡ F.held files.old }
{
    match settings(alloc, words) {
        Ok(named) => answer_of(rt, alloc, files, &named),
        Err(Or::Fault(BadWords)) => Err(Or::Fault(Stop::Refused(bad_words(alloc)?))),
        Err(Or::Memory) => Err(Or::Memory),
    }
}

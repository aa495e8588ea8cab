//! What a command's runs did, as lines.
ghost use Rattle.std.specs.Prelude.{◌≡◌, ◌++◌, IfOk, OnOk, string_bytes};
ghost use Rattle.std.specs.List.{flat_map};
ghost use Rattle.run_report.specs.Reports.{job_word, entry_line, setting_line, peak_lines, run_text, report_text};

use crate::plan_text::{push_nodes, push_stage};
use crate::record::PlanRun;
use plan_machine::{Entry, Job};
use scalar_value::{Mem, Text};
use std::alloc::Global;

fn job_word(job: Job) -> &'static str
    ensures { result.now ≡ job_word job }
{
    match job {
        Job::Emit => "emit",
        Job::Fold => "fold",
        Job::Seal => "seal",
        Job::Stream => "stream",
        Job::Close => "close",
        Job::Tail => "tail",
    }
}

/// Appends the line of an entry.
fn push_entry(out: &mut String, entry: Entry) -> Mem<()>
    ensures { OnOk result (string_bytes out.new ≡ string_bytes out.old ++ entry_line entry) }
{
    match entry {
        Entry::Claim {
            worker,
            node,
            job,
            batch,
        } => {
            let job = job_word(job);
            writeln!(out, "claim {worker} {node} {job} {batch}")?;
        }
        Entry::Deliver { worker } => writeln!(out, "deliver {worker}")?,
        Entry::Pause { edge } => writeln!(out, "pause {edge}")?,
        Entry::Resume { edge } => writeln!(out, "resume {edge}")?,
        Entry::Finish { node } => writeln!(out, "finish {node}")?,
        Entry::Stop { node } => writeln!(out, "stop {node}")?,
        Entry::Fail { worker } => writeln!(out, "fail {worker}")?,
    }
    Ok(())
}

/// Appends the lines of a history.
fn push_history(out: &mut String, history: &[Entry]) -> Mem<()>
    ensures { OnOk result (string_bytes out.new ≡ string_bytes out.old ++ flat_map entry_line history.now) }
{
    for entry in history {
        push_entry(out, *entry)?;
    }
    Ok(())
}

/// Appends the line of a run's setting.
fn push_setting(out: &mut String, run: &PlanRun) -> Mem<()>
    ensures { OnOk result (string_bytes out.new ≡ string_bytes out.old ++ setting_line run.now) }
{
    let PlanRun {
        batch,
        workers,
        pause,
        resume,
        ..
    } = run;
    writeln!(
        out,
        "batch {batch} workers {workers} pause {pause} resume {resume}"
    )?;
    Ok(())
}

/// Appends the lines of the peaks of all edges, which are numbered from 1.
fn push_peaks(out: &mut String, peaks: &[u32]) -> Mem<()>
    ensures { OnOk result (string_bytes out.new ≡ string_bytes out.old ++ peak_lines 1 peaks.now) }
{
    for (place, count) in peaks.iter().enumerate() {
        let edge = place + 1;
        writeln!(out, "peak {edge} {count}")?;
    }
    Ok(())
}

/// Appends the lines of a run.
#[tactic(auto, unfolding(crate::specs::Reports::run_text))]
fn push_run(out: &mut String, run: &PlanRun) -> Mem<()>
    ensures { OnOk result (string_bytes out.new ≡ string_bytes out.old ++ run_text run.now) }
{
    push_nodes(out, run.plan.nodes.as_slice())?;
    push_setting(out, run)?;
    push_history(out, run.history.as_slice())?;
    push_peaks(out, run.peaks.as_slice())
}

/// Appends the lines of runs, each behind the line of its stage.
#[tactic(auto, unfolding(crate::specs::Reports::report_text))]
fn push_runs(out: &mut String, runs: &[PlanRun]) -> Mem<()>
    ensures { OnOk result (string_bytes out.new ≡ string_bytes out.old ++ report_text runs.now) }
{
    for (place, run) in runs.iter().enumerate() {
        push_stage(out, place + 1)?;
        push_run(out, run)?;
    }
    Ok(())
}

/// What `--report` prints of a command's runs: for each the line `stage K`, with its number from 1; the lines of its plan's nodes;
/// the line `batch B workers W pause P resume R` of its setting; a line for each entry of its history, in order; and for each edge,
/// in the order of the nodes that give them, the line `peak EDGE COUNT` with the greatest number of batches that waited on it.
/// Pauses and resumes are Acero's backpressure. The only error is want of memory.
pub fn report_text(alloc: Global, runs: &[PlanRun]) -> Mem<Text>
    ensures { IfOk result (λ text. text ≡ report_text runs.now) }
{
    let mut out = String::new(alloc);
    push_runs(&mut out, runs)?;
    Ok(Text::of_string(out))
}

//! What a command prints of its result.
ghost use Rattle.std.specs.Prelude.{◌≡◌, [], ◌∷◌, IfOk};
ghost use Rattle.row_table.specs.SameTables.{shown};
ghost use Rattle.script_session.specs.Answer.{table_text, printed_of};
ghost use Rattle.script_session.specs.Outcome.{IsPrintedOf};

use crate::stage::Ran;
use crate::status::Answered;
use command_words::Words;
use row_table::{Mark, Table, canonical};
use run_report::{PlanRun, explain_plans, report_text};
use scalar_value::{Mem, Seq, Text};
use std::alloc::Global;
use table_print::{write_aligned, write_csv};

// The table with its rows as they are where their order is kept, else sorted.
fn shown(table: Table) -> Table
    ensures { result ≡ shown table }
{
    let mut table = table;
    if table.mark == Mark::Unordered {
        canonical(&mut table);
    }
    table
}

// The text of the shown table, as the words want it.
fn table_text(alloc: Global, words: &Words, table: Table) -> Mem<Text>
    ensures { IfOk result (λ text. text ≡ table_text words.now table) }
{
    let table = shown(table);
    if words.csv {
        write_csv(alloc, &table)
    } else {
        write_aligned(alloc, &table)
    }
}

// What is printed: the plan or the runs where the words ask for them, else the table.
fn text_of(alloc: Global, words: &Words, table: Table, runs: &[PlanRun]) -> Mem<Text>
    ensures { IfOk result (λ text. text ≡ printed_of words.now table runs.now) }
{
    if words.explain {
        explain_plans(alloc, runs)
    } else if words.report {
        report_text(alloc, runs)
    } else {
        table_text(alloc, words, table)
    }
}

/// What is printed of what a plan gave, with its run.
pub fn answered(alloc: Global, words: &Words, ran: Ran) -> Mem<Answered>
    ensures { IfOk result (IsPrintedOf words.now ran) }
{
    let Ran { table, run } = ran;
    let mut runs = Seq::new(alloc);
    runs.push(run)?;
    let text = text_of(alloc, words, table, runs.as_slice())?;
    Ok(Answered { text, runs })
}

ghost use Rattle.std.specs.Prelude.{◌≡◌, IfOk};
ghost use Rattle.script_session.specs.FaultLines.{script_line, table_text, table_line, unread_line, long_line};
ghost use Rattle.script_session.specs.Answer.{bad_words, bad_script, bad_table, too_long};

use crate::script::ScriptFault;
use crate::status::{Refusal, Status};
use csv_source::{TableFault, TableKind};
use scalar_value::{Mem, Text};
use std::alloc::Global;

/// The line of a refusal of the words.
pub const USAGE_LINE: &str = "acero_run: bad command line\n";

/// The line of a result that can't be written.
pub const WRITE_LINE: &str = "acero_run: cannot write the result\n";

/// The line for want of memory, which takes none.
pub const MEMORY_LINE: &str = "acero_run: out of memory\n";

pub fn bad_words(alloc: Global) -> Mem<Refusal>
    ensures { IfOk result (λ r. r ≡ bad_words) }
{
    Ok(Refusal {
        status: Status::Usage,
        line: Text::of(alloc, USAGE_LINE)?,
    })
}

pub fn script_line(alloc: Global, path: &str, fault: ScriptFault) -> Mem<Text>
    ensures { IfOk result (λ t. t ≡ script_line path.now fault) }
{
    let line = fault.place.line;
    let column = fault.place.column;
    let kind = fault.kind.text();
    Ok(Text::of_string(format!(in alloc; "acero_run: {path}:{line}:{column}: {kind}\n")?))
}

pub fn bad_script(alloc: Global, path: &str, fault: ScriptFault) -> Mem<Refusal>
    ensures { IfOk result (λ r. r ≡ bad_script path.now fault) }
{
    Ok(Refusal {
        status: Status::Script,
        line: script_line(alloc, path, fault)?,
    })
}

// The word by which a fault's line tells a table's fault.
fn table_text(kind: TableKind) -> &'static str
    ensures { result.now ≡ table_text kind }
{
    match kind {
        TableKind::NotText => "NotText",
        TableKind::NoHeader => "NoHeader",
        TableKind::TooManyColumns => "TooManyColumns",
        TableKind::HeaderType => "HeaderType",
        TableKind::NameTwice => "NameTwice",
        TableKind::Ragged => "Ragged",
        TableKind::BadField => "BadField",
    }
}

pub fn table_line(alloc: Global, name: &str, fault: TableFault) -> Mem<Text>
    ensures { IfOk result (λ t. t ≡ table_line name.now fault) }
{
    let kind = table_text(fault.kind);
    let row = fault.row;
    let column = fault.column;
    Ok(Text::of_string(format!(in alloc; "acero_run: {name}: {kind} row {row} column {column}\n")?))
}

pub fn bad_table(alloc: Global, name: &str, fault: TableFault) -> Mem<Refusal>
    ensures { IfOk result (λ r. r ≡ bad_table name.now fault) }
{
    Ok(Refusal {
        status: Status::Table,
        line: table_line(alloc, name, fault)?,
    })
}

pub fn too_long(alloc: Global, path: &str) -> Mem<Refusal>
    ensures { IfOk result (λ r. r ≡ too_long path.now) }
{
    Ok(Refusal {
        status: Status::Read,
        line: Text::of_string(format!(in alloc; "acero_run: {path} is too long\n")?),
    })
}

pub fn unread_line(alloc: Global, path: &str) -> Mem<Text>
    ensures { IfOk result (λ t. t ≡ unread_line path.now) }
{
    Ok(Text::of_string(format!(in alloc; "acero_run: cannot read {path}\n")?))
}

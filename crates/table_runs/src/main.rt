//! A tool that reads a typed table from a CSV file. The time and the memory that reading and printing a table take are
//! measured with it.
//!
//! Its words are `read FILE`, which prints how many rows and columns the table has, `csv FILE`, which prints the table as
//! CSV, and `table FILE`, which prints it with aligned columns.
#![tactic(auto)]

ghost use Rattle.std.specs.Prelude.{◌≡◌, IfOk};
ghost use Rattle.scalar_value.specs.Gives.{Gives};
ghost use Rattle.table_runs.specs.Outputs.{answer_of, fault_text, kind_text, order_of, output_of, sizes_text};

use csv_source::{TableFault, TableKind, read_table};
use row_table::Table;
use scalar_value::{Mem, Or, Res, Text};
use std::alloc::Global;
use std::io::Write;
use std::process::ExitCode;
use std::{env, fs, io};
use table_print::{write_aligned, write_csv};

fn main(rt: HostRuntime) -> io::Result<ExitCode> {
    let mut words = env::args(&rt)?;
    let (Some(word), Some(path)) = (words.nth(1), words.next()) else {
        return usage(&rt);
    };
    let Some(order) = order_of(word.as_str()) else {
        return usage(&rt);
    };
    match fs::read(&rt, path.as_str()) {
        Ok(bytes) => answer(&rt, rt.alloc(), order, bytes),
        Err(_) => {
            println!(rt; "cannot read {path}")?;
            Ok(ExitCode::from(5))
        }
    }
}

fn usage<R: Print>(rt: &R) -> io::Result<ExitCode> {
    println!(rt; "table_runs read|csv|table FILE")?;
    Ok(ExitCode::from(2))
}

// Prints the answer to an order, and gives the exit status: 0, 4 for a fault of the table, and 7 for want of memory.
fn answer<R: Print>(rt: &R, alloc: Global, order: Order, bytes: Vec<u8>) -> io::Result<ExitCode> {
    match answer_of(alloc, order, bytes) {
        Ok(text) => {
            io::writer(rt).write_all(text.as_str().as_bytes())?;
            Ok(ExitCode::SUCCESS)
        }
        Err(Or::Fault(fault)) => match fault_text(alloc, fault) {
            Ok(line) => {
                io::writer(rt).write_all(line.as_str().as_bytes())?;
                Ok(ExitCode::from(4))
            }
            Err(_) => Ok(ExitCode::from(7)),
        },
        Err(Or::Memory) => Ok(ExitCode::from(7)),
    }
}

/// What is printed of a table.
#[derive(Debug, Clone, Copy)]
pub enum Order {
    /// How many rows and columns it has.
    Sizes,
    /// The table as CSV.
    Csv,
    /// The table with aligned columns.
    Aligned,
}

// What a word orders.
fn order_of(word: &str) -> Option<Order>
    ensures { result ≡ order_of word.now }
{
    match word {
        "read" => Some(Order::Sizes),
        "csv" => Some(Order::Csv),
        "table" => Some(Order::Aligned),
        _ => None,
    }
}

// The answer to an order on the bytes of a file, or the first fault of the table.
fn answer_of(alloc: Global, order: Order, bytes: Vec<u8>) -> Res<Text, TableFault>
    ensures { Gives result (answer_of order bytes.items) }
{
    let t = match read_table(alloc, bytes.as_slice()) {
        Ok(t) => t,
        Err(refusal) => return Err(refusal),
    };
    drop(bytes);
    Ok(output_of(alloc, order, &t)?)
}

// What an order prints of a table.
fn output_of(alloc: Global, order: Order, t: &Table) -> Mem<Text>
    ensures { IfOk result (λ text. text ≡ output_of order t.now) }
{
    match order {
        Order::Sizes => sizes_text(alloc, t.rows.len(), t.schema.len()),
        Order::Csv => write_csv(alloc, t),
        Order::Aligned => write_aligned(alloc, t),
    }
}

// `R rows, C columns`
fn sizes_text(alloc: Global, rows: usize, columns: usize) -> Mem<Text>
    ensures { IfOk result (λ text. text ≡ sizes_text rows columns) }
{
    Ok(Text::of_string(format!(in alloc; "{rows} rows, {columns} columns\n")?))
}

fn kind_text(kind: TableKind) -> &'static str
    ensures { result.now ≡ kind_text kind }
{
    match kind {
        TableKind::NotText => "NotText",
        TableKind::NoHeader => "NoHeader",
        TableKind::TooManyColumns => "TooManyColumns",
        TableKind::HeaderType => "HeaderType",
        TableKind::NameTwice => "NameTwice",
        TableKind::Ragged => "Ragged",
        TableKind::BadField => "BadField",
    }
}

// `KIND row R column C`
fn fault_text(alloc: Global, fault: TableFault) -> Mem<Text>
    ensures { IfOk result (λ text. text ≡ fault_text fault) }
{
    let (kind, row, column) = (kind_text(fault.kind), fault.row, fault.column);
    Ok(Text::of_string(format!(in alloc; "{kind} row {row} column {column}\n")?))
}

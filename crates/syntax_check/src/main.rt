//! A tool for whoever writes scripts: it says how many tokens a script has, and whether they are a script; else it
//! says its first fault, with the place in bytes. The time that reading a script takes is measured with it.
#![tactic(auto)]

ghost use Rattle.std.specs.Prelude.{◌≡◌, ◌≤◌, ◌^◌, length, Ok};
ghost use Rattle.token_scan.specs.Tokens.{tokens_of};
ghost use Rattle.token_scan.specs.Spans.{AreInOrder};
ghost use Rattle.syntax_check.specs.Readings.{IsReading};

use scalar_value::Or;
use std::alloc::Global;
use std::process::ExitCode;
use std::{env, fs, io};
use token_scan::{ScanFault, Token, scan};
use verb_syntax::{SyntaxFault, parse};

/// The greatest length of a script, in bytes.
const SCRIPT_LIMIT: usize = 1 << 20;

fn main(rt: HostRuntime) -> io::Result<ExitCode> {
    let Some(path) = env::args(&rt)?.nth(1) else {
        println!(rt; "syntax_check SCRIPT")?;
        return Ok(ExitCode::from(2));
    };
    let script = fs::read_to_string(&rt, path.as_str())?;
    if script.len() > SCRIPT_LIMIT {
        println!(rt; "{path} is too long")?;
        return Ok(ExitCode::from(5));
    }
    check(&rt, rt.alloc(), script.as_str())
}

/// What a text is.
#[derive(Debug, Clone, Copy)]
pub enum Reading {
    /// A script of so many tokens.
    Script(usize),
    /// A text that isn't made of tokens.
    NoToken(ScanFault),
    /// So many tokens that are no script.
    NoScript(usize, SyntaxFault),
    /// Memory was refused.
    Memory,
}

// Reads a text by the tokens and the grammar of scripts.
fn reading_of(alloc: Global, text: &str) -> Reading
    requires { length text.now ≤ 2 ^ 20 }
    ensures { IsReading text.now result }
{
    match scan(alloc, text) {
        Ok(tokens) => parsed(alloc, text, tokens.as_slice()),
        Err(Or::Fault(fault)) => Reading::NoToken(fault),
        Err(Or::Memory) => Reading::Memory,
    }
}

// Reads a text's tokens by the grammar.
fn parsed(alloc: Global, text: &str, tokens: &[Token]) -> Reading
    requires short { length text.now ≤ 2 ^ 20 }
    requires tokens { tokens_of text.now ≡ Ok tokens.now }
    requires in_order { AreInOrder 0 tokens.now (length text.now) }
    ensures { IsReading text.now result }
{
    match parse(alloc, tokens, text.len() as u32) {
        Ok(_) => return Reading::Script(tokens.len()),
        Err(Or::Fault(fault)) => return Reading::NoScript(tokens.len(), fault),
        Err(Or::Memory) => {}
    }
    Reading::Memory
}

// Prints what the text is, and gives the exit status: 0 for a script, 3 for a fault, 7 for want of memory.
fn check<R: Print>(rt: &R, alloc: Global, text: &str) -> io::Result<ExitCode>
    requires { length text.now ≤ 2 ^ 20 }
{
    match reading_of(alloc, text) {
        Reading::Script(count) => {
            println!(rt; "{count} tokens")?;
            println!(rt; "a script")?;
            Ok(ExitCode::SUCCESS)
        }
        Reading::NoToken(fault) => {
            println!(rt; "{fault}")?;
            Ok(ExitCode::from(3))
        }
        Reading::NoScript(count, fault) => {
            println!(rt; "{count} tokens")?;
            println!(rt; "{fault}")?;
            Ok(ExitCode::from(3))
        }
        Reading::Memory => Ok(ExitCode::from(7)),
    }
}

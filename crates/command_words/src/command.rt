ghost use Rattle.std.specs.Prelude.{◌≡◌, ℕ, [], map, IfOk, false, pos};
ghost use Rattle.std.specs.String.{string_bytes};
ghost use Rattle.clap.specs.Words.{app_of, rule_of};
ghost use Rattle.clap.specs.declared.builder.value_parser.ValueParser.TheVariants.{Signed};
ghost use Rattle.command_words.specs.Command.{command_with, command, number_options, number_option, text_option, flag, word, more_words};
ghost use Rattle.command_words.specs.Reading.{ReadsWords, refusal_of};

use crate::words::BadWords;
use clap::builder::ValueParser;
use clap::error::ErrorKind;
use clap::{Arg, ArgAction, ArgMatches, Command, value_parser};
use scalar_value::{Mem, Or, Res};
use std::alloc::Global;

fn number_option<'a>(alloc: Global, name: &'a str, numbers: ValueParser<'a>) -> Arg<'a>
    ensures rule { (least most : ℕ) → numbers.entry ≡ Signed (pos least) (pos most) → rule_of result ≡ number_option name.entry.now least most }
    ensures own { result.global ≡ false }
{
    Arg::new(alloc, name).long(name).value_parser(numbers)
}

fn text_option<'a>(alloc: Global, name: &'a str) -> Arg<'a>
    ensures rule { rule_of result ≡ text_option name.entry.now }
    ensures own { result.global ≡ false }
{
    Arg::new(alloc, name).long(name)
}

fn flag<'a>(alloc: Global, name: &'a str) -> Arg<'a>
    ensures rule { rule_of result ≡ flag name.entry.now }
    ensures own { result.global ≡ false }
{
    Arg::new(alloc, name).long(name).action(ArgAction::SetTrue)
}

fn word<'a>(alloc: Global, name: &'a str) -> Arg<'a>
    ensures rule { rule_of result ≡ word name.entry.now }
    ensures own { result.global ≡ false }
{
    Arg::new(alloc, name)
}

fn more_words<'a>(alloc: Global, name: &'a str) -> Arg<'a>
    ensures rule { rule_of result ≡ more_words name.entry.now }
    ensures own { result.global ≡ false }
{
    Arg::new(alloc, name).action(ArgAction::Append)
}

fn empty_command<'a>(alloc: Global) -> Command<'a>
    ensures { app_of result ≡ command_with [] }
{
    Command::new(alloc, "acero_run")
        .no_binary_name(true)
        .disable_help_flag(true)
}

// The ranges are those of the setting that a run begins with.
fn number_command<'a>(alloc: Global) -> Mem<Command<'a>>
    ensures { IfOk result (λ c. app_of c ≡ command_with number_options) }
{
    let workers = number_option(alloc, "workers", value_parser!(u32).range(1..=64));
    let batch = number_option(alloc, "batch", value_parser!(u32).range(1..=65536));
    let pause = number_option(alloc, "pause", value_parser!(u32).range(1..=1024));
    let resume = number_option(alloc, "resume", value_parser!(u32).range(0..=1023));
    let whole = empty_command(alloc)
        .arg(workers)?
        .arg(batch)?
        .arg(pause)?
        .arg(resume)?;
    Ok(whole)
}

fn command<'a>(alloc: Global) -> Mem<Command<'a>>
    ensures { IfOk result (λ c. app_of c ≡ command) }
{
    let whole = number_command(alloc)?
        .arg(text_option(alloc, "format"))?
        .arg(flag(alloc, "explain"))?
        .arg(flag(alloc, "report"))?
        .arg(word(alloc, "SCRIPT"))?
        .arg(more_words(alloc, "TABLE"))?;
    Ok(whole)
}

fn refusal_of(kind: ErrorKind) -> Or<BadWords>
    ensures { result ≡ refusal_of kind }
{
    match kind {
        ErrorKind::OutOfMemory => Or::Memory,
        _ => Or::Fault(BadWords),
    }
}

/// What clap reads of the words, or that it finds a fault in them.
pub(crate) fn matches_of<'a>(alloc: Global, words: &'a [String]) -> Res<ArgMatches<'a>, BadWords>
    ensures { ReadsWords (map (λ w. string_bytes w) words.entry.now) result }
{
    match command(alloc)?.try_get_matches_from(words) {
        Ok(matches) => Ok(matches),
        Err(error) => Err(refusal_of(error.kind())),
    }
}

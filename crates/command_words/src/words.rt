ghost use Rattle.std.specs.Prelude.{◌≡◌, ◌<◌, map, IfOk};
ghost use Rattle.std.specs.Option.{option_map};
ghost use Rattle.std.specs.String.{string_bytes};
ghost use Rattle.clap.specs.Words.{found_of, rows_of};
ghost use Rattle.scalar_value.specs.Gives.{Gives, GivesSome};
ghost use Rattle.plan_store.specs.Beginning.{IsSetting};
ghost use Rattle.command_words.specs.Settings.{settings_of};
ghost use Rattle.command_words.specs.Settings as said;
ghost use Rattle.command_words.specs.Reading.{HasNumbers, IsOption};

use crate::command::matches_of;
use crate::tables::given_tables;
use clap::ArgMatches;
use plan_store::Setting;
use scalar_value::{Or, Res, Seq, Text};
use std::alloc::Global;

/// What the words of a command line say: how a run goes, what is printed, and the paths of the script and of the named
/// tables.
#[derive(Debug, Drop)]
pub struct Words {
    pub setting: Setting,
    pub csv: bool,
    pub explain: bool,
    pub report: bool,
    pub make: Option<u32>,
    pub script: Text,
    pub tables: Seq<(Text, Text)>,
}

/// The words aren't those of a command.
#[derive(Debug, Clone, Copy, PartialEq, Eq)]
pub struct BadWords;

// The number of an option, and `default` where the option isn't given.
fn number_of(matches: &ArgMatches<'_>, name: &str, default: u32) -> u32
    requires { IsOption name.now 0 65536 (rows_of (found_of matches.now)) }
    ensures { result ≡ said.number_of name.now default (rows_of (found_of matches.now)) }
{
    matches.get_one::<u32>(name).unwrap_or(default)
}

fn is_given(matches: &ArgMatches<'_>, name: &str) -> bool
    ensures { result ≡ said.is_given name.now (rows_of (found_of matches.now)) }
{
    match matches.get_str(name) {
        Some(text) => text == "true",
        None => false,
    }
}

// Whether the format is CSV, and none where it is no format.
fn csv_of(format: Option<&str>) -> Option<bool>
    ensures { result ≡ said.csv_of (option_map (λ s. s.now) format.entry) }
{
    let Some(text) = format else {
        return Some(false);
    };
    if text == "csv" {
        Some(true)
    } else if text == "table" {
        Some(false)
    } else {
        None
    }
}

fn setting_of(matches: &ArgMatches<'_>) -> Setting
    requires { HasNumbers (rows_of (found_of matches.now)) }
    ensures value { result ≡ said.setting_of (rows_of (found_of matches.now)) }
    ensures within { result.resume < result.pause → IsSetting result }
{
    let pause = number_of(matches, "pause", 8);
    Setting {
        batch: number_of(matches, "batch", 4096),
        workers: number_of(matches, "workers", 4),
        pause,
        resume: number_of(matches, "resume", pause / 2),
    }
}

// Whether such a run can be: it goes on at fewer batches than it pauses at, and one thing at most is told of it.
fn can_run(setting: &Setting, explain: bool, report: bool) -> bool
    ensures { result ≡ said.can_run setting.now explain report }
{
    setting.resume < setting.pause && !(explain && report)
}

#[tactic(auto, unfolding(crate::specs::Settings::words_of))]
fn words_of(alloc: Global, matches: &ArgMatches<'_>) -> Res<Words, BadWords>
    requires { HasNumbers (rows_of (found_of matches.now)) }
    ensures gives { GivesSome result (said.words_of (rows_of (found_of matches.now))) }
    ensures within { IfOk result (λ w. IsSetting w.setting) }
{
    let setting = setting_of(matches);
    let explain = is_given(matches, "explain");
    let report = is_given(matches, "report");
    if !can_run(&setting, explain, report) {
        return Err(Or::Fault(BadWords));
    }
    let Some(csv) = csv_of(matches.get_str("format")) else {
        return Err(Or::Fault(BadWords));
    };
    let Some(script) = matches.get_str("SCRIPT") else {
        return Err(Or::Fault(BadWords));
    };
    let tables = given_tables(alloc, matches.get_raw("TABLE"))?;
    Ok(Words {
        setting,
        csv,
        explain,
        report,
        make: None,
        script: Text::of(alloc, script)?,
        tables,
    })
}

/// What the words of a command line say, or that they are no command: by clap's reading of a command with the options
/// `--workers`, `--batch`, `--pause`, `--resume` and `--format`, the flags `--explain` and `--report`, a SCRIPT and any
/// number of TABLE words, each NAME=PATH. A program's name doesn't stand among them.
#[tactic(auto, unfolding(crate::specs::Settings::settings_of))]
pub fn settings(alloc: Global, words: &[String]) -> Res<Words, BadWords>
    ensures gives { Gives result (settings_of (map (λ w. string_bytes w) words.now)) }
    ensures within { IfOk result (λ w. IsSetting w.setting) }
{
    let matches = matches_of(alloc, words)?;
    words_of(alloc, &matches)
}

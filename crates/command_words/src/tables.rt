ghost use Rattle.std.specs.Prelude.{◌≡◌, [], map, unwrap_or};
ghost use Rattle.std.specs.Option.{option_map};
ghost use Rattle.scalar_value.specs.Gives.{GivesSome};
ghost use Rattle.command_words.specs.Steps.{each_some};
ghost use Rattle.command_words.specs.Tables.{at_equals, table_word, is_named, has_own_names, tables_of};

use crate::names::is_free_name;
use crate::words::BadWords;
use scalar_value::{Or, Res, Seq, Text};
use std::alloc::Global;

fn at_equals(word: &str) -> Option<(&str, &str)>
    ensures { option_map (λ p. (p.0.now, p.1.now)) result ≡ at_equals word.now }
{
    word.split_once('=')
}

#[tactic(auto, unfolding(crate::specs::Tables::table_word))]
fn table_word(word: &str) -> Option<(&str, &str)>
    ensures { option_map (λ p. (p.0.now, p.1.now)) result ≡ table_word word.now }
{
    let (name, path) = at_equals(word)?;
    if is_free_name(name.as_bytes()) && !path.is_empty() {
        Some((name, path))
    } else {
        None
    }
}

fn read_table(alloc: Global, word: &str) -> Res<(Text, Text), BadWords>
    ensures { GivesSome result (table_word word.now) }
{
    match table_word(word) {
        Some((name, path)) => Ok((Text::of(alloc, name)?, Text::of(alloc, path)?)),
        None => Err(Or::Fault(BadWords)),
    }
}

fn read_tables(alloc: Global, words: &[&str]) -> Res<Seq<(Text, Text)>, BadWords>
    ensures { GivesSome result (each_some table_word (map (λ w. w.now) words.now)) }
{
    let mut tables = Vec::with_capacity(alloc, words.len())?;
    for word in words {
        match read_table(alloc, word) {
            Ok(table) => tables.push(table)?,
            Err(refusal) => return Err(refusal),
        }
    }
    Ok(Seq::of(tables))
}

fn is_named(name: &str, tables: &[(Text, Text)]) -> bool
    ensures { result ≡ is_named name.now tables.now }
{
    tables.iter().any(|table| table.0.as_str() == name)
}

// Few tables stand on a command line, so each name is compared with those behind it.
fn has_own_names(tables: &[(Text, Text)]) -> bool
    ensures { result ≡ has_own_names tables.now }
{
    for i in 0..tables.len() {
        if is_named(tables[i].0.as_str(), &tables[i + 1..]) {
            return false;
        }
    }
    true
}

// The tables of these words, or that a word is no table or two have the same name.
#[tactic(auto, unfolding(crate::specs::Tables::tables_of))]
fn tables_of(alloc: Global, words: &[&str]) -> Res<Seq<(Text, Text)>, BadWords>
    ensures { GivesSome result (tables_of (map (λ w. w.now) words.now)) }
{
    let tables = read_tables(alloc, words)?;
    if has_own_names(tables.as_slice()) {
        Ok(tables)
    } else {
        Err(Or::Fault(BadWords))
    }
}

/// The tables of the TABLE words, of which there may be none.
#[tactic(auto, unfolding(crate::specs::Tables::tables_of))]
pub(crate) fn given_tables(
    alloc: Global,
    words: Option<&[&str]>,
) -> Res<Seq<(Text, Text)>, BadWords>
    ensures { GivesSome result (tables_of (unwrap_or (option_map (λ s. map (λ w. w.now) s.now) words.entry) [])) }
{
    match words {
        Some(words) => tables_of(alloc, words),
        None => Ok(Seq::new(alloc)),
    }
}

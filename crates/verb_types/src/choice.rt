ghost use Rattle.std.specs.Prelude.{◌≡◌, ◌++◌, ◌∷◌, [], ℕ, List, IfOk, OnOk, map, filter, fold, not, ◌&&◌, if◌then◌else◌};
ghost use Rattle.std.specs.List.{list_any};
ghost use Rattle.scalar_value.specs.Gives.{Gives};
ghost use Rattle.selections.specs.Selectors.{selector};
ghost use Rattle.verb_arguments.specs.Arguments.{is_unnamed as has_no_name, value_of};
ghost use Rattle.verb_types.specs.Steps.{places_of as places_named, has_column as chosen_already, with_own as one_own, without_columns as those_without, with_picked as picked, taking as taken, with_named as named, with_choice as one_more, with_choices as many_more, differs_from as differing, has_two_names as two_names, all_own as all_as_they_are, chosen_at_start as start_of, with_groups as groups_in_front, select_of as select_read, rename_of as rename_read};

use crate::columns::{column_of, name_or_empty, own_name, own_names, places_of};
use crate::fault::term_fault;
use row_table::Schema;
use scalar_value::{Mem, Or, Res, Seq, Text};
use selections::{Selector, all_places, is_among, selector_of};
use std::alloc::Global;
use syntax_tree::Arg;
use term_types::{TermFault, TermFaultKind};
use verb_arguments::is_unnamed;
use verb_forms::{Shape, Verb};

/// What `select` and `rename` have so far: the columns that are chosen with their names, and the new names that were given.
#[derive(Debug, Drop)]
pub struct Choice {
    pub chosen: Seq<(u32, Text)>,
    pub given: Seq<(u32, Text)>,
}

/// Whether a column is chosen already.
fn has_column(chosen: &[(u32, Text)], at: u32) -> bool
    ensures { result ≡ chosen_already chosen.now at }
{
    chosen.iter().any(|column| column.0 == at)
}

/// A column under its own name, where it is not chosen already.
fn with_own(alloc: Global, schema: &Schema, had: &mut Seq<(u32, Text)>, at: u32) -> Mem<()>
    ensures { OnOk result (had.new ≡ one_own schema.now had.old at) }
{
    if has_column(had.as_slice(), at) {
        return Ok(());
    }
    had.push(own_name(alloc, schema, at)?)
}

fn with_owns(
    alloc: Global,
    schema: &Schema,
    mut had: Seq<(u32, Text)>,
    columns: &[u32],
) -> Mem<Seq<(u32, Text)>>
    ensures { IfOk result (λ now. now ≡ fold (one_own schema.now) had columns.now) }
{
    for at in columns {
        with_own(alloc, schema, &mut had, *at)?;
    }
    Ok(had)
}

/// A column more, unless it is one of those that are taken away.
fn push_left(left: &mut Seq<(u32, Text)>, away: &[u32], column: (u32, Text)) -> Mem<()>
    ensures { OnOk result (left.new ≡ left.old ++ those_without (column ∷ []) away.now) }
{
    if is_among(away, column.0) {
        Ok(())
    } else {
        left.push(column)
    }
}

#[tactic(auto, using(crate::proofs::Left::left_more))]
/// The columns that are chosen without these.
fn without_columns(alloc: Global, had: Seq<(u32, Text)>, away: &[u32]) -> Mem<Seq<(u32, Text)>>
    ensures { IfOk result (λ left. left ≡ those_without had away.now) }
{
    let mut left = Seq::new(alloc);
    for column in had.into_vec() {
        push_left(&mut left, away, column)?;
    }
    Ok(left)
}

fn with_picked(
    alloc: Global,
    schema: &Schema,
    had: Choice,
    away: bool,
    columns: &[u32],
) -> Mem<Choice>
    ensures { IfOk result (λ now. now ≡ picked schema.now had away columns.now) }
{
    let Choice { chosen, given } = had;
    if away {
        let chosen = without_columns(alloc, chosen, columns)?;
        return Ok(Choice { chosen, given });
    }
    let chosen = with_owns(alloc, schema, chosen, columns)?;
    Ok(Choice { chosen, given })
}

/// A column, under the new name where it is the one at this place.
fn taking(at: u32, new: &Text, column: (u32, Text)) -> Mem<(u32, Text)>
    ensures { IfOk result (λ made. made ≡ taken at new.now column) }
{
    if column.0 == at {
        Ok((at, new.copy()?))
    } else {
        Ok(column)
    }
}

fn renamed(alloc: Global, had: Seq<(u32, Text)>, at: u32, new: &Text) -> Mem<Seq<(u32, Text)>>
    ensures { IfOk result (λ made. made ≡ map (taken at new.now) had) }
{
    let mut made = Seq::new(alloc);
    for column in had.into_vec() {
        made.push(taking(at, new, column)?)?;
    }
    Ok(made)
}

/// The chosen columns with one under a new name: where it is chosen already it keeps its place.
fn with_new_name(
    alloc: Global,
    mut had: Seq<(u32, Text)>,
    new: &Text,
    at: u32,
) -> Mem<Seq<(u32, Text)>>
    ensures { IfOk result (λ now. now ≡ (if chosen_already had at then map (taken at new.now) had else had ++ (at, new.now) ∷ [])) }
{
    if has_column(had.as_slice(), at) {
        return renamed(alloc, had, at, new);
    }
    had.push((at, new.copy()?))?;
    Ok(had)
}

fn with_named(alloc: Global, had: Choice, new: Text, at: u32) -> Mem<Choice>
    ensures { IfOk result (λ now. now ≡ named had new at) }
{
    let Choice { chosen, mut given } = had;
    let chosen = with_new_name(alloc, chosen, &new, at)?;
    given.push((at, new))?;
    Ok(Choice { chosen, given })
}

/// One argument of `select` or `rename` more.
fn with_choice(alloc: Global, schema: &Schema, had: Choice, arg: &Arg) -> Res<Choice, TermFault>
    ensures { Gives result (one_more schema.now had arg.now) }
{
    if is_unnamed(arg) {
        let Selector { away, columns, .. } = selector_of(alloc, schema, &arg.value)?;
        return match columns {
            Ok(columns) => Ok(with_picked(alloc, schema, had, away, columns.as_slice())?),
            Err(fault) => Err(Or::Fault(fault)),
        };
    }
    let at = column_of(alloc, schema, &arg.value)?;
    Ok(with_named(alloc, had, name_or_empty(alloc, arg)?, at)?)
}

fn choices_of(
    alloc: Global,
    schema: &Schema,
    start: Seq<(u32, Text)>,
    args: &[Arg],
) -> Res<Choice, TermFault>
    ensures { Gives result (many_more schema.now (record { chosen = start; given = [] }) args.now) }
{
    let mut had = Choice {
        chosen: start,
        given: Seq::new(alloc),
    };
    for arg in args {
        had = with_choice(alloc, schema, had, arg)?;
    }
    Ok(had)
}

/// Whether two new names of one column differ.
fn differs_from(a: &(u32, Text), b: &(u32, Text)) -> bool
    ensures { result ≡ differing a.now b.now }
{
    a.0 == b.0 && a.1 != b.1
}

fn is_renamed_again(first: &(u32, Text), others: &[(u32, Text)]) -> bool
    ensures { result ≡ list_any (differing first.now) others.now }
{
    others.iter().any(|other| differs_from(first, other))
}

/// Whether a column was given two different new names.
fn has_two_names(given: &[(u32, Text)]) -> bool
    ensures { result ≡ two_names given.now }
{
    match given {
        [] => false,
        [first, rest @ ..] => is_renamed_again(first, rest) || has_two_names(rest),
    }
}

fn all_own(alloc: Global, schema: &Schema) -> Mem<Seq<(u32, Text)>>
    ensures { IfOk result (λ columns. columns ≡ all_as_they_are schema.now) }
{
    let places = all_places(alloc, schema)?;
    own_names(alloc, schema, places.as_slice())
}

/// Whether an argument takes columns away.
fn takes_away(alloc: Global, schema: &Schema, arg: &Arg) -> Mem<bool>
    ensures { IfOk result (λ b. b ≡ (has_no_name arg.now && (selector schema.now (value_of arg.now)).away)) }
{
    if is_unnamed(arg) {
        Ok(selector_of(alloc, schema, &arg.value)?.away)
    } else {
        Ok(false)
    }
}

/// What `select` begins with: nothing, or all columns where the first argument takes columns away.
fn chosen_at_start(alloc: Global, schema: &Schema, args: &[Arg]) -> Mem<Seq<(u32, Text)>>
    ensures { IfOk result (λ chosen. chosen ≡ start_of schema.now args.now) }
{
    match args {
        [first, ..] => {
            if takes_away(alloc, schema, first)? {
                all_own(alloc, schema)
            } else {
                Ok(Seq::new(alloc))
            }
        }
        [] => Ok(Seq::new(alloc)),
    }
}

/// The places that are not chosen.
fn left_places(alloc: Global, chosen: &[(u32, Text)], places: &[u32]) -> Mem<Seq<u32>>
    ensures { IfOk result (λ left. left ≡ filter (λ at. not (chosen_already chosen.now at)) places.now) }
{
    Ok(Seq::of(
        places
            .iter()
            .copied()
            .filter(|at| !has_column(chosen, *at))
            .collect(alloc)?,
    ))
}

/// The grouping columns that are not chosen.
fn missing_groups(alloc: Global, x: &Shape, chosen: &[(u32, Text)]) -> Mem<Seq<u32>>
    ensures { IfOk result (λ places. places ≡ filter (λ at. not (chosen_already chosen.now at)) (places_named x.now.schema x.now.groups)) }
{
    let places = places_of(alloc, &x.schema, x.groups.as_slice())?;
    left_places(alloc, chosen, places.as_slice())
}

/// The chosen columns, behind grouping columns that are not among them.
fn with_groups(alloc: Global, x: &Shape, chosen: Seq<(u32, Text)>) -> Mem<Seq<(u32, Text)>>
    ensures { IfOk result (λ columns. columns ≡ groups_in_front x.now chosen) }
{
    let missing = missing_groups(alloc, x, chosen.as_slice())?;
    let mut columns = own_names(alloc, &x.schema, missing.as_slice())?;
    for column in chosen.into_vec() {
        columns.push(column)?;
    }
    Ok(columns)
}

/// The `select` of these arguments, called at this place.
pub fn select_of(alloc: Global, x: &Shape, at: u32, args: &[Arg]) -> Res<Verb, TermFault>
    ensures { Gives result (select_read x.now at args.now) }
{
    let start = chosen_at_start(alloc, &x.schema, args)?;
    let Choice { chosen, given } = choices_of(alloc, &x.schema, start, args)?;
    let columns = with_groups(alloc, x, chosen)?;
    if has_two_names(given.as_slice()) || columns.is_empty() {
        Err(term_fault(TermFaultKind::WrongArguments, at))
    } else {
        Ok(Verb::Select(columns))
    }
}

/// The `rename` of these arguments, called at this place.
pub fn rename_of(alloc: Global, x: &Shape, at: u32, args: &[Arg]) -> Res<Verb, TermFault>
    ensures { Gives result (rename_read x.now at args.now) }
{
    let start = all_own(alloc, &x.schema)?;
    let Choice { chosen, given } = choices_of(alloc, &x.schema, start, args)?;
    if has_two_names(given.as_slice()) {
        Err(term_fault(TermFaultKind::WrongArguments, at))
    } else {
        Ok(Verb::Rename(chosen))
    }
}

ghost use Rattle.std.specs.Prelude.{◌≡◌, IfOk, map, filter, if◌then◌else◌, []};
ghost use Rattle.std.specs.List.{list_any};
ghost use Rattle.scalar_value.specs.Gives.{Gives};
ghost use Rattle.verb_arguments.specs.Arguments.{value_of, is_unnamed as has_no_name};
ghost use Rattle.verb_types.specs.Steps.{columns_of as columns_read, adds as adds_groups, places_of as places_named, group_by_of as group_by_read, drop_na_of as drop_na_read};
ghost use Rattle.verb_types.specs.Working.{is_adding as adding, with_unnamed as one_more, with_all_unnamed as many_more};

use crate::columns::{column_of, columns_of, or_all, places_of};
use row_table::Schema;
use scalar_value::{Mem, Res, Seq};
use selections::with_columns;
use std::alloc::Global;
use syntax_tree::Arg;
use term_types::TermFault;
use verb_arguments::{is_named, is_unnamed, truth_of};
use verb_forms::{Shape, Verb};

fn is_adding(arg: &Arg) -> bool
    ensures { result ≡ adding arg.now }
{
    is_named(".add", arg) && matches!(truth_of(&arg.value), Some(true))
}

/// Whether the groups of the table stay.
fn adds(args: &[Arg]) -> bool
    ensures { result ≡ adds_groups args.now }
{
    args.iter().any(|arg| is_adding(arg))
}

fn with_unnamed(
    alloc: Global,
    schema: &Schema,
    mut had: Seq<u32>,
    arg: &Arg,
) -> Res<Seq<u32>, TermFault>
    ensures { Gives result (one_more schema.now had arg.now) }
{
    if is_unnamed(arg) {
        had.push(column_of(alloc, schema, &arg.value)?)?;
    }
    Ok(had)
}

fn all_unnamed(alloc: Global, schema: &Schema, args: &[Arg]) -> Res<Seq<u32>, TermFault>
    ensures { Gives result (many_more schema.now [] args.now) }
{
    let mut had = Seq::new(alloc);
    for arg in args {
        had = with_unnamed(alloc, schema, had, arg)?;
    }
    Ok(had)
}

#[tactic(auto, using(crate::proofs::Unnamed::all_unnamed_read))]
/// The columns of the arguments without names.
fn unnamed_columns(alloc: Global, schema: &Schema, args: &[Arg]) -> Res<Seq<u32>, TermFault>
    ensures { Gives result (columns_read schema.now (map value_of (filter has_no_name args.now))) }
{
    all_unnamed(alloc, schema, args)
}

/// The groups that stay: those of the table, or none.
fn groups_kept(alloc: Global, x: &Shape, args: &[Arg]) -> Mem<Seq<u32>>
    ensures { IfOk result (λ kept. kept ≡ (if adds_groups args.now then places_named x.now.schema x.now.groups else [])) }
{
    if adds(args) {
        places_of(alloc, &x.schema, x.groups.as_slice())
    } else {
        Ok(Seq::new(alloc))
    }
}

/// The `group_by` of these arguments.
pub fn group_by_of(alloc: Global, x: &Shape, args: &[Arg]) -> Res<Verb, TermFault>
    ensures { Gives result (group_by_read x.now args.now) }
{
    let columns = unnamed_columns(alloc, &x.schema, args)?;
    let mut groups = groups_kept(alloc, x, args)?;
    with_columns(&mut groups, columns.as_slice())?;
    Ok(Verb::GroupBy(groups))
}

/// The `drop_na` of these arguments.
pub fn drop_na_of(alloc: Global, x: &Shape, args: &[Arg]) -> Res<Verb, TermFault>
    ensures { Gives result (drop_na_read x.now args.now) }
{
    let columns = columns_of(alloc, &x.schema, args)?;
    Ok(Verb::DropNa(or_all(alloc, &x.schema, columns)?))
}

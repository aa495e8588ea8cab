ghost use Rattle.std.specs.Prelude.{◌≡◌, ◌++◌, ◌∷◌, [], IfOk, OnOk, map, filter, Some};
ghost use Rattle.std.specs.Option.{option_copied};
ghost use Rattle.scalar_value.specs.Gives.{Gives};
ghost use Rattle.term_types.specs.Terms.{place_of as place_named};
ghost use Rattle.verb_forms.specs.Columns.{name_at, kind_at as type_at};
ghost use Rattle.verb_arguments.specs.Arguments.{value_of, is_unnamed as has_no_name, name_of, names_of};
ghost use Rattle.verb_types.specs.Steps.{column_or_unknown as column_or_fault, text_or_none, column_of as column_read, columns_of as columns_read, place_in, places_of as places_named, grouping as grouped_by, own_name as named_as_it_is, or_all as those_or_all};

use crate::fault::term_fault;
use row_table::Schema;
use scalar_value::{ColType, Mem, Res, Seq, Text};
use selections::{all_places, place_of, with_columns};
use std::alloc::Global;
use syntax_tree::{Arg, Term};
use term_types::{TermFault, TermFaultKind};
use verb_arguments::{arguments_of, column_name};
use verb_forms::Shape;

/// The place of the column of this name, which stands at this byte.
pub fn column_or_unknown(schema: &Schema, at: u32, name: &Text) -> Res<u32, TermFault>
    ensures { Gives result (column_or_fault at (place_named name.now schema.now)) }
{
    match place_of(schema, name)? {
        Some(place) => Ok(place),
        None => Err(term_fault(TermFaultKind::UnknownColumn, at)),
    }
}

/// The place of the column that a term names.
pub fn column_of(alloc: Global, schema: &Schema, term: &Term) -> Res<u32, TermFault>
    ensures { Gives result (column_read schema.now term.now) }
{
    match column_name(term) {
        Some(name) => column_or_unknown(schema, term.at, name),
        None => column_or_unknown(schema, term.at, &Text::empty(alloc)),
    }
}

/// The places of the columns that arguments name.
pub fn columns_of(alloc: Global, schema: &Schema, args: &[Arg]) -> Res<Seq<u32>, TermFault>
    ensures { Gives result (columns_read schema.now (map value_of args.now)) }
{
    let mut columns = Seq::new(alloc);
    for arg in args {
        columns.push(column_of(alloc, schema, &arg.value)?)?;
    }
    Ok(columns)
}

fn one_column(alloc: Global, schema: &Schema, term: &Term) -> Res<Seq<u32>, TermFault>
    ensures { Gives result (columns_read schema.now (term.now ∷ [])) }
{
    let mut columns = Seq::new(alloc);
    columns.push(column_of(alloc, schema, term)?)?;
    Ok(columns)
}

/// The places of the columns that one name or `c(..)` of names tells.
pub fn columns_named(alloc: Global, schema: &Schema, term: &Term) -> Res<Seq<u32>, TermFault>
    ensures { Gives result (columns_read schema.now (names_of term.now)) }
{
    match arguments_of("c", term) {
        Some(args) => columns_of(alloc, schema, args.as_slice()),
        None => one_column(alloc, schema, term),
    }
}

/// The name of an argument, and the empty one of an argument without a name.
pub fn name_or_empty(alloc: Global, arg: &Arg) -> Mem<Text>
    ensures { IfOk result (λ name. name ≡ text_or_none (name_of arg.now)) }
{
    match &arg.name {
        Some(name) => name.copy(),
        None => Ok(Text::empty(alloc)),
    }
}

/// The type of the column at a place, and `Lgl` of no column.
pub fn kind_at(schema: &Schema, at: u32) -> ColType
    ensures { result ≡ type_at schema.now at }
{
    match schema.get(at as usize) {
        Some(field) => field.kind,
        None => ColType::Lgl,
    }
}

fn push_place(places: &mut Seq<u32>, place: Option<u32>) -> Mem<()>
    ensures { OnOk result (places.new ≡ places.old ++ place_in place) }
{
    match place {
        Some(at) => places.push(at),
        None => Ok(()),
    }
}

/// The places of the columns of these names, passing over a name that no column has.
pub fn places_of(alloc: Global, schema: &Schema, names: &[Text]) -> Mem<Seq<u32>>
    ensures { IfOk result (λ places. places ≡ places_named schema.now names.now) }
{
    let mut places = Seq::new(alloc);
    for name in names {
        push_place(&mut places, place_of(schema, name)?)?;
    }
    Ok(places)
}

/// The columns that group a verb: those of `.by`, each once, else the table's groups.
pub fn grouping(alloc: Global, x: &Shape, by: Option<Seq<u32>>) -> Mem<Seq<u32>>
    ensures { IfOk result (λ columns. columns ≡ grouped_by x.now by) }
{
    match by {
        Some(by) => {
            let mut columns = Seq::new(alloc);
            with_columns(&mut columns, by.as_slice())?;
            Ok(columns)
        }
        None => places_of(alloc, &x.schema, x.groups.as_slice()),
    }
}

/// The column at a place under its own name.
pub fn own_name(alloc: Global, schema: &Schema, at: u32) -> Mem<(u32, Text)>
    ensures { IfOk result (λ column. column ≡ named_as_it_is schema.now at) }
{
    match schema.get(at as usize) {
        Some(field) => Ok((at, field.name.copy()?)),
        None => Ok((at, Text::empty(alloc))),
    }
}

/// The columns at these places under their own names.
pub fn own_names(alloc: Global, schema: &Schema, places: &[u32]) -> Mem<Seq<(u32, Text)>>
    ensures { IfOk result (λ columns. columns ≡ map (named_as_it_is schema.now) places.now) }
{
    let mut columns = Seq::new(alloc);
    for at in places {
        columns.push(own_name(alloc, schema, *at)?)?;
    }
    Ok(columns)
}

/// These columns, and all columns where there are none.
pub fn or_all(alloc: Global, schema: &Schema, columns: Seq<u32>) -> Mem<Seq<u32>>
    ensures { IfOk result (λ made. made ≡ those_or_all schema.now columns) }
{
    if columns.is_empty() {
        all_places(alloc, schema)
    } else {
        Ok(columns)
    }
}

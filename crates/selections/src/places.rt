ghost use Rattle.std.specs.Prelude.{◌≡◌, ◌&&◌, not, nat_lt, filter, IfOk, OnOk};
ghost use Rattle.std.specs.List.{range_with_len};
ghost use Rattle.term_types.specs.Terms.{place_of as place_named};
ghost use Rattle.selections.specs.Columns.{all_places as all_of_table, is_among as stands_among, with_column as one_more, with_columns as many_more, without as those_without, with_or_without, between as those_between};

use row_table::{Field, Schema};
use scalar_value::{Mem, NoMemory, Seq, Text};
use std::alloc::{AllocError, Global};

/// A place as it is kept. A table with a column that has no such place is wanting memory.
pub fn as_place(place: usize) -> Mem<u32>
    ensures { IfOk result (λ at. at ≡ place) }
{
    u32::try_from(place).map_err(|_| NoMemory)
}

fn first_named(fields: &[Field], name: &Text) -> Option<usize>
    ensures { result ≡ place_named name.now fields.now }
{
    fields.iter().position(|field| field.name == *name)
}

/// The place of the first column of this name, and none where no column has it. The only error is want of memory, in a
/// table of more than 2^32 - 1 columns too.
pub fn place_of(schema: &Schema, name: &Text) -> Mem<Option<u32>>
    ensures { IfOk result (λ place. place ≡ place_named name.now schema.now) }
{
    match first_named(schema.as_slice(), name) {
        Some(place) => Ok(Some(as_place(place)?)),
        None => Ok(None),
    }
}

fn counted(alloc: Global, count: u32) -> Result<Vec<u32>, AllocError>
    ensures { IfOk result (λ places. places.items ≡ range_with_len 0 count) }
{
    (0..count).collect(alloc)
}

/// The places of all columns in table order, as tidyselect's `everything()`. The only error is want of memory, in a table
/// of more than 2^32 - 1 columns too.
pub fn all_places(alloc: Global, schema: &Schema) -> Mem<Seq<u32>>
    ensures { IfOk result (λ places. places ≡ all_of_table schema.now) }
{
    Ok(Seq::of(counted(alloc, as_place(schema.len())?)?))
}

/// Whether a column stands among these.
pub fn is_among(places: &[u32], at: u32) -> bool
    ensures { result ≡ stands_among places.now at }
{
    places.iter().any(|place| at == *place)
}

/// Puts a column behind those that are chosen, unless it is one of them. The only error is want of memory.
pub fn with_column(had: &mut Seq<u32>, at: u32) -> Mem<()>
    ensures { OnOk result (had.new ≡ one_more had.old at) }
{
    if !is_among(had.as_slice(), at) {
        had.push(at)?;
    }
    Ok(())
}

/// Puts columns behind those that are chosen, each unless it is one of them. The only error is want of memory.
pub fn with_columns(had: &mut Seq<u32>, more: &[u32]) -> Mem<()>
    ensures { OnOk result (had.new ≡ many_more had.old more.now) }
{
    for at in more {
        with_column(had, *at)?;
    }
    Ok(())
}

/// The columns that are chosen without others, in their order. The only error is want of memory.
pub fn without(alloc: Global, had: &[u32], away: &[u32]) -> Mem<Seq<u32>>
    ensures { IfOk result (λ left. left ≡ those_without had.now away.now) }
{
    Ok(Seq::of(
        had.iter()
            .copied()
            .filter(|at| !is_among(away, *at))
            .collect(alloc)?,
    ))
}

/// The columns that are chosen once one more selector of a selection is read, as tidyselect reads them from the left: the
/// columns of a selector come behind those that are chosen, each once, and those of one with `-` are taken away. The only
/// error is want of memory.
pub fn with_selector(alloc: Global, mut had: Seq<u32>, away: bool, columns: &[u32]) -> Mem<Seq<u32>>
    ensures { IfOk result (λ now. now ≡ with_or_without had away columns.now) }
{
    if away {
        return without(alloc, had.as_slice(), columns);
    }
    with_columns(&mut had, columns)?;
    Ok(had)
}

fn counted_between(alloc: Global, count: u32, low: u32, high: u32) -> Result<Vec<u32>, AllocError>
    ensures { IfOk result (λ places. places.items ≡ filter (λ at. not (nat_lt at low) && not (nat_lt high at)) (range_with_len 0 count)) }
{
    (0..count)
        .filter(|at| low <= *at && *at <= high)
        .collect(alloc)
}

/// Two columns and those between them, in table order, whichever of the two stands first.
pub fn between(alloc: Global, schema: &Schema, a: u32, b: u32) -> Mem<Seq<u32>>
    ensures { IfOk result (λ places. places ≡ those_between a b schema.now) }
{
    let count = as_place(schema.len())?;
    Ok(Seq::of(counted_between(alloc, count, a.min(b), a.max(b))?))
}

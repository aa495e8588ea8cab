ghost use Rattle.std.specs.Prelude.{◌≡◌, ◌++◌, ◌∷◌, [], IfOk, OnOk, None, if◌then◌else◌};
ghost use Rattle.std.specs.List.{flat_map};
ghost use Rattle.scalar_value.specs.Gives.{Gives};
ghost use Rattle.selections.specs.Columns.{all_places as all_of_table};
ghost use Rattle.selections.specs.Selectors.{start};
ghost use Rattle.verb_types.specs.Steps.{with_move as one_more, with_moves as many_more, beside_anchor as beside, moved_to as moved_columns, anchor_moves as anchor_among, selectors_of as selectors_read, relocate_of as relocate_read};

use crate::columns::{column_of, own_names};
use crate::fault::term_fault;
use row_table::Schema;
use scalar_value::{Mem, Or, Res, Seq};
use selections::{Selector, all_places, is_among, selector_of, with_selector, without};
use std::alloc::Global;
use syntax_tree::Arg;
use term_types::{TermFault, TermFaultKind};
use verb_arguments::{is_named, is_unnamed};
use verb_forms::{Shape, Verb};

/// What `relocate` has so far: the columns that move, and the column that they move before, or after where the flag is true.
#[derive(Debug, Drop)]
pub struct Move {
    pub chosen: Seq<u32>,
    pub anchor: Option<(bool, u32)>,
}

/// What moves at the start: nothing, or all columns where the first selector takes columns away.
fn start_of(alloc: Global, schema: &Schema, args: &[Arg]) -> Mem<Seq<u32>>
    ensures { IfOk result (λ chosen. chosen ≡ start schema.now (selectors_read schema.now args.now)) }
{
    for arg in args {
        if is_unnamed(arg) {
            return start_by(alloc, schema, selector_of(alloc, schema, &arg.value)?.away);
        }
    }
    Ok(Seq::new(alloc))
}

fn start_by(alloc: Global, schema: &Schema, away: bool) -> Mem<Seq<u32>>
    ensures { IfOk result (λ chosen. chosen ≡ (if away then all_of_table schema.now else [])) }
{
    if away {
        all_places(alloc, schema)
    } else {
        Ok(Seq::new(alloc))
    }
}

/// One argument of `relocate` more.
fn with_move(alloc: Global, schema: &Schema, had: Move, arg: &Arg) -> Res<Move, TermFault>
    ensures { Gives result (one_more schema.now had arg.now) }
{
    let Move { chosen, anchor } = had;
    if is_unnamed(arg) {
        let Selector { away, columns, .. } = selector_of(alloc, schema, &arg.value)?;
        return match columns {
            Ok(columns) => Ok(Move {
                chosen: with_selector(alloc, chosen, away, columns.as_slice())?,
                anchor,
            }),
            Err(fault) => Err(Or::Fault(fault)),
        };
    }
    let at = column_of(alloc, schema, &arg.value)?;
    Ok(Move {
        chosen,
        anchor: Some((is_named(".after", arg), at)),
    })
}

fn moves_of(alloc: Global, schema: &Schema, start: Seq<u32>, args: &[Arg]) -> Res<Move, TermFault>
    ensures { Gives result (many_more schema.now (record { chosen = start; anchor = None }) args.now) }
{
    let mut had = Move {
        chosen: start,
        anchor: None,
    };
    for arg in args {
        had = with_move(alloc, schema, had, arg)?;
    }
    Ok(had)
}

fn push_all(made: &mut Seq<u32>, places: &[u32]) -> Mem<()>
    ensures { OnOk result (made.new ≡ made.old ++ places.now) }
{
    for at in places {
        made.push(*at)?;
    }
    Ok(())
}

/// A column that stays, with those that move beside it where it is the anchor.
fn push_beside(made: &mut Seq<u32>, moved: &[u32], after: bool, anchor: u32, at: u32) -> Mem<()>
    ensures { OnOk result (made.new ≡ made.old ++ beside moved.now after anchor at) }
{
    if at != anchor {
        return made.push(at);
    }
    if after {
        made.push(at)?;
        push_all(made, moved)
    } else {
        push_all(made, moved)?;
        made.push(at)
    }
}

fn moved_beside(
    alloc: Global,
    moved: &[u32],
    rest: &[u32],
    after: bool,
    anchor: u32,
) -> Mem<Seq<u32>>
    ensures { IfOk result (λ made. made ≡ flat_map (beside moved.now after anchor) rest.now) }
{
    let mut made = Seq::new(alloc);
    for at in rest {
        push_beside(&mut made, moved, after, anchor, *at)?;
    }
    Ok(made)
}

/// All columns, where some move in front, or directly before or after the anchor.
fn moved_to(
    alloc: Global,
    mut moved: Seq<u32>,
    rest: &[u32],
    anchor: Option<(bool, u32)>,
) -> Mem<Seq<u32>>
    ensures { IfOk result (λ made. made ≡ moved_columns moved rest.now anchor) }
{
    match anchor {
        Some((after, at)) => moved_beside(alloc, moved.as_slice(), rest, after, at),
        None => {
            push_all(&mut moved, rest)?;
            Ok(moved)
        }
    }
}

/// Whether the anchor is among the columns that move.
fn anchor_moves(moved: &[u32], anchor: Option<(bool, u32)>) -> bool
    ensures { result ≡ anchor_among moved.now anchor }
{
    match anchor {
        Some((_, at)) => is_among(moved, at),
        None => false,
    }
}

/// The `relocate` of these arguments, called at this place.
pub fn relocate_of(alloc: Global, x: &Shape, at: u32, args: &[Arg]) -> Res<Verb, TermFault>
    ensures { Gives result (relocate_read x.now at args.now) }
{
    let start = start_of(alloc, &x.schema, args)?;
    let Move { chosen, anchor } = moves_of(alloc, &x.schema, start, args)?;
    if anchor_moves(chosen.as_slice(), anchor) {
        return Err(term_fault(TermFaultKind::WrongArguments, at));
    }
    let places = all_places(alloc, &x.schema)?;
    let rest = without(alloc, places.as_slice(), chosen.as_slice())?;
    let columns = moved_to(alloc, chosen, rest.as_slice(), anchor)?;
    Ok(Verb::Relocate(own_names(alloc, &x.schema, columns.as_slice())?))
}

ghost use Rattle.std.specs.Prelude.{◌≡◌, map, pos};
ghost use Rattle.std.specs.Option.{option_copied};
ghost use Rattle.scalar_value.specs.Gives.{Gives};
ghost use Rattle.na_expr.specs.Operators.{carried as carried_value};
ghost use Rattle.term_calls.specs.Faults.{all_of};
ghost use Rattle.verb_types.specs.Steps.{takes_literal as literal_fits, value_for as value_read, replacement as replacement_read, replaced_column as replaced_read, listed as list_arguments, replace_na_of as replace_na_read};

use crate::columns::{column_or_unknown, kind_at, name_or_empty};
use crate::fault::term_fault;
use row_table::Schema;
use scalar_value::{ColType, Dec6, NumOp, Res, Seq, Value, num};
use std::alloc::Global;
use syntax_tree::Arg;
use term_types::{Piece, TermFault, TermFaultKind, piece_of};
use verb_arguments::arguments_of;
use verb_forms::{Shape, Verb};

/// Whether a column of the first type takes a literal of the second.
fn takes_literal(kind: ColType, literal: ColType) -> bool
    ensures { result ≡ literal_fits kind literal }
{
    match (kind, literal) {
        (ColType::Dec, ColType::Int) => true,
        (kind, literal) => kind == literal,
    }
}

/// The decimal 0.
fn zero() -> Dec6
    ensures { result ≡ pos 0 }
{
    match Dec6::of(0) {
        Some(number) => number,
        None => unreachable!(),
    }
}

/// A value as one of this type: a whole number becomes the decimal of the same number.
fn carried(kind: ColType, value: Value) -> Value
    ensures { result ≡ carried_value kind value }
{
    match (kind, value) {
        (ColType::Dec, Value::Int(number)) => {
            num(NumOp::Add, &Value::Int(number), &Value::Dec(zero()))
        }
        (_, value) => value,
    }
}

fn value_for(at: u32, kind: ColType, value: Value, literal: ColType) -> Res<Value, TermFault>
    ensures { Gives result (value_read at kind value literal) }
{
    if takes_literal(kind, literal) {
        Ok(carried(kind, value))
    } else {
        Err(term_fault(TermFaultKind::WrongType, at))
    }
}

/// The value of a literal for a column of this type.
fn replacement(at: u32, kind: ColType, piece: Piece) -> Res<Value, TermFault>
    ensures { Gives result (replacement_read at kind piece) }
{
    match piece {
        Piece::Na | Piece::Free => Ok(Value::Missing),
        Piece::Number(value, literal) | Piece::Literal(value, literal) => {
            value_for(at, kind, value, literal)
        }
        Piece::Typed(_, _) => Err(term_fault(TermFaultKind::WrongArguments, at)),
    }
}

fn replaced_column(alloc: Global, schema: &Schema, arg: &Arg) -> Res<(u32, Value), TermFault>
    ensures { Gives result (replaced_read schema.now arg.now) }
{
    let at = column_or_unknown(schema, arg.at, &name_or_empty(alloc, arg)?)?;
    let piece = piece_of(alloc, schema, &arg.value)?;
    let value = replacement(arg.value.at, kind_at(schema, at), piece)?;
    Ok((at, value))
}

fn replaced_columns(
    alloc: Global,
    schema: &Schema,
    args: &[Arg],
) -> Res<Seq<(u32, Value)>, TermFault>
    ensures { Gives result (all_of (map (replaced_read schema.now) args.now)) }
{
    let mut cells = Seq::new(alloc);
    for arg in args {
        cells.push(replaced_column(alloc, schema, arg)?)?;
    }
    Ok(cells)
}

/// The arguments of the `list(..)` that the first argument is.
fn listed(args: &[Arg]) -> &[Arg]
    ensures { result.now ≡ list_arguments args.now }
{
    match args {
        [first, ..] => match arguments_of("list", &first.value) {
            Some(inner) => inner.as_slice(),
            None => &[],
        },
        [] => &[],
    }
}

/// The `replace_na` of these arguments.
pub fn replace_na_of(alloc: Global, x: &Shape, args: &[Arg]) -> Res<Verb, TermFault>
    ensures { Gives result (replace_na_read x.now args.now) }
{
    let cells = replaced_columns(alloc, &x.schema, listed(args))?;
    Ok(Verb::ReplaceNa(cells))
}

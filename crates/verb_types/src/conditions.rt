ghost use Rattle.std.specs.Prelude.{◌≡◌, [], None};
ghost use Rattle.scalar_value.specs.Gives.{Gives};
ghost use Rattle.verb_types.specs.Steps.{plain_part as part_without_calls, truth_part as part_of_truth, condition as condition_read, with_condition as one_more, with_conditions as many_more, filter_of as filter_read};

use crate::columns::{columns_named, grouping};
use crate::fault::term_fault;
use na_expr::Expr;
use row_table::Schema;
use scalar_value::{ColType, Res, Seq};
use std::alloc::Global;
use syntax_tree::{Arg, Term};
use term_types::{TermFault, TermFaultKind, expression_of};
use verb_arguments::is_named;
use verb_forms::{Part, Shape, Verb};

/// What `filter` has so far: the columns of `.by`, and the conditions.
#[derive(Debug, Drop)]
pub struct Conditions {
    pub columns: Option<Seq<u32>>,
    pub parts: Seq<Part>,
}

/// An expression without aggregates and window calls.
pub fn plain_part(alloc: Global, value: Expr) -> Part
    ensures { result ≡ part_without_calls value }
{
    Part {
        calls: Seq::new(alloc),
        value,
    }
}

/// A condition, which is a truth value.
fn condition(alloc: Global, schema: &Schema, term: &Term) -> Res<Part, TermFault>
    ensures { Gives result (condition_read schema.now term.now) }
{
    let (value, kind) = expression_of(alloc, schema, term)?;
    if matches!(kind, ColType::Lgl) {
        Ok(plain_part(alloc, value))
    } else {
        Err(term_fault(TermFaultKind::WrongType, term.at))
    }
}

fn with_condition(
    alloc: Global,
    schema: &Schema,
    mut had: Conditions,
    arg: &Arg,
) -> Res<Conditions, TermFault>
    ensures { Gives result (one_more schema.now had arg.now) }
{
    if is_named(".by", arg) {
        had.columns = Some(columns_named(alloc, schema, &arg.value)?);
    } else {
        had.parts.push(condition(alloc, schema, &arg.value)?)?;
    }
    Ok(had)
}

fn conditions_of(alloc: Global, schema: &Schema, args: &[Arg]) -> Res<Conditions, TermFault>
    ensures { Gives result (many_more schema.now (record { columns = None; parts = [] }) args.now) }
{
    let mut had = Conditions {
        columns: None,
        parts: Seq::new(alloc),
    };
    for arg in args {
        had = with_condition(alloc, schema, had, arg)?;
    }
    Ok(had)
}

/// The `filter` of these arguments.
pub fn filter_of(alloc: Global, x: &Shape, args: &[Arg]) -> Res<Verb, TermFault>
    ensures { Gives result (filter_read x.now args.now) }
{
    let Conditions { columns, parts } = conditions_of(alloc, &x.schema, args)?;
    Ok(Verb::Filter {
        by: grouping(alloc, x, columns)?,
        conditions: parts,
    })
}

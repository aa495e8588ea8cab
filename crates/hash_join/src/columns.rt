//! The columns of a join's output, and the values that stand for a row that isn't there.
ghost use Rattle.std.specs.Prelude.{◌≡◌, ◌++◌, IfOk, OnOk};
ghost use Rattle.column_batch.specs.Batches.{kinds_of};
ghost use Rattle.plan_nodes.specs.Kinds.{missing_row as missing_kinds, has_unmatched as gives_unmatched, keeps_left as left_alone};

use row_table::{JoinKind, Row, Schema};
use scalar_value::{ColType, Mem, Seq, Value};
use std::alloc::Global;

/// Whether a join gives right rows at its end.
pub(crate) fn has_unmatched(kind: JoinKind) -> bool
    ensures { result ≡ gives_unmatched kind }
{
    matches!(kind, JoinKind::Right | JoinKind::Full)
}

/// Whether a join gives the left columns alone.
pub(crate) fn keeps_left(kind: JoinKind) -> bool
    ensures { result ≡ left_alone kind }
{
    matches!(kind, JoinKind::Semi | JoinKind::Anti)
}

fn push_kinds(kinds: &mut Vec<ColType>, schema: &Schema) -> Mem<()>
    ensures { OnOk result (kinds.new.items ≡ kinds.old.items ++ kinds_of schema.now) }
{
    let fields = schema.as_slice();
    for field in fields {
        kinds.push(field.kind)?;
    }
    Ok(())
}

/// The types of the left columns.
pub(crate) fn left_kinds(alloc: Global, left: &Schema) -> Mem<Seq<ColType>>
    ensures { IfOk result (λ kinds. kinds ≡ kinds_of left.now) }
{
    let mut kinds = Vec::with_capacity(alloc, left.len())?;
    push_kinds(&mut kinds, left)?;
    Ok(Seq::of(kinds))
}

/// The types of the left and of the right columns.
pub(crate) fn both_kinds(alloc: Global, left: &Schema, right: &Schema) -> Mem<Seq<ColType>>
    ensures { IfOk result (λ kinds. kinds ≡ kinds_of left.now ++ kinds_of right.now) }
{
    let mut kinds = Vec::with_capacity(alloc, left.len().saturating_add(right.len()))?;
    push_kinds(&mut kinds, left)?;
    push_kinds(&mut kinds, right)?;
    Ok(Seq::of(kinds))
}

/// A missing value for each column.
pub(crate) fn missing_row(alloc: Global, schema: &Schema) -> Mem<Row>
    ensures { IfOk result (λ row. row ≡ missing_kinds (kinds_of schema.now)) }
{
    let fields = schema.as_slice();
    let mut row = Vec::with_capacity(alloc, fields.len())?;
    for _field in fields {
        row.push(Value::Missing)?;
    }
    Ok(Seq::of(row))
}

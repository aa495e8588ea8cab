//! The batches of an operator that keeps them, out of the parts of any operator.
ghost use Rattle.std.specs.Prelude.{◌≡◌, map, IfOk};
ghost use Rattle.op_set.specs.Meanings.{batches_of};

use crate::any::AnyLocal;
use column_batch::Batch;
use plan_nodes::Streamed;
use scalar_value::{Mem, Seq};
use std::alloc::Global;

/// A batch without columns and rows, where an operator has nothing to give.
pub(crate) fn no_rows(alloc: Global) -> Batch {
    Batch::of_rows(None, Seq::new(alloc), Seq::new(alloc))
}

/// What is given for a batch where an operator has nothing to give.
pub(crate) fn nothing(alloc: Global) -> Streamed {
    Streamed {
        out: no_rows(alloc),
        next: None,
    }
}

fn batches_of_part(alloc: Global, local: AnyLocal) -> Seq<Batch>
    ensures { result ≡ batches_of local }
{
    match local {
        AnyLocal::Nothing => Seq::new(alloc),
        AnyLocal::Batches(part) => part,
    }
}

/// The batches of each part. They are moved.
pub(crate) fn batches_in(alloc: Global, locals: Seq<AnyLocal>) -> Mem<Seq<Seq<Batch>>>
    ensures { IfOk result (λ parts. parts ≡ map batches_of locals) }
{
    let mut parts = Seq::new(alloc);
    for local in locals.into_vec() {
        parts.push(batches_of_part(alloc, local))?;
    }
    Ok(parts)
}

//! Acero's hashjoin node: it gathers its right input, and gives what each batch of its left input has with it.
ghost use Rattle.std.specs.Prelude.{◌≡◌, ◌<◌, cond, nat_lt, length, take, drop, map, ◌++◌, ◌+◌, [], List, IfOk, OnOk, IsTrue, Some, None};
ghost use Rattle.std.specs.Arc.{arc_value};
ghost use Rattle.column_batch.specs.Batches.{kinds_of, fit_kinds};
ghost use Rattle.plan_nodes.specs.Kinds.{join_meaning, keeps_left as left_alone};
ghost use Rattle.hash_join.specs.Parts.{left_over};

use crate::columns::{both_kinds, has_unmatched, keeps_left, left_kinds, missing_row};
use crate::gather::{all_rows, flat_batches, ordered_rows};
use crate::offers::offer_rows;
use crate::unmatched::{behind, part_of, unmatched_of};
use crate::window::Window;
use column_batch::Batch;
use plan_machine::{OpShape, part_count};
use plan_nodes::{JoinSpec, Operator, Streamed};
use row_table::{Row, Schema};
use scalar_value::{ColType, Mem, NoMemory, Seq};
use std::alloc::Global;
use std::sync::Arc;
use std::thread::Threads;

/// The operator of a hashjoin, for inputs with given columns. Its output comes in batches of at most a given number of rows.
///
/// The rule is that of Acero's hashjoin and of dplyr's joins of the same names. Keys are compared by Acero's EQ, where a
/// missing value matches nothing, or by its IS, where a missing value matches a missing one, as `na_match` says.
#[derive(Debug, Drop)]
pub struct JoinOp {
    spec: JoinSpec,
    left: Schema,
    right: Schema,
    batch: u32,
    ghost sized: { 0 < batch },
}

/// The gathered right rows and, once the left input has ended, those of them that match no left row.
#[derive(Debug, Drop)]
pub struct Built {
    rows: Arc<Seq<Row>, Global>,
    ends: Option<Seq<Row>>,
}

impl Built {
    /// The right rows that matched nothing: all of them, until it is known which.
    fn left_over(&self) -> &[Row]
        ensures { result.now ≡ left_over (arc_value self.now.rows) self.now.ends }
    {
        match &self.ends {
            Some(ends) => ends.as_slice(),
            None => self.rows.as_slice(),
        }
    }
}

impl JoinOp {
    /// The operator of this join over inputs with these columns, whose batches have at most `batch` rows. Takes no memory.
    ///
    /// An inner join gives a row for each pair of a left and a right row that match; a left, a right and a full join also
    /// the unmatched rows of the left, of the right or of both inputs, with missing values for the other side. A semi join
    /// gives each left row that matches a right row, an anti join each that matches none.
    pub fn new(spec: JoinSpec, left: Schema, right: Schema, batch: u32) -> JoinOp
        requires { 0 < batch }
        ensures { ⟦<JoinOp as Operator>⟧.meaning result ≡ join_meaning spec (kinds_of left) (kinds_of right) batch }
    {
        JoinOp {
            spec,
            left,
            right,
            batch,
        }
    }

    fn columns(&self, alloc: Global) -> Mem<Seq<ColType>>
        ensures { IfOk result (λ kinds. kinds ≡ cond (left_alone self.now.spec.kind) (kinds_of self.now.left) (kinds_of self.now.left ++ kinds_of self.now.right)) }
    {
        if keeps_left(self.spec.kind) {
            left_kinds(alloc, &self.left)
        } else {
            both_kinds(alloc, &self.left, &self.right)
        }
    }

    /// What came through a window that begins at `from`. A place behind all numbers of 64 bits is want of memory.
    fn streamed(&self, kinds: Seq<ColType>, window: Window, from: u64) -> Mem<Streamed>
        requires { IsTrue (fit_kinds kinds window.rows) }
        ensures { IfOk result (λ given.
            (given.out.rows ≡ window.rows)
            × (given.out.kinds ≡ kinds)
            × (given.next ≡ cond window.more (Some (from + self.now.batch)) None)) }
    {
        let Window {
            skip: _,
            size: _,
            rows,
            more,
        } = window;
        let out = Batch::of_rows(None, kinds, rows);
        if !more {
            return Ok(Streamed { out, next: None });
        }
        match from.checked_add(u64::from(self.batch)) {
            Some(next) => Ok(Streamed {
                out,
                next: Some(next),
            }),
            None => Err(NoMemory),
        }
    }
}

impl Operator for JoinOp {
    ghost use Rattle.scalar_value.specs.declared.value.Value.{Value};
    ghost use Rattle.scalar_value.specs.declared.value.ColType.{ColType as Kind};
    ghost use Rattle.plan_machine.specs.Batch.{Batch as Item, gathered};
    ghost use Rattle.plan_nodes.specs.Operators.{Each, flat, first_of, second_of};
    ghost use Rattle.plan_nodes.specs.Examples.{Keeps};
    ghost use Rattle.hash_join.specs.Parts.{HoldsRight};

    type Local = Seq<Batch>;

    type Shared = Built;

    ghost meaning = { λ o. join_meaning o.spec (kinds_of o.left) (kinds_of o.right) o.batch };

    ghost local_is = { λ m kinds part taken. Keeps kinds part taken };

    ghost shared_is = { λ m inputs s built streamed. HoldsRight m inputs (arc_value s.rows) s.ends built streamed };

    fn shape(&self) -> OpShape {
        OpShape {
            folds: true,
            streams: true,
            tails: has_unmatched(self.spec.kind),
        }
    }

    fn wanted(&self) -> Option<u64> {
        None
    }

    fn local(&self, alloc: Global) -> Mem<Seq<Batch>> {
        Ok(Seq::new(alloc))
    }

    fn begin(&self, alloc: Global) -> Mem<Built> {
        Ok(Built {
            rows: Arc::new(alloc, Seq::new(alloc))?,
            ends: None,
        })
    }

    fn fold(&self, _alloc: Global, local: &mut Seq<Batch>, batch: Batch) -> Mem<()> {
        let _rows = batch.rows();
        local.push(batch)
    }

    fn seal<R: Threads + Sync>(&self, _rt: &R, alloc: Global, locals: Seq<Seq<Batch>>) -> Mem<Built>
        requires { (inputs : List (List Kind)) × (lists : List (List (Item (List Value))))
            × IsTrue ((join_meaning self.now.spec (kinds_of self.now.left) (kinds_of self.now.right) self.now.batch).fits inputs)
            × Each (Keeps (second_of inputs)) locals lists }
        ensures { (inputs : List (List Kind)) (lists : List (List (Item (List Value))))
            → IsTrue ((join_meaning self.now.spec (kinds_of self.now.left) (kinds_of self.now.right) self.now.batch).fits inputs)
            → Each (Keeps (second_of inputs)) locals lists
            → IfOk result (λ made. HoldsRight (join_meaning self.now.spec (kinds_of self.now.left) (kinds_of self.now.right) self.now.batch) inputs (arc_value made.rows) made.ends (gathered (flat lists)) []) }
    {
        let all = flat_batches(alloc, locals)?;
        let rows = ordered_rows(alloc, all)?;
        Ok(Built {
            rows: Arc::new(alloc, rows)?,
            ends: None,
        })
    }

    fn stream(
        &self,
        alloc: Global,
        shared: &Built,
        local: &mut Seq<Batch>,
        batch: &Batch,
        from: u64,
    ) -> Mem<Streamed> {
        local.push(batch.copy()?)?;
        let missing = missing_row(alloc, &self.right)?;
        let kinds = self.columns(alloc)?;
        let mut window = Window::new(alloc, from, self.batch);
        offer_rows(
            &mut window,
            &self.spec,
            missing.as_slice(),
            shared.rows.as_slice(),
            batch.rows(),
        )?;
        self.streamed(kinds, window, from)
    }

    fn close<R: Threads + Sync>(
        &self,
        _rt: &R,
        alloc: Global,
        shared: &Built,
        locals: Seq<Seq<Batch>>,
    ) -> Mem<Built>
        requires { (inputs : List (List Kind)) × (built : List (List Value)) × (lists : List (List (Item (List Value))))
            × IsTrue ((join_meaning self.now.spec (kinds_of self.now.left) (kinds_of self.now.right) self.now.batch).fits inputs)
            × HoldsRight (join_meaning self.now.spec (kinds_of self.now.left) (kinds_of self.now.right) self.now.batch) inputs (arc_value shared.now.rows) shared.now.ends built []
            × Each (Keeps (first_of inputs)) locals lists }
        ensures { (inputs : List (List Kind)) (built : List (List Value)) (lists : List (List (Item (List Value))))
            → IsTrue ((join_meaning self.now.spec (kinds_of self.now.left) (kinds_of self.now.right) self.now.batch).fits inputs)
            → HoldsRight (join_meaning self.now.spec (kinds_of self.now.left) (kinds_of self.now.right) self.now.batch) inputs (arc_value shared.now.rows) shared.now.ends built []
            → Each (Keeps (first_of inputs)) locals lists
            → IfOk result (λ made. HoldsRight (join_meaning self.now.spec (kinds_of self.now.left) (kinds_of self.now.right) self.now.batch) inputs (arc_value made.rows) made.ends built (flat lists)) }
    {
        let all = flat_batches(alloc, locals)?;
        let streamed = all_rows(alloc, all)?;
        let ends = unmatched_of(
            alloc,
            &self.spec,
            shared.rows.as_slice(),
            streamed.as_slice(),
        )?;
        Ok(Built {
            rows: Arc::try_clone(&shared.rows)?,
            ends: Some(ends),
        })
    }

    fn tails(&self, shared: &Built) -> u64 {
        part_count(shared.left_over().len() as u64, self.batch)
    }

    fn tail(&self, alloc: Global, shared: &Built, k: u64) -> Mem<Batch> {
        let missing = missing_row(alloc, &self.left)?;
        let part = part_of(shared.left_over(), k, self.batch);
        let rows = behind(alloc, missing.as_slice(), part)?;
        let kinds = both_kinds(alloc, &self.left, &self.right)?;
        Ok(Batch::of_rows(None, kinds, rows))
    }
}

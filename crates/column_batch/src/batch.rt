ghost use Rattle.std.specs.Prelude.{◌≡◌, ◌==◌, ◌<◌, ◌≤◌, IsTrue, IfOk, All, length, slice_get, slice_range, Some};
ghost use Rattle.row_table.specs.Tables.{fit_rows};
ghost use Rattle.column_batch.specs.Batches.{kinds_of, fit_kinds, rows_at};

use row_table::{Row, Schema};
use scalar_value::{ColType, Duplicate, Mem, Seq};
use std::alloc::Global;
use std::marker::Model;

/// A batch of rows, as Acero's `ExecBatch`: its index in an ordered stream, or none; the types of its columns;
/// and its rows, each with one value of the column's type, or a missing one, for each column.
#[derive(Debug, Drop)]
pub struct Batch {
    index: Option<u64>,
    kinds: Seq<ColType>,
    rows: Seq<Row>,
}

impl Model for Batch {
    ghost use Rattle.column_batch.specs.Batches.{BatchValue, IsBatch};

    ghost Value = { BatchValue };

    ghost view = { λ b. record { index = b.index; kinds = b.kinds; rows = b.rows } };

    ghost invariant = { λ b. IsBatch (record { index = b.index; kinds = b.kinds; rows = b.rows }) };
}

fn copy_rows(alloc: Global, rows: &[Row]) -> Mem<Seq<Row>>
    ensures { IfOk result (λ made. made ≡ rows.now) }
{
    let mut made = Seq::new(alloc);
    for row in rows {
        made.push(row.copy()?)?;
    }
    Ok(made)
}

fn copy_rows_at(alloc: Global, rows: &[Row], places: &[u32]) -> Mem<Seq<Row>>
    requires { All (λ place. place < length rows.now) places.now }
    ensures { IfOk result (λ made. made ≡ rows_at rows.now places.now) }
{
    let mut made = Seq::new(alloc);
    for place in places {
        made.push(rows[*place as usize].copy()?)?;
    }
    Ok(made)
}

fn copy_kinds(alloc: Global, schema: &Schema) -> Mem<Seq<ColType>>
    ensures { IfOk result (λ kinds. kinds ≡ kinds_of schema.now) }
{
    let mut kinds = Seq::new(alloc);
    for field in schema.as_slice() {
        kinds.push(field.kind)?;
    }
    Ok(kinds)
}

impl Batch {
    /// A batch of copies of rows that fit the columns of this schema. The only error is want of memory.
    pub fn from_rows(alloc: Global, index: Option<u64>, schema: &Schema, rows: &[Row]) -> Mem<Batch>
        requires { IsTrue (fit_rows schema.now rows.now) }
        ensures { IfOk result (λ b. b ≡ record { index = index; kinds = kinds_of schema.now; rows = rows.now }) }
    {
        let kinds = copy_kinds(alloc, schema)?;
        let rows = copy_rows(alloc, rows)?;
        Ok(Batch { index, kinds, rows })
    }

    /// The batch of rows that fit these types, which are moved. Takes no memory.
    pub fn of_rows(index: Option<u64>, kinds: Seq<ColType>, rows: Seq<Row>) -> Batch
        requires { IsTrue (fit_kinds kinds rows) }
        ensures { result ≡ record { index = index; kinds = kinds; rows = rows } }
    {
        Batch { index, kinds, rows }
    }

    /// The number of rows.
    pub fn len(&self) -> usize
        ensures { result ≡ length self.now.rows }
    {
        self.rows.len()
    }

    /// Whether there is no row.
    pub fn is_empty(&self) -> bool
        ensures { result ≡ (length self.now.rows == 0) }
    {
        self.rows.is_empty()
    }

    /// The batch's index in an ordered stream, counted from 0, or none where the stream has no order.
    pub fn index(&self) -> Option<u64>
        ensures { result ≡ self.now.index }
    {
        self.index
    }

    /// Gives the batch this index, or none.
    pub fn set_index(&mut self, index: Option<u64>)
        ensures { self.new ≡ record self.old { index = index } }
    {
        self.index = index;
    }

    /// The types of the columns, from the left.
    pub fn kinds(&self) -> &[ColType]
        ensures { result.now ≡ self.now.kinds }
    {
        self.kinds.as_slice()
    }

    /// The rows in their order. They fit the types of the columns.
    pub fn rows(&self) -> &[Row]
        ensures rows { result.now ≡ self.now.rows }
        ensures fits { IsTrue (fit_kinds self.now.kinds self.now.rows) }
    {
        self.rows.as_slice()
    }

    /// A copy of the row at place `i`, counted from 0. The only error is want of memory.
    pub fn row(&self, i: usize) -> Mem<Row>
        requires { i < length self.now.rows }
        ensures { IfOk result (λ row. slice_get self.now.rows i ≡ Some row) }
    {
        self.rows.as_slice()[i].copy()
    }

    /// A batch of copies of the rows from place `from` up to, and without, place `to`, with the same index,
    /// as Acero's `Slice`. The only error is want of memory.
    pub fn slice(&self, from: usize, to: usize) -> Mem<Batch>
        requires ordered { from ≤ to }
        requires within { to ≤ length self.now.rows }
        ensures { IfOk result (λ b. b ≡ record self.now { rows = slice_range self.now.rows from to }) }
    {
        Ok(Batch {
            index: self.index,
            kinds: self.copied_kinds()?,
            rows: copy_rows(self.rows.alloc(), &self.rows.as_slice()[from..to])?,
        })
    }

    /// A batch of copies of the rows at these places, in the order of the places, with the same index,
    /// as Arrow's `Take`. A place may be named more than once. The only error is want of memory.
    pub fn take(&self, places: &[u32]) -> Mem<Batch>
        requires { All (λ place. place < length self.now.rows) places.now }
        ensures { IfOk result (λ b. b ≡ record self.now { rows = rows_at self.now.rows places.now }) }
    {
        Ok(Batch {
            index: self.index,
            kinds: self.copied_kinds()?,
            rows: copy_rows_at(self.rows.alloc(), self.rows.as_slice(), places)?,
        })
    }

    /// The rows, which are moved out. Takes no memory.
    pub fn into_rows(self) -> Seq<Row>
        ensures { result ≡ self.rows }
    {
        let Batch {
            index: _,
            kinds: _,
            rows,
        } = self;
        rows
    }

    /// An equal batch. The only error is want of memory.
    pub fn copy(&self) -> Mem<Batch>
        ensures { IfOk result (λ b. b ≡ self.now) }
    {
        Ok(Batch {
            index: self.index,
            kinds: self.copied_kinds()?,
            rows: self.rows.copy()?,
        })
    }

    fn copied_kinds(&self) -> Mem<Seq<ColType>>
        ensures { IfOk result (λ kinds. kinds ≡ self.now.kinds) }
    {
        Seq::of_slice(self.kinds.alloc(), self.kinds.as_slice())
    }
}

impl Duplicate for Batch {
    fn duplicate(&self) -> Mem<Batch> {
        self.copy()
    }
}

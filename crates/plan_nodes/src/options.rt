//! The options of nodes, as those of Acero's nodes.
ghost use Rattle.std.specs.Prelude.{◌≡◌, IfOk};

use agg_rules::{AggCall, WindowKind};
use na_expr::Expr;
use row_table::JoinKind;
use scalar_value::{Duplicate, Mem, Seq};

/// A node that makes a table longer, as tidyr's `pivot_longer`: the columns that stay in each row, and those that give a
/// row each.
#[derive(Debug, Drop)]
pub struct LongerSpec {
    pub kept: Seq<u32>,
    pub chosen: Seq<u32>,
}

/// An aggregate: its key columns, and its calls.
#[derive(Debug, Drop)]
pub struct AggSpec {
    pub keys: Seq<u32>,
    pub calls: Seq<AggCall>,
}

/// A hashjoin: its kind, the columns of the left and of the right key, and whether missing values match.
#[derive(Debug, Drop)]
pub struct JoinSpec {
    pub kind: JoinKind,
    pub left_keys: Seq<u32>,
    pub right_keys: Seq<u32>,
    pub na_match: bool,
}

/// A key of an order_by: a column, and whether its greatest values come first. Missing values come last.
#[derive(Debug, Clone, Copy, PartialEq, Eq)]
pub struct SortKey {
    pub column: u32,
    pub descending: bool,
}

/// A call of a window node: its kind, its argument over the node's input, by how many rows `lag` and `lead` shift, and
/// whether a rank counts from the greatest. Where a kind has no argument, `arg` is a missing literal and is not looked at.
#[derive(Debug, Drop)]
pub struct WindowCall {
    pub kind: WindowKind,
    pub arg: Expr,
    pub shift: u64,
    pub descending: bool,
}

/// A window node: the columns that group its rows, and its calls, whose values come behind the columns.
#[derive(Debug, Drop)]
pub struct WindowSpec {
    pub keys: Seq<u32>,
    pub calls: Seq<WindowCall>,
}

impl LongerSpec {
    /// Equal options. The only error is want of memory.
    pub fn copy(&self) -> Mem<LongerSpec>
        ensures { IfOk result (λ s. s ≡ self.now) }
    {
        Ok(LongerSpec {
            kept: self.kept.copy()?,
            chosen: self.chosen.copy()?,
        })
    }
}

impl AggSpec {
    /// Equal options. The only error is want of memory.
    pub fn copy(&self) -> Mem<AggSpec>
        ensures { IfOk result (λ s. s ≡ self.now) }
    {
        Ok(AggSpec {
            keys: self.keys.copy()?,
            calls: Seq::of_slice(self.calls.alloc(), self.calls.as_slice())?,
        })
    }
}

impl JoinSpec {
    /// Equal options. The only error is want of memory.
    pub fn copy(&self) -> Mem<JoinSpec>
        ensures { IfOk result (λ j. j ≡ self.now) }
    {
        Ok(JoinSpec {
            kind: self.kind,
            left_keys: self.left_keys.copy()?,
            right_keys: self.right_keys.copy()?,
            na_match: self.na_match,
        })
    }
}

impl WindowCall {
    /// An equal call. The only error is want of memory.
    pub fn copy(&self) -> Mem<WindowCall>
        ensures { IfOk result (λ call. call ≡ self.now) }
    {
        Ok(WindowCall {
            kind: self.kind,
            arg: self.arg.copy()?,
            shift: self.shift,
            descending: self.descending,
        })
    }
}

impl Duplicate for WindowCall {
    fn duplicate(&self) -> Mem<WindowCall> {
        self.copy()
    }
}

impl WindowSpec {
    /// Equal options. The only error is want of memory.
    pub fn copy(&self) -> Mem<WindowSpec>
        ensures { IfOk result (λ s. s ≡ self.now) }
    {
        Ok(WindowSpec {
            keys: self.keys.copy()?,
            calls: self.calls.copy()?,
        })
    }
}

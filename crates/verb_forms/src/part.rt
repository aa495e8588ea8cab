ghost use Rattle.std.specs.Prelude.{◌≡◌, IfOk};

use agg_rules::WindowKind;
use na_expr::Expr;
use scalar_value::{Duplicate, Mem, Seq};

/// A window call of a verb: its kind, its argument over the verb's columns, by how many rows `lag` and `lead` shift,
/// and whether a rank counts from the greatest. Where a kind has no argument, `arg` is a missing literal and is not
/// looked at.
#[derive(Debug, Drop)]
pub struct VerbWindow {
    pub kind: WindowKind,
    pub arg: Expr,
    pub shift: u64,
    pub descending: bool,
}

/// An expression of `filter` or `mutate`. Its value is over the columns that the verb has at that point, with the values
/// of its calls behind them.
#[derive(Debug, Drop)]
pub struct Part {
    pub calls: Seq<VerbWindow>,
    pub value: Expr,
}

impl VerbWindow {
    /// An equal window call.
    pub fn copy(&self) -> Mem<VerbWindow>
        ensures { IfOk result (λ made. made ≡ self.now) }
    {
        Ok(VerbWindow {
            kind: self.kind,
            arg: self.arg.copy()?,
            shift: self.shift,
            descending: self.descending,
        })
    }
}

impl Duplicate for VerbWindow {
    fn duplicate(&self) -> Mem<VerbWindow> {
        self.copy()
    }
}

impl Part {
    /// An equal part.
    pub fn copy(&self) -> Mem<Part>
        ensures { IfOk result (λ made. made ≡ self.now) }
    {
        Ok(Part {
            calls: self.calls.copy()?,
            value: self.value.copy()?,
        })
    }
}

impl Duplicate for Part {
    fn duplicate(&self) -> Mem<Part> {
        self.copy()
    }
}

ghost use Rattle.std.specs.Prelude.{◌≡◌, IfOk};

use row_table::Row;
use scalar_value::{Duplicate, Mem, Seq, Text, Value};

/// What tidyr's `pivot_wider` makes of a table: the columns that tell its rows apart, the column of names and that of
/// values, whether the new columns are sorted by their names, and the value of a cell that no row gives.
#[derive(Debug, Drop)]
pub struct PivotSpec {
    pub ids: Seq<u32>,
    pub names: u32,
    pub values: u32,
    pub sorted: bool,
    pub fill: Value,
}

/// Why the cells of a `pivot_wider` are refused: more than 1,024 names, a new name that another column has, or a cell that
/// two rows give, by its key and its name.
#[derive(Debug, Drop)]
pub enum PivotFault {
    TooManyNames,
    NameTaken(Text),
    CellTwice(Row, Value),
}

impl PivotSpec {
    /// An equal specification.
    pub fn copy(&self) -> Mem<PivotSpec>
        ensures { IfOk result (λ made. made ≡ self.now) }
    {
        Ok(PivotSpec {
            ids: self.ids.copy()?,
            names: self.names,
            values: self.values,
            sorted: self.sorted,
            fill: self.fill.copy()?,
        })
    }
}

impl Duplicate for PivotSpec {
    fn duplicate(&self) -> Mem<PivotSpec> {
        self.copy()
    }
}

impl PivotFault {
    /// An equal fault.
    pub fn copy(&self) -> Mem<PivotFault>
        ensures { IfOk result (λ made. made ≡ self.now) }
    {
        match self {
            PivotFault::TooManyNames => Ok(PivotFault::TooManyNames),
            PivotFault::NameTaken(name) => Ok(PivotFault::NameTaken(name.copy()?)),
            PivotFault::CellTwice(key, name) => {
                Ok(PivotFault::CellTwice(key.copy()?, name.copy()?))
            }
        }
    }
}

impl Duplicate for PivotFault {
    fn duplicate(&self) -> Mem<PivotFault> {
        self.copy()
    }
}

ghost use Rattle.std.specs.Prelude.{◌≡◌, ◌<◌, ◌^◌};

use scalar_value::Or;
use thiserror::Error;

/// The first fault of a table's file, and where it stands. Rows and columns count from 1; row 0 is the header,
/// and column 0 no column.
#[derive(Debug, Clone, Copy, PartialEq, Eq, Error)]
#[error("{kind} in row {row}, column {column}")]
pub struct TableFault {
    pub kind: TableKind,
    pub row: u64,
    pub column: u32,
}

/// What is wrong: bytes that aren't UTF-8; no record; more than 1,024 columns; a field of the header that is no name,
/// colon and type; a name that stands a second time; a row with another number of fields than the header;
/// a field that writes no value of its column's type.
#[derive(Debug, Clone, Copy, PartialEq, Eq, Error)]
pub enum TableKind {
    #[error("bytes that are no text")]
    NotText,
    #[error("no header")]
    NoHeader,
    #[error("too many columns")]
    TooManyColumns,
    #[error("no name and type")]
    HeaderType,
    #[error("a name that stands twice")]
    NameTwice,
    #[error("another number of fields than the header")]
    Ragged,
    #[error("no value of the column's type")]
    BadField,
}

impl TableKind {
    ghost use Rattle.csv_source.specs.Typed.{fault_at};

    /// The fault of this kind at a row and a column.
    pub fn at(self, row: u64, column: usize) -> Or<TableFault>
        requires { column < 2 ^ 32 }
        ensures { result ≡ Or.Fault (fault_at self row column) }
    {
        Or::Fault(TableFault {
            kind: self,
            row,
            column: column as u32,
        })
    }
}

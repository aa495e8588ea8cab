use crate::aggregate::AggKind;
use scalar_value::ColType;

/// The calls that give each row of a group a value, as in dplyr and tidyr.
///
/// `Agg` is an aggregate of the whole group, by whether missing values are left out and by the type of its argument.
/// `RowNumber` and `FromEnd` are a row's place from the start and from the end, from 1.
/// `Before` is the number of rows that stand before the row by the argument, missing values after all others.
/// The Fill kinds give the value with missing ones filled from the rows around it, as tidyr's `fill` does.
#[derive(Debug, Clone, Copy, PartialEq, Eq)]
pub enum WindowKind {
    Agg(AggKind, bool, ColType),
    RowNumber,
    FromEnd,
    Lag,
    Lead,
    Cumsum,
    MinRank,
    DenseRank,
    Before,
    FillDown,
    FillUp,
    FillDownUp,
    FillUpDown,
}

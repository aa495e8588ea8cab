/// Which rows a join gives, as dplyr's joins of these names: pairs of rows with matching keys for the first four,
/// with the unmatched rows of the left, the right or both tables; left rows with or without a match for the last two.
#[derive(Debug, Clone, Copy, PartialEq, Eq)]
pub enum JoinKind {
    Inner,
    Left,
    Right,
    Full,
    Semi,
    Anti,
}

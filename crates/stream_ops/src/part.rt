/// The part of an operator that keeps nothing of what it sees.
#[derive(Debug, Clone, Copy, PartialEq, Eq)]
pub struct NoPart;

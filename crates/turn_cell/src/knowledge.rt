//! What a seat knows, and what the table keeps of a seat. No value of these types is made.
use std::collections::LinkedList;

/// What a seat knows.
pub struct Known<E> {
    /// The number of the seat.
    pub number: u32,
    /// The history that it has seen.
    pub seen: LinkedList<E>,
    /// The entries of its number that it left, in their order.
    pub own_entries: LinkedList<E>,
    /// Whether it has the turn.
    pub in_turn: bool,
    /// Whether it is the seat that came with the cell.
    pub is_first: bool,
    /// The numbers that were given out. The first seat alone knows them.
    pub given: LinkedList<u32>,
    /// The numbers of the seats that were joined, each with the entries that its seat left.
    pub joined: LinkedList<(u32, LinkedList<E>)>,
    /// How many seats were split off and not joined yet.
    pub unjoined: u64,
}

/// What the table keeps of a seat.
pub struct View<M, E> {
    /// Whether the seat is still there: a seat that was joined is not.
    pub is_live: bool,
    /// The machine that the cell began with, or none where the seat is gone.
    pub start: Option<M>,
    pub knows: Known<E>,
}

//! The seat of one thread.
use crate::knowledge::View;
use crate::machine::Machine;
use std::marker::Model;

/// A seat of one cell, with which one thread takes turns. A contract sees of which cell it is, and what it knows.
#[derive(Drop)]
pub struct Seat<M: Machine> {
    pub(crate) inner: atomic_table::Seat<Option<Box<M>>, View<M, M::Entry>>,
    /// The length of the history that it has seen.
    pub(crate) seen_length: u64,
}

impl<M: Machine> Model for Seat<M> {
    ghost use Rattle.std.specs.Prelude.{◌≡◌, true, length};
    ghost use Rattle.turn_cell.specs.Seats.{SeatValue, seat_value_coded, emptied_slots};

    ghost Value = { SeatValue M M.Entry };

    ghost coded = { seat_value_coded M.code M.Entry.code };

    ghost view = { λ s. record { cell = record { table = s.inner.table_id; start = s.inner.me.0.start }; knows = s.inner.me.0.knows } };

    ghost invariant = { λ s. (s.inner.me.0.is_live ≡ true) × (s.inner.me.1 ≡ emptied_slots s.inner.me.0.knows.in_turn) × (s.seen_length ≡ length s.inner.me.0.knows.seen) };
}

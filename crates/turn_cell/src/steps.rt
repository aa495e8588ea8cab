//! The rule of the table, and what each atomic step on it tells.
ghost use Rattle.std.specs.Prelude.{ℕ, box_value};
ghost use Rattle.turn_cell.specs.Rule.{InTurns};
ghost use Rattle.turn_cell.specs.Steps.{first_view, Takes, Counts, Gives, splitting_view, split_view, joining_view, spent_view};

use crate::knowledge::View;
use crate::machine::Machine;
use atomic_table::{Join, Play, Split, TableRule};
use std::marker::{Brand, PhantomData};
use std::snapshot::Snapshot;

/// The rule. It is told the machine that the cell begins with, and the number of the first seat.
pub struct Turns<M> {
    machine: PhantomData<M>,
}

impl<M: Machine> TableRule<Option<Box<M>>, View<M, M::Entry>, (Snapshot<M>, u32)> for Turns<M> {
    ghost holds = { λ about. InTurns M.owner (λ b. M.history (box_value b)) (λ b. M.job (box_value b)) M.job about.0.value };

    ghost first = { λ about. first_view about.0.value about.1 };
}

/// Takes the turn, and the machine with it, where nobody has it.
pub struct Take<M> {
    machine: PhantomData<M>,
}

impl<M: Machine> Play<Option<Box<M>>, View<M, M::Entry>> for Take<M> {
    ghost then = { Takes M.owner (λ b. M.history (box_value b)) (λ b. M.job (box_value b)) M.job };
}

/// Counts the entry by which the machine in hand is ahead of what the seat has seen.
pub struct Count<M> {
    machine: PhantomData<M>,
}

impl<M: Machine> Play<Option<Box<M>>, View<M, M::Entry>> for Count<M> {
    ghost then = { Counts M.owner (λ b. M.history (box_value b)) };
}

/// Gives the turn back, and the machine with it.
pub struct Give;

impl<S, M, E> Play<S, View<M, E>> for Give {
    ghost then = { Gives };
}

/// The number of a new seat, which exists in proofs alone.
pub trait Number {
    ghost number: { ℕ };
}

impl Number for Brand {
    ghost number = { 0 };
}

/// Splits a seat with that number off the first seat.
pub struct SplitOff<N> {
    number: PhantomData<N>,
}

impl<M, E, N: Number> Split<View<M, E>> for SplitOff<N> {
    ghost left = { splitting_view N.number };

    ghost right = { split_view N.number };
}

/// Joins another seat with the first one.
pub struct TakeIn;

impl<M, E> Join<View<M, E>> for TakeIn {
    ghost both = { joining_view };

    ghost spent = { spent_view };
}

//! The cell, and the calls on it.
ghost use Rattle.std.specs.Prelude.{◌≡◌, ℕ, ◌⊎◌, true, false, List, [], ◌∷◌, ◌++◌, box_value, option_map, Option, Some, None, Ok, IfOk, All};
ghost use Rattle.turn_cell.specs.History.{replay, entries_of, BeginsWith};
ghost use Rattle.turn_cell.specs.Knowledge.{is_one_of, newly_made, entered, outside, with_entry, splitting, split_off, joining, entries_left};

use crate::knowledge::View;
use crate::machine::Machine;
use crate::seat::Seat;
use crate::steps::{Count, Give, Number, SplitOff, Take, TakeIn, Turns};
use atomic_table::Table;
use scalar_value::{Mem, NoMemory};
use std::alloc::Global;
use std::marker::{Brand, Model};
use std::snapshot::Snapshot;
use std::sync::Wait;
use std::thread;

type TurnTable<M> = Table<
    Option<Box<M>>,
    View<M, <M as Machine>::Entry>,
    (Snapshot<M>, u32),
    Turns<M>,
    Global,
>;

/// A cell that holds a machine. A contract sees which cell it is, and the machine that it began with.
#[derive(Drop)]
pub struct TurnCell<M: Machine> {
    table: TurnTable<M>,
}

impl<M: Machine> Model for TurnCell<M> {
    ghost use Rattle.std.specs.Prelude.{◌≡◌, Some};
    ghost use Rattle.turn_cell.specs.Seats.{CellValue, cell_value_coded};

    ghost Value = { CellValue M };

    ghost coded = { cell_value_coded M.code };

    ghost view = { λ c. record { table = c.table.shared.table_id; start = Some c.table.shared.key.0.value } };

    ghost invariant = { λ c. (c.table.shared.table_id.words ≡ 2) × (c.table.shared.table_id.slots ≡ 1) };
}

impl<M: Machine> TurnCell<M> {
    /// A cell with this machine, whose history is empty, and the first seat, with this number.
    pub fn new(alloc: Global, start: Box<M>, number: u32) -> Mem<(TurnCell<M>, Seat<M>)>
        requires { M.history (box_value start) ≡ [] }
        ensures start { IfOk result (λ made. made.0.start ≡ Some (box_value start)) }
        ensures cell { IfOk result (λ made. made.1.cell ≡ made.0) }
        ensures seat { IfOk result (λ made. made.1.knows ≡ newly_made number) }
    {
        let about = (Snapshot::of(&*start), number);
        let mut slots = Vec::new(alloc);
        slots.push(Some(start))?;
        match Table::new(alloc, &[0, 0], slots, &about) {
            Ok((table, inner)) => {
                let seat = Seat {
                    inner,
                    seen_length: 0,
                };
                Ok((TurnCell { table }, seat))
            }
            Err(_) => Err(NoMemory),
        }
    }

    /// A new seat, with a number that was not given out before. It has seen what the first seat has seen, and left nothing.
    ///
    /// Only the first seat is split. No memory is taken, so the answer is always `Ok`.
    pub fn split(&self, seat: &mut Seat<M>, number: u32) -> Mem<Seat<M>>
        requires cell { seat.old.cell ≡ self.now }
        requires first { seat.old.knows.is_first ≡ true }
        requires outside { seat.old.knows.in_turn ≡ false }
        requires fresh { is_one_of seat.old.knows.given number ≡ false }
        ensures cell { seat.new.cell ≡ seat.old.cell }
        ensures seat { seat.new.knows ≡ splitting number seat.old.knows }
        ensures new { result ≡ Ok record { cell = self.now; knows = split_off number seat.old.knows } }
    {
        Ok(self.split_off::<Brand>(seat, number))
    }

    // The number is known in proofs alone: the caller picks `N`.
    fn split_off<N: Number>(&self, seat: &mut Seat<M>, number: u32) -> Seat<M>
        requires number { number ≡ N.number }
        requires cell { seat.old.cell ≡ self.now }
        requires first { seat.old.knows.is_first ≡ true }
        requires outside { seat.old.knows.in_turn ≡ false }
        requires fresh { is_one_of seat.old.knows.given number ≡ false }
        ensures cell { seat.new.cell ≡ seat.old.cell }
        ensures seat { seat.new.knows ≡ splitting number seat.old.knows }
        ensures new { result ≡ record { cell = self.now; knows = split_off number seat.old.knows } }
    {
        let inner = self.table.shared.split_seat::<SplitOff<N>>(&mut seat.inner);
        Seat {
            inner,
            seen_length: seat.seen_length,
        }
    }

    /// Takes another seat in. The first seat has then seen what either had seen, and knows the entries that the other left.
    pub fn join(&self, seat: &mut Seat<M>, other: Seat<M>)
        requires cell { seat.old.cell ≡ self.now }
        requires other_cell { other.cell ≡ self.now }
        requires first { seat.old.knows.is_first ≡ true }
        requires outside { seat.old.knows.in_turn ≡ false }
        requires other_outside { other.knows.in_turn ≡ false }
        ensures cell { seat.new.cell ≡ seat.old.cell }
        ensures seat { seat.new.knows ≡ joining seat.old.knows other.knows }
    {
        let Seat { inner, seen_length } = other;
        self.table
            .shared
            .join_seat::<TakeIn>(&mut seat.inner, inner);
        seat.seen_length = seat.seen_length.max(seen_length);
    }

    /// Takes the turn, as soon as nobody else has it, and the machine with it.
    ///
    /// The machine has the job of the first one. Its history begins with what the seat had seen, and its entries of the seat's number are those that the seat left. So the part of its state that belongs to the number is as the seat left it, or as it was at the opening where the seat left nothing. The call may wait, and may never return.
    pub fn enter<R: Wait>(&self, rt: &R, seat: &mut Seat<M>) -> Box<M>
        requires cell { seat.old.cell ≡ self.now }
        requires outside { seat.old.knows.in_turn ≡ false }
        ensures cell { seat.new.cell ≡ seat.old.cell }
        ensures seat { seat.new.knows ≡ entered seat.old.knows (M.history (box_value result)) }

        ensures job { option_map M.job self.now.start ≡ Some (M.job (box_value result)) }
        ensures begins { BeginsWith (M.history (box_value result)) seat.old.knows.seen }
        ensures entries { entries_of M.owner seat.old.knows.number (M.history (box_value result)) ≡ seat.old.knows.own_entries }

        ensures own { let j = M.job (box_value result) in
            let state = replay (M.after j) (M.opening j) in
            M.own (state (M.history (box_value result))) seat.old.knows.number
            ≡ M.own (state seat.old.knows.seen) seat.old.knows.number }
        ensures none_left { let j = M.job (box_value result) in
            let state = replay (M.after j) (M.opening j) in
            seat.old.knows.own_entries ≡ []
            → M.own (state (M.history (box_value result))) seat.old.knows.number
            ≡ M.own (M.opening j) seat.old.knows.number }
    {
        let shared = &self.table.shared;
        for _ in rt.forever() {
            if shared.compare_exchange::<Take<M>>(&mut seat.inner, 1, 0, 1) == 0 {
                let machine = shared.exchange(&mut seat.inner, 0, None).unwrap();
                seat.seen_length = machine.length();
                return machine;
            }
            thread::yield_now();
        }
        unreachable!()
    }

    /// Gives the turn back, and with it the machine, which has made one step: its history is what the seat has seen with this entry behind it. The entry belongs to the seat's number or to none.
    pub fn leave(&self, seat: &mut Seat<M>, machine: Box<M>, entry: M::Entry)
        requires cell { seat.old.cell ≡ self.now }
        requires in_turn { seat.old.knows.in_turn ≡ true }
        requires job { option_map M.job self.now.start ≡ Some (M.job (box_value machine)) }
        requires history { M.history (box_value machine) ≡ seat.old.knows.seen ++ entry ∷ [] }
        requires owner { (M.owner entry ≡ None) ⊎ (M.owner entry ≡ Some seat.old.knows.number) }
        ensures cell { seat.new.cell ≡ seat.old.cell }
        ensures seat { seat.new.knows ≡ outside (with_entry M.owner seat.old.knows entry) }
        ensures state { (j : M.Job)
            → replay (M.after j) (M.opening j) seat.new.knows.seen
            ≡ M.after j (replay (M.after j) (M.opening j) seat.old.knows.seen) entry }
    {
        let shared = &self.table.shared;
        let _ = entry;
        seat.seen_length = machine.length();
        drop(shared.exchange(&mut seat.inner, 0, Some(machine)));
        shared.fetch_add::<Count<M>>(&mut seat.inner, 0, 1);
        shared.store::<Give>(&mut seat.inner, 1, 0);
    }

    /// Gives the turn back, and with it the machine, which has made no step: its history is what the seat has seen.
    pub fn leave_unchanged(&self, seat: &mut Seat<M>, machine: Box<M>)
        requires cell { seat.old.cell ≡ self.now }
        requires in_turn { seat.old.knows.in_turn ≡ true }
        requires job { option_map M.job self.now.start ≡ Some (M.job (box_value machine)) }
        requires history { M.history (box_value machine) ≡ seat.old.knows.seen }
        ensures cell { seat.new.cell ≡ seat.old.cell }
        ensures seat { seat.new.knows ≡ outside seat.old.knows }
    {
        drop(
            self.table
                .shared
                .exchange(&mut seat.inner, 0, Some(machine)),
        );
        self.table.shared.store::<Give>(&mut seat.inner, 1, 0);
    }

    /// Waits where the history is no longer than what the seat has seen, until some thread wakes those that wait. It may also return at once, and may never return: nothing is promised of the history on its return.
    pub fn wait_change<R: Wait>(&self, rt: &R, seat: &mut Seat<M>)
        requires cell { seat.old.cell ≡ self.now }
        requires outside { seat.old.knows.in_turn ≡ false }
        ensures { seat.new ≡ seat.old }
    {
        let seen_length = seat.seen_length;
        if self.table.shared.peek(0) == seen_length {
            self.table
                .shared
                .park(rt, 0, (seen_length & 0xffff_ffff) as u32);
        }
    }

    /// Wakes the threads that wait for a change.
    pub fn wake(&self, seat: &mut Seat<M>)
        requires cell { seat.old.cell ≡ self.now }
        requires outside { seat.old.knows.in_turn ≡ false }
        ensures { seat.new ≡ seat.old }
    {
        let _ = seat;
        self.table.shared.wake_all(0);
    }

    /// Ends the cell, once every other seat was joined, and gives the machine.
    ///
    /// The machine has the job of the first one. Its history is what the first seat has seen; it has for each number that was given out exactly the entries that its seat left, and none of any other number.
    pub fn close(self, seat: Seat<M>) -> Box<M>
        requires cell { seat.cell ≡ self }
        requires first { seat.knows.is_first ≡ true }
        requires outside { seat.knows.in_turn ≡ false }
        requires all_joined { seat.knows.unjoined ≡ 0 }
        ensures job { option_map M.job self.start ≡ Some (M.job (box_value result)) }
        ensures history { M.history (box_value result) ≡ seat.knows.seen }
        ensures every_number { (n : ℕ) → entries_of M.owner n (M.history (box_value result)) ≡ entries_left seat.knows n }
        ensures own { entries_of M.owner seat.knows.number (M.history (box_value result)) ≡ seat.knows.own_entries }
        ensures joined { All (λ p. entries_of M.owner p.0 (M.history (box_value result)) ≡ p.1) seat.knows.joined }
        ensures not_given { (n : ℕ) → is_one_of seat.knows.given n ≡ false → entries_of M.owner n (M.history (box_value result)) ≡ [] }
    {
        let TurnCell { table } = self;
        let Seat {
            inner,
            seen_length: _,
        } = seat;
        let mut closed = table.close_with(inner);
        let slot = closed.take(0);
        closed.free();
        slot.unwrap()
    }
}

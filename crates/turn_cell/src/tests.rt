//! A counter that threads step in turns, run through every call of the cell.
ghost use Rattle.std.specs.Prelude.{◌≡◌, true, false, IfOk};
ghost use Rattle.std.specs.Thread.{IsSync};
ghost use Rattle.turn_cell.specs.Knowledge.{is_one_of, newly_made, splitting};

use crate::cell::TurnCell;
use crate::machine::Machine;
use crate::seat::Seat;
use crate::tests::counter::{Counter, Step};
use scalar_value::Mem;
use std::alloc::Global;
use std::process::Abort;
use std::sync::Wait;
use std::test::Fail;
use std::thread::{Threads, join};

mod counter;

// The turns that each thread takes.
const ROUNDS: u64 = 50;

// What a thread adds in its turns: 0, 1, 2, 0, 1, 2 and so on, sixteen times three turns and two more.
const ADDED: u64 = 16 * 3 + 1;

// The value at first.
const FIRST: u64 = 7;

/// A seat with its number, and the steps that it left.
#[derive(Drop)]
struct Worker {
    seat: Seat<Counter>,
    number: u32,
    left: Vec<Step>,
    ghost numbered: { seat.knows.number ≡ number },
    ghost outside: { seat.knows.in_turn ≡ false },
}

// One turn, in which the step is made. The room for it was taken before the threads began.
fn take_turn<R: Wait>(rt: &R, cell: &TurnCell<Counter>, worker: &mut Worker, amount: u64)
    requires cell { worker.old.seat.cell ≡ cell.now }
    ensures cell { worker.new.seat.cell ≡ worker.old.seat.cell }
    ensures first { worker.new.seat.knows.is_first ≡ worker.old.seat.knows.is_first }
    ensures unjoined { worker.new.seat.knows.unjoined ≡ worker.old.seat.knows.unjoined }
{
    let step = Step {
        by: worker.number,
        amount,
    };
    let mut counter = cell.enter(rt, &mut worker.seat);
    if worker.left.push(step).is_ok() && counter.add(step).is_ok() {
        cell.leave(&mut worker.seat, counter, step);
    } else {
        cell.leave_unchanged(&mut worker.seat, counter);
    }
    cell.wake(&mut worker.seat);
}

// Waits until the counter has so many steps.
fn wait_for<R: Wait>(rt: &R, cell: &TurnCell<Counter>, worker: &mut Worker, length: u64)
    requires cell { worker.old.seat.cell ≡ cell.now }
    ensures cell { worker.new.seat.cell ≡ worker.old.seat.cell }
    ensures first { worker.new.seat.knows.is_first ≡ worker.old.seat.knows.is_first }
    ensures unjoined { worker.new.seat.knows.unjoined ≡ worker.old.seat.knows.unjoined }
{
    for _ in rt.forever() {
        let counter = cell.enter(rt, &mut worker.seat);
        let reached = counter.length() >= length;
        cell.leave_unchanged(&mut worker.seat, counter);
        if reached {
            return;
        }
        cell.wait_change(rt, &mut worker.seat);
    }
    unreachable!()
}

// What one thread does: its turns, of which every third step is of nothing, and then it waits for those of all.
fn work<R: Wait>(rt: &R, cell: &TurnCell<Counter>, mut worker: Worker, all: u64) -> Worker
    requires cell { worker.seat.cell ≡ cell.now }
    ensures cell { result.seat.cell ≡ cell.now }
    ensures first { result.seat.knows.is_first ≡ worker.seat.knows.is_first }
    ensures unjoined { result.seat.knows.unjoined ≡ worker.seat.knows.unjoined }
{
    for round in 0..ROUNDS {
        take_turn(rt, cell, &mut worker, round % 3);
    }
    wait_for(rt, cell, &mut worker, all);
    worker
}

fn both<R: Threads + Wait + Sync>(
    rt: &R,
    cell: &TurnCell<Counter>,
    first: Worker,
    second: Worker,
    all: u64,
) -> (Worker, Worker)
    requires first { first.seat.cell ≡ cell.now }
    requires second { second.seat.cell ≡ cell.now }
    ensures cells { (result.0.seat.cell ≡ cell.now) × (result.1.seat.cell ≡ cell.now) }
    ensures first { (result.0.seat.knows.is_first ≡ first.seat.knows.is_first) × (result.0.seat.knows.unjoined ≡ first.seat.knows.unjoined) }
{
    join(
        rt,
        move || work(rt, cell, first, all),
        move || work(rt, cell, second, all),
    )
}

fn four<R: Threads + Wait + Sync>(
    rt: &R,
    cell: &TurnCell<Counter>,
    firsts: (Worker, Worker),
    others: (Worker, Worker),
) -> ((Worker, Worker), (Worker, Worker))
    requires firsts { (firsts.0.seat.cell ≡ cell.now) × (firsts.1.seat.cell ≡ cell.now) }
    requires others { (others.0.seat.cell ≡ cell.now) × (others.1.seat.cell ≡ cell.now) }
    ensures cells { (result.0.0.seat.cell ≡ cell.now) × (result.0.1.seat.cell ≡ cell.now) }
    ensures other_cells { (result.1.0.seat.cell ≡ cell.now) × (result.1.1.seat.cell ≡ cell.now) }
    ensures first { (result.0.0.seat.knows.is_first ≡ firsts.0.seat.knows.is_first) × (result.0.0.seat.knows.unjoined ≡ firsts.0.seat.knows.unjoined) }
{
    let all = 4 * ROUNDS;
    let (first, second) = firsts;
    let (third, fourth) = others;
    join(
        rt,
        move || -> (Worker, Worker)
            requires { IsSync R.row × (first.seat.cell ≡ cell.now) × (second.seat.cell ≡ cell.now) }
            ensures cells { (result.0.seat.cell ≡ cell.entry.now) × (result.1.seat.cell ≡ cell.entry.now) }
            ensures first { (result.0.seat.knows.is_first ≡ first.seat.knows.is_first) × (result.0.seat.knows.unjoined ≡ first.seat.knows.unjoined) }
        { both(rt, cell, first, second, all) },
        move || -> (Worker, Worker)
            requires { IsSync R.row × (third.seat.cell ≡ cell.now) × (fourth.seat.cell ≡ cell.now) }
            ensures { (result.0.seat.cell ≡ cell.entry.now) × (result.1.seat.cell ≡ cell.entry.now) }
        { both(rt, cell, third, fourth, all) },
    )
}

// A counter with room for all steps, in a cell of its own, and the first worker, with the number 0.
fn start(alloc: Global, all: u64) -> Mem<(TurnCell<Counter>, Worker)>
    ensures cell { IfOk result (λ made. made.1.seat.cell ≡ made.0) }
    ensures seat { IfOk result (λ made. made.1.seat.knows ≡ newly_made 0) }
{
    let counter = Box::new(alloc, Counter::new(alloc, FIRST, all)?)?;
    let (cell, seat) = TurnCell::new(alloc, counter, 0)?;
    let worker = worker_of(alloc, seat, 0)?;
    Ok((cell, worker))
}

fn worker_of(alloc: Global, seat: Seat<Counter>, number: u32) -> Mem<Worker>
    requires number { seat.knows.number ≡ number }
    requires outside { seat.knows.in_turn ≡ false }
    ensures { IfOk result (λ worker. worker.seat ≡ seat) }
{
    let left = Vec::with_capacity(alloc, ROUNDS as usize)?;
    Ok(Worker { seat, number, left })
}

// One worker more.
fn hire(alloc: Global, cell: &TurnCell<Counter>, first: &mut Worker, number: u32) -> Mem<Worker>
    requires cell { first.old.seat.cell ≡ cell.now }
    requires first { first.old.seat.knows.is_first ≡ true }
    requires fresh { is_one_of first.old.seat.knows.given number ≡ false }
    ensures cell { first.new.seat.cell ≡ first.old.seat.cell }
    ensures seat { first.new.seat.knows ≡ splitting number first.old.seat.knows }
    ensures new { IfOk result (λ worker. worker.seat.cell ≡ cell.now) }
{
    let seat = cell.split(&mut first.seat, number)?;
    worker_of(alloc, seat, number)
}

// The steps of a number are those that its worker left, in their order.
fn check<R: Abort>(rt: &R, counter: &Counter, number: u32, left: &[Step]) {
    let of_number = counter.steps.iter().filter(|step| step.by == number);
    assert!(rt; of_number.eq(left.iter()), "the steps of {number}");
    assert!(rt;
        left.len() as u64 == ROUNDS,
        "{number} took each of its turns"
    );
}

// The value is what all steps add to the first value, and there are no other steps.
fn check_all<R: Abort>(rt: &R, counter: &Counter, workers: u32) {
    let workers = u64::from(workers);
    assert!(rt; counter.length() == workers * ROUNDS);
    assert!(rt; counter.value == FIRST + workers * ADDED);
}

#[test]
fn two_threads_step_in_turns(rt: HostRuntime) -> Result<(), Fail> {
    let alloc = rt.alloc();
    let (cell, mut first) = start(alloc, 2 * ROUNDS)?;
    let second = hire(alloc, &cell, &mut first, 1)?;
    let (mut first, second) = both(&rt, &cell, first, second, 2 * ROUNDS);
    cell.join(&mut first.seat, second.seat);
    let counter = cell.close(first.seat);
    check(&rt, &counter, 0, first.left.as_slice());
    check(&rt, &counter, 1, second.left.as_slice());
    check_all(&rt, &counter, 2);
    Ok(())
}

#[test]
fn four_threads_step_in_turns(rt: HostRuntime) -> Result<(), Fail> {
    let alloc = rt.alloc();
    let all = 4 * ROUNDS;
    let (cell, mut first) = start(alloc, all)?;
    let second = hire(alloc, &cell, &mut first, 1)?;
    let third = hire(alloc, &cell, &mut first, 2)?;
    let fourth = hire(alloc, &cell, &mut first, 3)?;
    let ((mut first, second), (third, fourth)) = four(&rt, &cell, (first, second), (third, fourth));
    cell.join(&mut first.seat, second.seat);
    cell.join(&mut first.seat, fourth.seat);
    cell.join(&mut first.seat, third.seat);
    let counter = cell.close(first.seat);
    check(&rt, &counter, 0, first.left.as_slice());
    check(&rt, &counter, 1, second.left.as_slice());
    check(&rt, &counter, 2, third.left.as_slice());
    check(&rt, &counter, 3, fourth.left.as_slice());
    check_all(&rt, &counter, 4);
    Ok(())
}

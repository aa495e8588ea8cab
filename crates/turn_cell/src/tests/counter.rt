//! A counter whose steps are numbered. Its value is the replay of its steps.
ghost use Rattle.std.specs.Prelude.{◌≡◌, ℕ, ◌+◌, ◌%◌, ◌^◌, ◌==◌, if◌then◌else◌, List, ◌∷◌, [], ◌++◌, Option, Some, None, IfOk, OnErr};
ghost use Rattle.turn_cell.specs.History.{replay, belongs_to};

use crate::machine::Machine;
use std::alloc::{AllocError, Global};

/// So much is added by the thread with that number. A step of nothing belongs to no number.
#[derive(Clone, Copy, PartialEq, Debug)]
pub struct Step {
    pub by: u32,
    pub amount: u64,
}

/// The value is what the steps make of the first value.
#[derive(Drop)]
pub struct Counter {
    pub first: u64,
    pub value: u64,
    pub steps: Vec<Step>,
    ghost replays: { value ≡ replay (λ v s. (v + s.amount) % 2 ^ 64) first steps.items },
}

impl Machine for Counter {
    ghost use Rattle.std.specs.Prelude.{ℕ, ◌+◌, ◌%◌, ◌^◌, ◌==◌, if◌then◌else◌, Option, Some, None};
    ghost use Rattle.turn_cell.specs.History.{belongs_to, belongs_to-other};
    ghost use Rattle.std.proofs.Common.{ap};

    type Entry = Step;

    ghost Job = { ℕ };

    ghost State = { ℕ × (ℕ → ℕ) };

    ghost Part = { ℕ };

    ghost job = { λ c. c.first };

    ghost history = { λ c. c.steps.items };

    ghost opening = { λ first. (first, λ _. 0) };

    // the value, and the number of steps of each number
    ghost after = { λ _ s e. ((s.0 + e.amount) % 2 ^ 64, λ n. if belongs_to n (if e.amount == 0 then None else Some e.by) then s.1 n + 1 else s.1 n) };

    ghost owner = { λ e. if e.amount == 0 then None else Some e.by };

    ghost own = { λ s n. s.1 n };

    fn length(&self) -> u64 {
        self.steps.len() as u64
    }

    ghost keeps_others = { λ j s e n other. ap (λ b. if b then s.1 n + 1 else s.1 n) (belongs_to-other n (if e.amount == 0 then None else Some e.by) other) };
}

impl Counter {
    /// A counter with room for so many steps.
    pub fn new(alloc: Global, first: u64, room: u64) -> Result<Counter, AllocError>
        ensures { IfOk result (λ counter. counter.steps.items ≡ []) }
    {
        Ok(Counter {
            first,
            value: first,
            steps: Vec::with_capacity(alloc, room as usize)?,
        })
    }

    /// Makes a step.
    pub fn add(&mut self, step: Step) -> Result<(), AllocError>
        ensures steps { IfOk result (λ _. self.new.steps.items ≡ self.old.steps.items ++ step ∷ []) }
        ensures err { OnErr result (self.new.steps.items ≡ self.old.steps.items) }
        ensures first { self.new.first ≡ self.old.first }
    {
        self.steps.push(step)?;
        self.value = self.value.wrapping_add(step.amount);
        Ok(())
    }
}

ghost use Rattle.std.specs.Prelude.{◌≡◌};
ghost use Rattle.scalar_value.specs.declared.memory.Or.TheVariants.{Memory};

use std::alloc::{AllocError, AllocFailed};

/// Memory was refused.
#[derive(Debug, Clone, Copy, PartialEq, Eq)]
pub struct NoMemory;

/// What a call gives whose only refusal is want of memory.
pub type Mem<T> = Result<T, NoMemory>;

/// A named fault, or want of memory.
#[derive(Debug, Drop)]
pub enum Or<F> {
    Fault(F),
    Memory,
}

/// What a call gives that may be refused by a fault or for want of memory.
pub type Res<T, F> = Result<T, Or<F>>;

impl From<AllocError> for NoMemory {
    fn from(_: AllocError) -> NoMemory {
        NoMemory
    }
}

impl<T: Drop> From<AllocFailed<T>> for NoMemory {
    fn from(_: AllocFailed<T>) -> NoMemory {
        NoMemory
    }
}

impl<F> From<NoMemory> for Or<F> {
    ghost from_gives = { λ _ e. e ≡ Memory };

    fn from(_: NoMemory) -> Or<F> {
        Or::Memory
    }
}

impl<F> From<AllocError> for Or<F> {
    ghost from_gives = { λ _ e. e ≡ Memory };

    fn from(_: AllocError) -> Or<F> {
        Or::Memory
    }
}

impl<F, T: Drop> From<AllocFailed<T>> for Or<F> {
    ghost from_gives = { λ _ e. e ≡ Memory };

    fn from(_: AllocFailed<T>) -> Or<F> {
        Or::Memory
    }
}

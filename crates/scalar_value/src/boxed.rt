ghost use Rattle.std.specs.Prelude.{◌≡◌, IfOk};

use crate::duplicate::Duplicate;
use crate::memory::Mem;
use std::alloc::Global;
use std::marker::Model;

/// A value on the heap. Contracts see it as the value, so that trees are plain data.
#[derive(Debug, Drop)]
pub struct Boxed<T> {
    held: Box<T>,
}

impl<T> Model for Boxed<T> {
    ghost Value = { T };

    ghost coded = { T.code };

    ghost view = { λ b. b.held.value };
}

impl<T: Drop> Boxed<T> {
    /// The value on the heap.
    pub fn new(alloc: Global, value: T) -> Mem<Boxed<T>>
        ensures { IfOk result (λ b. b ≡ value) }
    {
        Ok(Boxed {
            held: Box::new(alloc, value)?,
        })
    }
}

impl<T> Boxed<T> {
    /// The value, to look at.
    pub fn get(&self) -> &T
        ensures { result.now ≡ self.now }
    {
        &self.held
    }

    /// The value, moved off the heap.
    pub fn into_inner(self) -> T
        ensures { result ≡ self }
    {
        let Boxed { held } = self;
        Box::into_inner(held)
    }

    /// The allocator that the box was made with.
    pub fn alloc(&self) -> Global {
        *Box::allocator(&self.held)
    }
}

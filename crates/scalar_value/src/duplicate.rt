ghost use Rattle.std.specs.Prelude.{◌≡◌, IfOk, Some, None};

use crate::memory::Mem;

/// A value of which an equal one can be made, where there is memory for it.
pub trait Duplicate: Drop {
    fn duplicate(&self) -> Mem<Self>
        ensures { IfOk result (λ made. made ≡ self.now) };
}

impl Duplicate for u8 {
    fn duplicate(&self) -> Mem<u8> {
        Ok(*self)
    }
}

impl Duplicate for u32 {
    fn duplicate(&self) -> Mem<u32> {
        Ok(*self)
    }
}

impl Duplicate for u64 {
    fn duplicate(&self) -> Mem<u64> {
        Ok(*self)
    }
}

impl Duplicate for bool {
    fn duplicate(&self) -> Mem<bool> {
        Ok(*self)
    }
}

impl<A: Duplicate, B: Duplicate> Duplicate for (A, B) {
    fn duplicate(&self) -> Mem<(A, B)> {
        Ok((self.0.duplicate()?, self.1.duplicate()?))
    }
}

impl<T: Duplicate> Duplicate for Option<T> {
    fn duplicate(&self) -> Mem<Option<T>> {
        match self {
            Some(value) => Ok(Some(value.duplicate()?)),
            None => Ok(None),
        }
    }
}

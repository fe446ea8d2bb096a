// A copy that can fail for want of memory, and a comparison: both by equality of what contracts see.
ghost use Rattle.std.specs.Prelude.{◌≡◌, ◌↔◌, IfOk, IsTrue};

use std::alloc::{AllocError, Global};

/// A type whose values can be copied where memory lasts.
pub trait TryCopy: Drop {
    /// A value equal to this one. The only error is want of memory.
    fn try_copy(&self, alloc: Global) -> Result<Self, AllocError>
        ensures { IfOk result (λ copy. copy ≡ self.now) };
}

/// A type whose values can be compared.
pub trait Same {
    /// Whether the two values are equal.
    fn same(&self, other: &Self) -> bool
        ensures { IsTrue result ↔ (self.now ≡ other.now) };
}

impl TryCopy for u8 {
    fn try_copy(&self, _alloc: Global) -> Result<u8, AllocError> {
        Ok(*self)
    }
}

impl Same for u8 {
    fn same(&self, other: &u8) -> bool {
        *self == *other
    }
}

impl TryCopy for u32 {
    fn try_copy(&self, _alloc: Global) -> Result<u32, AllocError> {
        Ok(*self)
    }
}

impl Same for u32 {
    fn same(&self, other: &u32) -> bool {
        *self == *other
    }
}

impl TryCopy for i32 {
    fn try_copy(&self, _alloc: Global) -> Result<i32, AllocError> {
        Ok(*self)
    }
}

impl Same for i32 {
    fn same(&self, other: &i32) -> bool {
        *self == *other
    }
}

impl<T: TryCopy> TryCopy for Option<T> {
    fn try_copy(&self, alloc: Global) -> Result<Option<T>, AllocError> {
        match self {
            Some(value) => Ok(Some(value.try_copy(alloc)?)),
            None => Ok(None),
        }
    }
}

impl<T: Same> Same for Option<T> {
    fn same(&self, other: &Option<T>) -> bool {
        match (self, other) {
            (Some(left), Some(right)) => left.same(right),
            (None, None) => true,
            _ => false,
        }
    }
}

impl<T: TryCopy, U: TryCopy> TryCopy for (T, U) {
    fn try_copy(&self, alloc: Global) -> Result<(T, U), AllocError> {
        Ok((self.0.try_copy(alloc)?, self.1.try_copy(alloc)?))
    }
}

impl<T: Same, U: Same> Same for (T, U) {
    fn same(&self, other: &(T, U)) -> bool {
        self.0.same(&other.0) && self.1.same(&other.1)
    }
}

impl<T: TryCopy, U: TryCopy, V: TryCopy> TryCopy for (T, U, V) {
    fn try_copy(&self, alloc: Global) -> Result<(T, U, V), AllocError> {
        Ok((
            self.0.try_copy(alloc)?,
            self.1.try_copy(alloc)?,
            self.2.try_copy(alloc)?,
        ))
    }
}

impl<T: Same, U: Same, V: Same> Same for (T, U, V) {
    fn same(&self, other: &(T, U, V)) -> bool {
        self.0.same(&other.0) && self.1.same(&other.1) && self.2.same(&other.2)
    }
}

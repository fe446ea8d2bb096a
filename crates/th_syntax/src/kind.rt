// What a verifier knows of a slot.
use std::alloc::{AllocError, Global};
use th_base::{Same, TryCopy};

/// The kind of a slot of the local variables or of the operand stack before an instruction, as far as
/// all paths to it agree (Java specification 4.10.2.2).
#[derive(Clone, Copy, Debug, PartialEq, Eq)]
pub enum SlotKind {
    /// An `int`; also a `boolean`, a `byte`, a `char` or a `short` (Java specification 2.11.1).
    Int,
    /// Null, or the address of an object.
    Ref,
    /// A `long`, whose second half is in the next slot.
    Long,
    /// The second half of the `long` in the slot before it.
    SecondHalf,
    /// Nothing was stored into it, or the paths to it bring different kinds.
    Unusable,
}

impl TryCopy for SlotKind {
    fn try_copy(&self, _alloc: Global) -> Result<SlotKind, AllocError> {
        Ok(*self)
    }
}

impl Same for SlotKind {
    fn same(&self, other: &SlotKind) -> bool {
        *self == *other
    }
}

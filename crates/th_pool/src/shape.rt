// What descriptors ask for.
use std::alloc::{AllocError, Global};
use std::fmt;
use th_base::{Same, Seq, TryCopy};

/// What a value takes of the local variables and of the operand stack: an `Int` and a `Ref` one slot,
/// a `Long` two (Java specification 2.6.1). An `Int` is for `boolean`, `byte`, `char` and `short` too.
#[derive(Clone, Copy, Debug, PartialEq, Eq)]
pub enum Slot {
    Int,
    Long,
    Ref,
}

/// The parameters of a method, without the receiver, and its result, where it has one.
#[derive(Debug, Drop)]
pub struct MethodShape {
    pub params: Seq<Slot>,
    pub result: Option<Slot>,
}

/// What a field holds.
#[derive(Clone, Copy, Debug, PartialEq, Eq)]
pub struct FieldShape {
    pub slot: Slot,
}

/// Why a descriptor is refused.
#[derive(Clone, Copy, Debug, PartialEq, Eq)]
pub enum DescriptorFault {
    /// It is no descriptor (Java specification 4.3).
    Form,
    /// It is a descriptor that has `float` or `double`.
    FloatType,
}

impl fmt::Display for DescriptorFault {
    fn fmt<W: fmt::Write>(&self, f: &mut fmt::Formatter<W>) -> fmt::Result {
        match self {
            DescriptorFault::Form => write!(f, "the descriptor is ill-formed"),
            DescriptorFault::FloatType => write!(f, "the descriptor has float or double"),
        }
    }
}

impl TryCopy for Slot {
    fn try_copy(&self, _alloc: Global) -> Result<Slot, AllocError> {
        Ok(*self)
    }
}

impl Same for Slot {
    fn same(&self, other: &Slot) -> bool {
        *self == *other
    }
}

impl TryCopy for MethodShape {
    fn try_copy(&self, alloc: Global) -> Result<MethodShape, AllocError> {
        Ok(MethodShape {
            params: self.params.copy(alloc)?,
            result: self.result,
        })
    }
}

impl Same for MethodShape {
    fn same(&self, other: &MethodShape) -> bool {
        self.params.same(&other.params) && self.result == other.result
    }
}

// Small enumerations that class files and the register form share.
use crate::{Same, TryCopy};
use std::alloc::{AllocError, Global};

/// What the elements of an array are, as the array instructions see it (Java specification 2.11.1).
#[derive(Clone, Copy, Debug, PartialEq, Eq)]
pub enum Elem {
    /// `int`: 32 bits, signed.
    Int,
    /// A reference, or null.
    Ref,
    /// `byte` or `boolean`: 8 bits, signed.
    Byte,
    /// `char`: 16 bits, unsigned.
    Char,
    /// `short`: 16 bits, signed.
    Short,
}

/// An operation on two ints, or on two longs (Java specification 2.11.3). The second operand of a
/// shift is an int in both.
#[derive(Clone, Copy, Debug, PartialEq, Eq)]
pub enum ArithOp {
    /// `iadd`, `ladd`: the sum.
    Add,
    /// `isub`, `lsub`: the difference.
    Sub,
    /// `imul`, `lmul`: the product.
    Mul,
    /// `idiv`, `ldiv`: the quotient, rounded towards 0.
    Div,
    /// `irem`, `lrem`: the remainder of that quotient.
    Rem,
    /// `ishl`, `lshl`: a shift to the left, by the low five bits of the second, of a long by the
    /// low six.
    Shl,
    /// `ishr`, `lshr`: a shift to the right by as many bits, which keeps the sign.
    Shr,
    /// `iushr`, `lushr`: a shift to the right by as many bits, which fills with zeros.
    Ushr,
    /// `iand`, `land`: bitwise and.
    And,
    /// `ior`, `lor`: bitwise or.
    Or,
    /// `ixor`, `lxor`: bitwise exclusive or.
    Xor,
}

/// A narrowing of an int (Java specification 2.11.4).
#[derive(Clone, Copy, Debug, PartialEq, Eq)]
pub enum NarrowOp {
    /// `i2b`: to 8 bits, signed.
    Byte,
    /// `i2c`: to 16 bits, unsigned.
    Char,
    /// `i2s`: to 16 bits, signed.
    Short,
}

/// A comparison of two ints, in the order of the branch instructions (Java specification 2.11.7).
#[derive(Clone, Copy, Debug, PartialEq, Eq)]
pub enum Relation {
    /// Equal.
    Eq,
    /// Not equal.
    Ne,
    /// Less.
    Lt,
    /// Greater or equal.
    Ge,
    /// Greater.
    Gt,
    /// Less or equal.
    Le,
}

impl TryCopy for Elem {
    fn try_copy(&self, _alloc: Global) -> Result<Elem, AllocError> {
        Ok(*self)
    }
}

impl Same for Elem {
    fn same(&self, other: &Elem) -> bool {
        *self == *other
    }
}

impl TryCopy for ArithOp {
    fn try_copy(&self, _alloc: Global) -> Result<ArithOp, AllocError> {
        Ok(*self)
    }
}

impl Same for ArithOp {
    fn same(&self, other: &ArithOp) -> bool {
        *self == *other
    }
}

impl TryCopy for NarrowOp {
    fn try_copy(&self, _alloc: Global) -> Result<NarrowOp, AllocError> {
        Ok(*self)
    }
}

impl Same for NarrowOp {
    fn same(&self, other: &NarrowOp) -> bool {
        *self == *other
    }
}

impl TryCopy for Relation {
    fn try_copy(&self, _alloc: Global) -> Result<Relation, AllocError> {
        Ok(*self)
    }
}

impl Same for Relation {
    fn same(&self, other: &Relation) -> bool {
        *self == *other
    }
}

//! Integer arithmetic of the Java machine: 32 bits for `int`, 64 for `long`.
//!
//! Each call is one instruction's operation (Java specification 6.5, from `iadd` on) as a total
//! function, and takes no memory. The layer above uses one contract a call: the result equals the
//! definition of `specs/Arithmetic.antt`, which speaks of integers, their low-order bits and the
//! value of these bits in two's complement (`specs/TwosComplement.antt`). The machine's step cites
//! the same definitions. The module `laws` says what they mean: a sum, a difference or a negation
//! is the exact one plus 2^w times one of -1, 0 and 1.
#![tactic(auto)]

mod int;
pub mod laws;
mod long;
mod narrow;

pub use int::{add32, and32, div32, mul32, neg32, or32, rem32, shl32, shr32, sub32, ushr32, xor32};
pub use long::{
    add64, and64, compare64, div64, mul64, neg64, or64, rem64, shl64, shr64, sub64, ushr64, xor64,
};
pub use narrow::{low32, narrow_char, narrow8, narrow16, widen64};

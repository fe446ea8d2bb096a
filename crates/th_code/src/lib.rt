//! The instructions of a method's code.
//!
//! `decode` reads the instructions of a code array in one pass, and refuses the first check of the
//! code that fails. Each name that an instruction has is the shared text of the pool's entry.
//!
//! Its contract says that the instructions are those of th_syntax's `Decoding`, and a refusal the first
//! of the flaws that stand there; `specs/Judged.antt` has what a single opcode and its operands are.
#![tactic(auto)]

mod access;
mod bare;
mod branch;
mod by_opcode;
mod code_array;
mod constant;
mod control;
mod family;
mod flow;
mod member;
mod object;
mod operand;
mod plain;
mod switch;
mod wide;

pub use by_opcode::instruction;
pub use code_array::decode;
pub use operand::Taken;

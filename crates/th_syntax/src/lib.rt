//! Class files as values, and what they mean.
//!
//! `ClassFile` is what the bytes of a class file stand for, `Instr` an instruction of the profile,
//! `Refusal` and `Flaw` say why a file is refused.
//!
//! The definitions that the layers above cite stand in `specs/`: `ClassGrammar` relates bytes to the
//! class file that they stand for, `FirstFlaw` other bytes to the reason why they are refused, and
//! `Reader` is both as one function; docs/CLASS-FILES.md lists the checks. `cause`, `tag`, `opcode` and
//! `limit` name the numbers that they cite. `Machine` has the states of the machine that runs a
//! program, `Step` its steps, `Harness` the events that start code, `Run` its runs and `Joined` what a
//! static field leads to; `laws` has what every run keeps. docs/MACHINE.md tells the same in plain words.
#![tactic(auto)]

pub mod cause;
mod class_file;
mod event;
mod flags;
mod instr;
mod kind;
pub mod laws;
pub mod limit;
mod machine;
pub mod opcode;
mod program;
mod refusal;
pub mod tag;

pub use class_file::{ClassFile, Code, Constant, Member};
pub use event::Event;
pub use flags::{ACC_ABSTRACT, ACC_INTERFACE, ACC_NATIVE, ACC_PRIVATE, ACC_STATIC, has_flag};
pub use instr::{Instr, MemberRef, OUTSIDE, Primitive, StackOp};
pub use kind::SlotKind;
pub use machine::{
    Frame, InitStage, LaunchStage, Launched, MOST_VALUES_HELD, Mark, Object, Slot, State, Value,
};
pub use program::Program;
pub use refusal::{Flaw, Refusal};

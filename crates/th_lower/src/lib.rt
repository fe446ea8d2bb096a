//! The register form of a program of class files: flow edges, the names of registers, the statement of
//! each instruction, the numbers of registers, nodes and sites, and the methods of the harness.
//!
//! So far it has definitions and laws. `IsRegisterForm` (`specs/RegisterForm.antt`) says what the form of
//! linked class files with the kinds of their methods is, under a lifecycle. By law each place with an int or
//! a reference before an instruction is one register, of the place's kind, and never the register that the
//! instruction makes; class files that were read have one form at most; small programs and their forms, both
//! by hand, are worked out. docs/REGISTER-FORM.md tells it in words.
#![tactic(auto)]

mod flow;
pub mod laws;
mod opening;
mod row;
mod slots;
mod source;

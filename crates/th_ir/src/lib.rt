//! The register form of a program, what is known of it, and what its runs keep.
//!
//! A program in register form is nodes with statements over registers (`RegProgram`); points-to
//! facts and the call graph (`Facts`), summaries of methods (`Mods`), the heap graph and a whole
//! plan are plain values that the layers above make. Nothing runs here: the register machine, the
//! rules of the facts, well-formed programs and whole plans are definitions in `specs/`.
//!
//! The layers above use the laws of the module `laws`: every reachable state keeps the invariant
//! `IsGood` and is covered by the facts, calls nest, and a call changes only what its summary says.
#![tactic(auto)]

mod facts;
mod field;
mod graph;
mod harness;
pub mod laws;
mod plan;
mod program;
mod stmt;

pub use facts::{Facts, Mods};
pub use field::{FieldKind, LENGTH, STAGE, class_has, field_kind, field_known, has_field};
pub use graph::{Alarm, Edge, Graph, Producer};
pub use harness::{HarnessKind, harness_kind};
pub use plan::{MOST_ALARMS, MOST_EDGES, MOST_NODES, MOST_PAIRS, MOST_REGISTERS, MOST_SITES, Plan};
pub use program::{Method, Node, Place, RegProgram, Site};
pub use stmt::{CallKind, Condition, Stmt};

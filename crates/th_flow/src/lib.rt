//! What leads where in a program in register form: the predecessors of each node, the callers of
//! each method, the nodes that may enter each initialiser, and the loop heads.
//!
//! The layers above use that each list has exactly the nodes of its definition, ascending
//! (`ListEach`). `specs/Flows.antt` has the definitions; what flows where within a method is in
//! `th_ir/specs/Flow.antt`.
#![tactic(auto)]

mod entries;
mod heads;
mod initialising;
mod inverted;
mod sources;

pub use entries::{entered_method, merge_registers};
pub use heads::loop_heads;
pub use sources::{callers, init_sites, predecessors};

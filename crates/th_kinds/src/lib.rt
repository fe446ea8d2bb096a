//! The kinds of the slots before each instruction of a method.
//!
//! `infer` gives the least kinds of a method's code, or its first conflict; `Kinds` keeps them at the
//! targets of jumps, and `KindsWalk` goes through all of them. Contracts see both as the list that
//! th_syntax's `KindTable` defines (`AreKinds`, `HasFirstConflict`); docs/KINDS.md tells the same in
//! plain words, and how the kinds are computed.
//!
//! `Flowing` has the condition on code, which the law `class_files_flow_well` gives; `Walk`, `Kept` and
//! `Listings` are private to the computation.
#![tactic(auto)]

mod behind;
mod conflict;
mod entry;
mod first;
mod flowing;
mod inference;
mod kept;
pub mod laws;
mod listing;
mod queue;
mod row;
mod search;
mod settle;
mod state;
mod table;
mod walk;

pub use flowing::flows_well;
pub use inference::{KIND_CONFLICT, infer};
pub use table::{Kinds, KindsRow, KindsWalk};

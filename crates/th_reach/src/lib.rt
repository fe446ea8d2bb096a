//! Which instructions of a method's code are reached.
//!
//! `Reached::new` visits a method's code from its start and keeps the offsets to which paths lead;
//! `Reached::contains` answers of an offset whether one does. Contracts cite `is_reached` of th_syntax's
//! `Flow`, which by that crate's law `reached_offsets_are_found` holds exactly where a path leads to the
//! offset. Entries of the exception table are never followed.
#![tactic(auto)]

mod reached;
mod visit;

pub use reached::Reached;

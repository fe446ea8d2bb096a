//! What each method of a program may change: a summary for each, with all that it may call and
//! initialise.
//!
//! The layers above use that `summaries` lists the least summaries of a program and its facts
//! (`LeastMods` of `th_ir`). They are found as the least sets under inclusions: what a callee writes
//! and makes its caller does too, and so with initialisers. `specs/Systems.antt` has the inclusions;
//! what summaries mean, and that a method changes nothing else, is said in `th_ir`.
#![tactic(auto)]

mod adding;
mod effect;
mod inclusions;
pub mod laws;
mod lists;
mod places;
mod routes;
mod summary;

pub use summary::summaries;

//! Which files are accepted as a program.
//!
//! `accept` reads files into class files, links them and infers the kinds of their methods. By its
//! clauses it gives a program of accepted files alone, and a refusal only where it is the first, both
//! as `specs/Accepted.antt` says; by the law `one_outcome` files are accepted as one program at most,
//! and have one first refusal at most, and not both.
//!
//! Files are read, and kinds inferred, in as many threads as there are processors; `answers` takes the
//! first refusal of their answers in order, so that the schedule shows nowhere.
#![tactic(auto)]

mod answers;
mod kinds;
pub mod laws;
mod program;
mod reading;

pub use program::{accept, can_accept};

//! The least sets under filtered inclusions, by a solver that can be added to.
//!
//! Sets are to hold base numbers, and what other sets hold and filters pass. A run propagates what
//! is new in each set, so that each pair of an inclusion and a number is looked at once, and a run
//! after an addition does the new work alone; docs/INCLUSION.md has the cost.
//!
//! The layers above use that after `Solver::run` the sets are the least ones of all constraints so
//! far (`IsLeast`), and that an addition changes nothing else. `specs/Least.antt` has what that
//! means, `specs/View.antt` what contracts see of a solver, and `laws` what readers expect of both.
#![tactic(auto)]

mod additions;
mod constraints;
mod filter;
mod grown;
pub mod laws;
mod news;
mod passing;
mod run;
mod solver;
mod system;
mod work;

pub use constraints::{Constraints, Inclusion};
pub use solver::{Solver, solve};

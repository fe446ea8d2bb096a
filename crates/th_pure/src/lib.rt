//! Whether integers in given ranges can satisfy linear facts.
//!
//! `refutes` answers yes where no integers can, as far as it finds out: it takes variables out by
//! equations, then eliminates the others from the inequalities one by one, rounding each to whole
//! bounds. It gives up, and answers no, where facts become too many or numbers too large. The layer
//! above uses that the answer is a function of the facts and ranges, and that yes is right.
//!
//! The steps stand in `specs/Division.antt`, `specs/Substitution.antt`, `specs/Bounds.antt` and
//! `specs/Elimination.antt`, the whole in `specs/Refutation.antt`, and what a solution is in
//! `specs/Solutions.antt`. docs/LINEAR.md says the same in plain words.
#![tactic(auto)]

mod bounds;
mod distinct;
mod division;
mod elimination;
mod facts;
pub mod laws;
mod products;
mod range;
mod refutation;
mod substitution;

pub use range::Range;
pub use refutation::refutes;

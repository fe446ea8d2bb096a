//! Linear facts over integers, and the exact steps on them.
//!
//! A fact is a sum of variables with coefficients, plus a constant, that is 0, at most 0, or not 0.
//! `normal` divides a fact by the greatest common divisor of its coefficients, `substitute` takes a
//! variable out by an equation, and `combine` adds multiples of two facts. Each equals a function of
//! its arguments and keeps, or follows from, what the facts say; the layer above uses both.
//!
//! Facts and what satisfies them stand in `specs/Forms.antt`, division in `specs/Normal.antt` and
//! `specs/Divided.antt`, sums of multiples in `specs/Mixed.antt` and `specs/Summed.antt`, terms in any
//! order and new names of variables in `specs/Gathered.antt`. The laws in `laws` say that these
//! definitions agree, and that each determines one result.
#![tactic(auto)]

mod division;
mod divisor;
mod fact;
mod gathering;
pub mod laws;
mod mixture;

pub use division::{NormalForm, normal};
pub use divisor::{gcd, magnitude};
pub use fact::{Lin, MAGNITUDE_LIMIT, Rel};
pub use mixture::{Judgement, combine, judge, substitute};

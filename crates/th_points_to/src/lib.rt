//! The points-to facts and the call graph of a program in register form.
//!
//! The layers above use that `analyse` gives exactly the least facts under the twelve rules, or that
//! they hold too many pairs (`LeastFacts` and the rules are `th_ir`'s). The facts are found as the
//! least sets under inclusions that are added while they grow: `specs/Asked.antt` has what a node asks
//! of facts, `specs/Found.antt` what is asked so far. docs/POINTS-TO.md has the algorithm and its cost.
#![tactic(auto)]

mod begin;
mod filters;
mod flows;
mod found;
mod initialisers;
mod layout;
mod listing;
mod nodes;
mod opening;
mod place;
mod registers;
mod rounds;
mod rows;
mod solution;
mod tables;
mod targets;

pub use solution::{Analysis, analyse};

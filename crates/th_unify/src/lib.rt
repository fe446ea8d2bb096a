//! The first step of the canonical form of a query: symbols that stand for one value become one.
//!
//! `unify` makes the symbols of two facts with one key one: the least number stands for them, each key
//! has one fact, and each symbol is narrowed by those that it stands for. `names_of` says for each symbol
//! of a query the least that is one with it (`th_query/specs/Unified.antt`). What the step means for the
//! states that meet a query is said by the laws of `th_query`.
#![tactic(auto)]

mod classes;
mod narrowing;
mod unifying;

pub use classes::names_of;
pub use unifying::unify;

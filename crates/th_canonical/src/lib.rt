//! The calls on queries of a backward search.
//!
//! `canonical` brings a query to its canonical form, by the steps of `th_unify`, `th_narrow` and
//! `th_steps` one after the other (`th_query/specs/Canonical.antt`), and `start_query` makes the query
//! with which the search for an edge starts at what may make it true (`th_query/specs/Start.antt`).
//! `is_contradiction` says whether a query is a contradiction (`th_query/specs/Contradiction.antt`),
//! `subsumed` whether a query says all that another does (`th_query/specs/Subsumed.antt`), and
//! `admits_initial` whether the initial state may meet a query (`th_query/specs/Initial.antt`). Each
//! call equals its definition. What the answers mean for the states that meet a query is said by the
//! laws of `th_query`.
#![tactic(auto)]

mod contradiction;
mod forming;
mod initial;
mod starting;
mod subsumption;

pub use contradiction::is_contradiction;
pub use forming::canonical;
pub use initial::admits_initial;
pub use starting::start_query;
pub use subsumption::subsumed;

//! Steps that bring a query to its canonical form, and what they are made of.
//!
//! Each call equals its definition in `th_query`: `prune` takes away the differences of symbols that
//! nothing names, `settle` divides linear facts and takes away repeats, `limit` brings a query within
//! its limits (`th_query/specs/Settled.antt`), and `number` numbers its symbols anew
//! (`th_query/specs/Numbered.antt`). What the steps mean for the states that meet a query is said by
//! the laws of `th_query`.
//!
//! The modules `sorting`, `firsts` and `turning` work on lists of any items.
#![tactic(auto)]

mod firsts;
mod known;
mod limits;
mod mentioning;
mod numbering;
mod ordering;
mod renaming;
mod settling;
mod sorting;
mod turning;

pub use firsts::{Alike, keep_firsts};
pub use known::are_known;
pub use limits::{limit, prune};
pub use numbering::{Renaming, name, number};
pub use renaming::rename_facts;
pub use settling::settle;
pub use sorting::{Key, sort, sort_seq};
pub use turning::{Turn, turn_all, turn_each, turn_seq};

//! The least path of the heap graph from a static field to a site, without the edges of a cut.
//!
//! Paths are compared by length, then by the list of their edge numbers. A `PathIndex` is made once
//! for a graph and asked many times: `least_path` searches level by level from the edges of the
//! field and stops at the first site of the goal, `least_paths` answers many goals by one search.
//!
//! The layers above use that an answer is the least of all paths, and none exactly where there is no
//! path (`TellsLeast`). `specs/Paths.antt` has what that means; `specs/Links.antt` and
//! `specs/Search.antt` are private, and `laws` has what readers expect of paths and their order.
#![tactic(auto)]

mod index;
pub mod laws;
mod links;
mod search;
mod trace;

pub use index::{PathIndex, least_path};

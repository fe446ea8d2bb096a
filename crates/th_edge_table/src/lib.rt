//! A table of edges that threads share: each edge is claimed once, and what is published of it stays.
//!
//! A worker holds a `Seat` and steps on the table with it: it looks at an edge's word, claims the
//! edge, publishes its verdict, gives a part of its seat to another worker, and takes that worker's
//! seat back. Each step is one atomic step, and changes the seat as the core's event of that name does
//! (`specs/Core.antt`). Contracts see a seat as the lists of what it has seen, claimed and done.
//!
//! The layer above uses that `close` gives exactly the verdicts in the joined seat's `done`, and that
//! a seat's own knowledge holds of the word that it finds (`Faithful`). Both rest on the six facts
//! (`specs/Facts.antt`), which are the rule of the running table and hold after every list of events
//! (`laws::schedules`). `replay` is the core as a call.
#![tactic(auto)]

mod encoding;
mod events;
pub mod laws;
mod rule;
mod state;
mod table;
mod word;

pub use events::replay;
pub use state::{BadEvent, CoreEvent, CoreSeat, CoreState, PARTS};
pub use table::{EdgeTable, MOST_EDGES, Seat};
pub use word::{Claim, Kind, Verdict, Word};

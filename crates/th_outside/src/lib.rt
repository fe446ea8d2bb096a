//! What the program reads, writes and is told from outside, as traits.
//!
//! `Files` is a store of files by name, `Sink` takes bytes, and `Gate` is told of each test that a
//! worker is about to make. `MemFiles` and `MemSink` keep everything in memory and fail where they
//! are told to; `HostFiles` and `HostSink` stand over the real files and streams.
//!
//! The layers above use the traits' clauses: a count of faults rises exactly in the calls that
//! answer a failure, and what is read and written is what the object tells, where it tells
//! anything. The words of these clauses stand in `specs/`: `Store`, `Faults` and `Held`.
#![tactic(auto)]

mod files;
mod gate;
mod host;
mod memory;
mod sink;

pub use files::{Files, ReadError};
pub use gate::{Gate, NoGate};
pub use host::{HostFiles, HostSink};
pub use memory::{MemFiles, MemSink};
pub use sink::{Failed, Sink};

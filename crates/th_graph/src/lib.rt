//! The heap graph of a program's facts, its alarms, and what may make each edge true.
//!
//! `heap_graph`, `alarms` and `producers` make exactly what `th_ir/specs/Graph.antt` defines;
//! `edges_pass` and `alarms_pass` answer whether there are more than a limit. `StoreIndex` serves
//! many edges.
//!
//! The layers above use the laws of the module `laws`: what is joined in a reachable state is an
//! alarm, and where a state of a run realises an edge, one of the run stood at a producer
//! (`specs/Joined.antt`, `specs/Produced.antt`).
#![tactic(auto)]

mod alarm_search;
mod edges;
pub mod laws;
mod statics;
mod storable;
mod store_index;
mod targets;

pub use alarm_search::{alarms, alarms_pass};
pub use edges::{edges_pass, heap_graph};
pub use store_index::{StoreIndex, producers};

//! The coarse report: which static fields may keep an Activity alive, as far as reachable stores and new
//! objects show, and the text of a report.
//!
//! `coarse_alarms` finds the coarse alarms of a program, exactly those of `specs/Coarse.antt`, and tells
//! whether they are too many before any is made. `write_report` writes a list of alarms, each of which is
//! filtered or survives, as `specs/Report.antt` has it; a later report has other marks and the same text.
//! `laws::joined_pairs_are_alarms` says why a coarse report is safe: what a run joins is a coarse alarm.
#![tactic(auto)]

mod alarms;
mod fields;
mod judged;
pub mod laws;
mod made;
mod numbers;
mod reached;
mod report;
mod texts;

pub use alarms::{CoarseAlarms, MOST_ALARMS, coarse_alarms};
pub use judged::{Judged, Mark, some_survive};
pub use report::write_report;
pub use texts::write_pair;

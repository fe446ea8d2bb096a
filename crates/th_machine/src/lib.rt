//! The machine that runs a program.
//!
//! `Machine::start` stands in the initial state, `Machine::event` makes an event and the steps after it, and
//! `Machine::step` one step. In a verified program these are the event and the steps of the machine's
//! definitions, and `Full` comes exactly where the next state has no room (`specs/Running.antt`). Inside, a state
//! is taken apart into the frame on top and the rest (`Standing`); a step goes by the acts of `th_acts` and the
//! table of `th_resolved` (`Stepping`), an event by `Happening`, and `laws` say that the step by the table is that
//! of the definitions.
#![tactic(auto, unfolding(th_syntax::specs::Effects::needs))]

mod acting;
mod beginning;
mod calling;
mod going;
mod happening;
mod held;
/// Laws of steps.
pub mod laws;
mod leading;
mod machine;
mod moving;
mod objects;
mod opening;
mod outcome;
mod reached;
mod report;
mod returning;
mod script;
mod slots;
mod standing;
mod starting;
mod stepping;
mod writing;

pub use machine::{Answered, Machine};
pub use outcome::{Outcome, Stepped};
pub use report::{Report, ScriptFault};
pub use script::run_script;

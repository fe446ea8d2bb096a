//! The harness's side of a run: which classes it launches, which handlers it calls, and scripts of such
//! events.
//!
//! `read_script` reads a script's lines into the events of the machine, or refuses the first line that
//! has no form of a line, and then the first launch of a class that isn't launchable; `check_form` looks
//! at the lines alone. Both equal `specs/Script.antt`. `activities` lists the launchable classes of a
//! program. The events themselves are defined in th_syntax's `Harness`; docs/MACHINE.md has the form of
//! scripts.
#![tactic(auto)]

mod launches;
pub mod laws;
mod line;
mod named;
mod number_word;
mod script;
mod script_error;

pub use launches::{activities, is_launchable};
pub use named::class_named;
pub use script::{check_form, handlers, read_script};
pub use script_error::ScriptError;

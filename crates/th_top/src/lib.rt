//! The top call: words, files and sinks in, a status out.
//!
//! `thresher` reads the words, reads the files that they name, and writes the report of their program,
//! or what comes of a script in it. Its clauses say exactly which status comes when and what is written,
//! and that every static field and Activity class that some run joins survives in the report.
//! `host_words` is where the words of a program come from.
//!
//! `specs/` has which files are a program (`Program`), what comes of a command (`Outcome`), the output
//! of a run (`RunText`), the lines on the errors (`Lines`), what is written (`Writing`), and what the
//! clauses say (`Answer`); `laws` has what holds of outcomes apart from the program.
#![tactic(auto)]

mod accepting;
mod checking;
mod decide;
mod host;
pub mod laws;
mod lines;
mod run_text;
mod running;
mod shown;
mod status;
mod top;
mod writing;

pub use host::host_words;
pub use shown::Decided;
pub use status::Status;
pub use top::thresher;

//! The reading of all files that a command names: the list of names, and then the class files.
//!
//! `read_class_files` reads the list, and then each class file in order, and gives the names with their
//! contents; or it tells what ended the reading: a missing file, a failed call of the store, a bad line
//! of the list, or a limit. Its contract says that the answer is an input as `specs/Input.antt` defines
//! it, and that a failure is answered exactly where the store's count of faults rose; by the law
//! `one_input` a store that tells what it holds has one input, so each answer comes exactly where its
//! definition says.
//!
//! `read_scripted` does the same where a command names a script: it reads the script, and then the class
//! files (`specs/Scripted.antt`, law `one_scripted_input`).
//!
//! What the lines of a list name stands in `specs/Listing.antt`, what is read of one file in
//! `specs/Fetching.antt`.
#![tactic(auto)]

mod class_files;
mod fetching;
pub mod laws;
mod limit;
mod listing;
mod scripted;
mod unread;

pub use class_files::read_class_files;
pub use fetching::{FetchFault, read_file};
pub use limit::{MOST_BYTES, MOST_CLASS_FILES, MOST_FILE_BYTES};
pub use scripted::{Scripted, read_scripted};
pub use unread::Unread;

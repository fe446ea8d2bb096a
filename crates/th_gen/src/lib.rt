//! The writer of class files, and the generated program.
//!
//! A `ClassWriter` is a class as plain data: names, members and instructions, whose branches lead to
//! places of instructions. `finish` gives its bytes (`ClassText` in `specs/`), which stand for the class
//! file `ClassValue` where names and instructions pass the checks (`Passing`), or refuses a class that
//! has no room. `generate` makes the files of the generated program, whose classes stand in `Generated`.
//! The layer above uses the clauses of these two. docs/GENERATOR.md tells the same in plain words.
#![tactic(auto)]

mod activities;
mod code;
mod draft;
mod finish;
mod generator;
mod item;
pub mod laws;
mod parts;
mod placing;
mod pool;
mod spelling;
mod vector;
mod write;

pub use draft::{ClassWriter, DraftField, DraftMethod};
pub use generator::{MOST_GENERATED, generate};
pub use item::PoolItem;
pub use pool::TooLarge;
pub use spelling::Spelling;

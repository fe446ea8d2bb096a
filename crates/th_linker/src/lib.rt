//! Links class files with each other.
//!
//! `link` makes a program of class files, or refuses them for the first check that fails. By its
//! clauses the files that it takes are linked, and a refusal is the first one: both as th_syntax's
//! `Linking` says, by whose laws there is one first refusal at most, and none of linked files.
//!
//! It makes the passes of `docs/LINKING.md` in order: `names`, `supertypes` with `hierarchy`, `members`,
//! and `uses`, and then counts. The first two look classes up in a table of names (`classes`), the others in
//! the program that the first two give. Each check equals its definition in th_syntax's `LinkChecks`.
#![tactic(auto)]

mod built_in;
mod classes;
mod element;
mod hierarchy;
mod infos;
mod linkable;
mod linker;
mod member_text;
mod members;
mod named;
mod names;
mod program;
mod refuse;
mod site;
mod supertypes;
mod uses;

pub use linkable::{MOST_FILES, MOST_MEMBERS, can_link};
pub use linker::link;

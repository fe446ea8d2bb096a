//! The reader of class files.
//!
//! `read_class` gives the class file that bytes stand for, or refuses them for their first flaw. By
//! its clause `exact` it equals `reading` of th_syntax's `Reader`, which by the law `one_reading` is
//! the grammar of class files (`ClassGrammar`) and of first flaws (`FirstFlaw`).
//!
//! It makes four passes. `class_layout` reads the items, in one pass over the bytes; `indices` checks
//! what each index leads to, `names` checks names and descriptors, and `value` checks what members
//! hold while it follows the indices to the value. Each pass answers the first of its own flaws.
#![tactic(auto)]

mod attributes;
mod class_layout;
mod code_layout;
mod codes;
mod constants;
mod indices;
pub mod laws;
mod layout;
mod members;
mod names;
mod reader;
mod value;

pub use reader::read_class;

//! The constant pool of a class file, and descriptors.
//!
//! `read_pool` reads the pool from a file's bytes and refuses the first thing wrong with its items,
//! `Pool::check` refuses the first entry that leads to one of a wrong tag. Behind both, the readers
//! of `Pool` give what an index leads to in one step. Each Utf8 entry is one `PoolText`, which was
//! looked at once: what it may be the name or the descriptor of is answered in one step, however
//! often it is asked. `parse_field` and `parse_method` give what a descriptor asks for.
//!
//! `Place` with `run`, `u1`, `u2` and `u4` reads the items of a class file.
//!
//! Contracts see a pool as `Pool` of th_syntax's `ClassBytes`, which has the form of its bytes;
//! `PoolChecks` has what indices lead to, and `Descriptors` the types that descriptors spell.
#![tactic(auto)]

mod check;
mod content;
mod descriptor;
mod entry;
mod items;
mod lookup;
mod names;
mod parse;
mod place;
mod pool;
mod pool_text;
mod shape;
mod slots;

pub use items::{run, u1, u2, u4};
pub use lookup::PoolMember;
pub use names::{
    is_class_initialiser, is_class_name, is_field_name, is_initialiser, is_method_name,
};
pub use parse::{field_fault, method_fault, parse_field, parse_method};
pub use place::Place;
pub use pool::{Pool, read_pool};
pub use pool_text::PoolText;
pub use shape::{DescriptorFault, FieldShape, MethodShape, Slot};

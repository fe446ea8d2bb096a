//! What the machine's instructions do.
//!
//! `act_of` finds out what an instruction does to a state with a code frame on top, as an `Act`: a few
//! numbers that say which slots go and what comes, and nothing is changed. What it needs of the program
//! comes from the table of `th_resolved`. Its contract says that the act means exactly the effect that
//! the machine's definitions give (`specs/Acts.antt`), where an instruction that can't run ends the run;
//! `laws` say that a verified program has the operands of the table.
#![tactic(auto, unfolding(th_syntax::specs::Effects::needs, th_syntax::specs::Effects::or_ends, th_syntax::specs::Effects::ends_unless, th_syntax::specs::Effects::either_of, th_syntax::specs::Effects::initialised))]

mod act;
mod arrays;
mod branches;
mod calls;
mod computing;
mod fields;
mod hierarchy;
mod instructions;
/// Laws about the definitions.
pub mod laws;
mod look;
mod moves;
mod objects;
mod peek;
mod types;

pub use act::Act;
pub use instructions::act_of;
pub use look::Look;

//! What a backward search knows of a state: queries, when a state meets one, and what may be done
//! with them.
//!
//! A query has symbols for the values of registers, static fields, fields of objects and elements of
//! arrays, what each symbol may stand for, which are different, and linear facts of the numbers.
//! `specs/Meets.antt` says when a state meets a query, and `specs/Canonical.antt` what its canonical
//! form is, in six steps with a module each. The crates above make these forms; here stand the types,
//! their copies and comparisons, the definitions, and the laws on them in the module `laws`.
#![tactic(auto)]

pub mod laws;
mod query;
mod sites;

pub use query::{
    Cell, Element, Frame, Link, MOST_DIFFERENCES, MOST_FACTS, MOST_FRAMES, MOST_LINKS,
    MOST_REGISTERS, MOST_STATICS, Query, Slot, Sym,
};
pub use sites::Sites;

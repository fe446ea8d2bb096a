// What starts code in a state without frames.
use std::alloc::{AllocError, Global};
use th_base::{ClassId, Same, TryCopy};

/// What the harness does in a state without frames.
#[derive(Clone, Copy, Debug, PartialEq, Eq)]
pub enum Event {
    /// It launches an object of a class.
    Launch(ClassId),
    /// It calls a handler on a launched object.
    Handler {
        /// The object, counted from 1 in the order of the launches.
        object: u32,
        /// The handler's place among the handlers, from 0.
        handler: u8,
        /// Whether a handler that takes a Bundle is given a fresh one, and not null.
        bundle: bool,
    },
}

impl TryCopy for Event {
    fn try_copy(&self, _alloc: Global) -> Result<Event, AllocError> {
        Ok(*self)
    }
}

impl Same for Event {
    fn same(&self, other: &Event) -> bool {
        *self == *other
    }
}

// Which handlers the harness may call on a launched object.
use crate::{Same, TryCopy};
use std::alloc::{AllocError, Global};

/// The lifecycle that the harness follows. Both are this project's own.
#[derive(Clone, Copy, Debug, PartialEq, Eq)]
pub enum Lifecycle {
    /// Any handler may be called on any launched object, at any time.
    Any,
    /// Handlers follow the documented chart of an Activity's lifecycle, by the object's stage.
    Chart,
}

impl TryCopy for Lifecycle {
    fn try_copy(&self, _alloc: Global) -> Result<Lifecycle, AllocError> {
        Ok(*self)
    }
}

impl Same for Lifecycle {
    fn same(&self, other: &Lifecycle) -> bool {
        *self == *other
    }
}

// The answer of a call that can refuse its input or want memory.
ghost use Rattle.std.specs.Prelude.{◌≡◌};
ghost use Rattle.th_base.specs.declared.fail.Fail.TheVariants.{NoMemory};

use std::alloc::{AllocError, AllocFailed};
use std::error::Error;
use std::fmt;

/// Why a call gave no value.
#[derive(Clone, Copy, Debug, PartialEq, Eq, Drop)]
pub enum Fail<R> {
    /// The input is refused, for this reason.
    Refused(R),
    /// Want of memory. It is no other cause, and comes in no other's place.
    NoMemory,
}

impl<R: fmt::Display> fmt::Display for Fail<R> {
    fn fmt<W: fmt::Write>(&self, f: &mut fmt::Formatter<W>) -> fmt::Result {
        match self {
            Fail::Refused(reason) => write!(f, "{reason}"),
            Fail::NoMemory => f.write_str("no memory"),
        }
    }
}

impl<R: Error> Error for Fail<R> {}

impl<R> From<AllocError> for Fail<R> {
    ghost from_gives = { λ _ fail. fail ≡ NoMemory };

    fn from(_error: AllocError) -> Fail<R> {
        Fail::NoMemory
    }
}

impl<R, T: Drop> From<AllocFailed<T>> for Fail<R> {
    ghost from_gives = { λ _ fail. fail ≡ NoMemory };

    fn from(_error: AllocFailed<T>) -> Fail<R> {
        Fail::NoMemory
    }
}

// Why an input is refused.
use std::alloc::{AllocError, Global};
use th_base::{Same, Text, TryCopy};

/// The first cause for which a program is refused.
#[derive(Debug, Drop)]
pub struct Refusal {
    /// The number of the cause, as `5` of E5.
    pub number: u8,
    /// The file or class that is refused; empty where the cause lies in none.
    pub class: Text,
    /// The member, the name or the quantity that is at fault, or empty.
    pub member: Text,
    /// An offset in bytes, of the file or of the member's code, or 0.
    pub offset: u32,
}

/// A cause within a file whose name isn't known yet.
#[derive(Clone, Copy, Debug, PartialEq, Eq)]
pub struct Flaw {
    /// The number of the cause.
    pub number: u8,
    /// The offset in bytes in the file.
    pub offset: u32,
}

impl TryCopy for Refusal {
    fn try_copy(&self, alloc: Global) -> Result<Refusal, AllocError> {
        Ok(Refusal {
            number: self.number,
            class: self.class.copy(alloc)?,
            member: self.member.copy(alloc)?,
            offset: self.offset,
        })
    }
}

impl Same for Refusal {
    fn same(&self, other: &Refusal) -> bool {
        self.number == other.number
            && self.class.same(&other.class)
            && self.member.same(&other.member)
            && self.offset == other.offset
    }
}

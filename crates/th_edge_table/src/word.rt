// What the table says of an edge, and what a claim found.
use std::alloc::{AllocError, Global};
use std::cmp::Eq;
use th_base::{Same, TryCopy};

/// How the backward search of an edge ended.
#[derive(Clone, Copy, Debug, PartialEq, Eq)]
pub enum Kind {
    /// No run makes the edge.
    Refuted,
    /// A query admits the initial state.
    Witnessed,
    /// The search took as many queries as its budget allows, and one was left.
    OutOfBudget,
}

/// What the search of an edge found.
#[derive(Clone, Copy, Debug, PartialEq, Eq)]
pub struct Verdict {
    pub kind: Kind,
    /// How many queries the search took.
    pub steps: u32,
}

/// The word of an edge.
#[derive(Clone, Copy, Debug, PartialEq, Eq)]
pub enum Word {
    /// No seat has claimed the edge.
    Free,
    /// One seat has claimed the edge, and no verdict is published yet.
    Claimed,
    /// The verdict of the edge, which never changes again.
    Decided(Verdict),
}

/// What a claim found.
#[derive(Clone, Copy, Debug, PartialEq, Eq)]
pub enum Claim {
    /// The edge was free, and is now in flight in the seat that claimed it.
    Got,
    /// The word that the edge had at the claim's step: never `Word::Free`.
    Taken(Word),
}

impl TryCopy for Verdict {
    fn try_copy(&self, _alloc: Global) -> Result<Verdict, AllocError> {
        Ok(*self)
    }
}

impl Same for Verdict {
    fn same(&self, other: &Verdict) -> bool {
        *self == *other
    }
}

impl TryCopy for Word {
    fn try_copy(&self, _alloc: Global) -> Result<Word, AllocError> {
        Ok(*self)
    }
}

impl Same for Word {
    fn same(&self, other: &Word) -> bool {
        *self == *other
    }
}

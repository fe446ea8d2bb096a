// What sets are to hold.
use th_base::{IdSet, Seq};

/// What is in one set and in a filter is in another set too. Sets and filters go by their numbers,
/// from 0.
#[derive(Clone, Copy, Debug, Drop)]
pub struct Inclusion {
    pub from: usize,
    pub to: usize,
    pub filter: usize,
}

/// How many sets there are, numbers that are in a set from the beginning, inclusions, and the
/// filters that they name.
#[derive(Debug, Drop)]
pub struct Constraints {
    pub sets: usize,
    pub base: Seq<(usize, u32)>,
    pub copies: Seq<Inclusion>,
    pub filters: Seq<IdSet>,
}

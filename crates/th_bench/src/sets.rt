// Sets of numbers that take in others.
use std::alloc::{AllocError, Global};
use th_base::IdSet;

// How many sets are taken in.
const ROUNDS: u32 = 64;

// So many numbers, one in `ROUNDS` from a first one on.
fn every(alloc: Global, first: u32, count: u32) -> Result<IdSet, AllocError> {
    let mut set = IdSet::new(alloc);
    for number in 0..count {
        set.insert(number.wrapping_mul(ROUNDS).wrapping_add(first))?;
    }
    Ok(set)
}

// Takes in sets of so many numbers each, none of which is in another, and counts all that were new.
pub(crate) fn merges(alloc: Global, size: u32) -> Result<u64, AllocError> {
    let mut all = IdSet::new(alloc);
    let mut new = 0u64;
    for first in 0..ROUNDS {
        let mut news = every(alloc, first, size)?;
        all.insert_new(&mut news)?;
        new = new.wrapping_add(news.len() as u64);
    }
    Ok(new)
}

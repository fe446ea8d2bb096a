// A filter, which most often passes every number that there is.
ghost use Rattle.std.specs.Prelude.{◌≡◌, ◌<◌, ℕ, true, IfOk};
ghost use Rattle.th_base.specs.IdSet.{has};

use std::alloc::{AllocError, Global};
use std::marker::Model;
use th_base::{IdSet, Seq};

// Numbers that pass: each one below a bound, and those of a set. So a filter of all numbers is one
// comparison.
#[derive(Debug, Drop)]
pub(crate) struct Filter {
    ids: IdSet,
    below: u32,
}

impl Model for Filter {
    ghost use Rattle.std.specs.Prelude.{◌≡◌, ◌<◌, ℕ, List, true};
    ghost use Rattle.th_base.specs.IdSet.{has};

    ghost Value = { List ℕ };

    ghost view = { λ f. f.ids };

    ghost invariant = { λ f. (x : ℕ) → x < f.below → has f.ids x ≡ true };
}

impl Filter {
    // The filter that these numbers pass. Takes no memory.
    pub(crate) fn new(ids: IdSet) -> Filter
        ensures { result ≡ ids }
    {
        let below = first_missing(ids.ids());
        Filter { ids, below }
    }

    // Whether a number passes.
    pub(crate) fn passes(&self, id: u32) -> bool
        ensures { result ≡ has self.now id }
    {
        id < self.below || self.ids.contains(id)
    }
}

// How many numbers stand at the front of a list as 0, 1, 2 and so on.
fn first_missing(ids: &[u32]) -> u32
    ensures { (x : ℕ) → x < result → has ids.now x ≡ true }
{
    let mut below = 0;
    for id in ids {
        if *id != below || below == u32::MAX {
            return below;
        }
        below += 1;
    }
    below
}

// The filters of a list of sets.
pub(crate) fn filters_of(alloc: Global, sets: Vec<IdSet>) -> Result<Seq<Filter>, AllocError>
    ensures { IfOk result (λ filters. filters ≡ sets.items) }
{
    let mut filters = Seq::new(alloc);
    for ids in sets {
        filters.push(Filter::new(ids))?;
    }
    Ok(filters)
}

// From-sets: every site below a bound, and more above it.
ghost use Rattle.std.specs.Prelude.{◌≡◌, ◌==◌, ◌↔◌, ◌≤◌, IfOk, OnOk, OnErr, IsTrue, [], ◌++◌, filter, not};
ghost use Rattle.std.specs.List.{list_all};
ghost use Rattle.th_base.specs.IdSet.{has};
ghost use Rattle.th_query.specs.FromSets.{upto};

use std::alloc::{AllocError, Global};
use std::marker::Model;
use th_base::{IdSet, Same, TryCopy};

/// A set of sites, which contracts see as the ascending list of its members. It is every site below
/// `below`, then those of `more`, which aren't below it: so the set of every site takes no memory.
#[derive(Debug, Drop)]
pub struct Sites {
    below: u32,
    more: IdSet,
}

impl Model for Sites {
    ghost use Rattle.std.specs.Prelude.{List, ℕ, ◌++◌, ◌≤◌};
    ghost use Rattle.std.specs.List.{AllByRecursion};
    ghost use Rattle.th_base.specs.IdSet.{IsAscending};
    ghost use Rattle.th_query.specs.FromSets.{upto};

    ghost Value = { List ℕ };

    ghost view = { λ s. upto s.below ++ s.more };

    ghost invariant = { λ s. AllByRecursion (λ x. s.below ≤ x) s.more };
}

impl Sites {
    /// Every site below a bound. Takes no memory.
    pub fn every(alloc: Global, below: u32) -> Sites
        ensures { result ≡ upto below }
    {
        Sites {
            below,
            more: IdSet::new(alloc),
        }
    }

    /// The sites of a set. Takes no memory.
    pub fn of(set: IdSet) -> Sites
        ensures { result ≡ set }
    {
        Sites {
            below: 0,
            more: set,
        }
    }

    /// Whether a site is a member, by binary search.
    pub fn contains(&self, site: u32) -> bool
        ensures { result ≡ has self.now site }
    {
        site < self.below || self.more.contains(site)
    }

    /// Whether each member is a member of the other set.
    pub fn is_subset(&self, other: &Sites) -> bool
        ensures { result ≡ list_all (has other.now) self.now }
    {
        all_below_in(self.below, other) && all_in(self.more.ids(), other)
    }

    /// Whether the sets have no member in common.
    pub fn is_disjoint(&self, other: &Sites) -> bool
        ensures { result ≡ list_all (λ a. not (has other.now a)) self.now }
    {
        none_below_in(self.below, other) && none_in(self.more.ids(), other)
    }

    /// The set without all sites but one: that site alone where it is a member, else none.
    pub fn only(&self, alloc: Global, site: u32) -> Result<Sites, AllocError>
        ensures { IfOk result (λ one. one ≡ filter (λ a. a == site) self.now) }
    {
        // For the proof alone: that the members ascend.
        let _members = self.more.ids();
        if !self.contains(site) {
            return Ok(Sites::of(IdSet::new(alloc)));
        }
        let mut one = IdSet::new(alloc);
        one.insert(site)?;
        Ok(Sites::of(one))
    }

    /// The members of both sets.
    pub fn common(&self, alloc: Global, other: &Sites) -> Result<Sites, AllocError>
        ensures { IfOk result (λ common. common ≡ filter (has other.now) self.now) }
    {
        // For the proof alone: that the members ascend.
        let _members = self.more.ids();
        let _others = other.more.ids();
        if self.below <= other.below {
            let more = other.those_in(alloc, &self.more)?;
            Ok(Sites {
                below: self.below,
                more,
            })
        } else {
            let more = self.those_in(alloc, &other.more)?;
            Ok(Sites {
                below: other.below,
                more,
            })
        }
    }

    // The members that are in a set.
    fn those_in(&self, alloc: Global, set: &IdSet) -> Result<IdSet, AllocError>
        ensures { IfOk result (λ kept. kept ≡ filter (has self.now) set.now) }
    {
        let mut kept = Vec::new(alloc);
        for site in set.ids() {
            if self.contains(*site) {
                kept.push(*site)?;
            }
        }
        Ok(IdSet::from_ascending(kept))
    }

    /// Keeps the members that are in a set. Takes memory only where the sites below a bound are
    /// members, and then no more than the set takes.
    pub fn keep_in(&mut self, alloc: Global, set: &IdSet) -> Result<(), AllocError>
        ensures ok { OnOk result (self.new ≡ filter (has set.now) self.old) }
        ensures err { OnErr result (self.new ≡ self.old) }
    {
        if self.below == 0 {
            self.more.keep(|site| set.contains(*site));
        } else {
            // For the proof alone: that the members ascend.
            let _members = self.more.ids();
            let _others = set.ids();
            let kept = self.those_in(alloc, set)?;
            *self = Sites::of(kept);
        }
        Ok(())
    }

    /// The members as a set. Takes memory only where the sites below a bound are members.
    pub fn into_set(self, alloc: Global) -> Result<IdSet, AllocError>
        ensures { IfOk result (λ set. set ≡ self) }
    {
        let Sites { below, more } = self;
        if below == 0 {
            return Ok(more);
        }
        let mut ids = Vec::new(alloc);
        for site in 0..below {
            ids.push(site)?;
        }
        ids.extend_from_slice(more.ids())?;
        Ok(IdSet::from_ascending(ids))
    }

    /// Whether there are no members.
    pub fn is_empty(&self) -> bool
        ensures { IsTrue result ↔ (self.now ≡ []) }
    {
        self.below == 0 && self.more.is_empty()
    }
}

impl TryCopy for Sites {
    fn try_copy(&self, alloc: Global) -> Result<Sites, AllocError> {
        Ok(Sites {
            below: self.below,
            more: self.more.copy(alloc)?,
        })
    }
}

impl Same for Sites {
    fn same(&self, other: &Sites) -> bool {
        if self.below <= other.below {
            continues(self.more.ids(), self.below, other.below, other.more.ids())
        } else {
            continues(other.more.ids(), other.below, self.below, self.more.ids())
        }
    }
}

// Whether each site below a bound is in the set.
fn all_below_in(below: u32, set: &Sites) -> bool
    ensures { result ≡ list_all (has set.now) (upto below) }
{
    for site in 0..below {
        if !set.contains(site) {
            return false;
        }
    }
    true
}

// Whether each of these is in the set.
fn all_in(sites: &[u32], set: &Sites) -> bool
    ensures { result ≡ list_all (has set.now) sites.now }
{
    sites.iter().all(|site| set.contains(*site))
}

// Whether no site below a bound is in the set.
fn none_below_in(below: u32, set: &Sites) -> bool
    ensures { result ≡ list_all (λ a. not (has set.now a)) (upto below) }
{
    for site in 0..below {
        if set.contains(site) {
            return false;
        }
    }
    true
}

// Whether none of these is in the set.
fn none_in(sites: &[u32], set: &Sites) -> bool
    ensures { result ≡ list_all (λ a. not (has set.now a)) sites.now }
{
    sites.iter().all(|site| !set.contains(*site))
}

// Whether all below `low` and then these are all below `high` and then the rest.
fn continues(ids: &[u32], low: u32, high: u32, rest: &[u32]) -> bool
    requires { low ≤ high }
    ensures { IsTrue result ↔ (upto low ++ ids.now ≡ upto high ++ rest.now) }
{
    for next in low..high {
        let at = (next - low) as usize;
        if at >= ids.len() || ids[at] != next {
            return false;
        }
    }
    let passed = (high - low) as usize;
    are_same(&ids[passed..], rest)
}

// Whether the two lists are equal.
fn are_same(left: &[u32], right: &[u32]) -> bool
    ensures { IsTrue result ↔ (left.now ≡ right.now) }
{
    left == right
}

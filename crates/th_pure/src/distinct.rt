// Facts without repeats.
ghost use Rattle.std.specs.Prelude.{◌≡◌, ◌<◌, ◌≤◌, ◌^◌, ℕ, [], length, Some, slice_get, slice_index_or, IfOk};
ghost use Rattle.std.specs.List.Sorted.{IsNonDecreasingBy};
ghost use Rattle.th_linear.specs.Forms.{AreTerms, Small};
ghost use Rattle.th_pure.specs.Elimination.{has_fact, with_fact};
ghost use Rattle.th_pure.specs.Distinct.{part_of, key_of, IsIndexed};

use crate::facts::FactList;
use std::alloc::{AllocError, Global};
use std::marker::Model;
use th_linear::Lin;

// A fact's key, and its place in the list.
#[derive(Clone, Copy, Debug)]
pub(crate) struct Entry {
    pub key: u128,
    pub place: usize,
}

// Facts in order without repeats, which contracts see as a list. A fact is sought by its key.
#[derive(Debug, Drop)]
pub(crate) struct DistinctFacts {
    facts: FactList,
    entries: Vec<Entry>,
}

impl Model for DistinctFacts {
    ghost use Rattle.std.specs.Prelude.{List};
    ghost use Rattle.th_linear.specs.Forms.{Form};
    ghost use Rattle.th_pure.specs.Distinct.{IsIndexed};

    ghost Value = { List Form };

    ghost view = { λ d. d.facts };

    ghost invariant = { λ d. IsIndexed d.facts d.entries.items };
}

impl DistinctFacts {
    // No facts. Takes no memory.
    pub(crate) fn new(alloc: Global) -> DistinctFacts
        ensures { result ≡ [] }
    {
        DistinctFacts {
            facts: FactList::new(alloc),
            entries: Vec::new(alloc),
        }
    }

    // How many facts there are.
    pub(crate) fn len(&self) -> usize
        ensures { result ≡ length self.now }
    {
        self.facts.len()
    }

    // The facts as a list. Takes no memory.
    pub(crate) fn into_list(self) -> FactList
        ensures { result ≡ self }
    {
        let DistinctFacts { facts, entries: _ } = self;
        facts
    }

    // The facts and one more, unless it is among them.
    pub(crate) fn with(self, fact: Lin) -> Result<DistinctFacts, AllocError>
        ensures { IfOk result (λ d. d ≡ with_fact fact self) }
    {
        let key = key_of(&fact);
        let at = first_place(self.entries.as_slice(), key);
        if is_at(
            self.facts.as_slice(),
            self.entries.as_slice(),
            at,
            &fact,
            key,
        ) {
            return Ok(self);
        }
        let DistinctFacts {
            mut facts,
            mut entries,
        } = self;
        let place = facts.len();
        entries.insert(at, Entry { key, place })?;
        facts.push(fact)?;
        Ok(DistinctFacts { facts, entries })
    }
}

// The first place whose key isn't below this one.
fn first_place(entries: &[Entry], key: u128) -> usize
    requires { IsNonDecreasingBy (λ e. e.key) entries.now }
    ensures within { result ≤ length entries.now }
    ensures below { (j : ℕ) → (e : Entry) → j < result → (slice_index_or entries.now j e).key < key }
    ensures above { (j : ℕ) → (e : Entry) → result ≤ j → j < length entries.now
        → key ≤ (slice_index_or entries.now j e).key }
{
    entries.partition_point(|entry| entry.key < key)
}

// Whether the fact is among the facts, of whose entries those from `at` on have its key or a greater.
fn is_at(facts: &[Lin], entries: &[Entry], at: usize, fact: &Lin, key: u128) -> bool
    requires indexed { IsIndexed facts.now entries.now }
    requires key { key ≡ key_of fact.now }
    requires below { (j : ℕ) → (e : Entry) → j < at → (slice_index_or entries.now j e).key < key }
    requires above { (j : ℕ) → (e : Entry) → at ≤ j → j < length entries.now
        → key ≤ (slice_index_or entries.now j e).key }
    ensures { result ≡ has_fact fact.now facts.now }
{
    for j in at..entries.len() {
        let entry = entries[j];
        if entry.key != key {
            return false;
        }
        if facts[entry.place].same(fact) {
            return true;
        }
    }
    false
}

// The key of a fact: its constant and the first two terms make it.
fn key_of(fact: &Lin) -> u128
    ensures { result ≡ key_of fact.now }
{
    let terms = fact.coefs.as_slice();
    fact.constant.unsigned_abs() + part_of(terms, 0) + part_of(terms, 1)
}

// What the term at a place adds to a key.
fn part_of(terms: &[(u32, i128)], at: usize) -> u128
    requires { AreTerms 0 terms.now }
    ensures value { result ≡ part_of (slice_get terms.now at) }
    ensures bound { result ≤ 2 ^ 126 }
{
    match terms.get(at) {
        Some(term) => weighed(term.0, term.1),
        None => 0,
    }
}

// The coefficient's magnitude times the square of the variable's successor.
fn weighed(variable: u32, coefficient: i128) -> u128
    requires { Small coefficient }
    ensures value { result ≡ part_of (Some (variable, coefficient)) }
    ensures bound { result ≤ 2 ^ 126 }
{
    let root = u128::from(variable) + 1;
    coefficient.unsigned_abs() * (root * root)
}

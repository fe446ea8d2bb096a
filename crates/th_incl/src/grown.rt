// Which sets grew.
ghost use Rattle.std.specs.Prelude.{◌≡◌, ◌<◌, ◌↔◌, ◌⊎◌, ℕ, [], true, OnOk, IsTrue};
ghost use Rattle.th_base.specs.IdSet.{has};
ghost use Rattle.th_incl.specs.Parts.{IsOn};

use std::alloc::{AllocError, Global};
use std::marker::Model;
use std::mem;

// Sets by their numbers. Contracts see the list.
#[derive(Debug, Drop)]
pub(crate) struct Grown {
    sets: Vec<usize>,
    // Whether a set stands in the list; those past the end don't.
    is_listed: Vec<bool>,
}

impl Model for Grown {
    ghost use Rattle.std.specs.Prelude.{◌≡◌, ℕ, List, true};
    ghost use Rattle.th_base.specs.IdSet.{has};
    ghost use Rattle.th_incl.specs.Parts.{IsOn};

    ghost Value = { List ℕ };

    ghost view = { λ g. g.sets.items };

    ghost invariant = { λ g. (k : ℕ) → IsOn g.is_listed.items k → has g.sets.items k ≡ true };
}

impl Grown {
    // No sets. Takes no memory.
    pub(crate) fn new(alloc: Global) -> Grown
        ensures { result ≡ [] }
    {
        Grown {
            sets: Vec::new(alloc),
            is_listed: Vec::new(alloc),
        }
    }

    // Lists a set into which so many numbers came, where some did.
    pub(crate) fn mark(&mut self, set: usize, count: u64) -> Result<(), AllocError>
        ensures here { OnOk result (0 < count → has self.new set ≡ true) }
        ensures stays { OnOk result ((k : ℕ) → has self.old k ≡ true → has self.new k ≡ true) }
        ensures told { OnOk result ((self.new ≡ self.old) ⊎ (0 < count)) }
    {
        if count == 0 || is_on(self.is_listed.as_slice(), set) {
            return Ok(());
        }
        self.sets.push(set)?;
        turn_on(self.is_listed.as_mut_slice(), set);
        Ok(())
    }

    // Gets ready for so many sets more: one that there is no room for may be listed more than once.
    pub(crate) fn make_room(&mut self, sets: usize) -> Result<(), AllocError>
        ensures { OnOk result (self.new ≡ self.old) }
    {
        add_flags(&mut self.is_listed, sets)
    }

    // The list, which is empty afterwards.
    pub(crate) fn take(&mut self, alloc: Global) -> Vec<usize>
        ensures list { result.items ≡ self.old }
        ensures empty { self.new ≡ [] }
    {
        turn_all_off(self.is_listed.as_mut_slice(), self.sets.as_slice());
        mem::replace(&mut self.sets, Vec::new(alloc))
    }
}

// Whether the flag at a place is true.
fn is_on(flags: &[bool], at: usize) -> bool
    ensures { IsTrue result ↔ IsOn flags.now at }
{
    match flags.get(at) {
        Some(flag) => *flag,
        None => false,
    }
}

// Adds so many flags that are false.
fn add_flags(flags: &mut Vec<bool>, count: usize) -> Result<(), AllocError>
    ensures { (k : ℕ) → IsOn flags.new.items k → IsOn flags.old.items k }
{
    for _ in 0..count {
        flags.push(false)?;
    }
    Ok(())
}

// Makes the flag at a place true, where there is one.
fn turn_on(flags: &mut [bool], at: usize)
    ensures { (k : ℕ) → IsOn flags.new k → (at ≡ k) ⊎ IsOn flags.old k }
{
    if at < flags.len() {
        flags[at] = true;
    }
}

// Makes the flag at a place false, where there is one.
fn turn_off(flags: &mut [bool], at: usize)
    ensures here { IsOn flags.new at → ⊥ }
    ensures others { (k : ℕ) → IsOn flags.new k → IsOn flags.old k }
{
    if at < flags.len() {
        flags[at] = false;
    }
}

// Makes the flags at these places false, and no other true.
fn turn_all_off(flags: &mut [bool], places: &[usize])
    ensures here { (k : ℕ) → has places.now k ≡ true → IsOn flags.new k → ⊥ }
    ensures others { (k : ℕ) → IsOn flags.new k → IsOn flags.old k }
{
    for at in places {
        turn_off(flags, *at);
    }
}

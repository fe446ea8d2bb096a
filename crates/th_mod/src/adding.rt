// The least sets, by base pairs and inclusions that are added set by set, with a run after each: where the
// sets that are included in a set come before it, its numbers come in one run.
ghost use Rattle.std.specs.Prelude.{◌≡◌, ◌<◌, ◌≤◌, ◌-◌, ◌^◌, ℕ, [], length, take, Contains, IfOk, OnOk};
ghost use Rattle.th_incl.specs.declared.constraints.Inclusion.{Inclusion as Included};
ghost use Rattle.th_incl.specs.Least.{IsInRange, IsLeast};
ghost use Rattle.th_mod.specs.Told.{system_of};

use crate::places::place_at;
use std::alloc::{AllocError, Global};
use th_base::IdSet;
use th_incl::{Inclusion, Solver};

// Adds the base pairs from one on, up to the first whose set has a later place.
fn add_bases(
    solver: &mut Solver,
    base: &[(usize, u32)],
    from: usize,
    places: &[usize],
    most: usize,
) -> Result<usize, AllocError>
    requires range { (i x : ℕ) → Contains base.now (i, x) → i < solver.old.constraints.sets }
    requires from { from ≤ length base.now }
    requires before { solver.old.constraints.base ≡ take from base.now }
    ensures upto { IfOk result (λ upto. upto ≤ length base.now) }
    ensures added { IfOk result (λ upto. solver.new.constraints ≡ record solver.old.constraints { base = take upto base.now }) }
    ensures all { most ≡ 2 ^ 64 - 1 → IfOk result (λ upto. upto ≡ length base.now) }
{
    for at in from..base.len() {
        let (set, id) = base[at];
        if place_at(places, set) > most {
            return Ok(at);
        }
        solver.add_base(set, id)?;
    }
    Ok(base.len())
}

// Adds the inclusions from one on, up to the first that leads to a set with a later place.
fn add_copies(
    solver: &mut Solver,
    copies: &[Inclusion],
    from: usize,
    places: &[usize],
    most: usize,
) -> Result<usize, AllocError>
    requires sets { (j : Included) → Contains copies.now j → (j.from < solver.old.constraints.sets) × (j.to < solver.old.constraints.sets) }
    requires filters { (j : Included) → Contains copies.now j → j.filter < length solver.old.constraints.filters }
    requires from { from ≤ length copies.now }
    requires before { solver.old.constraints.copies ≡ take from copies.now }
    ensures upto { IfOk result (λ upto. upto ≤ length copies.now) }
    ensures added { IfOk result (λ upto. solver.new.constraints ≡ record solver.old.constraints { copies = take upto copies.now }) }
    ensures all { most ≡ 2 ^ 64 - 1 → IfOk result (λ upto. upto ≡ length copies.now) }
{
    for at in from..copies.len() {
        let copy = copies[at];
        if place_at(places, copy.to) > most {
            return Ok(at);
        }
        solver.add_copy(copy)?;
    }
    Ok(copies.len())
}

// The least sets, so many, of these base pairs and inclusions through one filter. They come in the order of
// their places.
pub(crate) fn least_sets(
    alloc: Global,
    sets: usize,
    base: &[(usize, u32)],
    copies: &[Inclusion],
    places: &[usize],
    passing: IdSet,
) -> Result<Vec<IdSet>, AllocError>
    requires { IsInRange (system_of sets base.now copies.now passing) }
    ensures { IfOk result (λ told. IsLeast (system_of sets base.now copies.now passing) told.items) }
{
    let mut filters = Vec::new(alloc);
    filters.push(passing)?;
    let mut solver = Solver::new(alloc, sets, filters)?;
    let mut bases_added = 0;
    let mut copies_added = 0;
    for place in 0..sets {
        bases_added = add_bases(&mut solver, base, bases_added, places, place)?;
        copies_added = add_copies(&mut solver, copies, copies_added, places, place)?;
        solver.run(alloc)?;
    }
    add_bases(&mut solver, base, bases_added, places, usize::MAX)?;
    add_copies(&mut solver, copies, copies_added, places, usize::MAX)?;
    solver.run(alloc)?;
    Ok(solver.into_sets())
}

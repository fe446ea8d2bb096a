// Systems of inclusions of several shapes, solved.
ghost use Rattle.std.specs.Prelude.{◌≡◌, ◌<◌, length, OnOk, IfOk};

use std::alloc::{AllocError, Global};
use th_base::IdSet;
use th_incl::{Inclusion, Solver};

// How many numbers go through the chain.
const CHAIN_IDS: u32 = 1000;

// How many sets the grid and the chain of runs have.
const GRID_SETS: usize = 300;

const RUN_SETS: usize = 1000;

// Where the inclusions of a set of the grid lead, beside the next set.
const GRID_STEP: usize = 17;

const GRID_FACTOR: usize = 7;

// All numbers below a bound.
fn all_ids(alloc: Global, ids: u32) -> Result<IdSet, AllocError> {
    let mut set = IdSet::new(alloc);
    for id in 0..ids {
        set.insert(id)?;
    }
    Ok(set)
}

// A solver over so many sets with a filter of all numbers.
fn solver_over(alloc: Global, sets: usize, ids: u32) -> Result<Solver, AllocError>
    ensures sets { IfOk result (λ s. s.constraints.sets ≡ sets) }
    ensures filters { IfOk result (λ s. length s.constraints.filters ≡ 1) }
{
    let mut filters = Vec::new(alloc);
    filters.push(all_ids(alloc, ids)?)?;
    Solver::new(alloc, sets, filters)
}

fn pairs(sets: &[IdSet]) -> u64 {
    let mut pairs = 0u64;
    for set in sets {
        pairs = pairs.saturating_add(set.len() as u64);
    }
    pairs
}

fn copy(solver: &mut Solver, from: usize, to: usize) -> Result<(), AllocError>
    requires from { from < solver.old.constraints.sets }
    requires to { to < solver.old.constraints.sets }
    requires filters { length solver.old.constraints.filters ≡ 1 }
    ensures sets { OnOk result (solver.new.constraints.sets ≡ solver.old.constraints.sets) }
    ensures filters { OnOk result (length solver.new.constraints.filters ≡ 1) }
{
    solver.add_copy(Inclusion {
        from,
        to,
        filter: 0,
    })
}

fn chain_of(solver: &mut Solver, sets: usize) -> Result<(), AllocError>
    requires sets { solver.old.constraints.sets ≡ sets }
    requires filters { length solver.old.constraints.filters ≡ 1 }
    ensures sets { OnOk result (solver.new.constraints.sets ≡ sets) }
{
    for to in 1..sets {
        copy(solver, to - 1, to)?;
    }
    Ok(())
}

// Solves a chain of so many sets, with numbers in the first, and counts the pairs.
pub(crate) fn chain(alloc: Global, sets: usize) -> Result<u64, AllocError> {
    let mut solver = solver_over(alloc, sets, CHAIN_IDS)?;
    chain_of(&mut solver, sets)?;
    if sets > 0 {
        for id in 0..CHAIN_IDS {
            solver.add_base(0, id)?;
        }
    }
    solver.run(alloc)?;
    Ok(pairs(solver.sets()))
}

// Makes so many runs, after one addition each, over a chain, and counts the pairs.
pub(crate) fn runs(alloc: Global, count: u32) -> Result<u64, AllocError> {
    let mut solver = solver_over(alloc, RUN_SETS, count)?;
    chain_of(&mut solver, RUN_SETS)?;
    for id in 0..count {
        solver.add_base(0, id)?;
        solver.run(alloc)?;
    }
    Ok(pairs(solver.sets()))
}

fn grid_of(solver: &mut Solver, sets: usize) -> Result<(), AllocError>
    requires sets { solver.old.constraints.sets ≡ sets }
    requires filters { length solver.old.constraints.filters ≡ 1 }
    requires some { 0 < sets }
    ensures sets { OnOk result (solver.new.constraints.sets ≡ sets) }
{
    for from in 0..sets {
        copy(solver, from, from.wrapping_add(1) % sets)?;
        copy(solver, from, from.wrapping_add(GRID_STEP) % sets)?;
        copy(solver, from, from.wrapping_mul(GRID_FACTOR) % sets)?;
    }
    Ok(())
}

// Solves a grid of sets with cycles, over which so many numbers are spread, and counts the pairs.
pub(crate) fn grid(alloc: Global, ids: u32) -> Result<u64, AllocError> {
    let mut solver = solver_over(alloc, GRID_SETS, ids)?;
    grid_of(&mut solver, GRID_SETS)?;
    for id in 0..ids {
        solver.add_base(id as usize % GRID_SETS, id)?;
    }
    solver.run(alloc)?;
    Ok(pairs(solver.sets()))
}

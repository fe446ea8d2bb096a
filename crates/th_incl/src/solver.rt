// A solver that can be added to, and the solution from nothing.
ghost use Rattle.std.specs.Prelude.{◌≡◌, ◌<◌, [], length, true, false, IfOk, OnOk};
ghost use Rattle.th_incl.specs.Least.{IsLeast, IsInRange, TellsWithin, HasMoreThan, pair_count};
ghost use Rattle.th_incl.specs.View.{Grows, TellsGrowth, opening, with_sets, with_base, with_copy, with_bases, with_copies};

use crate::additions::{add_base, add_copy, grow};
use crate::filter::filters_of;
use crate::grown::Grown;
use crate::run::rounds;
use crate::system::System;
use crate::work::Work;
use crate::{Constraints, Inclusion};
use std::alloc::{AllocError, Global};
use std::marker::Model;
use th_base::{IdSet, Seq};

/// The least sets of constraints that are added one after the other. Contracts see its constraints
/// in the order of adding, and its sets as the last run left them.
///
/// After want of memory it is to be dropped: nothing is said of it, and its calls answer want of
/// memory.
#[derive(Debug, Drop)]
pub struct Solver {
    system: System,
    work: Work,
    // Whether each call so far has come to its end.
    is_whole: bool,
}

impl Model for Solver {
    ghost use Rattle.th_incl.specs.View.{SolverView};

    ghost Value = { SolverView };

    ghost use Rattle.std.specs.Prelude.{◌≡◌, true};
    ghost use Rattle.th_incl.specs.Kept.{Kept, view_of};

    ghost view = { λ s. view_of s.system s.work };

    ghost invariant = { λ s. s.is_whole ≡ true → Kept s.system s.work };
}

impl Solver {
    /// Empty sets, and no constraints yet. Inclusions will name the filters by their numbers.
    pub fn new(alloc: Global, sets: usize, filters: Vec<IdSet>) -> Result<Solver, AllocError>
        ensures { IfOk result (λ solver. solver ≡ opening sets filters.items) }
    {
        let filters = filters_of(alloc, filters)?;
        let mut system = System {
            sets: 0,
            base: Seq::new(alloc),
            copies: Seq::new(alloc),
            filters,
            out: Vec::new(alloc),
        };
        let mut work = Work {
            sets: Vec::new(alloc),
            news: Vec::new(alloc),
            queue: Vec::new(alloc),
            grown: Grown::new(alloc),
            pairs: 0,
        };
        grow(alloc, &mut system, &mut work, sets)?;
        Ok(Solver {
            system,
            work,
            is_whole: true,
        })
    }

    /// Adds so many sets, which are empty.
    pub fn grow(&mut self, alloc: Global, sets: usize) -> Result<(), AllocError>
        ensures { OnOk result (self.new ≡ with_sets self.old sets) }
    {
        if !self.is_whole {
            return Err(AllocError);
        }
        self.is_whole = false;
        grow(alloc, &mut self.system, &mut self.work, sets)?;
        self.is_whole = true;
        Ok(())
    }

    /// Adds a number that is in a set from the beginning. The sets stay as they are until the next
    /// run.
    pub fn add_base(&mut self, set: usize, id: u32) -> Result<(), AllocError>
        requires { set < self.old.constraints.sets }
        ensures { OnOk result (self.new ≡ with_base self.old set id) }
    {
        if !self.is_whole {
            return Err(AllocError);
        }
        self.is_whole = false;
        add_base(&mut self.system, &mut self.work, set, id)?;
        self.is_whole = true;
        Ok(())
    }

    /// Adds an inclusion. The sets stay as they are until the next run.
    pub fn add_copy(&mut self, inclusion: Inclusion) -> Result<(), AllocError>
        requires from { inclusion.from < self.old.constraints.sets }
        requires to { inclusion.to < self.old.constraints.sets }
        requires filter { inclusion.filter < length self.old.constraints.filters }
        ensures { OnOk result (self.new ≡ with_copy self.old inclusion) }
    {
        if !self.is_whole {
            return Err(AllocError);
        }
        self.is_whole = false;
        add_copy(&mut self.system, &mut self.work, inclusion)?;
        self.is_whole = true;
        Ok(())
    }

    /// Makes the sets the least of all constraints so far.
    pub fn run(&mut self, alloc: Global) -> Result<(), AllocError>
        ensures least { OnOk result (IsLeast self.new.constraints self.new.sets) }
        ensures grows { OnOk result (Grows self.old.sets self.old.grown self.new.sets self.new.grown) }
        ensures constraints { self.new.constraints ≡ self.old.constraints }
    {
        let done = self.run_within(alloc, u64::MAX)?;
        if !done {
            // No memory holds so many pairs.
            return Err(AllocError);
        }
        Ok(())
    }

    /// Makes the sets the least of all constraints so far, and answers true, exactly where those
    /// hold at most `limit` pairs of a set and a number in it. Else it stops before the sets hold
    /// more, and they are of no use until a later run.
    pub fn run_within(&mut self, alloc: Global, limit: u64) -> Result<bool, AllocError>
        ensures within { IfOk result (λ within. TellsWithin self.old.constraints limit within) }
        ensures least { IfOk result (λ within. within ≡ true → IsLeast self.new.constraints self.new.sets) }
        ensures more { IfOk result (λ within. within ≡ false → HasMoreThan self.old.constraints limit) }
        ensures grows { OnOk result (Grows self.old.sets self.old.grown self.new.sets self.new.grown) }
        ensures told { OnOk result (TellsGrowth self.old.grown (pair_count self.old.sets) self.new.grown (pair_count self.new.sets)) }
        ensures constraints { self.new.constraints ≡ self.old.constraints }
    {
        if !self.is_whole {
            return Err(AllocError);
        }
        if self.work.pairs > limit {
            return Ok(false);
        }
        self.is_whole = false;
        let within = rounds(alloc, &self.system, &mut self.work, limit)?;
        self.is_whole = true;
        Ok(within)
    }

    /// The sets that runs may have changed since this was last asked, in no order; each that they
    /// changed is among them. Takes no memory.
    pub fn take_grown(&mut self, alloc: Global) -> Vec<usize>
        ensures list { result.items ≡ self.old.grown }
        ensures others { self.new ≡ record self.old { grown = [] } }
    {
        self.work.grown.take(alloc)
    }

    /// The sets as the last run left them, each ascending.
    pub fn sets(&self) -> &[IdSet]
        ensures { result.now ≡ self.now.sets }
    {
        self.work.sets.as_slice()
    }

    /// The sets as the last run left them, by value. Takes no memory.
    pub fn into_sets(self) -> Vec<IdSet>
        ensures { result.items ≡ self.sets }
    {
        let Solver { system, work, .. } = self;
        let _ = system;
        let Work { sets, .. } = work;
        sets
    }
}

/// The least sets that hold the base pairs and each filtered inclusion.
pub fn solve(alloc: Global, constraints: &Constraints) -> Result<Vec<IdSet>, AllocError>
    requires { IsInRange constraints.now }
    ensures { IfOk result (λ sets. IsLeast constraints.now sets.items) }
{
    let filters = constraints.filters.copy(alloc)?;
    let mut solver = Solver::new(alloc, constraints.sets, filters.into_vec())?;
    add_bases(&mut solver, constraints)?;
    add_copies(&mut solver, constraints)?;
    solver.run(alloc)?;
    Ok(solver.into_sets())
}

// Adds the base pairs of constraints over as many sets.
fn add_bases(solver: &mut Solver, constraints: &Constraints) -> Result<(), AllocError>
    requires range { IsInRange constraints.now }
    requires sets { solver.old.constraints.sets ≡ constraints.now.sets }
    ensures { OnOk result (solver.new ≡ with_bases solver.old constraints.now.base) }
{
    for (set, id) in constraints.base.as_slice() {
        solver.add_base(*set, *id)?;
    }
    Ok(())
}

// Adds the inclusions of constraints over as many sets and filters.
fn add_copies(solver: &mut Solver, constraints: &Constraints) -> Result<(), AllocError>
    requires range { IsInRange constraints.now }
    requires sets { solver.old.constraints.sets ≡ constraints.now.sets }
    requires filters { solver.old.constraints.filters ≡ constraints.now.filters }
    ensures { OnOk result (solver.new ≡ with_copies solver.old constraints.now.copies) }
{
    for inclusion in constraints.copies.as_slice() {
        solver.add_copy(*inclusion)?;
    }
    Ok(())
}

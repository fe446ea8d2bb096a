// What is asked from the start: the methods of the harness may run, and static fields hold their String
// constants.
ghost use Rattle.std.specs.Prelude.{◌≡◌, ◌<◌, ◌+◌, ℕ, List, [], true, false, length, replicate, IfOk, OnOk};
ghost use Rattle.th_base.specs.declared.class.ClassInfo.{ClassInfo};
ghost use Rattle.th_points_to.specs.Rounds.{IsRoundOf, IsState};
ghost use Rattle.th_points_to.specs.Tables.{AreTables};
ghost use Rattle.th_points_to.specs.declared.tables.Tables.{Tables};
ghost use Rattle.std.specs.List.{AllByRecursion};
ghost use Rattle.th_base.specs.IdSet.{has};
ghost use Rattle.th_incl.specs.Least.{set_at, pair_count};
ghost use Rattle.th_ir.specs.declared.program.RegProgram.{RegProgram};
ghost use Rattle.th_ir.specs.FactSets.{FactSets};
ghost use Rattle.th_points_to.specs.declared.found.TheConstants.{EVERY_SITE};
ghost use Rattle.th_points_to.specs.declared.place.Place.TheVariants.{Static};
ghost use Rattle.th_points_to.specs.Found.{Adds, Holds, IsLaid};
ghost use Rattle.th_points_to.specs.Places.{Gives};

use crate::found::{Found, give, reach};
use crate::place::{Layout, Place};
use crate::rounds::State;
use indexmap::IndexSet;
use std::alloc::{AllocError, Global};
use th_base::{FieldId, IdSet, MethodId, SiteId};
use th_incl::Solver;
use th_ir::RegProgram;

// Nothing is asked yet, and all sets are empty.
fn nothing(alloc: Global, layout: Layout, filters: Vec<IdSet>) -> Result<Found, AllocError>
    requires first { layout.first_cell ≡ layout.registers + layout.fields + layout.sites }
    requires filters { EVERY_SITE < length filters.items }
    requires every { (x : ℕ) → x < layout.sites → has (set_at filters.items EVERY_SITE) x ≡ true }
    ensures laid { IfOk result (λ found. IsLaid layout found) }
    ensures holds { IfOk result (λ found. (t : FactSets) → Holds layout found t) }
    ensures filters { IfOk result (λ found. found.solver.constraints.filters ≡ filters.items) }
    ensures sets { IfOk result (λ found. found.solver.sets ≡ replicate layout.first_cell []) }
    ensures grown { IfOk result (λ found. found.solver.grown ≡ []) }
    ensures calls { IfOk result (λ found. found.calls.keys ≡ []) }
    ensures reached { IfOk result (λ found. found.reached.keys ≡ []) }
{
    Ok(Found {
        solver: Solver::new(alloc, layout.first_cell, filters)?,
        cells: IndexSet::new(alloc),
        calls: IndexSet::new(alloc),
        reached: IndexSet::new(alloc),
    })
}

// The methods of the harness may run.
fn reach_all(found: &mut Found, layout: Layout, methods: &[MethodId]) -> Result<(), AllocError>
    requires { IsLaid layout found.old }
    ensures { OnOk result ((p : RegProgram) → Adds layout p found.old found.new (λ t. AllByRecursion (λ m. t.reached m.0 ≡ true) methods.now)) }
{
    for method in methods {
        reach(found, layout, *method)?;
    }
    Ok(())
}

// Static fields hold their constants.
fn give_constants(
    found: &mut Found,
    alloc: Global,
    layout: Layout,
    constants: &[(FieldId, SiteId)],
) -> Result<(), AllocError>
    requires { IsLaid layout found.old }
    ensures { OnOk result ((p : RegProgram) → Adds layout p found.old found.new (λ t. AllByRecursion (λ i. Gives layout t (Static i.0) i.1.0) constants.now)) }
{
    for (field, site) in constants {
        give(found, alloc, layout, Place::Static(*field), *site)?;
    }
    Ok(())
}

// So many empty sets.
fn empty_sets(alloc: Global, count: usize) -> Result<Vec<IdSet>, AllocError>
    ensures { IfOk result (λ sets. sets.items ≡ replicate count []) }
{
    let mut sets = Vec::new(alloc);
    for _ in 0..count {
        sets.push(IdSet::new(alloc))?;
    }
    Ok(sets)
}

// So many flags that are false.
fn false_flags(alloc: Global, count: usize) -> Result<Vec<bool>, AllocError>
    ensures { IfOk result (λ flags. flags.items ≡ replicate count false) }
{
    let mut flags = Vec::new(alloc);
    for _ in 0..count {
        flags.push(false)?;
    }
    Ok(flags)
}

// What is asked from the start.
pub(crate) fn begin(
    alloc: Global,
    layout: Layout,
    program: &RegProgram,
    filters: Vec<IdSet>,
) -> Result<State, AllocError>
    requires first { layout.first_cell ≡ layout.registers + layout.fields + layout.sites }
    requires filters { EVERY_SITE < length filters.items }
    requires every { (x : ℕ) → x < layout.sites → has (set_at filters.items EVERY_SITE) x ≡ true }
    ensures state { IfOk result (λ state. (h : List ClassInfo) (ts : Tables) → AreTables h layout program.now filters.items ts → IsState h layout program.now ts state) }
    ensures round { IfOk result (λ state. (h : List ClassInfo) → IsRoundOf h layout program.now [] state) }
    ensures none { IfOk result (λ state. pair_count state.found.solver.sets ≡ 0) }
    ensures grown { IfOk result (λ state. state.found.solver.grown ≡ []) }
{
    let mut found = nothing(alloc, layout, filters)?;
    reach_all(&mut found, layout, program.harness.as_slice())?;
    give_constants(&mut found, alloc, layout, program.strings.as_slice())?;
    let handled = empty_sets(alloc, layout.registers)?;
    let entered = false_flags(alloc, program.methods.len())?;
    Ok(State {
        found,
        handled,
        entered,
        opened: 0,
        met: IndexSet::new(alloc),
    })
}

// Rounds: the sets are made the least of what is asked so far; then what is new in them, and the methods
// that came to run, ask for more; until nothing is new.
ghost use Rattle.std.specs.Prelude.{◌≡◌, ◌<◌, ◌≤◌, ◌^◌, ◌⊎◌, ℕ, List, [], true, false, length, slice_get, slice_set, IfOk, OnOk};
ghost use Rattle.th_base.specs.IdSet.{has};
ghost use Rattle.th_incl.specs.Least.{HasMoreThan, IsLeast, pair_count, set_at};
ghost use Rattle.th_ir.specs.FactSets.{FactSets};
ghost use Rattle.th_ir.specs.Rules.{HoldsRules};
ghost use Rattle.th_ir.specs.WellFormed.{AreNumbered};
ghost use Rattle.th_points_to.specs.Found.{Holds};
ghost use Rattle.th_points_to.specs.Opening.{IsOpen};
ghost use Rattle.th_points_to.specs.Rounds.{IsRoundOf, IsState, KeepsSets};
ghost use Rattle.th_incl.specs.View.{TellsGrowth};

use crate::found::Found;
use crate::opening::{meet, open_nodes};
use crate::place::Layout;
use crate::tables::Tables;
use indexmap::IndexSet;
use std::alloc::{AllocError, Global};
use th_base::{Hierarchy, IdSet, TryCopy};
use th_ir::RegProgram;

// What is asked so far, the sites of each register that were looked at, whether each method is open, how
// many of the methods that may run are, and the classes whose initialisation was met.
#[derive(Drop)]
pub(crate) struct State {
    pub(crate) found: Found,
    pub(crate) handled: Vec<IdSet>,
    pub(crate) entered: Vec<bool>,
    pub(crate) opened: usize,
    pub(crate) met: IndexSet<u32>,
}

// The set at a place; empty past the end.
fn copy_at(alloc: Global, sets: &[IdSet], at: usize) -> Result<IdSet, AllocError>
    ensures { IfOk result (λ set. set ≡ set_at sets.now at) }
{
    match sets.get(at) {
        Some(set) => set.try_copy(alloc),
        None => Ok(IdSet::new(alloc)),
    }
}

// Writes what was looked at of a register.
fn put_handled(handled: &mut Vec<IdSet>, at: usize, set: IdSet)
    requires { at < length handled.old.items }
    ensures { handled.new.items ≡ slice_set handled.old.items at set }
{
    handled[at] = set;
}

// What is new in the set of a register is met by the nodes whose base it is.
fn look(
    state: &mut State,
    alloc: Global,
    layout: Layout,
    program: &RegProgram,
    hierarchy: &Hierarchy,
    tables: &Tables,
    register: usize,
) -> Result<(), AllocError>
    requires { IsState hierarchy.now layout program.now tables.now state.old }
    ensures state { OnOk result (IsState hierarchy.now layout program.now tables.now state.new) }
    ensures round { AreNumbered hierarchy.now → (waiting later : List ℕ) → ((k : ℕ) → has waiting k ≡ true → (k ≡ register) ⊎ (has later k ≡ true))
        → IsRoundOf hierarchy.now layout program.now waiting state.old → OnOk result (IsRoundOf hierarchy.now layout program.now later state.new) }
    ensures keeps { OnOk result (KeepsSets state.old state.new) }
    ensures opened { state.new.opened ≡ state.old.opened }
{
    if register >= layout.registers {
        return Ok(());
    }
    let now = copy_at(alloc, state.found.solver.sets(), register)?;
    let fresh = now.difference(alloc, &state.handled[register])?;
    meet(
        &mut state.found,
        alloc,
        layout,
        program,
        hierarchy,
        tables,
        state.entered.as_slice(),
        fresh.ids(),
        tables.based[register].as_slice(),
    )?;
    put_handled(&mut state.handled, register, now);
    Ok(())
}

// What is new in the sets of these registers is met by the nodes whose bases they are.
fn look_all(
    state: &mut State,
    alloc: Global,
    layout: Layout,
    program: &RegProgram,
    hierarchy: &Hierarchy,
    tables: &Tables,
    registers: &[usize],
) -> Result<(), AllocError>
    requires { IsState hierarchy.now layout program.now tables.now state.old }
    ensures state { OnOk result (IsState hierarchy.now layout program.now tables.now state.new) }
    ensures round { AreNumbered hierarchy.now → IsRoundOf hierarchy.now layout program.now registers.now state.old
        → OnOk result (IsRoundOf hierarchy.now layout program.now [] state.new) }
    ensures keeps { OnOk result (KeepsSets state.old state.new) }
    ensures opened { state.new.opened ≡ state.old.opened }
{
    for register in registers {
        look(state, alloc, layout, program, hierarchy, tables, *register)?;
    }
    Ok(())
}

// The method that was reached at a place.
fn reached_at(found: &Found, at: usize) -> Option<u32>
    ensures value { result ≡ slice_get found.now.reached.keys at }
    ensures small { length found.now.reached.keys < 2 ^ 63 }
{
    // For the proof alone: how many methods there can be.
    let _len = found.reached.len();
    found.reached.get_index(at).copied()
}

// Marks a method as open, where there is such a method.
fn enter(entered: &mut Vec<bool>, method: u32)
    ensures len { length entered.new.items ≡ length entered.old.items }
    ensures here { method < length entered.old.items → IsOpen entered.new.items method }
    ensures stays { (m : ℕ) → IsOpen entered.old.items m → IsOpen entered.new.items m }
    ensures only { (m : ℕ) → IsOpen entered.new.items m → (method ≡ m) ⊎ IsOpen entered.old.items m }
{
    let at = method as usize;
    if at < entered.len() {
        entered[at] = true;
    }
}

// Opens the next of the methods that may run: its nodes ask.
fn open_next(
    state: &mut State,
    alloc: Global,
    layout: Layout,
    program: &RegProgram,
    hierarchy: &Hierarchy,
    tables: &Tables,
) -> Result<(), AllocError>
    requires { IsState hierarchy.now layout program.now tables.now state.old }
    ensures state { OnOk result (IsState hierarchy.now layout program.now tables.now state.new) }
    ensures round { AreNumbered hierarchy.now → IsRoundOf hierarchy.now layout program.now [] state.old → OnOk result (IsRoundOf hierarchy.now layout program.now [] state.new) }
    ensures keeps { OnOk result (KeepsSets state.old state.new) }
    ensures opens { state.old.opened < length state.old.found.reached.keys → OnOk result (state.old.opened < state.new.opened) }
{
    let method = match reached_at(&state.found, state.opened) {
        Some(method) => method,
        None => return Ok(()),
    };
    let at = method as usize;
    if at < tables.nodes.len() {
        open_nodes(
            &mut state.found,
            alloc,
            layout,
            program,
            hierarchy,
            tables,
            &mut state.met,
            state.handled.as_slice(),
            tables.nodes[at].as_slice(),
        )?;
        enter(&mut state.entered, method);
        state.opened += 1;
        return Ok(());
    }
    state.opened += 1;
    Ok(())
}

// Opens so many of the methods that may run.
fn open_some(
    state: &mut State,
    alloc: Global,
    layout: Layout,
    program: &RegProgram,
    hierarchy: &Hierarchy,
    tables: &Tables,
    count: usize,
) -> Result<(), AllocError>
    requires { IsState hierarchy.now layout program.now tables.now state.old }
    ensures state { OnOk result (IsState hierarchy.now layout program.now tables.now state.new) }
    ensures round { AreNumbered hierarchy.now → IsRoundOf hierarchy.now layout program.now [] state.old → OnOk result (IsRoundOf hierarchy.now layout program.now [] state.new) }
    ensures keeps { OnOk result (KeepsSets state.old state.new) }
    ensures opens { 0 < count → state.old.opened < length state.old.found.reached.keys → OnOk result (state.old.opened < state.new.opened) }
{
    for _at in 0..count {
        open_next(state, alloc, layout, program, hierarchy, tables)?;
    }
    Ok(())
}

// Makes the sets the least of what is asked so far; the answer is false where they have more pairs than the
// limit.
fn run(
    state: &mut State,
    alloc: Global,
    layout: Layout,
    program: &RegProgram,
    hierarchy: &Hierarchy,
    tables: &Tables,
    limit: u64,
) -> Result<bool, AllocError>
    requires { IsState hierarchy.now layout program.now tables.now state.old }
    ensures state { OnOk result (IsState hierarchy.now layout program.now tables.now state.new) }
    ensures least { IfOk result (λ within. within ≡ true → IsLeast state.new.found.solver.constraints state.new.found.solver.sets) }
    ensures few { IfOk result (λ within. within ≡ true → pair_count state.new.found.solver.sets ≤ limit) }
    ensures more { IfOk result (λ within. within ≡ false → HasMoreThan state.old.found.solver.constraints limit) }
    ensures round { IsRoundOf hierarchy.now layout program.now [] state.old
        → IfOk result (λ within. within ≡ true → IsRoundOf hierarchy.now layout program.now state.new.found.solver.grown state.new) }
    ensures sound { IsRoundOf hierarchy.now layout program.now [] state.old → OnOk result ((u : FactSets) → HoldsRules hierarchy.now program.now u → Holds layout state.new.found u) }
    ensures constraints { state.new.found.solver.constraints ≡ state.old.found.solver.constraints }
    ensures told { OnOk result (TellsGrowth state.old.found.solver.grown (pair_count state.old.found.solver.sets) state.new.found.solver.grown (pair_count state.new.found.solver.sets)) }
    ensures opened { state.new.opened ≡ state.old.opened }
{
    let within = state.found.solver.run_within(alloc, limit)?;
    Ok(within)
}

// The registers whose sets may have grown.
fn take_grown(
    state: &mut State,
    alloc: Global,
    layout: Layout,
    program: &RegProgram,
    hierarchy: &Hierarchy,
    tables: &Tables,
) -> Vec<usize>
    requires { IsState hierarchy.now layout program.now tables.now state.old }
    ensures grown { result.items ≡ state.old.found.solver.grown }
    ensures empty { state.new.found.solver.grown ≡ [] }
    ensures state { IsState hierarchy.now layout program.now tables.now state.new }
    ensures round { (waiting : List ℕ) → IsRoundOf hierarchy.now layout program.now waiting state.old → IsRoundOf hierarchy.now layout program.now waiting state.new }
    ensures least { IsLeast state.old.found.solver.constraints state.old.found.solver.sets → IsLeast state.new.found.solver.constraints state.new.found.solver.sets }
    ensures same { state.new.opened ≡ state.old.opened }
    ensures sets { state.new.found.solver.sets ≡ state.old.found.solver.sets }
    ensures reached { state.new.found.reached ≡ state.old.found.reached }
{
    state.found.solver.take_grown(alloc)
}

// Whether anything is new: a set that grew, or a method that may run and isn't open.
fn is_more(grown: &[usize], count: usize) -> bool
    ensures none { result ≡ false → (grown.now ≡ []) × (count ≡ 0) }
    ensures some { result ≡ true → (0 < length grown.now) ⊎ (0 < count) }
{
    !grown.is_empty() || count > 0
}

// Makes rounds until nothing is new. The answer is false where the sets have more pairs than the limit.
pub(crate) fn rounds(
    state: &mut State,
    alloc: Global,
    layout: Layout,
    program: &RegProgram,
    hierarchy: &Hierarchy,
    tables: &Tables,
    limit: u64,
) -> Result<bool, AllocError>
    requires state { IsState hierarchy.now layout program.now tables.now state.old }
    requires few { pair_count state.old.found.solver.sets ≤ limit }
    requires grown { state.old.found.solver.grown ≡ [] }
    ensures state { OnOk result (IsState hierarchy.now layout program.now tables.now state.new) }
    ensures least { IfOk result (λ done. done ≡ true → IsLeast state.new.found.solver.constraints state.new.found.solver.sets) }
    ensures few { IfOk result (λ done. done ≡ true → pair_count state.new.found.solver.sets ≤ limit) }
    ensures opened { IfOk result (λ done. done ≡ true → length state.new.found.reached.keys ≤ state.new.opened) }
    ensures more { IfOk result (λ done. done ≡ false → HasMoreThan state.new.found.solver.constraints limit) }
    ensures round { AreNumbered hierarchy.now → IsRoundOf hierarchy.now layout program.now [] state.old
        → IfOk result (λ done. done ≡ true → IsRoundOf hierarchy.now layout program.now [] state.new) }
    ensures sound { AreNumbered hierarchy.now → IsRoundOf hierarchy.now layout program.now [] state.old
        → OnOk result ((u : FactSets) → HoldsRules hierarchy.now program.now u → Holds layout state.new.found u) }
{
    loop {
        let within = run(state, alloc, layout, program, hierarchy, tables, limit)?;
        if !within {
            return Ok(false);
        }
        let grown = take_grown(state, alloc, layout, program, hierarchy, tables);
        let count = state.found.reached.len().saturating_sub(state.opened);
        if !is_more(grown.as_slice(), count) {
            return Ok(true);
        }
        look_all(
            state,
            alloc,
            layout,
            program,
            hierarchy,
            tables,
            grown.as_slice(),
        )?;
        open_some(state, alloc, layout, program, hierarchy, tables, count)?;
    }
}

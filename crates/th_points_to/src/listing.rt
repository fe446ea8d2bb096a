// The facts that list what was found.
ghost use Rattle.std.specs.Prelude.{◌≡◌, ◌≢◌, ◌<◌, ◌≤◌, ◌+◌, ◌++◌, ◌^◌, ℕ, [], length, map, take, drop, slice_get, slice_set, Some, IfOk, OnOk};
ghost use Rattle.std.specs.BTreeSet.{IsFromIterResult};
ghost use Rattle.th_base.specs.IdSet.{has, IsAscending};
ghost use Rattle.th_incl.specs.Least.{IsLeast, set_at};
ghost use Rattle.th_points_to.specs.Found.{IsLaid};
ghost use Rattle.th_points_to.specs.Listing.{AreAscendingPairs, AreListedCalls, AreListedCells, AreOnce, AreParts, IsListed, call_of, cell_set, cells_of, elements_from, pair_cmp, with_set};

use crate::found::Found;
use crate::place::Layout;
use indexmap::IndexSet;
use std::alloc::{AllocError, Global};
use std::collections::BTreeSet;
use std::mem;
use th_base::{FieldId, IdSet, MethodId, NodeId, Seq, SiteId};
use th_ir::Facts;

// Takes the set at a place, and leaves an empty one. Takes no memory.
fn take_set(alloc: Global, sets: &mut [IdSet], at: usize) -> IdSet
    requires { at < length sets.old }
    ensures taken { result ≡ set_at sets.old at }
    ensures left { sets.new ≡ slice_set sets.old at [] }
{
    mem::replace(&mut sets[at], IdSet::new(alloc))
}

// Takes so many sets from one place on.
fn take_sets(
    alloc: Global,
    sets: &mut [IdSet],
    first: usize,
    count: usize,
) -> Result<Seq<IdSet>, AllocError>
    requires { first + count ≤ length sets.old }
    ensures taken { IfOk result (λ taken. taken ≡ take count (drop first sets.old)) }
    ensures left { OnOk result ((k : ℕ) → first + count ≤ k → set_at sets.new k ≡ set_at sets.old k) }
    ensures len { length sets.new ≡ length sets.old }
{
    let mut taken = Seq::new(alloc);
    for at in 0..count {
        taken.push(take_set(alloc, sets, first + at))?;
    }
    Ok(taken)
}

// Adds the elements of the arrays of a site, where there are some.
fn push_elements(
    elements: &mut Seq<(SiteId, IdSet)>,
    site: SiteId,
    set: IdSet,
) -> Result<(), AllocError>
    ensures { OnOk result (elements.new ≡ elements.old ++ with_set (λ xs. (site, xs)) set) }
{
    if set.is_empty() {
        return Ok(());
    }
    elements.push((site, set))
}

// Takes the elements of the arrays of so many sites, whose sets stand from one place on.
fn take_elements(
    alloc: Global,
    sets: &mut [IdSet],
    first: usize,
    count: usize,
) -> Result<Seq<(SiteId, IdSet)>, AllocError>
    requires within { first + count ≤ length sets.old }
    requires few { count ≤ 2 ^ 32 }
    ensures taken { IfOk result (λ elements. elements ≡ elements_from 0 (take count (drop first sets.old))) }
    ensures left { OnOk result ((k : ℕ) → first + count ≤ k → set_at sets.new k ≡ set_at sets.old k) }
    ensures len { length sets.new ≡ length sets.old }
{
    let mut elements = Seq::new(alloc);
    for at in 0..count {
        let set = take_set(alloc, sets, first + at);
        push_elements(&mut elements, SiteId(at as u32), set)?;
    }
    Ok(elements)
}

// These pairs ascending, each once.
fn ascending(alloc: Global, pairs: &IndexSet<(u32, u32)>) -> Result<Vec<(u32, u32)>, AllocError>
    ensures { IfOk result (λ list. AreAscendingPairs pairs.now.keys list.items) }
{
    let ordered = set_of_pairs(alloc, pairs.as_slice())?;
    pairs_in(alloc, ordered)
}

// The set of these pairs.
fn set_of_pairs(alloc: Global, pairs: &[(u32, u32)]) -> Result<BTreeSet<(u32, u32)>, AllocError>
    ensures { IfOk result (IsFromIterResult pair_cmp pairs.now) }
{
    pairs.iter().copied().collect(alloc)
}

// The pairs of a set, in order.
fn pairs_in(alloc: Global, set: BTreeSet<(u32, u32)>) -> Result<Vec<(u32, u32)>, AllocError>
    ensures { IfOk result (λ list. list.items ≡ set.keys) }
{
    set.into_iter().collect(alloc)
}

// Adds the set of a cell, where it isn't empty.
fn push_cell(
    cells: &mut Seq<(SiteId, FieldId, IdSet)>,
    site: SiteId,
    field: FieldId,
    set: IdSet,
) -> Result<(), AllocError>
    ensures { OnOk result (cells.new ≡ cells.old ++ with_set (λ xs. (site, field, xs)) set) }
{
    if set.is_empty() {
        return Ok(());
    }
    cells.push((site, field, set))
}

// Takes the set of a cell, where there is such a cell.
fn take_cell(
    list: &mut Seq<(SiteId, FieldId, IdSet)>,
    alloc: Global,
    sets: &mut [IdSet],
    first: usize,
    cells: &IndexSet<(u32, u32)>,
    cell: (u32, u32),
) -> Result<(), AllocError>
    requires { first + length cells.now.keys ≤ length sets.old }
    ensures list { OnOk result (list.new ≡ list.old ++ with_set (λ xs. (record { 0 = cell.0 }, record { 0 = cell.1 }, xs)) (cell_set cells.now.keys (λ place. set_at sets.old (first + place)) cell)) }
    ensures left { OnOk result ((k : ℕ) (d : ℕ × ℕ) → slice_get cells.now.keys k ≡ Some d → (d ≢ cell) → set_at sets.new (first + k) ≡ set_at sets.old (first + k)) }
    ensures len { length sets.new ≡ length sets.old }
{
    match cells.get_index_of(&cell) {
        Some(place) => {
            let set = take_set(alloc, sets, first + place);
            push_cell(list, SiteId(cell.0), FieldId(cell.1), set)?;
            Ok(())
        }
        None => Ok(()),
    }
}

// Takes the sets of these cells, each of which comes once.
fn take_each(
    alloc: Global,
    sets: &mut [IdSet],
    first: usize,
    cells: &IndexSet<(u32, u32)>,
    ordered: &[(u32, u32)],
) -> Result<Seq<(SiteId, FieldId, IdSet)>, AllocError>
    requires within { first + length cells.now.keys ≤ length sets.old }
    requires once { AreOnce ordered.now }
    ensures { IfOk result (λ list. list ≡ cells_of (cell_set cells.now.keys (λ place. set_at sets.old (first + place))) ordered.now) }
{
    let mut list = Seq::new(alloc);
    for cell in ordered {
        take_cell(&mut list, alloc, sets, first, cells, *cell)?;
    }
    Ok(list)
}

// Takes the sets of cells, which stand from one place on in the order of the cells.
fn take_cells(
    alloc: Global,
    sets: &mut [IdSet],
    first: usize,
    cells: &IndexSet<(u32, u32)>,
) -> Result<Seq<(SiteId, FieldId, IdSet)>, AllocError>
    requires { first + length cells.now.keys ≤ length sets.old }
    ensures { IfOk result (AreListedCells cells.now.keys (λ place. set_at sets.old (first + place))) }
{
    let ordered = ascending(alloc, cells)?;
    let list = take_each(alloc, sets, first, cells, ordered.as_slice())?;
    Ok(list)
}

// The calls, ascending.
fn list_calls(
    alloc: Global,
    calls: &IndexSet<(u32, u32)>,
) -> Result<Seq<(NodeId, MethodId)>, AllocError>
    ensures { IfOk result (AreListedCalls calls.now.keys) }
{
    let pairs = ascending(alloc, calls)?;
    let list = calls_of(alloc, pairs.as_slice())?;
    Ok(list)
}

// The calls of these pairs.
fn calls_of(alloc: Global, pairs: &[(u32, u32)]) -> Result<Seq<(NodeId, MethodId)>, AllocError>
    ensures { IfOk result (λ list. list ≡ map call_of pairs.now) }
{
    let mut list = Seq::new(alloc);
    for pair in pairs {
        list.push((NodeId(pair.0), MethodId(pair.1)))?;
    }
    Ok(list)
}

// The set of these numbers.
fn set_of_numbers(alloc: Global, numbers: &IndexSet<u32>) -> Result<IdSet, AllocError>
    ensures same { IfOk result (λ set. (x : ℕ) → has set x ≡ has numbers.now.keys x) }
    ensures ascends { IfOk result IsAscending }
{
    let mut ids = Vec::new(alloc);
    ids.extend_from_slice(numbers.as_slice())?;
    ids.sort()?;
    ids.dedup();
    Ok(IdSet::from_ascending(ids))
}

// The sets of each kind of place.
#[derive(Drop)]
pub(crate) struct Parts {
    pub(crate) regs: Seq<IdSet>,
    pub(crate) statics: Seq<IdSet>,
    pub(crate) elems: Seq<(SiteId, IdSet)>,
    pub(crate) cells: Seq<(SiteId, FieldId, IdSet)>,
}

// Takes the sets of each kind of place. They are moved, and not copied.
fn take_parts(
    alloc: Global,
    layout: Layout,
    sets: &mut [IdSet],
    cells: &IndexSet<(u32, u32)>,
) -> Result<Parts, AllocError>
    requires first { layout.first_cell ≡ layout.registers + layout.fields + layout.sites }
    requires within { layout.first_cell + length cells.now.keys ≤ length sets.old }
    requires few { layout.sites ≤ 2 ^ 32 }
    ensures { IfOk result (λ parts. AreParts layout cells.now.keys sets.old parts) }
{
    let fields = layout.fields;
    let registers = layout.registers;
    let regs = take_sets(alloc, sets, 0, registers)?;
    let statics = take_sets(alloc, sets, registers, fields)?;
    let elems = take_elements(alloc, sets, registers + fields, layout.sites)?;
    let listed = take_cells(alloc, sets, layout.first_cell, cells)?;
    Ok(Parts {
        regs,
        statics,
        elems,
        cells: listed,
    })
}

// Takes the sets of what was found.
fn parts_of(alloc: Global, layout: Layout, found: Found) -> Result<Parts, AllocError>
    requires laid { IsLaid layout found }
    requires least { IsLeast found.solver.constraints found.solver.sets }
    requires few { layout.sites ≤ 2 ^ 32 }
    ensures { IfOk result (λ parts. AreParts layout found.cells.keys found.solver.sets parts) }
{
    let Found { solver, cells, .. } = found;
    let mut sets = solver.into_sets();
    take_parts(alloc, layout, sets.as_mut_slice(), &cells)
}

// The facts of these parts.
fn facts_of(parts: Parts, calls: Seq<(NodeId, MethodId)>, reached: IdSet) -> Facts
    ensures regs { result.regs ≡ parts.regs }
    ensures statics { result.statics ≡ parts.statics }
    ensures elems { result.elems ≡ parts.elems }
    ensures cells { result.cells ≡ parts.cells }
    ensures calls { result.calls ≡ calls }
    ensures reached { result.reached ≡ reached }
{
    let Parts {
        regs,
        statics,
        elems,
        cells,
    } = parts;
    Facts {
        regs,
        statics,
        cells,
        elems,
        calls,
        reached,
    }
}

// The facts that list what was found.
pub(crate) fn list(alloc: Global, layout: Layout, found: Found) -> Result<Facts, AllocError>
    requires laid { IsLaid layout found }
    requires least { IsLeast found.solver.constraints found.solver.sets }
    requires few { layout.sites ≤ 2 ^ 32 }
    ensures { IfOk result (λ facts. IsListed layout found facts) }
{
    let calls = list_calls(alloc, &found.calls)?;
    let reached = set_of_numbers(alloc, &found.reached)?;
    let parts = parts_of(alloc, layout, found)?;
    Ok(facts_of(parts, calls, reached))
}

// What is asked of the facts so far.
ghost use Rattle.std.specs.Prelude.{◌≡◌, ◌<◌, ◌+◌, ◌^◌, ⊤, ℕ, true, length, IfOk, OnOk, MatchOption};
ghost use Rattle.th_base.specs.IdSet.{has};
ghost use Rattle.th_incl.specs.Least.{set_at};
ghost use Rattle.th_ir.specs.declared.program.RegProgram.{RegProgram};
ghost use Rattle.th_points_to.specs.Found.{Adds, IsCell, IsLaid, IsSet};
ghost use Rattle.th_points_to.specs.Places.{Gives, Includes, IncludesThrough, IsThere};

use crate::place::{Layout, Place};
use indexmap::IndexSet;
use std::alloc::{AllocError, Global};
use th_base::{MethodId, SiteId};
use th_incl::{Inclusion, Solver};

// The inclusions between sets, the cells that have a set, the calls, and the methods that may run.
#[derive(Drop)]
pub(crate) struct Found {
    pub(crate) solver: Solver,
    // Each by its site and its field, in the order of their sets.
    pub(crate) cells: IndexSet<(u32, u32)>,
    // Each by its node and its method.
    pub(crate) calls: IndexSet<(u32, u32)>,
    pub(crate) reached: IndexSet<u32>,
}

// The number of the filter that every site passes.
pub(crate) const EVERY_SITE: usize = 0;

// The set of a place that is below a bound, where the sets of its kind begin at a number.
fn below(place: u32, bound: usize, first: usize) -> Option<usize>
    requires { first + bound < 2 ^ 64 }
    ensures { MatchOption result (place < bound → ⊥) (λ set. (set ≡ first + place) × (place < bound)) }
{
    let place = place as usize;
    if place < bound {
        Some(first + place)
    } else {
        None
    }
}

// The set of the cell at a place among cells.
fn cell_at(layout: Layout, at: usize) -> Result<usize, AllocError>
    ensures { IfOk result (λ set. set ≡ layout.first_cell + at) }
{
    match layout.first_cell.checked_add(at) {
        Some(set) => Ok(set),
        // No memory holds so many sets.
        None => Err(AllocError),
    }
}

// The set of a cell, which is made where there is none.
fn cell(
    found: &mut Found,
    alloc: Global,
    layout: Layout,
    site: u32,
    field: u32,
) -> Result<usize, AllocError>
    requires { IsLaid layout found.old }
    ensures adds { OnOk result ((p : RegProgram) → Adds layout p found.old found.new (λ t. ⊤)) }
    ensures set { IfOk result (λ set. IsCell layout found.new set site field) }
{
    let (at, is_new) = found.cells.insert_full((site, field))?;
    let set = cell_at(layout, at)?;
    if is_new {
        found.solver.grow(alloc, 1)?;
        return Ok(set);
    }
    Ok(set)
}

// The set of a place; `None` where there is no such place.
fn set_of(
    found: &mut Found,
    alloc: Global,
    layout: Layout,
    place: Place,
) -> Result<Option<usize>, AllocError>
    requires { IsLaid layout found.old }
    ensures adds { OnOk result ((p : RegProgram) → Adds layout p found.old found.new (λ t. ⊤)) }
    ensures set { IfOk result (λ set. MatchOption set (IsThere layout place → ⊥) (λ i. IsSet layout found.new place i)) }
{
    match place {
        Place::Register(register) => Ok(below(register.0, layout.registers, 0)),
        Place::Static(field) => Ok(below(field.0, layout.fields, layout.registers)),
        Place::Elements(site) => Ok(below(site.0, layout.sites, layout.registers + layout.fields)),
        Place::Cell(site, field) => {
            let set = cell(found, alloc, layout, site.0, field.0)?;
            Ok(Some(set))
        }
    }
}

// What is in one place and in a filter is in another place too.
pub(crate) fn include_through(
    found: &mut Found,
    alloc: Global,
    layout: Layout,
    from: Place,
    to: Place,
    filter: usize,
) -> Result<(), AllocError>
    requires laid { IsLaid layout found.old }
    requires filter { filter < length found.old.solver.constraints.filters }
    ensures { OnOk result ((p : RegProgram) → Adds layout p found.old found.new (λ t. IncludesThrough layout t (has (set_at found.old.solver.constraints.filters filter)) from to)) }
{
    let from = match set_of(found, alloc, layout, from)? {
        Some(from) => from,
        None => return Ok(()),
    };
    let to = match set_of(found, alloc, layout, to)? {
        Some(to) => to,
        None => return Ok(()),
    };
    found.solver.add_copy(Inclusion { from, to, filter })?;
    Ok(())
}

// What is in one place is in another too.
pub(crate) fn include(
    found: &mut Found,
    alloc: Global,
    layout: Layout,
    from: Place,
    to: Place,
) -> Result<(), AllocError>
    requires { IsLaid layout found.old }
    ensures { OnOk result ((p : RegProgram) → Adds layout p found.old found.new (λ t. Includes layout t from to)) }
{
    include_through(found, alloc, layout, from, to, EVERY_SITE)?;
    Ok(())
}

// A site is in a place.
pub(crate) fn give(
    found: &mut Found,
    alloc: Global,
    layout: Layout,
    to: Place,
    site: SiteId,
) -> Result<(), AllocError>
    requires { IsLaid layout found.old }
    ensures { OnOk result ((p : RegProgram) → Adds layout p found.old found.new (λ t. Gives layout t to site.0)) }
{
    if site.0 as usize >= layout.sites {
        return Ok(());
    }
    let to = match set_of(found, alloc, layout, to)? {
        Some(to) => to,
        None => return Ok(()),
    };
    found.solver.add_base(to, site.0)?;
    Ok(())
}

// A method may run.
pub(crate) fn reach(found: &mut Found, layout: Layout, method: MethodId) -> Result<(), AllocError>
    requires { IsLaid layout found.old }
    ensures { OnOk result ((p : RegProgram) → Adds layout p found.old found.new (λ t. t.reached method.0 ≡ true)) }
{
    found.reached.insert(method.0)?;
    Ok(())
}

// What a slot of a site's objects may hold, by the points-to facts, and whether these are in order.
ghost use Rattle.std.specs.Prelude.{◌≡◌, ◌==◌, ◌&&◌, ◌↔◌, IsTrue};
ghost use Rattle.std.specs.List.{list_any};
ghost use Rattle.th_base.specs.IdSet.{has};
ghost use Rattle.th_ir.specs.FactSets.{AscendBy, cell_key, elem_key, sets_of};
ghost use Rattle.th_query.specs.Narrowed.{slot_has};
ghost use Rattle.th_narrow.specs.Rows.{cell_before, elem_before};

use th_base::{FieldId, IdSet, SiteId};
use th_ir::{Facts, Plan};
use th_query::Slot;

/// Whether the cells and the elements of a plan's facts ascend, as `narrow` takes them. It goes over
/// them once.
pub fn are_sorted(plan: &Plan) -> bool
    ensures { IsTrue result ↔ (AscendBy cell_key plan.now.facts.cells × AscendBy elem_key plan.now.facts.elems) }
{
    do_cells_ascend(plan.facts.cells.as_slice()) && do_elements_ascend(plan.facts.elems.as_slice())
}

// Whether cells ascend by site and field.
fn do_cells_ascend(cells: &[(SiteId, FieldId, IdSet)]) -> bool
    ensures { IsTrue result ↔ AscendBy cell_key cells.now }
{
    cells.is_sorted_by(|cell, next| is_cell_before(cell, next.0.0, next.1.0))
}

// Whether elements ascend by site.
fn do_elements_ascend(elems: &[(SiteId, IdSet)]) -> bool
    ensures { IsTrue result ↔ AscendBy elem_key elems.now }
{
    elems.is_sorted_by(|elem, next| is_elem_before(elem, next.0.0))
}

// Whether the slot of a site's objects may hold an object of the target, by binary search.
pub(crate) fn may_hold(facts: &Facts, site: u32, slot: Slot, target: u32) -> bool
    requires cells { AscendBy cell_key facts.now.cells }
    requires elems { AscendBy elem_key facts.now.elems }
    ensures { result ≡ slot_has (sets_of facts.now) site slot target }
{
    match slot {
        Slot::Field(field) => in_cell(facts.cells.as_slice(), site, field.0, target),
        Slot::Elements => in_elements(facts.elems.as_slice(), site, target),
    }
}

// Whether the set of a site and field has the target.
fn in_cell(cells: &[(SiteId, FieldId, IdSet)], site: u32, field: u32, target: u32) -> bool
    requires { AscendBy cell_key cells.now }
    ensures { result ≡ list_any (λ c. (c.0.0 == site && c.1.0 == field) && has c.2 target) cells.now }
{
    let at = cells.partition_point(|cell| is_cell_before(cell, site, field));
    if at >= cells.len() {
        return false;
    }
    cell_has(&cells[at], site, field, target)
}

// Whether a cell is of the site and field, and its set has the target.
fn cell_has(cell: &(SiteId, FieldId, IdSet), site: u32, field: u32, target: u32) -> bool
    ensures { result ≡ ((cell.now.0.0 == site && cell.now.1.0 == field) && has cell.now.2 target) }
{
    (cell.0.0 == site && cell.1.0 == field) && cell.2.contains(target)
}

// Whether a cell stands before those of the site and field.
fn is_cell_before(cell: &(SiteId, FieldId, IdSet), site: u32, field: u32) -> bool
    ensures { result ≡ cell_before site field cell.now }
{
    cell.0.0 < site || (cell.0.0 == site && cell.1.0 < field)
}

// Whether the set of the elements of a site's arrays has the target.
fn in_elements(elems: &[(SiteId, IdSet)], site: u32, target: u32) -> bool
    requires { AscendBy elem_key elems.now }
    ensures { result ≡ list_any (λ e. e.0.0 == site && has e.1 target) elems.now }
{
    let at = elems.partition_point(|elem| is_elem_before(elem, site));
    if at >= elems.len() {
        return false;
    }
    elem_has(&elems[at], site, target)
}

// Whether elements are of the site, and their set has the target.
fn elem_has(elem: &(SiteId, IdSet), site: u32, target: u32) -> bool
    ensures { result ≡ (elem.now.0.0 == site && has elem.now.1 target) }
{
    elem.0.0 == site && elem.1.contains(target)
}

// Whether elements stand before those of the site.
fn is_elem_before(elem: &(SiteId, IdSet), site: u32) -> bool
    ensures { result ≡ elem_before site elem.now }
{
    elem.0.0 < site
}

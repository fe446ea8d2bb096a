// Queries whose names are all theirs.
ghost use Rattle.std.specs.Prelude.{◌≡◌, ◌&&◌, ◌↔◌, nat_lt, IsTrue};
ghost use Rattle.std.specs.List.{list_all};
ghost use Rattle.th_steps.specs.Named.{AreKnown};

use th_base::{FieldId, Reg};
use th_query::{Cell, Element, Frame, Query};

/// Whether each symbol that a register, a static field, a cell or an element names is one of the
/// query's. A well-formed query has that.
pub fn are_known(query: &Query) -> bool
    ensures { IsTrue result ↔ AreKnown query.now }
{
    are_below(
        query.frames.as_slice(),
        query.statics.as_slice(),
        query.cells.as_slice(),
        query.elems.as_slice(),
        query.syms.len(),
    )
}

// Whether the symbols that these name are below a bound.
fn are_below(
    frames: &[Frame],
    statics: &[(FieldId, u32)],
    cells: &[Cell],
    elems: &[Element],
    count: usize,
) -> bool
    ensures { result ≡ ((list_all (λ f. list_all (λ x. nat_lt x.1 count) f.regs) frames.now && list_all (λ x. nat_lt x.1 count) statics.now)
        && (list_all (λ c. nat_lt c.base count && nat_lt c.value count) cells.now && list_all (λ e. nat_lt e.array count && nat_lt e.value count) elems.now)) }
{
    are_places_below(frames, statics, count) && are_links_below(cells, elems, count)
}

// Whether the symbols of registers and static fields are below a bound.
fn are_places_below(frames: &[Frame], statics: &[(FieldId, u32)], count: usize) -> bool
    ensures { result ≡ (list_all (λ f. list_all (λ x. nat_lt x.1 count) f.regs) frames.now && list_all (λ x. nat_lt x.1 count) statics.now) }
{
    are_frames_below(frames, count) && are_statics_below(statics, count)
}

// Whether the symbols of registers of frames are below a bound.
fn are_frames_below(frames: &[Frame], count: usize) -> bool
    ensures { result ≡ list_all (λ f. list_all (λ x. nat_lt x.1 count) f.regs) frames.now }
{
    frames
        .iter()
        .all(|frame| are_registers_below(frame.regs.as_slice(), count))
}

// Whether the symbols of registers are below a bound.
fn are_registers_below(regs: &[(Reg, u32)], count: usize) -> bool
    ensures { result ≡ list_all (λ x. nat_lt x.1 count) regs.now }
{
    regs.iter().all(|pair| (pair.1 as usize) < count)
}

// Whether the symbols of static fields are below a bound.
fn are_statics_below(statics: &[(FieldId, u32)], count: usize) -> bool
    ensures { result ≡ list_all (λ x. nat_lt x.1 count) statics.now }
{
    statics.iter().all(|pair| (pair.1 as usize) < count)
}

// Whether the symbols of cells and elements are below a bound.
fn are_links_below(cells: &[Cell], elems: &[Element], count: usize) -> bool
    ensures { result ≡ (list_all (λ c. nat_lt c.base count && nat_lt c.value count) cells.now && list_all (λ e. nat_lt e.array count && nat_lt e.value count) elems.now) }
{
    are_cells_below(cells, count) && are_elements_below(elems, count)
}

// Whether the symbols of cells are below a bound.
fn are_cells_below(cells: &[Cell], count: usize) -> bool
    ensures { result ≡ list_all (λ c. nat_lt c.base count && nat_lt c.value count) cells.now }
{
    cells.iter().all(|cell| (cell.base as usize) < count && (cell.value as usize) < count)
}

// Whether the symbols of elements are below a bound.
fn are_elements_below(elems: &[Element], count: usize) -> bool
    ensures { result ≡ list_all (λ e. nat_lt e.array count && nat_lt e.value count) elems.now }
{
    elems.iter().all(|element| (element.array as usize) < count && (element.value as usize) < count)
}

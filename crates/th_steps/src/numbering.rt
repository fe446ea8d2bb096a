// The symbols of a query are numbered anew, in the order in which they are first mentioned, and its
// facts are kept by their keys.
ghost use Rattle.std.specs.Prelude.{◌≡◌, ◌<◌, ◌^◌, length, map, slice_get, slice_set, IfOk};
ghost use Rattle.th_query.specs.declared.query.Sym.TheVariants.{Carry};
ghost use Rattle.th_linear.specs.Gathered.{name_of};
ghost use Rattle.th_query.specs.Numbered.{numbered, numbered_by, sorted_query};
ghost use Rattle.th_query.specs.Unified.{present};
ghost use Rattle.th_steps.specs.Named.{AreKnown};
ghost use Rattle.th_steps.specs.Once.{IsOnce};

use crate::mentioning::places;
use crate::ordering::order;
use crate::renaming::{push_present, rename_facts};
use crate::sorting::{Key, sort_seq};
use crate::turning::{Turn, turn_all, turn_seq};
use std::alloc::{AllocError, Global};
use th_base::{FieldId, Reg, Seq};
use th_query::{Cell, Element, Frame, Query, Sym};

/// The query with its symbols numbered anew, in the order in which they are first mentioned: by frames
/// and registers, by static fields, by the cells and elements of symbols that are mentioned, then by
/// number. Facts are kept by their keys, each difference names its lesser symbol first, and a symbol
/// that counts for nothing goes.
#[tactic(auto, using(crate::proofs::Renumbering::few_sorted, crate::proofs::Renumbering::few_numbered, crate::proofs::Renumbering::once_numbered, crate::proofs::Renumbering::whole))]
pub fn number(alloc: Global, query: Query) -> Result<Query, AllocError>
    requires few { length query.syms < 2 ^ 31 }
    requires named { AreKnown query }
    ensures { IfOk result (λ made. made ≡ numbered query) }
{
    let sorted = sort_query(alloc, query)?;
    let order = order(alloc, &sorted)?;
    let names = places(alloc, order.as_slice(), sorted.syms.len())?;
    number_by(alloc, order.as_slice(), Renaming { names }, sorted)
}

// Registers by number.
struct ByRegister;

impl Key<(Reg, u32)> for ByRegister {
    ghost key = { λ x. x.0.0 };

    fn of(item: (Reg, u32)) -> u32 {
        item.0.0
    }
}

// Static fields by number.
struct ByStatic;

impl Key<(FieldId, u32)> for ByStatic {
    ghost key = { λ x. x.0.0 };

    fn of(item: (FieldId, u32)) -> u32 {
        item.0.0
    }
}

// Cells by field.
struct ByField;

impl Key<Cell> for ByField {
    ghost key = { λ c. c.field.0 };

    fn of(item: Cell) -> u32 {
        item.field.0
    }
}

// Cells by base.
struct ByBase;

impl Key<Cell> for ByBase {
    ghost key = { λ c. c.base };

    fn of(item: Cell) -> u32 {
        item.base
    }
}

// The query with its facts by their keys.
fn sort_query(alloc: Global, query: Query) -> Result<Query, AllocError>
    ensures { IfOk result (λ sorted. sorted ≡ sorted_query query) }
{
    let Query {
        frames,
        statics,
        cells,
        elems,
        syms,
        diffs,
        facts,
    } = query;
    let frames = turn_all(alloc, frames.into_vec(), &Sorting)?;
    Ok(Query {
        frames: Seq::from_vec(frames),
        statics: sort_seq::<(FieldId, u32), ByStatic>(statics),
        cells: sort_seq::<Cell, ByField>(cells),
        elems,
        syms,
        diffs,
        facts,
    })
}

// Sorts the registers of a frame.
struct Sorting;

impl Turn<Frame> for Sorting {
    ghost use Rattle.th_query.specs.Numbered.{sorted_frame};

    ghost turned = { λ s f. sorted_frame f };

    fn turn(&self, item: Frame) -> Frame {
        let Frame { node, regs } = item;
        let regs = sort_seq::<(Reg, u32), ByRegister>(regs);
        Frame { node, regs }
    }
}

/// Gives each symbol the name that a list has for it; a symbol past the list keeps its own.
#[derive(Drop)]
pub struct Renaming {
    /// The name of each symbol, by number.
    pub names: Vec<u32>,
}

/// The name of a symbol; one past the names keeps its own.
pub fn name(names: &[u32], symbol: u32) -> u32
    ensures { result ≡ name_of names.now symbol }
{
    match names.get(symbol as usize) {
        Some(name) => *name,
        None => symbol,
    }
}

impl Turn<(Reg, u32)> for Renaming {
    ghost use Rattle.th_query.specs.Unified.{renamed};

    ghost turned = { λ r x. renamed r.names.items x };

    fn turn(&self, item: (Reg, u32)) -> (Reg, u32) {
        (item.0, name(self.names.as_slice(), item.1))
    }
}

impl Turn<(FieldId, u32)> for Renaming {
    ghost use Rattle.th_query.specs.Unified.{renamed};

    ghost turned = { λ r x. renamed r.names.items x };

    fn turn(&self, item: (FieldId, u32)) -> (FieldId, u32) {
        (item.0, name(self.names.as_slice(), item.1))
    }
}

impl Turn<Cell> for Renaming {
    ghost use Rattle.th_query.specs.Unified.{renamed_cell};

    ghost turned = { λ r c. renamed_cell r.names.items c };

    fn turn(&self, item: Cell) -> Cell {
        Cell {
            base: name(self.names.as_slice(), item.base),
            field: item.field,
            value: name(self.names.as_slice(), item.value),
        }
    }
}

impl Turn<Element> for Renaming {
    ghost use Rattle.th_query.specs.Unified.{renamed_element};

    ghost turned = { λ r e. renamed_element r.names.items e };

    fn turn(&self, item: Element) -> Element {
        Element {
            array: name(self.names.as_slice(), item.array),
            value: name(self.names.as_slice(), item.value),
        }
    }
}

impl Turn<(u32, u32)> for Renaming {
    ghost use Rattle.th_query.specs.Numbered.{numbered_pair};

    ghost turned = { λ r d. numbered_pair r.names.items d };

    fn turn(&self, item: (u32, u32)) -> (u32, u32) {
        let left = name(self.names.as_slice(), item.0);
        let right = name(self.names.as_slice(), item.1);
        (left.min(right), left.max(right))
    }
}

impl Turn<Frame> for Renaming {
    ghost use Rattle.th_query.specs.Numbered.{numbered_frame};

    ghost turned = { λ r f. numbered_frame r.names.items f };

    fn turn(&self, item: Frame) -> Frame {
        let Frame { node, regs } = item;
        let regs = turn_seq::<(Reg, u32), Renaming>(regs, self);
        Frame { node, regs }
    }
}

// The query with these numbers.
fn number_by(
    alloc: Global,
    order: &[u32],
    renaming: Renaming,
    query: Query,
) -> Result<Query, AllocError>
    requires { IsOnce order.now }
    ensures { IfOk result (λ made. made ≡ numbered_by order.now renaming.names.items query) }
{
    let Query {
        frames,
        statics,
        cells,
        elems,
        syms,
        diffs,
        facts,
    } = query;
    let frames = turn_all(alloc, frames.into_vec(), &renaming)?;
    let syms = symbols_in_order(alloc, order, syms)?;
    let facts = rename_facts(alloc, renaming.names.as_slice(), facts.as_slice())?;
    let cells = turn_seq(cells, &renaming);
    Ok(Query {
        frames: Seq::from_vec(frames),
        statics: turn_seq(statics, &renaming),
        cells: sort_seq::<Cell, ByBase>(cells),
        elems: turn_seq(elems, &renaming),
        syms,
        diffs: turn_seq(diffs, &renaming),
        facts: Seq::from_vec(facts),
    })
}

// The symbols of these numbers, in this order.
fn symbols_in_order(alloc: Global, order: &[u32], syms: Seq<Sym>) -> Result<Seq<Sym>, AllocError>
    requires { IsOnce order.now }
    ensures { IfOk result (λ taken. taken ≡ present (map (slice_get syms) order.now)) }
{
    let mut syms = syms.into_vec();
    let taken = take_in_order(alloc, order, &mut syms)?;
    Ok(Seq::from_vec(taken))
}

// Takes the symbols of these numbers, in this order.
fn take_in_order(alloc: Global, order: &[u32], syms: &mut [Sym]) -> Result<Vec<Sym>, AllocError>
    requires { IsOnce order.now }
    ensures { IfOk result (λ taken. taken.items ≡ present (map (slice_get syms.old) order.now)) }
{
    let mut taken = Vec::new(alloc);
    for symbol in order {
        let sym = take_symbol(syms, *symbol);
        push_present(&mut taken, sym)?;
    }
    Ok(taken)
}

// Takes a symbol, and leaves another in its place.
fn take_symbol(syms: &mut [Sym], symbol: u32) -> Option<Sym>
    ensures value { result ≡ slice_get syms.old symbol }
    ensures left { syms.new ≡ slice_set syms.old symbol Carry }
{
    let place = symbol as usize;
    if place < syms.len() {
        Some(std::mem::replace(&mut syms[place], Sym::Carry))
    } else {
        None
    }
}

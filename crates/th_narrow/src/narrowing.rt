// From-sets: bounded by places, then narrowed in rounds.
ghost use Rattle.std.specs.Prelude.{◌≡◌, filter, slice_get, IfOk, OnOk};
ghost use Rattle.th_base.specs.IdSet.{has};
ghost use Rattle.th_ir.specs.FactSets.{AscendBy, cell_key, elem_key, set_at, sets_of};
ghost use Rattle.th_ir.specs.WellFormed.{AreNumbered};
ghost use Rattle.th_query.specs.Narrowed.{IsNarrowed, has_slot as site_has_slot, kept_sites};
ghost use Rattle.th_query.specs.Symbols.{links as links_of, is_sure as is_surely};
ghost use Rattle.th_narrow.specs.Kept.{KeepsRest};
ghost use Rattle.th_narrow.specs.Made.{IsTableOf};
ghost use Rattle.th_narrow.specs.Rounds.{AllRules, Bounds, Enforces, FrameBounds, Owners, kept_at, owns, register_set, static_set, sure_cell, sure_element, sure_links};

use crate::rounds::{narrow_links, put_sites, put_symbol, take_sites, take_symbol};
use crate::table::{SiteTable, has_slot};
use std::alloc::{AllocError, Global};
use th_base::{FieldId, IdSet, Reg, Seq};
use th_ir::Plan;
use th_query::{Cell, Element, Frame, Link, Query, Sites, Slot, Sym};

/// The query with the greatest from-sets within its own that meet two rules: a symbol has only sites in
/// the points-to set of its place, and a base only sites that have the slot and, where the value is a
/// reference that can't be null, may hold one of the value's sites there. Where no set changes, it
/// takes no memory but for a list of the fields and elements that the query speaks of.
pub fn narrow(
    alloc: Global,
    plan: &Plan,
    table: &SiteTable,
    query: Query,
) -> Result<Query, AllocError>
    requires table { IsTableOf plan.now table.now }
    requires cells { AscendBy cell_key plan.now.facts.cells }
    requires elems { AscendBy elem_key plan.now.facts.elems }
    ensures rest { IfOk result (λ less. KeepsRest query less) }
    ensures narrowed { IfOk result (λ less. AreNumbered plan.now.hierarchy → IsNarrowed plan.now.hierarchy plan.now.program (sets_of plan.now.facts) query less) }
{
    let links = all_links(alloc, &query)?;
    let Query {
        frames,
        statics,
        cells,
        elems,
        syms,
        diffs,
        facts,
    } = query;
    let mut syms = syms.into_vec();
    narrow_symbols(
        alloc,
        plan,
        table,
        frames.as_slice(),
        statics.as_slice(),
        links.as_slice(),
        syms.as_mut_slice(),
    )?;
    Ok(Query {
        frames,
        statics,
        cells,
        elems,
        syms: Seq::from_vec(syms),
        diffs,
        facts,
    })
}

// Narrows symbols to the greatest from-sets within theirs that meet all rules.
fn narrow_symbols(
    alloc: Global,
    plan: &Plan,
    table: &SiteTable,
    frames: &[Frame],
    statics: &[(FieldId, u32)],
    links: &[(Link, bool)],
    syms: &mut [Sym],
) -> Result<(), AllocError>
    requires table { IsTableOf plan.now table.now }
    requires cells { AscendBy cell_key plan.now.facts.cells }
    requires elems { AscendBy elem_key plan.now.facts.elems }
    ensures { OnOk result (AreNumbered plan.now.hierarchy
        → Enforces (AllRules plan.now.hierarchy plan.now.program (sets_of plan.now.facts) frames.now statics.now links.now) syms.old syms.new) }
{
    keep_frames(alloc, plan.facts.regs.as_slice(), frames, syms)?;
    keep_statics(alloc, plan.facts.statics.as_slice(), statics, syms)?;
    keep_owners(alloc, plan, table, links, syms)?;
    narrow_links(alloc, &plan.facts, links, syms)?;
    Ok(())
}

// The links, each with whether its value is a reference that can't be null.
fn all_links(alloc: Global, query: &Query) -> Result<Vec<(Link, bool)>, AllocError>
    ensures { IfOk result (λ all. all.items ≡ sure_links query.now.syms (links_of query.now)) }
{
    let syms = query.syms.as_slice();
    let mut all = Vec::new(alloc);
    for cell in query.cells.as_slice() {
        all.push(cell_link(syms, *cell))?;
    }
    for element in query.elems.as_slice() {
        all.push(element_link(syms, *element))?;
    }
    Ok(all)
}

// The link of a cell.
fn cell_link(syms: &[Sym], cell: Cell) -> (Link, bool)
    ensures { result ≡ sure_cell syms.now cell }
{
    let link = Link {
        base: cell.base,
        slot: Slot::Field(cell.field),
        value: cell.value,
    };
    (link, is_sure(syms, cell.value))
}

// The link of an element.
fn element_link(syms: &[Sym], element: Element) -> (Link, bool)
    ensures { result ≡ sure_element syms.now element }
{
    let link = Link {
        base: element.array,
        slot: Slot::Elements,
        value: element.value,
    };
    (link, is_sure(syms, element.value))
}

// Whether a symbol is a reference that can't be null.
fn is_sure(syms: &[Sym], symbol: u32) -> bool
    ensures { result ≡ is_surely (slice_get syms.now symbol) }
{
    match syms.get(symbol as usize) {
        Some(Sym::Ref { null, sites: _ }) => !*null,
        Some(Sym::Int) => false,
        Some(Sym::Carry) => false,
        None => false,
    }
}

// The symbols of the registers of frames keep the sites of the registers' sets.
fn keep_frames(
    alloc: Global,
    sets: &[IdSet],
    frames: &[Frame],
    syms: &mut [Sym],
) -> Result<(), AllocError>
    ensures { OnOk result (Enforces (FrameBounds (register_set sets.now) frames.now) syms.old syms.new) }
{
    for frame in frames {
        keep_registers(alloc, sets, frame.regs.as_slice(), syms)?;
    }
    Ok(())
}

// The symbols of registers keep the sites of the registers' sets.
fn keep_registers(
    alloc: Global,
    sets: &[IdSet],
    regs: &[(Reg, u32)],
    syms: &mut [Sym],
) -> Result<(), AllocError>
    ensures { OnOk result (Enforces (Bounds (register_set sets.now) regs.now) syms.old syms.new) }
{
    for pair in regs {
        keep_place(alloc, sets, pair.0.0, pair.1, syms)?;
    }
    Ok(())
}

// The symbols of static fields keep the sites of the fields' sets.
fn keep_statics(
    alloc: Global,
    sets: &[IdSet],
    statics: &[(FieldId, u32)],
    syms: &mut [Sym],
) -> Result<(), AllocError>
    ensures { OnOk result (Enforces (Bounds (static_set sets.now) statics.now) syms.old syms.new) }
{
    for pair in statics {
        keep_place(alloc, sets, pair.0.0, pair.1, syms)?;
    }
    Ok(())
}

// A symbol keeps the sites of a place's set.
fn keep_place(
    alloc: Global,
    sets: &[IdSet],
    place: u32,
    symbol: u32,
    syms: &mut [Sym],
) -> Result<(), AllocError>
    ensures { OnOk result (syms.new ≡ kept_at symbol (set_at sets.now place) syms.old) }
{
    let at = symbol as usize;
    if at >= syms.len() {
        return Ok(());
    }
    let sym = take_symbol(syms, at);
    let kept = kept_in(alloc, sym, sets, place)?;
    put_symbol(syms, at, kept);
    Ok(())
}

// The symbol with the sites of a place's set; with none where there is no such place.
fn kept_in(alloc: Global, sym: Sym, sets: &[IdSet], place: u32) -> Result<Sym, AllocError>
    ensures { IfOk result (λ kept. kept ≡ kept_sites (set_at sets.now place) sym) }
{
    match sym {
        Sym::Ref { null, sites } => {
            let sites = sites_in_place(alloc, sites, sets, place)?;
            Ok(Sym::Ref { null, sites })
        }
        Sym::Int => Ok(Sym::Int),
        Sym::Carry => Ok(Sym::Carry),
    }
}

// The sites that are in a place's set.
fn sites_in_place(
    alloc: Global,
    mut sites: Sites,
    sets: &[IdSet],
    place: u32,
) -> Result<Sites, AllocError>
    ensures { IfOk result (λ kept. kept ≡ filter (set_at sets.now place) sites) }
{
    let at = place as usize;
    if at >= sets.len() {
        return Ok(Sites::of(IdSet::new(alloc)));
    }
    sites.keep_in(alloc, &sets[at])?;
    Ok(sites)
}

// The bases of links keep the sites that have the slot.
fn keep_owners(
    alloc: Global,
    plan: &Plan,
    table: &SiteTable,
    links: &[(Link, bool)],
    syms: &mut [Sym],
) -> Result<(), AllocError>
    requires table { IsTableOf plan.now table.now }
    ensures { OnOk result (AreNumbered plan.now.hierarchy → Enforces (Owners (site_has_slot plan.now.hierarchy plan.now.program) links.now) syms.old syms.new) }
{
    for link in links {
        keep_owned(alloc, plan, table, link.0.slot, link.0.base, syms)?;
    }
    Ok(())
}

// A symbol keeps the sites that have a slot.
fn keep_owned(
    alloc: Global,
    plan: &Plan,
    table: &SiteTable,
    slot: Slot,
    symbol: u32,
    syms: &mut [Sym],
) -> Result<(), AllocError>
    requires table { IsTableOf plan.now table.now }
    ensures { OnOk result (AreNumbered plan.now.hierarchy → syms.new ≡ kept_at symbol (owns plan.now.hierarchy plan.now.program slot) syms.old) }
{
    let sites = take_sites(alloc, syms, symbol)?;
    let kept = owned(plan, table, slot, sites);
    put_sites(syms, symbol, kept);
    Ok(())
}

// The sites that have the slot.
fn owned(plan: &Plan, table: &SiteTable, slot: Slot, mut sites: IdSet) -> IdSet
    requires table { IsTableOf plan.now table.now }
    ensures { AreNumbered plan.now.hierarchy → result ≡ filter (owns plan.now.hierarchy plan.now.program slot) sites }
{
    sites.keep(|site| has_slot(plan, table, *site, slot));
    sites
}

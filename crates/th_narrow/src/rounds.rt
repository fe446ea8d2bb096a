// From-sets are narrowed until the two rules hold at each link.
ghost use Rattle.std.specs.Prelude.{◌≡◌, ◌==◌, ◌<◌, ◌||◌, [], Some, not, length, filter, get_or, slice_get, slice_set, IfOk, OnOk};
ghost use Rattle.th_ir.specs.FactSets.{AscendBy, cell_key, elem_key, sets_of};
ghost use Rattle.th_query.specs.Narrowed.{slot_has};
ghost use Rattle.th_query.specs.Symbols.{sites_in};
ghost use Rattle.th_narrow.specs.Rounds.{Enforces, Steps, Rules, RulesAt, HasValues, HasBases, is_value, is_base};
ghost use Rattle.th_narrow.specs.Put.{IsLent, given_back, put_at, with_list};

use crate::rows::may_hold;
use std::alloc::{AllocError, Global};
use std::mem;
use th_base::{IdSet, TryCopy};
use th_ir::Facts;
use th_query::{Link, Sites, Slot, Sym};

// Narrows symbols to the greatest from-sets within theirs that meet the rules at the links.
pub(crate) fn narrow_links(
    alloc: Global,
    facts: &Facts,
    links: &[(Link, bool)],
    syms: &mut [Sym],
) -> Result<(), AllocError>
    requires cells { AscendBy cell_key facts.now.cells }
    requires elems { AscendBy elem_key facts.now.elems }
    ensures { OnOk result (Enforces (Rules (slot_has (sets_of facts.now)) links.now) syms.old syms.new) }
{
    while round(alloc, facts, links, syms)? {}
    Ok(())
}

// Narrows at each link once, and answers whether something changed.
fn round(
    alloc: Global,
    facts: &Facts,
    links: &[(Link, bool)],
    syms: &mut [Sym],
) -> Result<bool, AllocError>
    requires cells { AscendBy cell_key facts.now.cells }
    requires elems { AscendBy elem_key facts.now.elems }
    ensures { IfOk result (λ changed. Steps (Rules (slot_has (sets_of facts.now)) links.now) syms.old syms.new changed) }
{
    let mut changed = false;
    for link in links {
        let now = narrow_at(alloc, facts, link.0, link.1, syms)?;
        changed = either(changed, now);
    }
    Ok(changed)
}

// Whether either holds.
fn either(left: bool, right: bool) -> bool
    ensures { result ≡ (left || right) }
{
    left || right
}

// Narrows at one link, and answers whether something changed.
fn narrow_at(
    alloc: Global,
    facts: &Facts,
    link: Link,
    is_sure: bool,
    syms: &mut [Sym],
) -> Result<bool, AllocError>
    requires cells { AscendBy cell_key facts.now.cells }
    requires elems { AscendBy elem_key facts.now.elems }
    ensures { IfOk result (λ changed. Steps (RulesAt (slot_has (sets_of facts.now)) (link, is_sure)) syms.old syms.new changed) }
{
    let values = narrow_value(alloc, facts, link, syms)?;
    if is_sure {
        let bases = narrow_base(alloc, facts, link, syms)?;
        Ok(either(values, bases))
    } else {
        Ok(values)
    }
}

// The value keeps the sites that an object of the base may hold.
fn narrow_value(
    alloc: Global,
    facts: &Facts,
    link: Link,
    syms: &mut [Sym],
) -> Result<bool, AllocError>
    requires cells { AscendBy cell_key facts.now.cells }
    requires elems { AscendBy elem_key facts.now.elems }
    ensures { IfOk result (λ changed. Steps (HasValues (slot_has (sets_of facts.now)) link) syms.old syms.new changed) }
{
    let bases = lent_sites(alloc, syms, link.base, link.value)?;
    let values = take_sites(alloc, syms, link.value)?;
    let count = values.len();
    let kept = held_values(facts, link.slot, &bases, values);
    let changed = has_changed(&kept, count);
    put_sites(syms, link.value, kept);
    give_back(syms, link.base, link.value, bases);
    Ok(changed)
}

// The base keeps the sites whose objects may hold a value.
fn narrow_base(
    alloc: Global,
    facts: &Facts,
    link: Link,
    syms: &mut [Sym],
) -> Result<bool, AllocError>
    requires cells { AscendBy cell_key facts.now.cells }
    requires elems { AscendBy elem_key facts.now.elems }
    ensures { IfOk result (λ changed. Steps (HasBases (slot_has (sets_of facts.now)) link) syms.old syms.new changed) }
{
    let values = lent_sites(alloc, syms, link.value, link.base)?;
    let bases = take_sites(alloc, syms, link.base)?;
    let count = bases.len();
    let kept = holding_bases(facts, link.slot, &values, bases);
    let changed = has_changed(&kept, count);
    put_sites(syms, link.base, kept);
    give_back(syms, link.value, link.base, values);
    Ok(changed)
}

// Whether there are not as many sites as before.
fn has_changed(kept: &IdSet, count: usize) -> bool
    ensures { result ≡ not (length kept.now == count) }
{
    kept.len() != count
}

// The sites of a symbol, to be read while those of another are narrowed: taken out, so that nothing is
// copied; where the two are one, a copy.
fn lent_sites(alloc: Global, syms: &mut [Sym], symbol: u32, other: u32) -> Result<IdSet, AllocError>
    ensures { IfOk result (λ set. IsLent symbol other syms.old syms.new set) }
{
    if symbol == other {
        sites_of(alloc, syms, symbol)
    } else {
        take_sites(alloc, syms, symbol)
    }
}

// Gives sites back that were lent.
fn give_back(syms: &mut [Sym], symbol: u32, other: u32, sites: IdSet)
    ensures { syms.new ≡ given_back symbol other sites syms.old }
{
    if symbol != other {
        put_sites(syms, symbol, sites);
    }
}

// A copy of the sites of a symbol; none where it is no reference.
fn sites_of(alloc: Global, syms: &[Sym], symbol: u32) -> Result<IdSet, AllocError>
    ensures { IfOk result (λ set. set ≡ sites_in (slice_get syms.now symbol)) }
{
    match syms.get(symbol as usize) {
        Some(Sym::Ref { null: _, sites }) => sites.try_copy(alloc)?.into_set(alloc),
        Some(Sym::Int) => Ok(IdSet::new(alloc)),
        Some(Sym::Carry) => Ok(IdSet::new(alloc)),
        None => Ok(IdSet::new(alloc)),
    }
}

// Takes the sites of a symbol out: it is left with none.
pub(crate) fn take_sites(alloc: Global, syms: &mut [Sym], symbol: u32) -> Result<IdSet, AllocError>
    ensures sites { IfOk result (λ set. set ≡ sites_in (slice_get syms.old symbol)) }
    ensures rest { OnOk result (syms.new ≡ put_at symbol [] syms.old) }
{
    let place = symbol as usize;
    if place >= syms.len() {
        return Ok(IdSet::new(alloc));
    }
    let (empty, sites) = parted(alloc, take_symbol(syms, place));
    put_symbol(syms, place, empty);
    let set = sites.into_set(alloc)?;
    Ok(set)
}

// The symbol without sites, and its sites.
fn parted(alloc: Global, sym: Sym) -> (Sym, Sites)
    ensures empty { result.0 ≡ with_list [] sym }
    ensures sites { result.1 ≡ sites_in (Some sym) }
{
    match sym {
        Sym::Ref { null, sites } => (
            Sym::Ref {
                null,
                sites: Sites::every(alloc, 0),
            },
            sites,
        ),
        Sym::Int => (Sym::Int, Sites::every(alloc, 0)),
        Sym::Carry => (Sym::Carry, Sites::every(alloc, 0)),
    }
}

// Puts sites in the place of those of a symbol.
pub(crate) fn put_sites(syms: &mut [Sym], symbol: u32, sites: IdSet)
    ensures { syms.new ≡ put_at symbol sites syms.old }
{
    let place = symbol as usize;
    if place >= syms.len() {
        return;
    }
    let sym = take_symbol(syms, place);
    put_symbol(syms, place, with_sites(sym, sites));
}

// Takes a symbol, and leaves another in its place.
pub(crate) fn take_symbol(syms: &mut [Sym], place: usize) -> Sym
    requires { place < length syms.old }
    ensures value { (d : Sym) → result ≡ get_or syms.old place d }
    ensures rest { syms.new ≡ slice_set syms.old place Sym.Carry }
{
    mem::replace(&mut syms[place], Sym::Carry)
}

// Puts a symbol in its place.
pub(crate) fn put_symbol(syms: &mut [Sym], place: usize, sym: Sym)
    requires { place < length syms.old }
    ensures { syms.new ≡ slice_set syms.old place sym }
{
    syms[place] = sym;
}

// The symbol with other sites, where it is a reference.
fn with_sites(sym: Sym, sites: IdSet) -> Sym
    ensures { result ≡ with_list sites sym }
{
    match sym {
        Sym::Ref { null, sites: _ } => Sym::Ref {
            null,
            sites: Sites::of(sites),
        },
        Sym::Int => Sym::Int,
        Sym::Carry => Sym::Carry,
    }
}

// The values that an object of the bases may hold.
fn held_values(facts: &Facts, slot: Slot, bases: &IdSet, mut values: IdSet) -> IdSet
    requires cells { AscendBy cell_key facts.now.cells }
    requires elems { AscendBy elem_key facts.now.elems }
    ensures { result ≡ filter (is_value (slot_has (sets_of facts.now)) slot bases.now) values }
{
    values.keep(|value| is_held(facts, slot, bases.ids(), *value));
    values
}

// The bases whose objects may hold one of the values.
fn holding_bases(facts: &Facts, slot: Slot, values: &IdSet, mut bases: IdSet) -> IdSet
    requires cells { AscendBy cell_key facts.now.cells }
    requires elems { AscendBy elem_key facts.now.elems }
    ensures { result ≡ filter (is_base (slot_has (sets_of facts.now)) slot values.now) bases }
{
    bases.keep(|base| is_holder(facts, slot, values.ids(), *base));
    bases
}

// Whether an object of one of the sites may hold the value.
fn is_held(facts: &Facts, slot: Slot, bases: &[u32], value: u32) -> bool
    requires cells { AscendBy cell_key facts.now.cells }
    requires elems { AscendBy elem_key facts.now.elems }
    ensures { result ≡ is_value (slot_has (sets_of facts.now)) slot bases.now value }
{
    for base in bases {
        if may_hold(facts, *base, slot, value) {
            return true;
        }
    }
    false
}

// Whether an object of the site may hold one of the values.
fn is_holder(facts: &Facts, slot: Slot, values: &[u32], base: u32) -> bool
    requires cells { AscendBy cell_key facts.now.cells }
    requires elems { AscendBy elem_key facts.now.elems }
    ensures { result ≡ is_base (slot_has (sets_of facts.now)) slot values.now base }
{
    for value in values {
        if may_hold(facts, base, slot, *value) {
            return true;
        }
    }
    false
}

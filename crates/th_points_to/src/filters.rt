// Which sites may stand in the arrays of each site: one filter for each array type, made once.
ghost use Rattle.std.specs.Prelude.{◌≡◌, ◌<◌, ◌≤◌, ◌++◌, ◌∷◌, ◌^◌, List, [], length, if◌then◌else◌, IfOk, OnOk};
ghost use Rattle.th_base.specs.declared.class.ClassInfo.{ClassInfo};
ghost use Rattle.th_base.specs.Subtype.{is_subtype};
ghost use Rattle.th_incl.specs.Least.{set_at};
ghost use Rattle.th_points_to.specs.Storing.{HasAllBelow, IsMade, IsNumberOf, KeepsTypes, NumbersSite, array_of, storable};
ghost use Rattle.th_points_to.specs.Tables.{AreFilters};

use crate::found::EVERY_SITE;
use crate::targets::is_ref_array_text;
use indexmap::IndexSet;
use std::alloc::{AllocError, Global};
use th_base::{Hierarchy, IdSet, Text};
use th_ir::{RegProgram, Site};

// The filters so far, and the array types that they are of: the first filter is of none of them, and
// every site passes it.
#[derive(Drop)]
pub(crate) struct Filters {
    pub(crate) types: IndexSet<Text>,
    pub(crate) sets: Vec<IdSet>,
}

// The descriptor of arrays of a class or of an array type.
fn array_of(alloc: Global, class: &[u8]) -> Result<Vec<u8>, AllocError>
    ensures { IfOk result (λ name. name.items ≡ array_of class.now) }
{
    let mut name = Vec::new(alloc);
    name.push(b'[')?;
    match class {
        [b'[', ..] => {
            name.extend_from_slice(class)?;
            Ok(name)
        }
        _ => {
            name.push(b'L')?;
            name.extend_from_slice(class)?;
            name.push(b';')?;
            Ok(name)
        }
    }
}

// Whether what a site makes may stand in the arrays of a type.
fn stands_in(
    alloc: Global,
    hierarchy: &Hierarchy,
    array: &[u8],
    site: &Site,
) -> Result<bool, AllocError>
    ensures { IfOk result (λ stands. stands ≡ is_subtype hierarchy.now (array_of site.now.class) array.now) }
{
    let name = array_of(alloc, site.class.as_bytes())?;
    Ok(hierarchy.is_subtype_named(name.as_slice(), array))
}

// Adds a number where a test was met.
fn push_where(ids: &mut Vec<u32>, id: u32, met: bool) -> Result<(), AllocError>
    ensures { OnOk result (ids.new.items ≡ ids.old.items ++ (if met then id ∷ [] else [])) }
{
    if met {
        ids.push(id)?;
        return Ok(());
    }
    Ok(())
}

// The sites that may stand in arrays of a type.
fn storable(
    alloc: Global,
    hierarchy: &Hierarchy,
    array: &[u8],
    sites: &[Site],
) -> Result<IdSet, AllocError>
    requires { length sites.now ≤ 2 ^ 32 }
    ensures { IfOk result (λ set. set ≡ storable hierarchy.now array.now sites.now) }
{
    let mut ids = Vec::new(alloc);
    for (at, site) in sites.iter().enumerate() {
        let stands = stands_in(alloc, hierarchy, array, site)?;
        push_where(&mut ids, at as u32, stands)?;
    }
    Ok(IdSet::from_ascending(ids))
}

// The numbers below a count.
fn all_below(alloc: Global, count: usize) -> Result<IdSet, AllocError>
    requires { count ≤ 2 ^ 32 }
    ensures { IfOk result (λ set. HasAllBelow count set) }
{
    let mut ids = Vec::new(alloc);
    for at in 0..count {
        ids.push(at as u32)?;
    }
    Ok(IdSet::from_ascending(ids))
}

// The first filter alone.
fn first_filter(alloc: Global, sites: &[Site]) -> Result<Filters, AllocError>
    requires { length sites.now ≤ 2 ^ 32 }
    ensures { IfOk result (λ filters. (h : List ClassInfo) → IsMade h sites.now filters) }
{
    let mut sets = Vec::new(alloc);
    sets.push(all_below(alloc, sites.len())?)?;
    Ok(Filters {
        types: IndexSet::new(alloc),
        sets,
    })
}

// The number of the filter of an array type, which is made where there is none.
fn filter_of(
    filters: &mut Filters,
    alloc: Global,
    hierarchy: &Hierarchy,
    sites: &[Site],
    array: &Text,
) -> Result<usize, AllocError>
    requires few { length sites.now ≤ 2 ^ 32 }
    requires made { IsMade hierarchy.now sites.now filters.old }
    ensures made { OnOk result (IsMade hierarchy.now sites.now filters.new) }
    ensures keeps { OnOk result (KeepsTypes filters.old filters.new) }
    ensures number { IfOk result (λ number. IsNumberOf filters.new array.now number) }
{
    let (at, is_new) = filters.types.insert_full(array.copy(alloc)?)?;
    if is_new {
        let set = storable(alloc, hierarchy, array.as_bytes(), sites)?;
        filters.sets.push(set)?;
        return Ok(1 + at);
    }
    Ok(1 + at)
}

// The number of the filter of what may stand in the arrays of a site.
fn filter_at(
    filters: &mut Filters,
    alloc: Global,
    hierarchy: &Hierarchy,
    sites: &[Site],
    site: &Site,
) -> Result<usize, AllocError>
    requires few { length sites.now ≤ 2 ^ 32 }
    requires made { IsMade hierarchy.now sites.now filters.old }
    ensures made { OnOk result (IsMade hierarchy.now sites.now filters.new) }
    ensures keeps { OnOk result (KeepsTypes filters.old filters.new) }
    ensures number { IfOk result (NumbersSite filters.new site.now) }
{
    if is_ref_array_text(site.class.as_bytes()) {
        let number = filter_of(filters, alloc, hierarchy, sites, &site.class)?;
        return Ok(number);
    }
    Ok(EVERY_SITE)
}

// The filters of the sites of a program, and for each site the number of its own.
pub(crate) fn filters_of(
    alloc: Global,
    hierarchy: &Hierarchy,
    program: &RegProgram,
) -> Result<(Vec<IdSet>, Vec<usize>), AllocError>
    requires { length program.now.sites ≤ 2 ^ 32 }
    ensures filters { IfOk result (λ made. AreFilters hierarchy.now program.now made.0.items made.1.items) }
    ensures some { IfOk result (λ made. EVERY_SITE < length made.0.items) }
    ensures every { IfOk result (λ made. HasAllBelow (length program.now.sites) (set_at made.0.items EVERY_SITE)) }
{
    let sites = program.sites.as_slice();
    let mut filters = first_filter(alloc, sites)?;
    let mut numbers = Vec::new(alloc);
    for site in sites {
        let number = filter_at(&mut filters, alloc, hierarchy, sites, site)?;
        numbers.push(number)?;
    }
    let Filters { sets, .. } = filters;
    Ok((sets, numbers))
}

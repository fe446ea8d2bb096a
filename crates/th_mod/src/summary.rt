// The summaries of a program.
ghost use Rattle.std.specs.Prelude.{◌≡◌, ◌+◌, ◌<◌, ◌≤◌, ◌^◌, [], length, slice_set, IfOk};
ghost use Rattle.th_ir.specs.FactSets.{sets_of};
ghost use Rattle.th_ir.specs.Summaries.{LeastMods, sums_of};
ghost use Rattle.th_mod.specs.Told.{NodesHaveMethods, gathered, is_filled, mods_at};
ghost use Rattle.th_mod.specs.Transitive.{AreTransitive};

use crate::effect::Part;
use crate::inclusions::{base_pairs, copies_of};
use crate::lists::take_set;
use crate::routes::{routes_of, told};
use std::alloc::{AllocError, Global};
use th_base::{Hierarchy, IdSet, Seq};
use th_ir::{Facts, Mods, RegProgram};

/// For each method what it may write and make, with all that it may call and initialise: the least
/// summaries under the call graph of the facts.
///
/// It takes one run of inclusions for each of the four parts of a summary. docs/POINTS-TO.md has what
/// that costs.
pub fn summaries(
    alloc: Global,
    program: &RegProgram,
    hierarchy: &Hierarchy,
    facts: &Facts,
) -> Result<Seq<Mods>, AllocError>
    ensures least { NodesHaveMethods program.now → IfOk result (λ mods. LeastMods hierarchy.now program.now facts.now mods) }
    ensures transitive { NodesHaveMethods program.now → IfOk result (λ mods. AreTransitive hierarchy.now program.now (sets_of facts.now) (sums_of mods)) }
{
    let classes = hierarchy.classes().len();
    let methods = program.methods.as_slice().len();
    let sets = classes + methods;
    let copies = copies_of(alloc, program, hierarchy, facts)?;
    let routes = routes_of(alloc, sets, copies)?;
    let base = base_pairs(alloc, classes, program, Part::Fields)?;
    let fields = told(alloc, sets, base, &routes)?;
    let base = base_pairs(alloc, classes, program, Part::Statics)?;
    let statics = told(alloc, sets, base, &routes)?;
    let base = base_pairs(alloc, classes, program, Part::Elements)?;
    let elements = told(alloc, sets, base, &routes)?;
    let base = base_pairs(alloc, classes, program, Part::Sites)?;
    let sites = told(alloc, sets, base, &routes)?;
    let parts = Parts {
        fields,
        statics,
        elements,
        sites,
    };
    gather(alloc, parts, classes, methods)
}

// The sets of each part of the summaries.
#[derive(Drop)]
struct Parts {
    fields: Vec<IdSet>,
    statics: Vec<IdSet>,
    elements: Vec<IdSet>,
    sites: Vec<IdSet>,
}

// The summaries of the sets from one place on, so many. The sets are moved, and not copied.
fn gather(
    alloc: Global,
    mut parts: Parts,
    first: usize,
    count: usize,
) -> Result<Seq<Mods>, AllocError>
    requires fields { length parts.fields.items ≡ first + count }
    requires statics { length parts.statics.items ≡ first + count }
    requires elements { length parts.elements.items ≡ first + count }
    requires sites { length parts.sites.items ≡ first + count }
    requires few { first + count < 2 ^ 64 }
    ensures { IfOk result (λ mods. mods ≡ gathered first count parts.fields.items parts.statics.items parts.elements.items parts.sites.items) }
{
    let mut mods = Seq::new(alloc);
    for method in 0..count {
        mods.push(take_mods(alloc, &mut parts, first + method))?;
    }
    Ok(mods)
}

// Takes the sets at a place as a summary, and leaves empty ones. Takes no memory.
fn take_mods(alloc: Global, parts: &mut Parts, at: usize) -> Mods
    requires fields { at < length parts.old.fields.items }
    requires statics { at < length parts.old.statics.items }
    requires elements { at < length parts.old.elements.items }
    requires sites { at < length parts.old.sites.items }
    ensures mods { result ≡ mods_at parts.old.fields.items parts.old.statics.items parts.old.elements.items parts.old.sites.items at }
    ensures fields { parts.new.fields.items ≡ slice_set parts.old.fields.items at [] }
    ensures statics { parts.new.statics.items ≡ slice_set parts.old.statics.items at [] }
    ensures elements { parts.new.elements.items ≡ parts.old.elements.items }
    ensures sites { parts.new.sites.items ≡ slice_set parts.old.sites.items at [] }
{
    let elements = has_some(&parts.elements[at]);
    Mods {
        fields: take_set(alloc, parts.fields.as_mut_slice(), at),
        statics: take_set(alloc, parts.statics.as_mut_slice(), at),
        elements,
        sites: take_set(alloc, parts.sites.as_mut_slice(), at),
    }
}

// Whether a set has a number.
fn has_some(set: &IdSet) -> bool
    ensures { result ≡ is_filled set.now }
{
    !set.is_empty()
}

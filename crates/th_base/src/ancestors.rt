// What stands above each class, listed once so that a look-up goes along one list.
ghost use Rattle.std.specs.Prelude.{◌≡◌, ◌<◌, ◌^◌, ◌==◌, ◌||◌, [], ◌∷◌, ◌++◌, length, map, IfOk, OnOk, true, ℕ};
ghost use Rattle.std.specs.List.{flat_map, list_any};
ghost use Rattle.th_base.specs.Ancestors.{FindAlike, IsListing, IsFinished, Adds, ListsClasses, AreAncestors, IsRowOf, IsTaken, supertypes_listed, superinterfaces_listed, with_superinterfaces, superclass_in, line_listed, all_listed};
ghost use Rattle.th_base.specs.IdSet.{has};
ghost use Rattle.th_base.specs.Order.{IsOrder, supertypes_in};

use crate::{ClassInfo, IdSet, Seq};
use std::alloc::{AllocError, Global};
use std::mem;

// The classes above one class.
#[derive(Debug, Drop)]
pub(crate) struct Ancestors {
    // The class and its superclasses, upwards.
    pub(crate) line: Seq<u32>,
    // The class and all its supertypes, each once, in the order of field resolution.
    pub(crate) supertypes: Seq<u32>,
    // The superinterfaces of the class and of its superclasses, each once, in the order of method resolution.
    pub(crate) superinterfaces: Seq<u32>,
    // The class and all its supertypes, as a set.
    pub(crate) all: IdSet,
}

// A list of classes without repeats, while it is made.
#[derive(Drop)]
struct Listing {
    // Whether each class is listed.
    seen: Vec<bool>,
    items: Vec<u32>,
}

// Lists a class, unless it is.
fn add(listing: &mut Listing, class: u32) -> Result<(), AllocError>
    requires listing { IsListing listing.old.seen.items listing.old.items.items }
    requires inside { class < length listing.old.seen.items }
    ensures { OnOk result (Adds listing.old listing.new (class ∷ [])) }
{
    let at = class as usize;
    if listing.seen[at] {
        return Ok(());
    }
    listing.items.push(class)?;
    listing.seen[at] = true;
    Ok(())
}

// Lists each class of a list, unless it is.
fn add_all(listing: &mut Listing, more: &[u32]) -> Result<(), AllocError>
    requires listing { IsListing listing.old.seen.items listing.old.items.items }
    requires inside { (x : ℕ) → has more.now x ≡ true → x < length listing.old.seen.items }
    ensures { OnOk result (Adds listing.old listing.new more.now) }
{
    for class in more {
        add(listing, *class)?;
    }
    Ok(())
}

// The list that has been made; a new one begins.
fn finish(alloc: Global, listing: &mut Listing) -> Vec<u32>
    requires { IsListing listing.old.seen.items listing.old.items.items }
    ensures list { result.items ≡ listing.old.items.items }
    ensures empty { listing.new.items.items ≡ [] }
    ensures listing { IsListing listing.new.seen.items [] }
    ensures room { length listing.new.seen.items ≡ length listing.old.seen.items }
{
    let items = mem::replace(&mut listing.items, Vec::new(alloc));
    for class in &items {
        listing.seen[*class as usize] = false;
    }
    items
}

// The direct superinterfaces of a class, each once: one that is named again costs no more.
fn distinct_interfaces(
    alloc: Global,
    listing: &mut Listing,
    class: &ClassInfo,
) -> Result<Vec<u32>, AllocError>
    requires listing { IsListing listing.old.seen.items listing.old.items.items }
    requires empty { listing.old.items.items ≡ [] }
    requires inside { (x : ℕ) → has (map (λ i. i.0) class.now.interfaces) x ≡ true → x < length listing.old.seen.items }
    ensures list { IfOk result (λ list. FindAlike list.items (map (λ i. i.0) class.now.interfaces)) }
    ensures finished { OnOk result (IsFinished listing.old listing.new) }
{
    for interface in class.interfaces.as_slice() {
        add(listing, interface.0)?;
    }
    Ok(finish(alloc, listing))
}

// Lists a class with all its supertypes, which have been listed for its direct ones.
fn add_supertypes(
    listing: &mut Listing,
    number: u32,
    interfaces: &[u32],
    class: &ClassInfo,
    rows: &[Ancestors],
) -> Result<(), AllocError>
    requires listing { IsListing listing.old.seen.items listing.old.items.items }
    requires inside { number < length listing.old.seen.items }
    requires interfaces { (x : ℕ) → has interfaces.now x ≡ true → x < length rows.now }
    requires taken { IsTaken class.now rows.now (length listing.old.seen.items) }
    ensures { OnOk result (Adds listing.old listing.new (number ∷ (flat_map (supertypes_listed rows.now) interfaces.now ++ flat_map (supertypes_listed rows.now) (superclass_in class.now)))) }
{
    add(listing, number)?;
    for interface in interfaces {
        add_all(listing, rows[*interface as usize].supertypes.as_slice())?;
    }
    if let Some(above) = class.super_id {
        add_all(listing, rows[above.0 as usize].supertypes.as_slice())?;
    }
    Ok(())
}

// Lists the superinterfaces of a class, which have been listed for its direct supertypes.
fn add_superinterfaces(
    listing: &mut Listing,
    interfaces: &[u32],
    class: &ClassInfo,
    rows: &[Ancestors],
) -> Result<(), AllocError>
    requires listing { IsListing listing.old.seen.items listing.old.items.items }
    requires interfaces { (x : ℕ) → has interfaces.now x ≡ true → x < length rows.now }
    requires seen { length listing.old.seen.items ≡ length rows.now }
    requires taken { IsTaken class.now rows.now (length listing.old.seen.items) }
    ensures { OnOk result (Adds listing.old listing.new (flat_map (with_superinterfaces rows.now) interfaces.now ++ flat_map (superinterfaces_listed rows.now) (superclass_in class.now))) }
{
    for interface in interfaces {
        add(listing, *interface)?;
        add_all(
            listing,
            rows[*interface as usize].superinterfaces.as_slice(),
        )?;
    }
    if let Some(above) = class.super_id {
        add_all(listing, rows[above.0 as usize].superinterfaces.as_slice())?;
    }
    Ok(())
}

// A class and its superclasses, which have been listed for its own superclass.
fn line_above(
    alloc: Global,
    number: u32,
    class: &ClassInfo,
    rows: &[Ancestors],
) -> Result<Seq<u32>, AllocError>
    requires { (s : ℕ) → has (superclass_in class.now) s ≡ true → s < length rows.now }
    ensures { IfOk result (λ line. line ≡ number ∷ flat_map (line_listed rows.now) (superclass_in class.now)) }
{
    let mut line = Vec::new(alloc);
    line.push(number)?;
    if let Some(above) = class.super_id {
        line.extend_from_slice(rows[above.0 as usize].line.as_slice())?;
        return Ok(Seq::from_vec(line));
    }
    Ok(Seq::from_vec(line))
}

// The direct superclass of a class with all its supertypes, as a set; the empty set where there is none.
fn superclass_and_above(
    alloc: Global,
    class: &ClassInfo,
    rows: &[Ancestors],
) -> Result<IdSet, AllocError>
    requires { (s : ℕ) → has (superclass_in class.now) s ≡ true → s < length rows.now }
    ensures { IfOk result (λ all. all ≡ flat_map (all_listed rows.now) (superclass_in class.now)) }
{
    if let Some(above) = class.super_id {
        let all = rows[above.0 as usize].all.copy(alloc)?;
        return Ok(all);
    }
    Ok(IdSet::new(alloc))
}

// A class with all its supertypes as a set, which has been made for its direct ones.
fn all_above(
    alloc: Global,
    number: u32,
    interfaces: &[u32],
    class: &ClassInfo,
    rows: &[Ancestors],
) -> Result<IdSet, AllocError>
    requires interfaces { (x : ℕ) → has interfaces.now x ≡ true → x < length rows.now }
    requires superclass { (s : ℕ) → has (superclass_in class.now) s ≡ true → s < length rows.now }
    ensures { IfOk result (λ all. (x : ℕ) → has all x ≡ has (number ∷ (flat_map (all_listed rows.now) interfaces.now ++ flat_map (all_listed rows.now) (superclass_in class.now))) x) }
{
    let mut all = superclass_and_above(alloc, class, rows)?;
    for interface in interfaces {
        all = all.union(alloc, &rows[*interface as usize].all)?;
    }
    all.insert(number)?;
    Ok(all)
}

// What stands above a class, by what stands above its direct supertypes.
fn row_of(
    alloc: Global,
    listing: &mut Listing,
    number: u32,
    class: &ClassInfo,
    rows: &[Ancestors],
) -> Result<Ancestors, AllocError>
    requires listing { IsListing listing.old.seen.items listing.old.items.items }
    requires empty { listing.old.items.items ≡ [] }
    requires inside { number < length listing.old.seen.items }
    requires seen { length listing.old.seen.items ≡ length rows.now }
    requires taken { IsTaken class.now rows.now (length listing.old.seen.items) }
    ensures row { IfOk result (λ row. IsRowOf class.now rows.now number (length rows.now) row) }
    ensures finished { OnOk result (IsFinished listing.old listing.new) }
{
    let interfaces = distinct_interfaces(alloc, listing, class)?;
    let direct = interfaces.as_slice();
    add_supertypes(listing, number, direct, class, rows)?;
    let supertypes = Seq::from_vec(finish(alloc, listing));
    add_superinterfaces(listing, direct, class, rows)?;
    let superinterfaces = Seq::from_vec(finish(alloc, listing));
    Ok(Ancestors {
        line: line_above(alloc, number, class, rows)?,
        supertypes,
        superinterfaces,
        all: all_above(alloc, number, direct, class, rows)?,
    })
}

// The rows of all classes, filled in an order in which supertypes come first.
pub(crate) fn ancestors_of(
    alloc: Global,
    classes: &[ClassInfo],
    order: &[usize],
) -> Result<Vec<Ancestors>, AllocError>
    requires order { IsOrder classes.now order.now }
    requires few { length classes.now < 2 ^ 32 }
    ensures { IfOk result (λ rows. AreAncestors classes.now rows.items) }
{
    let (mut rows, mut listing) = start(alloc, classes.len())?;
    for class in order {
        let info = &classes[*class];
        rows[*class] = row_of(alloc, &mut listing, *class as u32, info, rows.as_slice())?;
    }
    Ok(rows)
}

// Rows with nothing listed, and an empty list.
fn start(alloc: Global, count: usize) -> Result<(Vec<Ancestors>, Listing), AllocError>
    ensures rows { IfOk result (λ made. length made.0.items ≡ count) }
    ensures classes { IfOk result (λ made. ListsClasses made.0.items count) }
    ensures listing { IfOk result (λ made. IsListing made.1.seen.items []) }
    ensures empty { IfOk result (λ made. made.1.items.items ≡ []) }
    ensures room { IfOk result (λ made. length made.1.seen.items ≡ count) }
{
    let mut rows = Vec::new(alloc);
    let mut seen = Vec::new(alloc);
    for _ in 0..count {
        rows.push(Ancestors {
            line: Seq::new(alloc),
            supertypes: Seq::new(alloc),
            superinterfaces: Seq::new(alloc),
            all: IdSet::new(alloc),
        })?;
        seen.push(false)?;
    }
    let items = Vec::new(alloc);
    Ok((rows, Listing { seen, items }))
}

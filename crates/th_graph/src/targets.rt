// The Activity classes of a program, each with the sites of its objects.
ghost use Rattle.std.specs.Prelude.{◌≡◌, ◌≢◌, ◌<◌, ◌+◌, ◌^◌, ◌++◌, ◌∷◌, [], ℕ, length, map, replicate, IfOk, OnOk, if◌then◌else◌};
ghost use Rattle.th_base.specs.declared.built_in.TheConstants.{ACTIVITY_NUMBER};
ghost use Rattle.th_base.specs.Launchable.{is_activity};
ghost use Rattle.th_graph.specs.Searching.{is_key, row_at, row_of, class_of_site, AreTargetsBelow};
ghost use Rattle.th_ir.specs.Sites.{is_array_text};

use std::alloc::{AllocError, Global};
use th_base::{ACTIVITY_NUMBER, ClassId, Hierarchy, IdSet, Seq};
use th_ir::{RegProgram, Site};

// The Activity classes, ascending, and for each the sites of its objects.
#[derive(Debug, Drop)]
pub(crate) struct Targets {
    pub(crate) classes: Vec<u32>,
    pub(crate) goals: Vec<IdSet>,
}

// The targets of a program. Classes are counted in 32 bits, and Activity is one of them.
pub(crate) fn targets_of(
    alloc: Global,
    program: &RegProgram,
    hierarchy: &Hierarchy,
) -> Result<Targets, AllocError>
    requires few { length program.now.sites < 2 ^ 32 }
    requires activity { ACTIVITY_NUMBER < length hierarchy.now }
    ensures { IfOk result (λ targets. AreTargetsBelow hierarchy.now program.now targets (length hierarchy.now)) }
{
    let keys = site_classes(alloc, program.sites.as_slice(), hierarchy)?;
    let count = hierarchy.classes().len();
    let rows = rows_by(alloc, count, keys.as_slice())?;
    let mut targets = Targets {
        classes: Vec::new(alloc),
        goals: Vec::new(alloc),
    };
    for class in 0..count {
        add_target(
            alloc,
            program,
            hierarchy,
            rows.as_slice(),
            class as u32,
            &mut targets,
        )?;
    }
    Ok(targets)
}

// Adds a class with its sites, if it is an Activity. The program serves the proof alone.
fn add_target(
    alloc: Global,
    _program: &RegProgram,
    hierarchy: &Hierarchy,
    rows: &[Seq<u32>],
    class: u32,
    targets: &mut Targets,
) -> Result<(), AllocError>
    requires activity { ACTIVITY_NUMBER < length hierarchy.now }
    requires inside { class < length hierarchy.now }
    requires count { length rows.now ≡ length hierarchy.now }
    requires rows { row_at rows.now class ≡ row_of class (map (class_of_site hierarchy.now) _program.now.sites) }
    requires below { AreTargetsBelow hierarchy.now _program.now targets.old class }
    ensures { OnOk result (AreTargetsBelow hierarchy.now _program.now targets.new (class + 1)) }
{
    if hierarchy.is_subclass(ClassId(class), ClassId(ACTIVITY_NUMBER)) {
        let sites = rows[class as usize].copy(alloc)?;
        let goal = IdSet::from_ascending(sites.into_vec());
        targets.goals.push(goal)?;
        targets.classes.push(class)?;
    }
    Ok(())
}

// The class of each site; none for arrays.
fn site_classes(
    alloc: Global,
    sites: &[Site],
    hierarchy: &Hierarchy,
) -> Result<Vec<Option<u32>>, AllocError>
    ensures { IfOk result (λ classes. classes.items ≡ map (class_of_site hierarchy.now) sites.now) }
{
    let mut classes = Vec::new(alloc);
    for site in sites {
        classes.push(class_of_site(hierarchy, site))?;
    }
    Ok(classes)
}

// The class of the objects of a site; none for arrays.
fn class_of_site(hierarchy: &Hierarchy, site: &Site) -> Option<u32>
    ensures { result ≡ class_of_site hierarchy.now site.now }
{
    let name = site.class.as_bytes();
    if is_array_text(name) {
        return None;
    }
    hierarchy.find_class(name).map(|class| class.0)
}

// Whether the text is an array descriptor, and not the name of a class.
fn is_array_text(text: &[u8]) -> bool
    ensures { result ≡ is_array_text text.now }
{
    match text {
        [first, ..] => *first == b'[',
        [] => false,
    }
}

// For each number below a count the places of the keys that are it, ascending.
pub(crate) fn rows_by(
    alloc: Global,
    count: usize,
    keys: &[Option<u32>],
) -> Result<Vec<Seq<u32>>, AllocError>
    requires { length keys.now < 2 ^ 32 }
    ensures count { IfOk result (λ rows. length rows.items ≡ count) }
    ensures rows { IfOk result (λ rows. (r : ℕ) → r < count → row_at rows.items r ≡ row_of r keys.now) }
{
    let mut rows = empty_rows(alloc, count)?;
    for (place, key) in keys.iter().enumerate() {
        add_place(&mut rows, *key, place as u32)?;
    }
    Ok(rows)
}

// So many empty rows.
fn empty_rows(alloc: Global, count: usize) -> Result<Vec<Seq<u32>>, AllocError>
    ensures { IfOk result (λ rows. rows.items ≡ replicate count []) }
{
    let mut rows = Vec::new(alloc);
    for _ in 0..count {
        rows.push(Seq::new(alloc))?;
    }
    Ok(rows)
}

// Puts a place at the end of the row of its key, if it has one.
fn add_place(rows: &mut Vec<Seq<u32>>, key: Option<u32>, place: u32) -> Result<(), AllocError>
    ensures count { length rows.new.items ≡ length rows.old.items }
    ensures rows { OnOk result ((r : ℕ) → r < length rows.old.items → row_at rows.new.items r ≡ row_at rows.old.items r ++ (if is_key r key then place ∷ [] else [])) }
{
    match key {
        Some(row) => add_to(rows, row as usize, place),
        None => Ok(()),
    }
}

// Puts a place at the end of a row, if there is such a row.
fn add_to(rows: &mut Vec<Seq<u32>>, row: usize, place: u32) -> Result<(), AllocError>
    ensures count { length rows.new.items ≡ length rows.old.items }
    ensures here { OnOk result (row < length rows.old.items → row_at rows.new.items row ≡ row_at rows.old.items row ++ place ∷ []) }
    ensures others { OnOk result ((r : ℕ) → r ≢ row → row_at rows.new.items r ≡ row_at rows.old.items r) }
{
    if row < rows.len() {
        return rows[row].push(place);
    }
    Ok(())
}

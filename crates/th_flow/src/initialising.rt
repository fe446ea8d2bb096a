// The initialisers that may run where a class is initialised.
ghost use Rattle.std.specs.Prelude.{◌≡◌, ◌<◌, ◌^◌, ◌++◌, [], ℕ, length, map, codes, option_to_list, IfOk, OnOk};
ghost use Rattle.std.specs.List.{slice_index_or};
ghost use Rattle.std.specs.Option.{option_map};
ghost use Rattle.th_base.specs.Hierarchy.{declared_method};
ghost use Rattle.th_flow.specs.Inverted.{initialisers_of, entered_by};

use std::alloc::{AllocError, Global};
use th_base::laws::lineage_goes_up;
use th_base::{ClassId, Hierarchy, Seq, TAKES_NOTHING};
use th_ir::{Node, Stmt};

// The name of the method that initialises a class (Java specification 2.9).
const CLASS_INITIALISER: &str = "<clinit>";

// For each node the initialisers that it may enter.
pub(crate) fn entered_lists(
    alloc: Global,
    nodes: &[Node],
    hierarchy: &Hierarchy,
) -> Result<Vec<Seq<u32>>, AllocError>
    ensures { IfOk result (λ lists. lists.items ≡ map (λ n. entered_by hierarchy.now n.stmt) nodes.now) }
{
    let classes = initialisers_of_each(alloc, hierarchy)?;
    let mut lists = Vec::new(alloc);
    for node in nodes {
        lists.push(entered_by(alloc, hierarchy, classes.as_slice(), &node.stmt)?)?;
    }
    Ok(lists)
}

// The initialisers that a statement may enter, by those of each class. The hierarchy serves the proof
// alone.
fn entered_by(
    alloc: Global,
    _hierarchy: &Hierarchy,
    classes: &[Seq<u32>],
    stmt: &Stmt,
) -> Result<Seq<u32>, AllocError>
    requires count { length classes.now ≡ length _hierarchy.now }
    requires each { (c : ℕ) → c < length _hierarchy.now → slice_index_or classes.now c [] ≡ initialisers_of _hierarchy.now c }
    ensures { IfOk result (λ list. list ≡ entered_by _hierarchy.now stmt.now) }
{
    if let Stmt::Init(class) = stmt {
        return initialisers_at(alloc, _hierarchy, classes, class.0 as usize);
    }
    Ok(Seq::new(alloc))
}

// The initialisers of a class and its superclasses, by those of each class; none where there is no such
// class. The hierarchy serves the proof alone.
fn initialisers_at(
    alloc: Global,
    _hierarchy: &Hierarchy,
    classes: &[Seq<u32>],
    class: usize,
) -> Result<Seq<u32>, AllocError>
    requires count { length classes.now ≡ length _hierarchy.now }
    requires each { (c : ℕ) → c < length _hierarchy.now → slice_index_or classes.now c [] ≡ initialisers_of _hierarchy.now c }
    ensures { IfOk result (λ list. list ≡ initialisers_of _hierarchy.now class) }
{
    if class < classes.len() {
        return classes[class].copy(alloc);
    }
    Ok(Seq::new(alloc))
}

// For each class the initialisers of it and its superclasses.
fn initialisers_of_each(alloc: Global, hierarchy: &Hierarchy) -> Result<Vec<Seq<u32>>, AllocError>
    ensures count { IfOk result (λ lists. length lists.items ≡ length hierarchy.now) }
    ensures each { IfOk result (λ lists. (c : ℕ) → c < length hierarchy.now → slice_index_or lists.items c [] ≡ initialisers_of hierarchy.now c) }
{
    let mut lists = Vec::new(alloc);
    for class in 0..hierarchy.classes().len() {
        lists.push(initialisers_of(alloc, hierarchy, class as u32)?)?;
    }
    Ok(lists)
}

// The initialisers of a class and its superclasses, upwards.
fn initialisers_of(alloc: Global, hierarchy: &Hierarchy, class: u32) -> Result<Seq<u32>, AllocError>
    requires { class < length hierarchy.now }
    ensures { IfOk result (λ list. list ≡ initialisers_of hierarchy.now class) }
{
    lineage_goes_up();
    let classes = hierarchy.classes();
    let mut found = Vec::new(alloc);
    let mut next = Some(ClassId(class));
    while let Some(at) = next {
        add_own(&mut found, hierarchy, at)?;
        next = classes[at.0 as usize].super_id;
    }
    Ok(Seq::from_vec(found))
}

// Adds the initialiser that a class declares itself, if it does.
fn add_own(found: &mut Vec<u32>, hierarchy: &Hierarchy, class: ClassId) -> Result<(), AllocError>
    requires { class.0 < length hierarchy.now }
    ensures { OnOk result (found.new.items ≡ found.old.items ++ option_to_list (option_map (λ i. i.id.0) (declared_method hierarchy.now (codes "<clinit>") (codes "()V") class.0))) }
{
    let name = CLASS_INITIALISER.as_bytes();
    if let Some(method) = hierarchy.declared_method(class, name, TAKES_NOTHING.as_bytes()) {
        found.push(method.id.0)?;
        return Ok(());
    }
    Ok(())
}

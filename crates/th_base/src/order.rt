// Whether no class stands above itself, and an order in which each class stands after its supertypes.
ghost use Rattle.std.specs.Prelude.{◌≡◌, ◌↔◌, ◌<◌, ◌-◌, [], length, slice_index, slice_get, Some, IfOk, IfSome, IfNone, OnOk, IsTrue, true, false};
ghost use Rattle.th_base.specs.Hierarchy.{IsAcyclic};
ghost use Rattle.th_base.specs.Order.{IsOrder, Walks, StepsOn, Opens, supertypes_in};

use crate::ClassInfo;
use std::alloc::{AllocError, Global};

// How far the walk has come with a class.
#[derive(Clone, Copy)]
enum Mark {
    New,
    Open,
    Done,
}

// A depth-first walk up the hierarchy.
#[derive(Drop)]
struct Walk {
    marks: Vec<Mark>,
    // How many direct supertypes of each class have not been found done.
    left: Vec<usize>,
    // The open classes, each a direct supertype of the one before.
    path: Vec<usize>,
    // The classes that are done.
    order: Vec<usize>,
    // The classes below this number have been opened.
    next: usize,
}

/// Whether each direct supertype is a class of the list and no class stands above itself.
/// Takes time in the number of classes and direct supertypes together.
pub fn acyclic(alloc: Global, classes: &[ClassInfo]) -> Result<bool, AllocError>
    ensures { IfOk result (λ answer. IsTrue answer ↔ IsAcyclic classes.now) }
{
    let found = order_of(alloc, classes)?;
    Ok(found.is_some())
}

// The classes in an order in which each stands after its direct supertypes, if there is one.
pub(crate) fn order_of(
    alloc: Global,
    classes: &[ClassInfo],
) -> Result<Option<Vec<usize>>, AllocError>
    ensures some { IfOk result (λ found. IfSome found (λ order. IsOrder classes.now order.items)) }
    ensures none { IfOk result (λ found. IfNone found (IsAcyclic classes.now → ⊥)) }
{
    let mut walk = start(alloc, classes)?;
    while !walk.path.is_empty() || walk.next < classes.len() {
        if !step(&mut walk, classes)? {
            return Ok(None);
        }
    }
    Ok(Some(walk.order))
}

fn start(alloc: Global, classes: &[ClassInfo]) -> Result<Walk, AllocError>
    ensures walks { IfOk result (Walks classes.now) }
{
    let mut marks = Vec::new(alloc);
    let mut left = Vec::new(alloc);
    for class in classes {
        marks.push(Mark::New)?;
        left.push(count_supertypes(class))?;
    }
    Ok(Walk {
        marks,
        left,
        path: Vec::new(alloc),
        order: Vec::new(alloc),
        next: 0,
    })
}

// One step: false where a class stands above itself or a direct supertype is none of the classes.
fn step(walk: &mut Walk, classes: &[ClassInfo]) -> Result<bool, AllocError>
    requires walks { Walks classes.now walk.old }
    requires unfinished { walk.old.path.items ≡ [] → walk.old.next < length classes.now }
    ensures on { IfOk result (λ on. on ≡ true → StepsOn classes.now walk.old walk.new) }
    ensures off { IfOk result (λ on. on ≡ false → IsAcyclic classes.now → ⊥) }
{
    match walk.path.last().copied() {
        Some(class) => visit(walk, classes, class),
        None => {
            open_next(walk, classes)?;
            Ok(true)
        }
    }
}

// A step at the last class of the path.
fn visit(walk: &mut Walk, classes: &[ClassInfo], class: usize) -> Result<bool, AllocError>
    requires walks { Walks classes.now walk.old }
    requires last { slice_get walk.old.path.items (length walk.old.path.items - 1) ≡ Some class }
    ensures on { IfOk result (λ on. on ≡ true → StepsOn classes.now walk.old walk.new) }
    ensures off { IfOk result (λ on. on ≡ false → IsAcyclic classes.now → ⊥) }
{
    let left = walk.left[class];
    if left == 0 {
        walk.order.push(class)?;
        walk.marks[class] = Mark::Done;
        walk.path.pop();
        return Ok(true);
    }
    let above = supertype_at(&classes[class], left - 1);
    if above >= classes.len() {
        return Ok(false);
    }
    match walk.marks[above] {
        Mark::New => {
            open(walk, above)?;
            Ok(true)
        }
        Mark::Open => Ok(false),
        Mark::Done => {
            walk.left[class] = left - 1;
            Ok(true)
        }
    }
}

// A step at an empty path: the next class is opened, unless it has been.
fn open_next(walk: &mut Walk, classes: &[ClassInfo]) -> Result<(), AllocError>
    requires walks { Walks classes.now walk.old }
    requires empty { walk.old.path.items ≡ [] }
    requires more { walk.old.next < length classes.now }
    ensures { OnOk result (StepsOn classes.now walk.old walk.new) }
{
    let next = walk.next;
    if let Mark::New = walk.marks[next] {
        open(walk, next)?;
    }
    walk.next = next + 1;
    Ok(())
}

// Marks a class as open, at the end of the path.
fn open(walk: &mut Walk, class: usize) -> Result<(), AllocError>
    requires { class < length walk.old.marks.items }
    ensures { OnOk result (Opens walk.old walk.new class) }
{
    walk.path.push(class)?;
    walk.marks[class] = Mark::Open;
    Ok(())
}

// How many direct supertypes a class has.
pub(crate) fn count_supertypes(class: &ClassInfo) -> usize
    ensures { result ≡ length (supertypes_in class.now) }
{
    class.interfaces.as_slice().len() + usize::from(class.super_id.is_some())
}

// The direct supertype at a place: the superinterfaces in order, then the superclass.
pub(crate) fn supertype_at(class: &ClassInfo, at: usize) -> usize
    requires { at < length (supertypes_in class.now) }
    ensures { result ≡ slice_index (supertypes_in class.now) at }
{
    let interfaces = class.interfaces.as_slice();
    if at < interfaces.len() {
        return interfaces[at].0 as usize;
    }
    match class.super_id {
        Some(id) => id.0 as usize,
        None => unreachable!(),
    }
}

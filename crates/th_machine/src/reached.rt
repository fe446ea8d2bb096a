// The static fields and Activity classes that are joined in a state.
ghost use Rattle.std.specs.Prelude.{◌≡◌, ◌<◌, ◌++◌, filter, length, map, IfOk, OnOk};
ghost use Rattle.th_base.specs.Launchable.{is_activity};
ghost use Rattle.th_base.specs.ValueKinds.{is_reference};
ghost use Rattle.th_machine.specs.Reached.{AreJoined};
ghost use Rattle.th_machine.specs.Reaching.{AreActivitiesLed, AreStaticReferences, IsFieldAdded, is_static_reference, pair_of, static_references};

use crate::leading::classes_led;
use std::alloc::{AllocError, Global};
use th_base::{ACTIVITY_NUMBER, ClassId, ClassInfo, FieldId, FieldInfo, Hierarchy};
use th_syntax::{Object, Program, State, Value};

// The joined pairs of a state, in order of field and class.
pub(crate) fn joined_pairs(
    alloc: Global,
    program: &Program,
    state: &State,
) -> Result<Vec<(FieldId, ClassId)>, AllocError>
    ensures { IfOk result (λ pairs. AreJoined program.now state.now pairs.items) }
{
    let fields = static_references(alloc, program)?;
    let mut pairs = Vec::new(alloc);
    for field in fields.as_slice() {
        add_joined(alloc, &mut pairs, program, state, *field)?;
    }
    Ok(pairs)
}

// The static fields of reference type, in order.
fn static_references(alloc: Global, program: &Program) -> Result<Vec<FieldId>, AllocError>
    ensures { IfOk result (λ fields. AreStaticReferences program.now (map (λ f. f.0) fields.items)) }
{
    let fields = references_in(alloc, program.hierarchy().classes())?;
    Ok(fields)
}

// Those fields of classes that are static and of reference type, in order.
fn references_in(alloc: Global, classes: &[ClassInfo]) -> Result<Vec<FieldId>, AllocError>
    ensures { IfOk result (λ fields. map (λ f. f.0) fields.items ≡ static_references classes.now) }
{
    let mut found = Vec::new(alloc);
    for class in classes {
        add_references(&mut found, class.fields.as_slice())?;
    }
    Ok(found)
}

// Adds those of these fields that are static and of reference type.
fn add_references(found: &mut Vec<FieldId>, fields: &[FieldInfo]) -> Result<(), AllocError>
    ensures { OnOk result (map (λ f. f.0) found.new.items ≡ map (λ f. f.0) found.old.items ++ map (λ f. f.id.0) (filter is_static_reference fields.now)) }
{
    for field in fields {
        if is_static_reference(field) {
            found.push(field.id)?;
        }
    }
    Ok(())
}

// Whether a field is static and of reference type.
fn is_static_reference(field: &FieldInfo) -> bool
    ensures { result ≡ is_static_reference field.now }
{
    field.is_static && is_reference(field.descriptor.as_bytes())
}

// Whether a descriptor is that of a class or of an array (Java specification 4.3.2).
fn is_reference(descriptor: &[u8]) -> bool
    ensures { result ≡ is_reference descriptor.now }
{
    match descriptor {
        [first, ..] => *first == b'L' || *first == b'[',
        [] => false,
    }
}

// Adds the pairs of a field with the Activity classes to whose objects its value leads.
fn add_joined(
    alloc: Global,
    pairs: &mut Vec<(FieldId, ClassId)>,
    program: &Program,
    state: &State,
    field: FieldId,
) -> Result<(), AllocError>
    ensures { OnOk result (IsFieldAdded program.now state.now field.0 pairs.old.items pairs.new.items) }
{
    match state.statics.get(field.0 as usize) {
        Some(value) => {
            let heap = state.heap.as_slice();
            let classes = activities_led(alloc, program.hierarchy(), heap, *value)?;
            add_pairs(pairs, field, classes.as_slice())
        }
        None => Ok(()),
    }
}

// Adds the pairs of a field with these classes.
fn add_pairs(
    pairs: &mut Vec<(FieldId, ClassId)>,
    field: FieldId,
    classes: &[u32],
) -> Result<(), AllocError>
    ensures { OnOk result (pairs.new.items ≡ pairs.old.items ++ map (pair_of field.0) classes.now) }
{
    for class in classes {
        pairs.push((field, ClassId(*class)))?;
    }
    Ok(())
}

// The Activity classes to whose objects a value leads, by their numbers in order.
fn activities_led(
    alloc: Global,
    hierarchy: &Hierarchy,
    heap: &[Object],
    value: Value,
) -> Result<Vec<u32>, AllocError>
    requires { ACTIVITY_NUMBER < length hierarchy.now }
    ensures { IfOk result (λ classes. AreActivitiesLed hierarchy.now heap.now value classes.items) }
{
    let led = classes_led(alloc, heap, value)?;
    let mut classes = activities_of(alloc, hierarchy, led.as_slice())?;
    classes.sort_unstable();
    // For the proof alone: that each is there once.
    classes.dedup();
    Ok(classes)
}

// Those of these classes that are Activities.
fn activities_of(
    alloc: Global,
    hierarchy: &Hierarchy,
    classes: &[u32],
) -> Result<Vec<u32>, AllocError>
    requires { ACTIVITY_NUMBER < length hierarchy.now }
    ensures { IfOk result (λ found. found.items ≡ filter (is_activity hierarchy.now) classes.now) }
{
    let mut found = Vec::new(alloc);
    for class in classes {
        if is_activity(hierarchy, *class) {
            found.push(*class)?;
        }
    }
    Ok(found)
}

// Whether a class is Activity or a subclass of it. There is no class past the last one.
fn is_activity(hierarchy: &Hierarchy, class: u32) -> bool
    requires { ACTIVITY_NUMBER < length hierarchy.now }
    ensures { result ≡ is_activity hierarchy.now class }
{
    let count = hierarchy.classes().len();
    if class as usize >= count {
        return false;
    }
    hierarchy.is_subclass(ClassId(class), ClassId(ACTIVITY_NUMBER))
}

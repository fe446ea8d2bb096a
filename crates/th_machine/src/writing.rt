// Stores into objects and arrays (Java specification 6.5, putfield, iastore to sastore).
ghost use Rattle.std.specs.Prelude.{◌≡◌, ◌<◌, length, slice_set, Some, slice_get, IfOk, IfSome};
ghost use Rattle.std.specs.Option.{option_map};
ghost use Rattle.th_syntax.specs.Fields.{with_field};
ghost use Rattle.th_syntax.specs.Machine.{instance_at, array_at};
ghost use Rattle.th_syntax.specs.declared.machine.Object.{Object};
ghost use Rattle.th_syntax.specs.Program.{next_offset};
ghost use Rattle.th_machine.specs.Standing.{state_after};
ghost use Rattle.th_machine.specs.Writing.{field_after, object_with, array_with, sets_field, sets_element};

use crate::slots::without_slots;
use crate::standing::{Running, World, ended, with_frame};
use std::alloc::AllocError;
use th_base::{FieldId, Seq};
use th_syntax::{Frame, Object, Program, State, Value};

// A field of an object, where this field gets another value.
fn field_after(found: (FieldId, Value), field: FieldId, value: Value) -> (FieldId, Value)
    ensures { result ≡ field_after field value found }
{
    if found.0.0 == field.0 {
        (found.0, value)
    } else {
        found
    }
}

// The fields of an object, one of which gets another value.
fn set_field(fields: &mut Seq<(FieldId, Value)>, field: FieldId, value: Value)
    ensures { fields.new ≡ with_field fields.old field value }
{
    for place in 0..fields.len() {
        let found = match fields.get(place) {
            Some(found) => *found,
            None => unreachable!(),
        };
        fields.set(place, field_after(found, field, value));
    }
}

// An object, a field of which gets another value.
fn set_in_object(object: &mut Object, field: FieldId, value: Value)
    ensures { object.new ≡ object_with field value object.old }
{
    match object {
        Object::Instance { fields, .. } => set_field(fields, field, value),
        Object::Array { .. } => {}
    }
}

// An array, an element of which gets another value.
fn set_in_array(object: &mut Object, index: u32, value: Value)
    ensures { object.new ≡ array_with index value object.old }
{
    match object {
        Object::Array { elements, .. } => {
            if (index as usize) < elements.len() {
                elements.set(index as usize, value);
            }
        }
        Object::Instance { .. } => {}
    }
}

// Objects, a field of one of which gets another value.
fn set_field_at(objects: &mut [Object], at: usize, field: FieldId, value: Value)
    requires { at < length objects.old }
    ensures { (o : Object) → slice_get objects.old at ≡ Some o → objects.new ≡ slice_set objects.old at (object_with field value o) }
{
    set_in_object(&mut objects[at], field, value);
}

// Objects, an element of one of which gets another value.
fn set_element_at(objects: &mut [Object], at: usize, index: u32, value: Value)
    requires { at < length objects.old }
    ensures { (o : Object) → slice_get objects.old at ≡ Some o → objects.new ≡ slice_set objects.old at (array_with index value o) }
{
    set_in_array(&mut objects[at], index, value);
}

// A heap, a field of one of whose objects gets another value.
fn with_field_at(heap: Seq<Object>, at: usize, field: FieldId, value: Value) -> Seq<Object>
    requires { at < length heap }
    ensures { (o : Object) → slice_get heap at ≡ Some o → result ≡ slice_set heap at (object_with field value o) }
{
    let mut objects = heap.into_vec();
    set_field_at(objects.as_mut_slice(), at, field, value);
    Seq::from_vec(objects)
}

// A heap, an element of one of whose arrays gets another value.
fn with_element_at(heap: Seq<Object>, at: usize, index: u32, value: Value) -> Seq<Object>
    requires { at < length heap }
    ensures { (o : Object) → slice_get heap at ≡ Some o → result ≡ slice_set heap at (array_with index value o) }
{
    let mut objects = heap.into_vec();
    set_element_at(objects.as_mut_slice(), at, index, value);
    Seq::from_vec(objects)
}

// The place of the object that a value leads to; none for null and for arrays.
fn instance_place(heap: &Seq<Object>, object: Value) -> Option<usize>
    ensures place { result ≡ option_map (λ o. o.address) (instance_at heap.now object) }
    ensures within { IfSome result (λ at. at < length heap.now) }
{
    let Value::Address(address) = object else {
        return None;
    };
    match heap.get(address as usize) {
        Some(Object::Instance { .. }) => Some(address as usize),
        Some(Object::Array { .. }) => None,
        None => None,
    }
}

// The place of the array that a value leads to; none for null and for instances.
fn array_place(heap: &Seq<Object>, array: Value) -> Option<usize>
    ensures place { result ≡ option_map (λ o. o.address) (array_at heap.now array) }
    ensures within { IfSome result (λ at. at < length heap.now) }
{
    let Value::Address(address) = array else {
        return None;
    };
    match heap.get(address as usize) {
        Some(Object::Array { .. }) => Some(address as usize),
        Some(Object::Instance { .. }) => None,
        None => None,
    }
}

// A field of the object that a reference leads to gets a value.
pub(crate) fn sets_field(
    program: &Program,
    world: World,
    frame: Running,
    next: Option<u32>,
    object: Value,
    field: FieldId,
    taken: usize,
    value: Value,
) -> Result<State, AllocError>
    requires { next ≡ next_offset program.now frame.method.0 frame.offset }
    ensures { IfOk result (λ s. s ≡ state_after program.now world frame (sets_field world frame object field taken value)) }
{
    let _program = program;
    let Some(at) = instance_place(&world.heap, object) else {
        return ended(world, frame);
    };
    let Some(offset) = next else {
        return ended(world, frame);
    };
    let heap = with_field_at(world.heap, at, field, value);
    with_frame(
        World { heap, ..world },
        Frame::Code {
            method: frame.method,
            offset,
            locals: frame.locals,
            stack: without_slots(frame.stack, taken),
        },
    )
}

// An element of the array that a reference leads to gets a value.
pub(crate) fn sets_element(
    program: &Program,
    world: World,
    frame: Running,
    next: Option<u32>,
    array: Value,
    index: u32,
    taken: usize,
    value: Value,
) -> Result<State, AllocError>
    requires { next ≡ next_offset program.now frame.method.0 frame.offset }
    ensures { IfOk result (λ s. s ≡ state_after program.now world frame (sets_element world frame array index taken value)) }
{
    let _program = program;
    let Some(at) = array_place(&world.heap, array) else {
        return ended(world, frame);
    };
    let Some(offset) = next else {
        return ended(world, frame);
    };
    let heap = with_element_at(world.heap, at, index, value);
    with_frame(
        World { heap, ..world },
        Frame::Code {
            method: frame.method,
            offset,
            locals: frame.locals,
            stack: without_slots(frame.stack, taken),
        },
    )
}

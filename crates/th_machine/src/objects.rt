// New objects (Java specification 6.5, new, newarray, anewarray).
ghost use Rattle.std.specs.Prelude.{◌≡◌, ◌++◌, drop, reverse, replicate, IfOk, OnOk};
ghost use Rattle.th_base.specs.Hierarchy.{lineage_of, superclass_of};
ghost use Rattle.th_syntax.specs.Effects.{Makes};
ghost use Rattle.th_syntax.specs.Initial.{default_value, new_object};
ghost use Rattle.th_syntax.specs.declared.machine.Object.TheVariants.{Array};
ghost use Rattle.th_syntax.specs.Program.{next_offset};
ghost use Rattle.th_machine.specs.Making.{declared_fields, fields_along, first_values};
ghost use Rattle.th_machine.specs.Standing.{state_after};

use crate::slots::{with_value, without_slots};
use crate::standing::{Running, World, ended, with_frame};
use std::alloc::{AllocError, Global};
use th_base::{ClassId, ClassInfo, FieldId, FieldInfo, Seq, Text};
use th_syntax::{Frame, Object, Program, State, Value};

// The value of a field of this descriptor before anything is stored into it (Java specification 2.3, 2.4).
pub(crate) fn default_value(descriptor: &[u8]) -> Value
    ensures { result ≡ default_value descriptor.now }
{
    match descriptor {
        [b'L', ..] => Value::Null,
        [b'[', ..] => Value::Null,
        [b'J', ..] => Value::Long(0),
        _ => Value::Int(0),
    }
}

// The direct superclass.
pub(crate) fn superclass(classes: &[ClassInfo], class: u32) -> Option<u32>
    ensures { result ≡ superclass_of classes.now class }
{
    match classes.get(class as usize) {
        Some(info) => match info.super_id {
            Some(above) => Some(above.0),
            None => None,
        },
        None => None,
    }
}

// The class and its superclasses, upwards.
fn lineage(alloc: Global, classes: &[ClassInfo], class: u32) -> Result<Vec<u32>, AllocError>
    ensures { IfOk result (λ line. line.items ≡ lineage_of classes.now class) }
{
    let mut line = Vec::new(alloc);
    let mut current = class;
    for _step in 0..classes.len() {
        line.push(current)?;
        match superclass(classes, current) {
            Some(above) => {
                current = above;
            }
            None => return Ok(line),
        }
    }
    Ok(line)
}

// Adds the instance fields among these, with the values that they begin with.
fn add_fields(into: &mut Vec<(FieldId, Value)>, fields: &[FieldInfo]) -> Result<(), AllocError>
    ensures { OnOk result (into.new.items ≡ into.old.items ++ first_values fields.now) }
{
    for field in fields {
        if !field.is_static {
            into.push((field.id, default_value(field.descriptor.as_bytes())))?;
        }
    }
    Ok(())
}

// The fields that a class declares.
fn declared_fields(classes: &[ClassInfo], class: u32) -> &[FieldInfo]
    ensures { result.now ≡ declared_fields classes.now class }
{
    match classes.get(class as usize) {
        Some(info) => info.fields.as_slice(),
        None => &[],
    }
}

// The instance fields of a class and of its superclasses, those of the root class first.
fn instance_fields(
    alloc: Global,
    classes: &[ClassInfo],
    class: u32,
) -> Result<Vec<(FieldId, Value)>, AllocError>
    ensures { IfOk result (λ fields. fields.items ≡ fields_along classes.now (reverse (lineage_of classes.now class))) }
{
    let mut line = lineage(alloc, classes, class)?;
    line.reverse();
    fields_along(alloc, classes, line.as_slice())
}

// The instance fields that these classes declare, in order, with the values that they begin with.
fn fields_along(
    alloc: Global,
    classes: &[ClassInfo],
    numbers: &[u32],
) -> Result<Vec<(FieldId, Value)>, AllocError>
    ensures { IfOk result (λ fields. fields.items ≡ fields_along classes.now numbers.now) }
{
    let mut fields = Vec::new(alloc);
    for number in numbers {
        add_fields(&mut fields, declared_fields(classes, *number))?;
    }
    Ok(fields)
}

// A new object of a class.
pub(crate) fn new_object(
    alloc: Global,
    program: &Program,
    class: ClassId,
) -> Result<Object, AllocError>
    ensures { IfOk result (λ o. o ≡ new_object program.now class.0) }
{
    let fields = instance_fields(alloc, program.hierarchy().classes(), class.0)?;
    Ok(Object::Instance {
        class,
        fields: Seq::from_vec(fields),
    })
}

// A new array.
pub(crate) fn new_array(
    alloc: Global,
    descriptor: &Text,
    fill: Value,
    count: u32,
) -> Result<Object, AllocError>
    ensures { IfOk result (λ o. o ≡ Array descriptor.now (replicate count fill)) }
{
    let mut elements = Vec::new(alloc);
    for _place in 0..count {
        elements.push(fill)?;
    }
    Ok(Object::Array {
        descriptor: descriptor.copy(alloc)?,
        elements: Seq::from_vec(elements),
    })
}

// A new object stands at the end of the heap, and its address goes onto the stack.
pub(crate) fn makes(
    program: &Program,
    world: World,
    frame: Running,
    next: Option<u32>,
    object: Object,
    taken: usize,
) -> Result<State, AllocError>
    requires { next ≡ next_offset program.now frame.method.0 frame.offset }
    ensures { IfOk result (λ s. s ≡ state_after program.now world frame (Makes object (drop taken frame.stack))) }
{
    let _program = program;
    let Some(offset) = next else {
        return ended(world, frame);
    };
    let place = world.heap.len();
    if place >= u32::MAX as usize {
        return Err(AllocError);
    }
    let mut world = world;
    world.heap.push(object)?;
    let stack = with_value(
        without_slots(frame.stack, taken),
        Value::Address(place as u32),
    )?;
    with_frame(
        world,
        Frame::Code {
            method: frame.method,
            offset,
            locals: frame.locals,
            stack,
        },
    )
}

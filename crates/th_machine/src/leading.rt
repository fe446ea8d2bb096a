// The objects to which a value leads.
ghost use Rattle.std.specs.Prelude.{◌≡◌, ◌<◌, [], filter_map, length, map, slice_get, Option, option_to_list, IfOk, OnOk};
ghost use Rattle.th_syntax.specs.Machine.{class_of, parts_of};
ghost use Rattle.th_machine.specs.Leading.{AreClassesLed, AreLed, Joins, address_in, addresses_in, class_in, next_from};

use indexmap::IndexSet;
use std::alloc::{AllocError, Global};
use th_base::{FieldId, Seq};
use th_syntax::{Object, Value};

// The addresses to which a value leads through zero or more instance fields and elements. Each is looked at once.
pub(crate) fn led_by(
    alloc: Global,
    heap: &[Object],
    value: Value,
) -> Result<IndexSet<u32>, AllocError>
    ensures { IfOk result (λ found. AreLed heap.now value found.keys) }
{
    let mut found = IndexSet::new(alloc);
    add(&mut found, value)?;
    let mut at = 0;
    while at < found.len() {
        let address = address_at(&found, at);
        add_next(&mut found, heap, address)?;
        at += 1;
    }
    Ok(found)
}

// The address at a place of those found.
fn address_at(found: &IndexSet<u32>, at: usize) -> u32
    requires { at < length found.now.keys }
    ensures { slice_get found.now.keys at ≡ Option.Some result }
{
    match found.get_index(at) {
        Some(address) => *address,
        None => unreachable!(),
    }
}

// Adds the addresses among the parts of the object at an address.
fn add_next(found: &mut IndexSet<u32>, heap: &[Object], address: u32) -> Result<(), AllocError>
    ensures { OnOk result (Joins found.old.keys found.new.keys (next_from heap.now address)) }
{
    match heap.get(address as usize) {
        Some(object) => add_parts(found, object),
        None => Ok(()),
    }
}

// Adds the addresses among the parts of an object.
fn add_parts(found: &mut IndexSet<u32>, object: &Object) -> Result<(), AllocError>
    ensures { OnOk result (Joins found.old.keys found.new.keys (addresses_in (parts_of object.now))) }
{
    match object {
        Object::Instance { fields, .. } => add_fields(found, fields.as_slice()),
        Object::Array { elements, .. } => add_elements(found, elements.as_slice()),
    }
}

// Adds the addresses among the values of fields.
fn add_fields(found: &mut IndexSet<u32>, fields: &[(FieldId, Value)]) -> Result<(), AllocError>
    ensures { OnOk result (Joins found.old.keys found.new.keys (addresses_in (map (λ f. f.1) fields.now))) }
{
    for (_, value) in fields {
        add(found, *value)?;
    }
    Ok(())
}

// Adds the addresses among elements.
fn add_elements(found: &mut IndexSet<u32>, elements: &[Value]) -> Result<(), AllocError>
    ensures { OnOk result (Joins found.old.keys found.new.keys (addresses_in elements.now)) }
{
    for value in elements {
        add(found, *value)?;
    }
    Ok(())
}

// Adds the address that a value is, where it is new.
fn add(found: &mut IndexSet<u32>, value: Value) -> Result<(), AllocError>
    ensures { OnOk result (Joins found.old.keys found.new.keys (option_to_list (address_in value))) }
{
    match value {
        Value::Address(address) => {
            found.insert(address)?;
            Ok(())
        }
        Value::Int(_) | Value::Long(_) | Value::Null => Ok(()),
    }
}

// The classes of the instances at these addresses, each once.
pub(crate) fn classes_at(
    alloc: Global,
    heap: &[Object],
    found: &IndexSet<u32>,
) -> Result<IndexSet<u32>, AllocError>
    ensures { IfOk result (λ classes. Joins [] classes.keys (filter_map (class_in heap.now) found.now.keys)) }
{
    let mut classes = IndexSet::new(alloc);
    for at in 0..found.len() {
        let address = address_at(found, at);
        let class = class_in(heap, address);
        add_class(&mut classes, class)?;
    }
    Ok(classes)
}

// The class of the instance at an address, by its number.
fn class_in(heap: &[Object], address: u32) -> Option<u32>
    ensures { result ≡ class_in heap.now address }
{
    match heap.get(address as usize) {
        Some(object) => class_of(object),
        None => None,
    }
}

// The class of an object that is no array, by its number.
fn class_of(object: &Object) -> Option<u32>
    ensures { result ≡ class_of object.now }
{
    match object {
        Object::Instance { class, .. } => Some(class.0),
        Object::Array { .. } => None,
    }
}

// Adds a class, where there is one and it is new.
fn add_class(classes: &mut IndexSet<u32>, class: Option<u32>) -> Result<(), AllocError>
    ensures { OnOk result (Joins classes.old.keys classes.new.keys (option_to_list class)) }
{
    match class {
        Some(number) => {
            classes.insert(number)?;
            Ok(())
        }
        None => Ok(()),
    }
}

// The classes of the instances to which a value leads, each once.
pub(crate) fn classes_led(
    alloc: Global,
    heap: &[Object],
    value: Value,
) -> Result<IndexSet<u32>, AllocError>
    ensures { IfOk result (λ classes. AreClassesLed heap.now value classes.keys) }
{
    let found = led_by(alloc, heap, value)?;
    let classes = classes_at(alloc, heap, &found)?;
    Ok(classes)
}

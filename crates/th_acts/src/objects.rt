// Objects that references lead to, and new ones (Java specification 6.5, new, monitorenter, monitorexit).
ghost use Rattle.std.specs.Prelude.{◌≡◌};
ghost use Rattle.std.specs.Option.{option_map};
ghost use Rattle.th_syntax.specs.Machine.{class_at, instance_at, array_at};
ghost use Rattle.th_syntax.specs.Objects.{enters_monitor};
ghost use Rattle.th_acts.specs.Acts.{Does, instance_of, array_of, makes_object};

use crate::act::Act;
use crate::branches::same_reference;
use crate::look::Look;
use crate::peek::reference_at;
use th_base::{ClassId, FieldId, Seq, Text};
use th_resolved::Operand;
use th_syntax::{Mark, Object, Value};

// An object of a class, and its address.
#[derive(Clone, Copy)]
pub(crate) struct FoundInstance<'a> {
    pub(crate) address: u32,
    pub(crate) class: ClassId,
    pub(crate) fields: &'a Seq<(FieldId, Value)>,
}

// An array, and its address.
#[derive(Clone, Copy)]
pub(crate) struct FoundArray<'a> {
    pub(crate) address: u32,
    pub(crate) descriptor: &'a Text,
    pub(crate) elements: &'a Seq<Value>,
}

// The instance that a value leads to; none for null and for arrays.
pub(crate) fn instance_at(heap: &Seq<Object>, value: Value) -> Option<FoundInstance<'_>>
    ensures { option_map instance_of result ≡ instance_at heap.now value }
{
    let Value::Address(address) = value else {
        return None;
    };
    match heap.get(address as usize) {
        Some(Object::Instance { class, fields }) => Some(FoundInstance {
            address,
            class: *class,
            fields,
        }),
        Some(Object::Array { .. }) => None,
        None => None,
    }
}

// The array that a value leads to; none for null and for instances.
pub(crate) fn array_at(heap: &Seq<Object>, value: Value) -> Option<FoundArray<'_>>
    ensures { option_map array_of result ≡ array_at heap.now value }
{
    let Value::Address(address) = value else {
        return None;
    };
    match heap.get(address as usize) {
        Some(
            Object::Array {
                descriptor,
                elements,
            },
        ) => Some(FoundArray {
            address,
            descriptor,
            elements,
        }),
        Some(Object::Instance { .. }) => None,
        None => None,
    }
}

// The class of the object that a value leads to, where it is no array.
pub(crate) fn class_at(heap: &Seq<Object>, value: Value) -> Option<ClassId>
    ensures { option_map (λ c. c.0) result ≡ class_at heap.now value }
{
    let Value::Address(address) = value else {
        return None;
    };
    match heap.get(address as usize) {
        Some(Object::Instance { class, .. }) => Some(*class),
        Some(Object::Array { .. }) => None,
        None => None,
    }
}

// new.
pub(crate) fn makes_object<'b>(look: Look<'_>, operand: &Operand) -> Act<'b>
    ensures { Does look.entry result (λ t. makes_object look.entry.resolved.now t operand.now) }
{
    let Operand::Class { class, has_objects } = operand else {
        return Act::Ends;
    };
    match look.marks.get(class.0 as usize) {
        Some(Mark::Untouched) => Act::Opens(*class),
        Some(Mark::InProgress) | Some(Mark::Done) => {
            if *has_objects {
                Act::MakesObject(*class)
            } else {
                Act::Ends
            }
        }
        None => Act::Ends,
    }
}

// monitorenter, monitorexit.
pub(crate) fn enters_monitor<'b>(look: Look<'_>) -> Act<'b>
    ensures { Does look.entry result enters_monitor }
{
    let Some(p) = reference_at(look.stack, 0) else {
        return Act::Ends;
    };
    if same_reference(p.value, Value::Null) {
        Act::Ends
    } else {
        Act::Drops { taken: p.upto }
    }
}

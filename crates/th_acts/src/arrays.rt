// Arrays (Java specification 6.5, newarray, anewarray, arraylength, iaload to lastore).
ghost use Rattle.std.specs.Prelude.{◌≡◌, IfOk};
ghost use Rattle.th_syntax.specs.Arrays.{component_name, holds, holds_longs, gets_length, element_at, loads_element, element_of, stores_int_element, stores_long_element, stores_reference_element, stores_elements};
ghost use Rattle.th_acts.specs.Acts.{Does, makes_array};

use crate::act::Act;
use crate::look::Look;
use crate::objects::array_at;
use crate::peek::{int_at, long_at, reference_at};
use crate::types::fits_type;
use std::alloc::AllocError;
use th_base::{Elem, Seq, Text};
use th_resolved::Operand;
use th_syntax::Value;
use th_wrap::{and32, narrow_char, narrow8, narrow16};

// The name of the type of the components of an array of references.
fn component_name(descriptor: &[u8]) -> &[u8]
    ensures { result.now ≡ component_name descriptor.now }
{
    match descriptor {
        [] => descriptor,
        [_, b'[', ..] => &descriptor[1..],
        [_] => &descriptor[1..],
        [_, _] => &descriptor[2..],
        [_, _, name @ ..] => &name[..name.len() - 1],
    }
}

// Whether the instructions for these elements load from and store into arrays of a type.
fn holds(elem: Elem, descriptor: &Text) -> bool
    ensures { result ≡ holds elem descriptor.now }
{
    let bytes = descriptor.as_bytes();
    match elem {
        Elem::Int => bytes == b"[I".as_slice(),
        Elem::Ref => match bytes {
            [_, b'L', ..] | [_, b'[', ..] => true,
            _ => false,
        },
        Elem::Byte => bytes == b"[B".as_slice() || bytes == b"[Z".as_slice(),
        Elem::Char => bytes == b"[C".as_slice(),
        Elem::Short => bytes == b"[S".as_slice(),
    }
}

fn holds_longs(descriptor: &Text) -> bool
    ensures { result ≡ holds_longs descriptor.now }
{
    descriptor.as_bytes() == b"[J".as_slice()
}

// newarray, anewarray.
pub(crate) fn makes_array<'b>(look: Look<'_>, operand: &'b Operand) -> Act<'b>
    ensures { Does look.entry result (λ t. makes_array t operand.now) }
{
    let Operand::Array { descriptor, fill } = operand else {
        return Act::Ends;
    };
    let Some(n) = int_at(look.stack, 0) else {
        return Act::Ends;
    };
    if n.value < 0 {
        return Act::Ends;
    }
    Act::MakesArray {
        descriptor,
        fill: *fill,
        length: n.value.unsigned_abs(),
        taken: n.upto,
    }
}

// arraylength. There is no memory for an array whose length is no int.
pub(crate) fn gets_length<'b>(look: Look<'_>) -> Result<Act<'b>, AllocError>
    ensures { IfOk result (λ a. Does look.entry a gets_length) }
{
    let Some(p) = reference_at(look.stack, 0) else {
        return Ok(Act::Ends);
    };
    let Some(array) = array_at(look.heap, p.value) else {
        return Ok(Act::Ends);
    };
    match i32::try_from(array.elements.len()) {
        Ok(length) => Ok(Act::Gives {
            taken: p.upto,
            value: Value::Int(length),
        }),
        Err(_) => Err(AllocError),
    }
}

// The element of an array at an index.
fn element_at(elements: &Seq<Value>, index: i32) -> Option<Value>
    ensures { result ≡ element_at elements.now index }
{
    if index < 0 {
        return None;
    }
    match elements.get(index.unsigned_abs() as usize) {
        Some(value) => Some(*value),
        None => None,
    }
}

// iaload to saload, but for laload.
pub(crate) fn loads_element<'b>(look: Look<'_>, elem: Elem) -> Act<'b>
    ensures { Does look.entry result (λ t. loads_element t (holds elem)) }
{
    let Some(i) = int_at(look.stack, 0) else {
        return Act::Ends;
    };
    let Some(p) = reference_at(look.stack, i.upto) else {
        return Act::Ends;
    };
    let Some(array) = array_at(look.heap, p.value) else {
        return Act::Ends;
    };
    if !holds(elem, array.descriptor) {
        return Act::Ends;
    }
    match element_at(array.elements, i.value) {
        Some(value) => Act::Gives {
            taken: p.upto,
            value,
        },
        None => Act::Ends,
    }
}

// laload.
pub(crate) fn loads_long_element<'b>(look: Look<'_>) -> Act<'b>
    ensures { Does look.entry result (λ t. loads_element t holds_longs) }
{
    let Some(i) = int_at(look.stack, 0) else {
        return Act::Ends;
    };
    let Some(p) = reference_at(look.stack, i.upto) else {
        return Act::Ends;
    };
    let Some(array) = array_at(look.heap, p.value) else {
        return Act::Ends;
    };
    if !holds_longs(array.descriptor) {
        return Act::Ends;
    }
    match element_at(array.elements, i.value) {
        Some(value) => Act::Gives {
            taken: p.upto,
            value,
        },
        None => Act::Ends,
    }
}

// An int as an element of arrays of a type holds it.
fn element_of(elem: Elem, descriptor: &Text, n: i32) -> i32
    ensures { result ≡ element_of elem descriptor.now n }
{
    match elem {
        Elem::Int => n,
        Elem::Ref => n,
        Elem::Byte => {
            if descriptor.as_bytes() == b"[Z".as_slice() {
                and32(n, 1)
            } else {
                narrow8(n)
            }
        }
        Elem::Char => narrow_char(n),
        Elem::Short => narrow16(n),
    }
}

// iastore, bastore, castore, sastore.
fn stores_int_element<'b>(look: Look<'_>, elem: Elem) -> Act<'b>
    ensures { Does look.entry result (λ t. stores_int_element t elem) }
{
    let Some(v) = int_at(look.stack, 0) else {
        return Act::Ends;
    };
    let Some(i) = int_at(look.stack, v.upto) else {
        return Act::Ends;
    };
    let Some(p) = reference_at(look.stack, i.upto) else {
        return Act::Ends;
    };
    let Some(array) = array_at(look.heap, p.value) else {
        return Act::Ends;
    };
    if !holds(elem, array.descriptor) {
        return Act::Ends;
    }
    match element_at(array.elements, i.value) {
        Some(_) => Act::SetsElement {
            array: p.value,
            index: i.value.unsigned_abs(),
            taken: p.upto,
            value: Value::Int(element_of(elem, array.descriptor, v.value)),
        },
        None => Act::Ends,
    }
}

// lastore.
pub(crate) fn stores_long_element<'b>(look: Look<'_>) -> Act<'b>
    ensures { Does look.entry result stores_long_element }
{
    let Some(v) = long_at(look.stack, 0) else {
        return Act::Ends;
    };
    let Some(i) = int_at(look.stack, v.upto) else {
        return Act::Ends;
    };
    let Some(p) = reference_at(look.stack, i.upto) else {
        return Act::Ends;
    };
    let Some(array) = array_at(look.heap, p.value) else {
        return Act::Ends;
    };
    if !holds_longs(array.descriptor) {
        return Act::Ends;
    }
    match element_at(array.elements, i.value) {
        Some(_) => Act::SetsElement {
            array: p.value,
            index: i.value.unsigned_abs(),
            taken: p.upto,
            value: Value::Long(v.value),
        },
        None => Act::Ends,
    }
}

// aastore: the value is null or of a subtype of the components' type.
fn stores_reference_element<'b>(look: Look<'_>) -> Act<'b>
    ensures { Does look.entry result (λ t. stores_reference_element look.entry.resolved.now t) }
{
    let Some(v) = reference_at(look.stack, 0) else {
        return Act::Ends;
    };
    let Some(i) = int_at(look.stack, v.upto) else {
        return Act::Ends;
    };
    let Some(p) = reference_at(look.stack, i.upto) else {
        return Act::Ends;
    };
    let Some(array) = array_at(look.heap, p.value) else {
        return Act::Ends;
    };
    if !holds(Elem::Ref, array.descriptor) {
        return Act::Ends;
    }
    let Some(_) = element_at(array.elements, i.value) else {
        return Act::Ends;
    };
    let name = component_name(array.descriptor.as_bytes());
    if !fits_type(look.resolved.program(), look.heap, name, v.value) {
        return Act::Ends;
    }
    Act::SetsElement {
        array: p.value,
        index: i.value.unsigned_abs(),
        taken: p.upto,
        value: v.value,
    }
}

// iastore to sastore, but for lastore.
pub(crate) fn stores_elements<'b>(look: Look<'_>, elem: Elem) -> Act<'b>
    ensures { Does look.entry result (λ t. stores_elements look.entry.resolved.now t elem) }
{
    match elem {
        Elem::Ref => stores_reference_element(look),
        Elem::Int => stores_int_element(look, Elem::Int),
        Elem::Byte => stores_int_element(look, Elem::Byte),
        Elem::Char => stores_int_element(look, Elem::Char),
        Elem::Short => stores_int_element(look, Elem::Short),
    }
}

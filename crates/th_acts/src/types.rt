// Tests of the types of objects (Java specification 6.5, checkcast, instanceof).
ghost use Rattle.std.specs.Prelude.{◌≡◌, option_map, slice_get};
ghost use Rattle.th_syntax.specs.Objects.{type_name, is_of_type, leads_to_type, fits_type, casts, tests_type};
ghost use Rattle.th_syntax.specs.Program.{all_classes, hierarchy_of};
ghost use Rattle.th_base.specs.Subtype.{is_subtype};
ghost use Rattle.th_acts.specs.Acts.{Does};

use crate::act::Act;
use crate::branches::same_reference;
use crate::look::Look;
use crate::peek::reference_at;
use th_base::{ClassId, ClassInfo, Seq, Text};
use th_syntax::{Object, Program, Value};

// The name of a class of a list.
fn name_in(classes: &[ClassInfo], class: ClassId) -> Option<&Text>
    ensures { option_map (λ n. n.now) result ≡ option_map (λ k. k.name) (slice_get classes.now class.0) }
{
    match classes.get(class.0 as usize) {
        Some(info) => Some(&info.name),
        None => None,
    }
}

// The name of a class.
fn class_name(program: &Program, class: ClassId) -> Option<&Text>
    ensures { option_map (λ n. n.now) result ≡ option_map (λ k. k.name) (slice_get (all_classes program.now) class.0) }
{
    name_in(program.hierarchy().classes(), class)
}

// The name of an object's class, or the descriptor of an array's type.
fn type_name<'a>(program: &'a Program, object: &'a Object) -> Option<&'a Text>
    ensures { option_map (λ n. n.now) result ≡ type_name program.now object.now }
{
    match object {
        Object::Instance { class, .. } => class_name(program, *class),
        Object::Array { descriptor, .. } => Some(descriptor),
    }
}

// Whether the type of a name is a subtype of another.
fn is_subtype(program: &Program, own: &Text, name: &[u8]) -> bool
    ensures { result ≡ is_subtype (hierarchy_of program.now) own.now name.now }
{
    program.hierarchy().is_subtype_named(own.as_bytes(), name)
}

// Whether an object's type is a subtype of the one of this name.
fn is_of_type(program: &Program, name: &[u8], object: &Object) -> bool
    ensures { result ≡ is_of_type program.now name.now object.now }
{
    match type_name(program, object) {
        Some(own) => is_subtype(program, own, name),
        None => false,
    }
}

// Whether a value leads to an object whose type is a subtype of the one of this name.
pub(crate) fn leads_to_type(
    program: &Program,
    heap: &Seq<Object>,
    name: &[u8],
    value: Value,
) -> bool
    ensures { result ≡ leads_to_type program.now heap.now name.now value }
{
    let Value::Address(address) = value else {
        return false;
    };
    match heap.get(address as usize) {
        Some(object) => is_of_type(program, name, object),
        None => false,
    }
}

// Whether a value is null, or leads to an object of a subtype.
pub(crate) fn fits_type(program: &Program, heap: &Seq<Object>, name: &[u8], value: Value) -> bool
    ensures { result ≡ fits_type program.now heap.now name.now value }
{
    if same_reference(value, Value::Null) {
        true
    } else {
        leads_to_type(program, heap, name, value)
    }
}

// checkcast.
pub(crate) fn casts<'b>(look: Look<'_>, name: &Text) -> Act<'b>
    ensures { Does look.entry result (λ t. casts look.entry.resolved.now t name.now) }
{
    let Some(p) = reference_at(look.stack, 0) else {
        return Act::Ends;
    };
    let program = look.resolved.program();
    if fits_type(program, look.heap, name.as_bytes(), p.value) {
        Act::Drops { taken: 0 }
    } else {
        Act::Ends
    }
}

// instanceof.
pub(crate) fn tests_type<'b>(look: Look<'_>, name: &Text) -> Act<'b>
    ensures { Does look.entry result (λ t. tests_type look.entry.resolved.now t name.now) }
{
    let Some(p) = reference_at(look.stack, 0) else {
        return Act::Ends;
    };
    let program = look.resolved.program();
    let answer = if leads_to_type(program, look.heap, name.as_bytes(), p.value) {
        1
    } else {
        0
    };
    Act::Gives {
        taken: p.upto,
        value: Value::Int(answer),
    }
}

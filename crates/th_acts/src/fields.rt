// Static and instance fields (Java specification 6.5, getstatic to putfield).
ghost use Rattle.std.specs.Prelude.{◌≡◌};
ghost use Rattle.th_syntax.specs.Fields.{field_value};
ghost use Rattle.th_acts.specs.Acts.{Does, gets_static, puts_static, gets_field, puts_field};

use crate::act::Act;
use crate::hierarchy::has_superclass;
use crate::look::Look;
use crate::objects::instance_at;
use crate::peek::{reference_at, value_at};
use th_base::FieldId;
use th_resolved::Operand;
use th_syntax::{Mark, Value};

// getstatic: the class that declares the field is initialised first.
pub(crate) fn gets_static<'b>(look: Look<'_>, operand: &Operand) -> Act<'b>
    ensures { Does look.entry result (λ t. gets_static t operand.now) }
{
    let Operand::Field { class, field } = operand else {
        return Act::Ends;
    };
    match look.marks.get(class.0 as usize) {
        Some(Mark::Untouched) => Act::Opens(*class),
        Some(Mark::InProgress) | Some(Mark::Done) => {
            match look.statics.get(field.0 as usize) {
                Some(value) => Act::Gives {
                    taken: 0,
                    value: *value,
                },
                None => Act::Ends,
            }
        }
        None => Act::Ends,
    }
}

// putstatic.
pub(crate) fn puts_static<'b>(look: Look<'_>, operand: &Operand) -> Act<'b>
    ensures { Does look.entry result (λ t. puts_static t operand.now) }
{
    let Operand::Field { class, field } = operand else {
        return Act::Ends;
    };
    match look.marks.get(class.0 as usize) {
        Some(Mark::Untouched) => Act::Opens(*class),
        Some(Mark::InProgress) | Some(Mark::Done) => match value_at(look.stack, 0) {
            Some(p) => Act::SetsStatic {
                field: *field,
                taken: p.upto,
                value: p.value,
            },
            None => Act::Ends,
        },
        None => Act::Ends,
    }
}

// The value of an object's field.
fn field_value(fields: &[(FieldId, Value)], field: FieldId) -> Option<Value>
    ensures { result ≡ field_value fields.now field }
{
    for entry in fields {
        if entry.0.0 == field.0 {
            return Some(entry.1);
        }
    }
    None
}

// getfield.
pub(crate) fn gets_field<'b>(look: Look<'_>, operand: &Operand) -> Act<'b>
    ensures { Does look.entry result (λ t. gets_field look.entry.resolved.now t operand.now) }
{
    let Operand::Field { class, field } = operand else {
        return Act::Ends;
    };
    let Some(p) = reference_at(look.stack, 0) else {
        return Act::Ends;
    };
    let Some(object) = instance_at(look.heap, p.value) else {
        return Act::Ends;
    };
    if !has_superclass(look, object.class, *class) {
        return Act::Ends;
    }
    match field_value(object.fields.as_slice(), *field) {
        Some(value) => Act::Gives {
            taken: p.upto,
            value,
        },
        None => Act::Ends,
    }
}

// putfield.
pub(crate) fn puts_field<'b>(look: Look<'_>, operand: &Operand) -> Act<'b>
    ensures { Does look.entry result (λ t. puts_field look.entry.resolved.now t operand.now) }
{
    let Operand::Field { class, field } = operand else {
        return Act::Ends;
    };
    let Some(v) = value_at(look.stack, 0) else {
        return Act::Ends;
    };
    let Some(p) = reference_at(look.stack, v.upto) else {
        return Act::Ends;
    };
    let Some(object) = instance_at(look.heap, p.value) else {
        return Act::Ends;
    };
    if !has_superclass(look, object.class, *class) {
        return Act::Ends;
    }
    Act::SetsField {
        object: p.value,
        field: *field,
        taken: p.upto,
        value: v.value,
    }
}

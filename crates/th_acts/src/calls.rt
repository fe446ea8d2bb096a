// Calls of methods (Java specification 6.5, invokevirtual to invokestatic).
ghost use Rattle.std.specs.Prelude.{◌≡◌};
ghost use Rattle.std.specs.Option.{option_and_then};
ghost use Rattle.std.specs.Prelude.{slice_get};
ghost use Rattle.th_syntax.specs.Slots.{value_in};
ghost use Rattle.th_syntax.specs.Calls.{calls};
ghost use Rattle.th_acts.specs.Acts.{Does, invokes_selected, invokes_special, invokes_static};

use crate::act::Act;
use crate::hierarchy::{has_supertype, taken_on};
use crate::look::Look;
use crate::objects::class_at;
use th_base::{MethodId, Stack};
use th_resolved::Operand;
use th_syntax::{Mark, Slot, Value};

// A call with so many slots of arguments on top of the stack. The run ends where the method has no code.
fn calls<'b>(look: Look<'_>, method: MethodId, slots: usize) -> Act<'b>
    ensures { Does look.entry result (λ t. calls look.entry.resolved.now t slots method.0) }
{
    match look.resolved.frame_size(method) {
        Some(size) => Act::Calls {
            method,
            slots,
            size,
        },
        None => Act::Ends,
    }
}

// The value in a slot of the stack.
fn receiver_at(stack: &Stack<Slot>, at: usize) -> Option<Value>
    ensures { result ≡ option_and_then value_in (slice_get stack.now at) }
{
    match stack.get(at) {
        Some(Slot::Holds(value)) => Some(*value),
        _ => None,
    }
}

// invokevirtual, invokeinterface.
pub(crate) fn invokes_selected<'b>(look: Look<'_>, operand: &Operand) -> Act<'b>
    ensures { Does look.entry result (λ t. invokes_selected look.entry.resolved.now t operand.now) }
{
    let Operand::Call(callee) = operand else {
        return Act::Ends;
    };
    let slots = callee.slots as usize;
    let Some(receiver) = receiver_at(look.stack, slots) else {
        return Act::Ends;
    };
    let Some(class) = class_at(look.heap, receiver) else {
        return Act::Ends;
    };
    if !has_supertype(look, class, callee.declaring) {
        return Act::Ends;
    }
    match taken_on(look, &callee.method, class) {
        Some(method) => calls(look, method, slots + 1),
        None => Act::Ends,
    }
}

// invokespecial.
pub(crate) fn invokes_special<'b>(look: Look<'_>, operand: &Operand) -> Act<'b>
    ensures { Does look.entry result (λ t. invokes_special look.entry.resolved.now t operand.now) }
{
    let Operand::Special { callee, taken } = operand else {
        return Act::Ends;
    };
    let slots = callee.slots as usize;
    let Some(receiver) = receiver_at(look.stack, slots) else {
        return Act::Ends;
    };
    let Some(class) = class_at(look.heap, receiver) else {
        return Act::Ends;
    };
    if !has_supertype(look, class, callee.declaring) {
        return Act::Ends;
    }
    match taken {
        Some(method) => calls(look, *method, slots + 1),
        None => Act::Ends,
    }
}

// invokestatic: the class that declares the method is initialised first.
pub(crate) fn invokes_static<'b>(look: Look<'_>, operand: &Operand) -> Act<'b>
    ensures { Does look.entry result (λ t. invokes_static look.entry.resolved.now t operand.now) }
{
    let Operand::Call(callee) = operand else {
        return Act::Ends;
    };
    match look.marks.get(callee.declaring.0 as usize) {
        Some(Mark::Untouched) => Act::Opens(callee.declaring),
        Some(Mark::InProgress) | Some(Mark::Done) => {
            calls(look, callee.method.id, callee.slots as usize)
        }
        None => Act::Ends,
    }
}

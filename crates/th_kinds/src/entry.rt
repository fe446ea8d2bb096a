// What is known at the entry of a method.
ghost use Rattle.std.specs.Prelude.{◌≡◌, ◌-◌, ◌++◌, [], length, replicate, IfOk};
ghost use Rattle.th_syntax.specs.declared.kind.SlotKind.TheVariants as kind;
ghost use Rattle.th_syntax.specs.Kinds.{OfKinds};
ghost use Rattle.th_syntax.specs.KindRows.{parameter_slots};
ghost use Rattle.th_syntax.specs.KindTable.{argument_slots};
ghost use Rattle.th_kinds.specs.States.{seen_state};

use crate::row::{NONE, REF, joined};
use crate::state::{Frame, State};
use std::alloc::{AllocError, Global};
use th_syntax::{ACC_STATIC, Member, SlotKind, has_flag};

// The locals that a method's arguments take, where these are its parameters'.
pub(crate) fn arguments(
    alloc: Global,
    method: &Member,
    params: &[SlotKind],
) -> Result<Vec<SlotKind>, AllocError>
    requires { params.now ≡ parameter_slots method.now.descriptor }
    ensures { IfOk result (λ slots. slots.items ≡ argument_slots method.now) }
{
    let receiver = if has_flag(method.access, ACC_STATIC) {
        NONE
    } else {
        REF
    };
    joined(alloc, receiver, params)
}

// What is known at the entry of a method with these arguments and so many locals.
pub(crate) fn entry_of(arguments: Vec<SlotKind>, max_locals: u16) -> Result<State, AllocError>
    ensures { IfOk result (λ entry. seen_state entry ≡ OfKinds (arguments.items ++ replicate (max_locals - length arguments.items) kind.Unusable) []) }
{
    let unset = (max_locals as usize).saturating_sub(arguments.len());
    let mut locals = arguments;
    for _added in 0..unset {
        locals.push(SlotKind::Unusable)?;
    }
    let stack = Vec::new(*locals.allocator());
    Ok(State::OfKinds(Frame { locals, stack }))
}

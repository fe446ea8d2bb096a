// Calls of methods (Java specification 2.6, 6.5, invokevirtual to invokestatic).
ghost use Rattle.std.specs.Prelude.{◌≡◌, ◌++◌, ◌≤◌, length, take, drop, reverse, replicate, IfOk};
ghost use Rattle.th_syntax.specs.Effects.{Calls, frame_of};
ghost use Rattle.th_syntax.specs.declared.machine.Slot.TheVariants.{Holds};
ghost use Rattle.th_syntax.specs.declared.machine.Value.TheVariants.{Null as NullValue};
ghost use Rattle.th_syntax.specs.Slots.{locals_with};
ghost use Rattle.th_machine.specs.Standing.{state_after};

use crate::slots::without_slots;
use crate::standing::{Running, World, with_frame};
use std::alloc::{AllocError, Global};
use th_base::{MethodId, Seq, Stack};
use th_resolved::{FrameSize, Resolved};
use th_syntax::{Frame, Program, Slot, State, Value};

// So many slots on top of a stack, the deepest first.
fn arguments(alloc: Global, stack: &Stack<Slot>, slots: usize) -> Result<Vec<Slot>, AllocError>
    requires { slots ≤ length stack.now }
    ensures { IfOk result (λ a. a.items ≡ reverse (take slots stack.now)) }
{
    let mut found = Vec::new(alloc);
    for place in 0..slots {
        match stack.get(slots - 1 - place) {
            Some(slot) => found.push(*slot)?,
            None => unreachable!(),
        }
    }
    Ok(found)
}

// Slots with so many more behind them that hold null.
fn padded(slots: Vec<Slot>, count: usize) -> Result<Vec<Slot>, AllocError>
    ensures { IfOk result (λ p. p.items ≡ slots.items ++ replicate count (Holds NullValue)) }
{
    let mut longer = slots;
    for _ in 0..count {
        longer.push(Slot::Holds(Value::Null))?;
    }
    Ok(longer)
}

// The locals of a new frame with so many slots on top of a stack as arguments.
pub(crate) fn new_locals(
    alloc: Global,
    stack: &Stack<Slot>,
    slots: usize,
    count: u16,
) -> Result<Seq<Slot>, AllocError>
    ensures { IfOk result (λ l. l ≡ locals_with (reverse (take slots stack.now)) count) }
{
    let given = if slots < stack.len() {
        slots
    } else {
        stack.len()
    };
    let locals = arguments(alloc, stack, given)?;
    let all = count as usize;
    let missing = if given < all { all - given } else { 0 };
    Ok(Seq::from_vec(padded(locals, missing)?))
}

// The frame waits at its call, and a frame of the method's code stands on top.
pub(crate) fn calls(
    alloc: Global,
    program: &Program,
    world: World,
    frame: Running,
    method: MethodId,
    slots: usize,
    size: FrameSize,
) -> Result<State, AllocError>
    ensures { IfOk result (λ s. s ≡ state_after program.now world frame (Calls method.0 (locals_with (reverse (take slots frame.stack)) size.locals) (drop slots frame.stack))) }
{
    let _program = program;
    let locals = new_locals(alloc, &frame.stack, slots, size.locals)?;
    let waiting = Frame::Code {
        method: frame.method,
        offset: frame.offset,
        locals: frame.locals,
        stack: without_slots(frame.stack, slots),
    };
    let mut state = with_frame(world, waiting)?;
    state.frames.push(Frame::Code {
        method,
        offset: 0,
        locals,
        stack: Stack::new(alloc),
    })?;
    Ok(state)
}

// A new frame of a method with these arguments, where it has code.
pub(crate) fn new_frame(
    alloc: Global,
    resolved: &Resolved<'_>,
    method: MethodId,
    arguments: Vec<Slot>,
) -> Result<Option<Frame>, AllocError>
    ensures { IfOk result (λ f. f ≡ frame_of resolved.now method.0 arguments.items) }
{
    match resolved.frame_size(method) {
        Some(size) => {
            let all = size.locals as usize;
            let given = arguments.len();
            let missing = if given < all { all - given } else { 0 };
            let locals = Seq::from_vec(padded(arguments, missing)?);
            Ok(Some(Frame::Code {
                method,
                offset: 0,
                locals,
                stack: Stack::new(alloc),
            }))
        }
        None => Ok(None),
    }
}

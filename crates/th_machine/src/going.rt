// The states after the acts of instructions after which the frame goes on.
ghost use Rattle.std.specs.Prelude.{◌≡◌, drop, slice_set, IfOk};
ghost use Rattle.th_acts.specs.Acts.{settled};
ghost use Rattle.th_syntax.specs.Effects.{GoesOn, Jumps, SetsStatic, needs};
ghost use Rattle.th_syntax.specs.Program.{next_offset};
ghost use Rattle.th_syntax.specs.Slots.{pushed, stored, stack_moved};
ghost use Rattle.th_machine.specs.Standing.{state_after};

use crate::moving::{moved, slots_needed};
use crate::slots::{with_item, with_stored, with_value, without_slots};
use crate::standing::{Running, World, ended, with_frame};
use std::alloc::AllocError;
use th_base::FieldId;
use th_syntax::{Frame, Program, StackOp, State, Value};

// A value goes onto the stack.
pub(crate) fn gives(
    program: &Program,
    world: World,
    frame: Running,
    next: Option<u32>,
    taken: usize,
    value: Value,
) -> Result<State, AllocError>
    requires { next ≡ next_offset program.now frame.method.0 frame.offset }
    ensures { IfOk result (λ s. s ≡ state_after program.now world frame (GoesOn frame.locals (pushed value (drop taken frame.stack)))) }
{
    let _program = program;
    let Some(offset) = next else {
        return ended(world, frame);
    };
    let stack = with_value(without_slots(frame.stack, taken), value)?;
    with_frame(
        world,
        Frame::Code {
            method: frame.method,
            offset,
            locals: frame.locals,
            stack,
        },
    )
}

// Slots go from the stack.
pub(crate) fn drops(
    program: &Program,
    world: World,
    frame: Running,
    next: Option<u32>,
    taken: usize,
) -> Result<State, AllocError>
    requires { next ≡ next_offset program.now frame.method.0 frame.offset }
    ensures { IfOk result (λ s. s ≡ state_after program.now world frame (GoesOn frame.locals (drop taken frame.stack))) }
{
    let _program = program;
    let Some(offset) = next else {
        return ended(world, frame);
    };
    with_frame(
        world,
        Frame::Code {
            method: frame.method,
            offset,
            locals: frame.locals,
            stack: without_slots(frame.stack, taken),
        },
    )
}

// A value goes into a local.
pub(crate) fn stores(
    program: &Program,
    world: World,
    frame: Running,
    next: Option<u32>,
    local: u16,
    taken: usize,
    value: Value,
) -> Result<State, AllocError>
    requires { next ≡ next_offset program.now frame.method.0 frame.offset }
    ensures { IfOk result (λ s. s ≡ state_after program.now world frame (GoesOn (stored frame.locals local value) (drop taken frame.stack))) }
{
    let _program = program;
    let Some(offset) = next else {
        return ended(world, frame);
    };
    with_frame(
        world,
        Frame::Code {
            method: frame.method,
            offset,
            locals: with_stored(frame.locals, local, value),
            stack: without_slots(frame.stack, taken),
        },
    )
}

// Groups of slots are moved.
pub(crate) fn moves(
    program: &Program,
    world: World,
    frame: Running,
    next: Option<u32>,
    op: StackOp,
) -> Result<State, AllocError>
    requires { next ≡ next_offset program.now frame.method.0 frame.offset }
    ensures { IfOk result (λ s. s ≡ state_after program.now world frame (settled (needs (stack_moved op frame.stack) (GoesOn frame.locals)))) }
{
    let _program = program;
    if frame.stack.len() < slots_needed(op) {
        return ended(world, frame);
    }
    let Some(offset) = next else {
        return ended(world, frame);
    };
    let stack = moved(frame.stack, op)?;
    with_frame(
        world,
        Frame::Code {
            method: frame.method,
            offset,
            locals: frame.locals,
            stack,
        },
    )
}

// The frame goes on at another offset.
pub(crate) fn jumps(
    program: &Program,
    world: World,
    frame: Running,
    target: u32,
    taken: usize,
) -> Result<State, AllocError>
    ensures { IfOk result (λ s. s ≡ state_after program.now world frame (Jumps target (drop taken frame.stack))) }
{
    let _program = program;
    with_frame(
        world,
        Frame::Code {
            method: frame.method,
            offset: target,
            locals: frame.locals,
            stack: without_slots(frame.stack, taken),
        },
    )
}

// A static field gets a value.
pub(crate) fn sets_static(
    program: &Program,
    world: World,
    frame: Running,
    next: Option<u32>,
    field: FieldId,
    taken: usize,
    value: Value,
) -> Result<State, AllocError>
    requires { next ≡ next_offset program.now frame.method.0 frame.offset }
    ensures { IfOk result (λ s. s ≡ state_after program.now world frame (SetsStatic field.0 value (drop taken frame.stack))) }
{
    let _program = program;
    let Some(offset) = next else {
        return ended(world, frame);
    };
    let world = World {
        statics: with_item(world.statics, field.0 as usize, value),
        ..world
    };
    with_frame(
        world,
        Frame::Code {
            method: frame.method,
            offset,
            locals: frame.locals,
            stack: without_slots(frame.stack, taken),
        },
    )
}

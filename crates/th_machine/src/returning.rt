// Returns from methods (Java specification 6.5, ireturn to return).
ghost use Rattle.std.specs.Prelude.{◌≡◌, ◌++◌, IfOk};
ghost use Rattle.th_acts.specs.Acts.{results_of};
ghost use Rattle.th_syntax.specs.Effects.{Returns};
ghost use Rattle.th_syntax.specs.Program.{next_offset};
ghost use Rattle.th_machine.specs.Standing.{caller_in, state_after, state_returned};
ghost use Rattle.th_machine.specs.declared.returning.Caller.TheVariants.{Waits};

use crate::slots::with_value;
use crate::standing::{Running, World, ended, with_frame, without_frame};
use std::alloc::AllocError;
use th_base::{MethodId, Stack};
use th_resolved::Resolved;
use th_syntax::{Frame, Slot, State, Value};

// How the frame below takes a return.
#[derive(Clone, Copy)]
pub(crate) enum Caller {
    // It is no code frame, or there is none.
    Absent,
    // It goes on at this offset.
    Waits(u32),
    // It can't go on.
    Stuck,
}

// The offset of the instruction behind one of a method.
fn next_at(resolved: &Resolved<'_>, method: MethodId, offset: u32) -> Option<u32>
    ensures { result ≡ next_offset resolved.now method.0 offset }
{
    match resolved.entry(method, offset) {
        Some(entry) => entry.next,
        None => None,
    }
}

// How the frame on top of these takes a return.
pub(crate) fn caller_in(resolved: &Resolved<'_>, below: &Stack<Frame>) -> Caller
    ensures { result ≡ caller_in resolved.now below.now }
{
    match below.top() {
        Some(Frame::Code { method, offset, .. }) => match next_at(resolved, *method, *offset) {
            Some(next) => Caller::Waits(next),
            None => Caller::Stuck,
        },
        Some(Frame::Init { .. }) => Caller::Absent,
        Some(Frame::Launch { .. }) => Caller::Absent,
        None => Caller::Absent,
    }
}

// A stack with a result on top, if there is one.
fn with_result(stack: Stack<Slot>, value: Option<Value>) -> Result<Stack<Slot>, AllocError>
    ensures { IfOk result (λ s. s ≡ results_of value ++ stack) }
{
    match value {
        Some(value) => with_value(stack, value),
        None => Ok(stack),
    }
}

// The frame below goes on at this offset, with the result.
fn goes_back(
    resolved: &Resolved<'_>,
    world: World,
    next: u32,
    value: Option<Value>,
) -> Result<State, AllocError>
    requires { caller_in resolved.now world.below ≡ Waits next }
    ensures { IfOk result (λ s. s ≡ state_returned resolved.now world (results_of value)) }
{
    let _resolved = resolved;
    let World {
        heap,
        statics,
        marks,
        below,
        launched,
    } = world;
    let mut rest = below;
    match rest.pop() {
        Some(
            Frame::Code {
                method,
                locals,
                stack,
                ..
            },
        ) => {
            let stack = with_result(stack, value)?;
            let world = World {
                heap,
                statics,
                marks,
                below: rest,
                launched,
            };
            with_frame(
                world,
                Frame::Code {
                    method,
                    offset: next,
                    locals,
                    stack,
                },
            )
        }
        _ => unreachable!(),
    }
}

// The frame goes, and the one below goes on with the result.
pub(crate) fn returns(
    resolved: &Resolved<'_>,
    world: World,
    frame: Running,
    value: Option<Value>,
) -> Result<State, AllocError>
    ensures { IfOk result (λ s. s ≡ state_after resolved.now world frame (Returns (results_of value))) }
{
    match caller_in(resolved, &world.below) {
        Caller::Absent => Ok(without_frame(world)),
        Caller::Stuck => ended(world, frame),
        Caller::Waits(next) => goes_back(resolved, world, next, value),
    }
}

// A state that is taken apart: its parts without the code frame on top, and that frame.
ghost use Rattle.std.specs.Prelude.{◌≡◌, ◌∷◌, IfOk};
ghost use Rattle.th_syntax.specs.Machine.{ended_state};
ghost use Rattle.th_machine.specs.Standing.{state_with, whole};

use std::alloc::AllocError;
use th_base::{MethodId, Seq, Stack};
use th_syntax::{Frame, Launched, Mark, Object, Slot, State, Value};

// A state that isn't ended, without the frame on top.
#[derive(Debug, Drop)]
pub(crate) struct World {
    pub(crate) heap: Seq<Object>,
    pub(crate) statics: Seq<Value>,
    pub(crate) marks: Seq<Mark>,
    pub(crate) below: Stack<Frame>,
    pub(crate) launched: Seq<Launched>,
}

// The code frame on top.
#[derive(Debug, Drop)]
pub(crate) struct Running {
    pub(crate) method: MethodId,
    pub(crate) offset: u32,
    pub(crate) locals: Seq<Slot>,
    pub(crate) stack: Stack<Slot>,
}

// The state without the frame on top.
pub(crate) fn without_frame(world: World) -> State
    ensures { result ≡ state_with world world.below }
{
    let World {
        heap,
        statics,
        marks,
        below,
        launched,
    } = world;
    State {
        heap,
        statics,
        marks,
        frames: below,
        launched,
        ended: false,
    }
}

// The state with this frame on top.
pub(crate) fn with_frame(world: World, frame: Frame) -> Result<State, AllocError>
    ensures { IfOk result (λ s. s ≡ state_with world (frame ∷ world.below)) }
{
    let mut state = without_frame(world);
    state.frames.push(frame)?;
    Ok(state)
}

// The state in which the run has ended here.
pub(crate) fn ended(world: World, frame: Running) -> Result<State, AllocError>
    ensures { IfOk result (λ s. s ≡ ended_state (whole world frame)) }
{
    let frame = Frame::Code {
        method: frame.method,
        offset: frame.offset,
        locals: frame.locals,
        stack: frame.stack,
    };
    let mut state = with_frame(world, frame)?;
    state.ended = true;
    Ok(state)
}

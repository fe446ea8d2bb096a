// The state after an act.
ghost use Rattle.std.specs.Prelude.{◌≡◌, length, IfOk};
ghost use Rattle.th_acts.specs.Acts.{means};
ghost use Rattle.th_syntax.specs.Program.{fields_of, next_offset};
ghost use Rattle.th_machine.specs.Standing.{state_after, top_in};

use crate::calling::calls;
use crate::going::{drops, gives, jumps, moves, sets_static, stores};
use crate::objects::{makes, new_array, new_object};
use crate::opening::opens;
use crate::returning::returns;
use crate::standing::{Running, World, ended};
use crate::writing::{sets_element, sets_field};
use std::alloc::{AllocError, Global};
use th_acts::Act;
use th_resolved::Resolved;
use th_syntax::State;

// The state after an act of the frame on top.
pub(crate) fn acts(
    alloc: Global,
    resolved: &Resolved<'_>,
    world: World,
    frame: Running,
    next: Option<u32>,
    act: Act<'_>,
) -> Result<State, AllocError>
    requires next { next ≡ next_offset resolved.now frame.method.0 frame.offset }
    requires statics { length world.statics ≡ length (fields_of resolved.now) }
    ensures { IfOk result (λ s. s ≡ state_after resolved.now world frame (means resolved.now (top_in world frame) act.entry)) }
{
    let program = resolved.program();
    match act {
        Act::Ends => ended(world, frame),
        Act::Gives { taken, value } => gives(program, world, frame, next, taken, value),
        Act::Drops { taken } => drops(program, world, frame, next, taken),
        Act::Stores {
            local,
            taken,
            value,
        } => stores(program, world, frame, next, local, taken, value),
        Act::Moves(op) => moves(program, world, frame, next, op),
        Act::Jumps { target, taken } => jumps(program, world, frame, target, taken),
        Act::Returns(value) => returns(resolved, world, frame, value),
        Act::SetsStatic {
            field,
            taken,
            value,
        } => sets_static(program, world, frame, next, field, taken, value),
        Act::SetsField {
            object,
            field,
            taken,
            value,
        } => sets_field(program, world, frame, next, object, field, taken, value),
        Act::SetsElement {
            array,
            index,
            taken,
            value,
        } => sets_element(program, world, frame, next, array, index, taken, value),
        Act::MakesObject(class) => {
            let object = new_object(alloc, program, class)?;
            makes(program, world, frame, next, object, 0)
        }
        Act::MakesArray {
            descriptor,
            fill,
            length,
            taken,
        } => {
            let array = new_array(alloc, descriptor, fill, length)?;
            makes(program, world, frame, next, array, taken)
        }
        Act::Opens(class) => opens(resolved, world, frame, class),
        Act::Calls {
            method,
            slots,
            size,
        } => calls(alloc, program, world, frame, method, slots, size),
    }
}

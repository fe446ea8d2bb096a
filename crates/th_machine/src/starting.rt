// Steps of initialisations (Java specification 5.5) and of launches.
ghost use Rattle.std.specs.Prelude.{◌≡◌, ◌∷◌, length, IfOk};
ghost use Rattle.std.specs.Option.{option_map};
ghost use Rattle.th_syntax.specs.declared.machine.Frame.TheVariants.{Init as InitFrame};
ghost use Rattle.th_syntax.specs.declared.machine.InitStage.TheVariants.{OpenSuperclass, CallInitialiser};
ghost use Rattle.th_syntax.specs.declared.machine.LaunchStage.TheVariants.{MakeObject};
ghost use Rattle.th_syntax.specs.Program.{fields_of};
ghost use Rattle.th_syntax.specs.Step.{frame_named, step_init};
ghost use Rattle.th_machine.specs.Standing.{state_with};
ghost use Rattle.th_machine.specs.Starting.{constructor_frame, launch_stepped, launched_state, method_named};

use crate::calling::new_frame;
use crate::objects::{new_object, superclass};
use crate::opening::opened_where;
use crate::slots::with_item;
use crate::standing::{World, with_frame, without_frame};
use std::alloc::{AllocError, Global};
use th_base::{CONSTRUCTOR, ClassId, MethodId, TAKES_NOTHING};
use th_resolved::Resolved;
use th_syntax::{Frame, InitStage, LaunchStage, Launched, Mark, Object, Slot, State, Value};

// The name of class initialisation methods (Java specification 2.9).
pub(crate) const CLASS_INITIALISER: &str = "<clinit>";

// The method without parameters of a name that a class declares.
pub(crate) fn method_named(resolved: &Resolved<'_>, class: ClassId, name: &[u8]) -> Option<MethodId>
    ensures { option_map (λ m. m.0) result ≡ method_named resolved.now name.now class.0 }
{
    let hierarchy = resolved.program().hierarchy();
    if class.0 as usize >= hierarchy.classes().len() {
        return None;
    }
    match hierarchy.declared_method(class, name, TAKES_NOTHING.as_bytes()) {
        Some(method) => Some(method.id),
        None => None,
    }
}

// A new frame of the method without parameters of a name that a class declares, where it has code.
fn frame_named(
    alloc: Global,
    resolved: &Resolved<'_>,
    class: ClassId,
    name: &[u8],
    arguments: Vec<Slot>,
) -> Result<Option<Frame>, AllocError>
    ensures { IfOk result (λ f. f ≡ frame_named resolved.now class.0 name.now arguments.items) }
{
    match method_named(resolved, class, name) {
        Some(method) => new_frame(alloc, resolved, method, arguments),
        None => Ok(None),
    }
}

// A step of the initialisation of a class.
pub(crate) fn init_step(
    alloc: Global,
    resolved: &Resolved<'_>,
    world: World,
    class: ClassId,
    stage: InitStage,
) -> Result<State, AllocError>
    requires { length world.statics ≡ length (fields_of resolved.now) }
    ensures { IfOk result (λ s. s ≡ step_init resolved.now (state_with world (InitFrame class stage ∷ world.below)) class.0 world.below stage) }
{
    match stage {
        InitStage::OpenSuperclass => opens_superclass(resolved, world, class),
        InitStage::CallInitialiser => calls_initialiser(alloc, resolved, world, class),
        InitStage::EndInit => {
            let marks = with_item(world.marks, class.0 as usize, Mark::Done);
            Ok(without_frame(World { marks, ..world }))
        }
    }
}

// The initialisation of a class opens its superclass, where it has one.
fn opens_superclass(
    resolved: &Resolved<'_>,
    world: World,
    class: ClassId,
) -> Result<State, AllocError>
    requires { length world.statics ≡ length (fields_of resolved.now) }
    ensures { IfOk result (λ s. s ≡ step_init resolved.now (state_with world (InitFrame class OpenSuperclass ∷ world.below)) class.0 world.below OpenSuperclass) }
{
    let above = superclass(resolved.program().hierarchy().classes(), class.0);
    let state = with_frame(
        world,
        Frame::Init {
            class,
            stage: InitStage::CallInitialiser,
        },
    )?;
    match above {
        Some(above) => opened_where(resolved, state, ClassId(above)),
        None => Ok(state),
    }
}

// The initialisation of a class calls its initialiser, where it declares one.
fn calls_initialiser(
    alloc: Global,
    resolved: &Resolved<'_>,
    world: World,
    class: ClassId,
) -> Result<State, AllocError>
    ensures { IfOk result (λ s. s ≡ step_init resolved.now (state_with world (InitFrame class CallInitialiser ∷ world.below)) class.0 world.below CallInitialiser) }
{
    let name = CLASS_INITIALISER.as_bytes();
    let frame = frame_named(alloc, resolved, class, name, Vec::new(alloc))?;
    let mut state = with_frame(
        world,
        Frame::Init {
            class,
            stage: InitStage::EndInit,
        },
    )?;
    match frame {
        Some(frame) => {
            state.frames.push(frame)?;
            Ok(state)
        }
        None => Ok(state),
    }
}

// A step of a launch of a class; where it has none, the run ends.
pub(crate) fn launch_step(
    alloc: Global,
    resolved: &Resolved<'_>,
    world: World,
    class: ClassId,
    stage: LaunchStage,
) -> Result<State, AllocError>
    requires { length world.statics ≡ length (fields_of resolved.now) }
    ensures { IfOk result (λ s. s ≡ launch_stepped resolved.now world class stage) }
{
    match stage {
        LaunchStage::OpenClass => {
            let state = with_frame(
                world,
                Frame::Launch {
                    class,
                    stage: LaunchStage::MakeObject,
                },
            )?;
            opened_where(resolved, state, class)
        }
        LaunchStage::MakeObject => makes_launched(alloc, resolved, world, class),
        LaunchStage::EndLaunch(object) => {
            let mut world = world;
            world.launched.push(Launched { object, stage: 0 })?;
            Ok(without_frame(world))
        }
    }
}

// A frame of a class's constructor on the object at an address, where it declares one with code.
fn constructor_frame(
    alloc: Global,
    resolved: &Resolved<'_>,
    class: ClassId,
    address: u32,
) -> Result<Option<Frame>, AllocError>
    ensures { IfOk result (λ f. f ≡ constructor_frame resolved.now class.0 address) }
{
    let mut arguments = Vec::new(alloc);
    arguments.push(Slot::Holds(Value::Address(address)))?;
    frame_named(alloc, resolved, class, CONSTRUCTOR.as_bytes(), arguments)
}

// The launch waits with its object, on which the constructor's frame stands.
fn launched(
    world: World,
    class: ClassId,
    address: u32,
    object: Object,
    frame: Frame,
) -> Result<State, AllocError>
    ensures { IfOk result (λ s. s ≡ launched_state world class address object frame) }
{
    let waiting = Frame::Launch {
        class,
        stage: LaunchStage::EndLaunch(address),
    };
    let mut state = with_frame(world, waiting)?;
    state.heap.push(object)?;
    state.frames.push(frame)?;
    Ok(state)
}

// A launch makes its object and calls the constructor; where there is none, the run ends.
fn makes_launched(
    alloc: Global,
    resolved: &Resolved<'_>,
    world: World,
    class: ClassId,
) -> Result<State, AllocError>
    ensures { IfOk result (λ s. s ≡ launch_stepped resolved.now world class MakeObject) }
{
    let place = world.heap.len();
    if place >= u32::MAX as usize {
        return Err(AllocError);
    }
    let address = place as u32;
    match constructor_frame(alloc, resolved, class, address)? {
        Some(frame) => {
            let object = new_object(alloc, resolved.program(), class)?;
            launched(world, class, address, object, frame)
        }
        None => {
            let mut state = with_frame(
                world,
                Frame::Launch {
                    class,
                    stage: LaunchStage::MakeObject,
                },
            )?;
            state.ended = true;
            Ok(state)
        }
    }
}

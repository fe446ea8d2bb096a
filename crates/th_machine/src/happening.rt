// Events of the harness: launches, and calls of handlers on launched objects.
ghost use Rattle.std.specs.Str.{bytes_eq};
ghost use Rattle.std.specs.Prelude.{◌≡◌, ◌+◌, ◌∷◌, ◌++◌, ◌&&◌, [], slice_get, sum_by, Some, false, IfOk, if◌then◌else◌};
ghost use Rattle.std.specs.Option.{option_and_then, option_map, option_or};
ghost use Rattle.th_base.specs.Handlers.{handlers};
ghost use Rattle.th_base.specs.Hierarchy.{selected_method};
ghost use Rattle.th_base.specs.Launchable.{is_launchable as is_launchable_in};
ghost use Rattle.th_base.specs.declared.lifecycle.Lifecycle.TheVariants.{Chart};
ghost use Rattle.th_syntax.specs.declared.machine.Frame.TheVariants.{Launch as LaunchFrame};
ghost use Rattle.th_syntax.specs.declared.machine.LaunchStage.TheVariants.{OpenClass};
ghost use Rattle.th_syntax.specs.declared.machine.Slot.TheVariants.{Holds};
ghost use Rattle.th_syntax.specs.declared.machine.Value.TheVariants.{Address, Null as NullValue};
ghost use Rattle.th_syntax.specs.Harness.{event, handled, handler_method};
ghost use Rattle.th_syntax.specs.Held.{frame_size, object_size, values_held};
ghost use Rattle.th_syntax.specs.Machine.{class_of, ended_state, with_frames};
ghost use Rattle.th_syntax.specs.Program.{hierarchy_of, is_launchable};
ghost use Rattle.th_machine.specs.Happening.{IsLed, begun, bundles, call_of, launch_of, stage_led, stage_where};
ghost use Rattle.th_machine.specs.Holding.{code_size};
ghost use Rattle.th_machine.specs.declared.happening.Came.TheVariants.{Made, Nothing};

use crate::calling::new_frame;
use crate::held::{code_size, is_past_limit, sum, with_new_object};
use crate::objects::new_object;
use crate::slots::with_item;
use std::alloc::{AllocError, Global};
use th_base::{
    BUNDLE_NUMBER, ClassId, HANDLERS, Hierarchy, Lifecycle, MethodId, Seq, TAKES_BUNDLE, Text,
};
use th_harness::is_launchable;
use th_resolved::Resolved;
use th_syntax::{Event, Frame, LaunchStage, Launched, Object, Slot, State, Value};

// What came of an event.
#[derive(Clone, Copy, Debug, PartialEq, Eq)]
pub(crate) enum Came {
    // It can't happen. Nothing is changed.
    Nothing,
    // The state after it would hold too much. Nothing is changed.
    Full,
    // It happened.
    Made,
}

// What came of an event, and the state then with how much it holds.
#[derive(Debug, Drop)]
pub(crate) struct Happening {
    pub(crate) state: State,
    pub(crate) held: u64,
    pub(crate) came: Came,
}

// ---- stages

// Where the stage is this one, another.
fn stage_where(before: u8, after: u8, stage: u8) -> Option<u8>
    ensures { result ≡ stage_where before after stage }
{
    if before == stage { Some(after) } else { None }
}

// The stage after one of two rows of the chart.
fn stage_of_two(first: Option<u8>, second: Option<u8>) -> Option<u8>
    ensures { result ≡ option_or first second }
{
    match first {
        Some(stage) => Some(stage),
        None => second,
    }
}

// The stage after a handler, by its place, that the chart allows at a stage.
fn charted(handler: u8, stage: u8) -> Option<u8>
    ensures { result ≡ stage_led Chart handler stage }
{
    match handler {
        0 => stage_where(0, 1, stage),
        1 => stage_of_two(stage_where(1, 2, stage), stage_where(6, 2, stage)),
        2 => stage_where(5, 6, stage),
        3 => stage_of_two(stage_where(2, 3, stage), stage_where(4, 3, stage)),
        4 => stage_where(3, 4, stage),
        5 => stage_where(4, 5, stage),
        6 => stage_where(5, 7, stage),
        7 => stage_of_two(stage_where(4, 4, stage), stage_where(5, 5, stage)),
        _ => None,
    }
}

// The stage after a handler, by its place, that the lifecycle allows at a stage.
fn stage_led(lifecycle: Lifecycle, handler: u8, stage: u8) -> Option<u8>
    ensures { result ≡ stage_led lifecycle handler stage }
{
    match lifecycle {
        Lifecycle::Any => {
            if (handler as usize) < HANDLERS.len() {
                Some(stage)
            } else {
                None
            }
        }
        Lifecycle::Chart => charted(handler, stage),
    }
}

// ---- the frame of a handler's method

// The class of an object that is no array.
fn class_at(heap: &Seq<Object>, address: u32) -> Option<ClassId>
    ensures { option_map (λ c. c.0) result ≡ option_and_then class_of (slice_get heap.now address) }
{
    match heap.get(address as usize) {
        Some(Object::Instance { class, .. }) => Some(*class),
        Some(Object::Array { .. }) => None,
        None => None,
    }
}

// The method that a call of this name and descriptor on an object of a class takes; none where there is no such class.
fn selected_in(
    hierarchy: &Hierarchy,
    class: ClassId,
    name: &Text,
    descriptor: &Text,
) -> Option<MethodId>
    ensures { result ≡ selected_method hierarchy.now class.0 name.now descriptor.now }
{
    if class.0 as usize >= hierarchy.classes().len() {
        return None;
    }
    hierarchy.select(class, name, descriptor)
}

// The same, in a program.
fn selected(
    alloc: Global,
    resolved: &Resolved<'_>,
    class: ClassId,
    name: &[u8],
    descriptor: &[u8],
) -> Result<Option<MethodId>, AllocError>
    ensures { IfOk result (λ m. m ≡ selected_method (hierarchy_of resolved.now) class.0 name.now descriptor.now) }
{
    let called = Text::from_slice(alloc, name)?;
    let typed = Text::from_slice(alloc, descriptor)?;
    Ok(selected_in(resolved.program().hierarchy(), class, &called, &typed))
}

// The arguments of a handler's method: the object, and a Bundle if it takes one.
fn handler_arguments(
    alloc: Global,
    object: u32,
    takes_bundle: bool,
    bundle: Value,
) -> Result<Vec<Slot>, AllocError>
    ensures { IfOk result (λ a. a.items ≡ Holds (Address object) ∷ (if takes_bundle then Holds bundle ∷ [] else [])) }
{
    let mut arguments = Vec::new(alloc);
    arguments.push(Slot::Holds(Value::Address(object)))?;
    if takes_bundle {
        arguments.push(Slot::Holds(bundle))?;
        Ok(arguments)
    } else {
        Ok(arguments)
    }
}

// ---- launches and calls

// Nothing happens.
fn nothing(state: State, held: u64) -> Happening
    ensures state { result.state ≡ state }
    ensures held { result.held ≡ held }
    ensures came { result.came ≡ Nothing }
{
    Happening {
        state,
        held,
        came: Came::Nothing,
    }
}

// The state after a launch of a class begins.
fn launching(state: State, class: ClassId) -> Result<State, AllocError>
    requires { state.frames ≡ [] }
    ensures { IfOk result (λ s. s ≡ with_frames state (LaunchFrame class OpenClass ∷ [])) }
{
    let mut state = state;
    state.frames.push(Frame::Launch {
        class,
        stage: LaunchStage::OpenClass,
    })?;
    Ok(state)
}

// Whether the harness launches objects of a class; not where there is no such class.
fn launches_in(hierarchy: &Hierarchy, class: ClassId) -> bool
    ensures { result ≡ is_launchable_in hierarchy.now class.0 }
{
    if class.0 as usize >= hierarchy.classes().len() {
        return false;
    }
    is_launchable(hierarchy, class)
}

// The same, in a program.
fn launches(resolved: &Resolved<'_>, class: ClassId) -> bool
    ensures { result ≡ is_launchable resolved.now class.0 }
{
    launches_in(resolved.program().hierarchy(), class)
}

// A launch of a class, if it is launchable.
fn launch(
    resolved: &Resolved<'_>,
    state: State,
    class: ClassId,
    held: u64,
) -> Result<Happening, AllocError>
    requires idle { state.frames ≡ [] }
    requires held { held ≡ values_held resolved.now state }
    ensures { IfOk result (IsLed resolved.now state (launch_of resolved.now state class)) }
{
    if launches(resolved, class) {
        let begun = launching(state, class)?;
        Ok(Happening {
            state: begun,
            held,
            came: Came::Made,
        })
    } else {
        Ok(nothing(state, held))
    }
}

// The objects, and behind them a new Bundle where one is made.
fn with_bundle(
    alloc: Global,
    resolved: &Resolved<'_>,
    heap: Seq<Object>,
    makes_bundle: bool,
) -> Result<Seq<Object>, AllocError>
    ensures { IfOk result (λ h. h ≡ heap ++ bundles resolved.now makes_bundle) }
{
    if makes_bundle {
        let bundle = new_object(alloc, resolved.program(), ClassId(BUNDLE_NUMBER))?;
        let mut longer = heap;
        longer.push(bundle)?;
        Ok(longer)
    } else {
        Ok(heap)
    }
}

// A handler's method begins on a launched object, which then has this stage.
fn begins(
    alloc: Global,
    resolved: &Resolved<'_>,
    state: State,
    place: usize,
    launched: Launched,
    makes_bundle: bool,
    frame: Frame,
) -> Result<State, AllocError>
    requires { state.frames ≡ [] }
    ensures { IfOk result (λ s. s ≡ begun resolved.now state place launched makes_bundle frame) }
{
    let mut state = state;
    state.frames.push(frame)?;
    let heap = with_bundle(alloc, resolved, state.heap, makes_bundle)?;
    let launched = with_item(state.launched, place, launched);
    Ok(State {
        heap,
        launched,
        ..state
    })
}

// How much is held with a new Bundle, where one is made.
fn held_with_bundle(
    alloc: Global,
    resolved: &Resolved<'_>,
    makes_bundle: bool,
    held: u64,
) -> Result<u64, AllocError>
    ensures { IfOk result (λ n. n ≡ held + sum_by object_size (bundles resolved.now makes_bundle)) }
{
    if makes_bundle {
        with_new_object(alloc, resolved, ClassId(BUNDLE_NUMBER), held)
    } else {
        Ok(held)
    }
}

// A handler's method begins, where there is room.
fn begins_where(
    alloc: Global,
    resolved: &Resolved<'_>,
    state: State,
    place: usize,
    launched: Launched,
    makes_bundle: bool,
    method: MethodId,
    frame: Frame,
    held: u64,
) -> Result<Happening, AllocError>
    requires idle { state.frames ≡ [] }
    requires held { held ≡ values_held resolved.now state }
    requires size { frame_size resolved.now frame ≡ code_size resolved.now method.0 }
    ensures { IfOk result (IsLed resolved.now state (Some (begun resolved.now state place launched makes_bundle frame))) }
{
    let with_bundle = held_with_bundle(alloc, resolved, makes_bundle, held)?;
    let after = sum(with_bundle, code_size(resolved, method))?;
    if is_past_limit(held, after) {
        return Ok(Happening {
            state,
            held,
            came: Came::Full,
        });
    }
    let next = begins(alloc, resolved, state, place, launched, makes_bundle, frame)?;
    Ok(Happening {
        state: next,
        held: after,
        came: Came::Made,
    })
}

// The run ends.
fn stops(state: State, held: u64) -> Happening
    ensures state { result.state ≡ ended_state state }
    ensures held { result.held ≡ held }
    ensures came { result.came ≡ Made }
{
    let mut state = state;
    state.ended = true;
    Happening {
        state,
        held,
        came: Came::Made,
    }
}

// The Bundle that a handler is given: a fresh one, which stands at this address, or null.
fn bundle_value(fresh: bool, address: u32) -> Value
    ensures { result ≡ (if fresh then Address address else NullValue) }
{
    if fresh {
        Value::Address(address)
    } else {
        Value::Null
    }
}

// Whether a handler of this descriptor takes a Bundle.
fn takes_bundle(descriptor: &[u8]) -> bool
    ensures { result ≡ bytes_eq descriptor.now TAKES_BUNDLE.now }
{
    descriptor == TAKES_BUNDLE.as_bytes()
}

// Whether a call makes a Bundle: a fresh one for a handler that takes one.
fn makes_bundle(takes: bool, fresh: bool) -> bool
    ensures { result ≡ (takes && fresh) }
{
    takes && fresh
}

// The method that a handler selects on the object at an address.
fn handler_method(
    alloc: Global,
    resolved: &Resolved<'_>,
    heap: &Seq<Object>,
    object: u32,
    name: &[u8],
    descriptor: &[u8],
) -> Result<Option<MethodId>, AllocError>
    ensures { IfOk result (λ m. option_map (λ id. id.0) m ≡ handler_method resolved.now heap.now object record { name = name.now; descriptor = descriptor.now }) }
{
    match class_at(heap, object) {
        Some(class) => selected(alloc, resolved, class, name, descriptor),
        None => Ok(None),
    }
}

// A call of a handler on the launched object at a place, which then has this stage.
fn call(
    alloc: Global,
    resolved: &Resolved<'_>,
    state: State,
    place: usize,
    launched: Launched,
    name: &[u8],
    descriptor: &[u8],
    fresh: bool,
    stage: u8,
    held: u64,
) -> Result<Happening, AllocError>
    requires idle { state.frames ≡ [] }
    requires held { held ≡ values_held resolved.now state }
    ensures { IfOk result (IsLed resolved.now state (Some (handled resolved.now state place launched record { name = name.now; descriptor = descriptor.now } fresh stage))) }
{
    let address = state.heap.len();
    if address >= u32::MAX as usize {
        return Err(AllocError);
    }
    let takes = takes_bundle(descriptor);
    let makes = makes_bundle(takes, fresh);
    let bundle = bundle_value(fresh, address as u32);
    let object = launched.object;
    match handler_method(alloc, resolved, &state.heap, object, name, descriptor)? {
        Some(method) => {
            let arguments = handler_arguments(alloc, object, takes, bundle)?;
            match new_frame(alloc, resolved, method, arguments)? {
                Some(frame) => begins_where(
                    alloc,
                    resolved,
                    state,
                    place,
                    Launched { object, stage },
                    makes,
                    method,
                    frame,
                    held,
                ),
                None => Ok(stops(state, held)),
            }
        }
        None => Ok(stops(state, held)),
    }
}

// The launched object at a place.
fn launched_at(launched: &Seq<Launched>, place: usize) -> Option<Launched>
    ensures { result ≡ slice_get launched.now place }
{
    match launched.get(place) {
        Some(found) => Some(*found),
        None => None,
    }
}

// A handler by its place: its name and descriptor.
fn handler_at(handler: u8) -> Option<(&'static str, &'static str)>
    ensures { option_map (λ h. record { name = h.0.now; descriptor = h.1.now }) result ≡ slice_get handlers handler }
{
    if (handler as usize) < HANDLERS.len() {
        Some(HANDLERS[handler as usize])
    } else {
        None
    }
}

// A call of a handler, by its place, on a launched object that is counted from 1.
fn call_on(
    alloc: Global,
    resolved: &Resolved<'_>,
    lifecycle: Lifecycle,
    state: State,
    object: u32,
    handler: u8,
    fresh: bool,
    held: u64,
) -> Result<Happening, AllocError>
    requires idle { state.frames ≡ [] }
    requires held { held ≡ values_held resolved.now state }
    ensures { IfOk result (IsLed resolved.now state (call_of lifecycle resolved.now state object handler fresh)) }
{
    if object == 0 {
        return Ok(nothing(state, held));
    }
    let place = object as usize - 1;
    match launched_at(&state.launched, place) {
        Some(launched) => match handler_at(handler) {
            Some((name, descriptor)) => match stage_led(lifecycle, handler, launched.stage) {
                Some(stage) => call(
                    alloc,
                    resolved,
                    state,
                    place,
                    launched,
                    name.as_bytes(),
                    descriptor.as_bytes(),
                    fresh,
                    stage,
                    held,
                ),
                None => Ok(nothing(state, held)),
            },
            None => Ok(nothing(state, held)),
        },
        None => Ok(nothing(state, held)),
    }
}

// What comes of an event in a state without frames that isn't ended.
pub(crate) fn happen(
    alloc: Global,
    resolved: &Resolved<'_>,
    lifecycle: Lifecycle,
    state: State,
    asked: Event,
    held: u64,
) -> Result<Happening, AllocError>
    requires runs { state.ended ≡ false }
    requires idle { state.frames ≡ [] }
    requires held { held ≡ values_held resolved.now state }
    ensures { IfOk result (IsLed resolved.now state (event lifecycle resolved.now state asked)) }
{
    match asked {
        Event::Launch(class) => launch(resolved, state, class, held),
        Event::Handler {
            object,
            handler,
            bundle,
        } => call_on(
            alloc, resolved, lifecycle, state, object, handler, bundle, held,
        ),
    }
}

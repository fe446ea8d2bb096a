// Scripts of events.
ghost use Rattle.std.specs.Prelude.{◌≡◌, ◌<◌, ◌^◌, length, map, option_map, IfOk};
ghost use Rattle.th_harness.specs.Script.{form_of, first_bad_line, script_of, events_of, orders_of, lines_of, event_of, launched_class, Answers};
ghost use Rattle.th_base.specs.Handlers.{handlers};
ghost use Rattle.th_harness.specs.Asked.{asked};

use crate::ScriptError;
use crate::launches::is_launchable;
use crate::line::{Order, is_bad_line, read_order};
use crate::named::class_named;
use std::alloc::{AllocError, Global};
use th_base::{ClassId, Fail, HANDLERS, Seq};
use th_syntax::{Event, Program};

/// The handlers in order, each by the name and the descriptor of the method that it selects.
pub fn handlers() -> [(&'static str, &'static str); 8]
    ensures names { map (λ h. h.0.now) result ≡ map (λ h. h.name) handlers }
    ensures descriptors { map (λ h. h.1.now) result ≡ map (λ h. h.descriptor) handlers }
{
    HANDLERS
}

/// Whether each line of a script has the form of a line; else the number of the first that hasn't,
/// from 1. Lines end with a line feed, which the last may lack. Empty lines count, and are fine. Takes
/// no memory.
pub fn check_form(bytes: &[u8]) -> Result<(), u32>
    requires { length bytes.now < 2 ^ 32 }
    ensures { result ≡ form_of (first_bad_line bytes.now) }
{
    match first_bad_line(bytes) {
        None => Ok(()),
        Some(place) => Err(place as u32 + 1),
    }
}

// The place of the first bad line.
fn first_bad_line(bytes: &[u8]) -> Option<usize>
    ensures { result ≡ first_bad_line bytes.now }
{
    bytes
        .split(|byte| *byte == b'\n')
        .position(|line| is_bad_line(line))
}

/// The events of a script, in order: `launch CLASS`, `event K HANDLER` or `event K HANDLER bundle`,
/// one a line, its words parted by one space. K is one to five decimal digits and counts launched
/// objects from 1; `bundle` stands only after a handler that takes one. Refused are the first line that
/// has no such form, whatever it is; where there is none, the first launch of a class that isn't
/// launchable.
pub fn read_script(
    alloc: Global,
    bytes: &[u8],
    program: &Program,
) -> Result<Seq<Event>, Fail<ScriptError>>
    requires { length bytes.now < 2 ^ 32 }
    ensures { Answers result (script_of program.now bytes.now) }
{
    if let Err(line) = check_form(bytes) {
        return Err(Fail::Refused(ScriptError::Line(line)));
    }
    let orders = read_orders(alloc, bytes)?;
    read_events(alloc, orders.as_slice(), program)
}

// The lines of a script.
fn lines_of(alloc: Global, bytes: &[u8]) -> Result<Vec<&[u8]>, AllocError>
    ensures { IfOk result (λ lines. map (λ line. line.now) lines.items ≡ lines_of bytes.now) }
{
    bytes.split(|byte| *byte == b'\n').collect(alloc)
}

// What a script asks for, line by line.
fn read_orders(alloc: Global, bytes: &[u8]) -> Result<Vec<Order<'_>>, AllocError>
    ensures { IfOk result (λ orders. map asked orders.items ≡ orders_of bytes.now) }
{
    let lines = lines_of(alloc, bytes)?;
    let mut orders = Vec::new(alloc);
    for line in lines.as_slice() {
        match read_order(line) {
            Some(order) => orders.push(order)?,
            None => {}
        }
    }
    Ok(orders)
}

// The events that are asked for, or the first order that names none.
fn read_events(
    alloc: Global,
    orders: &[Order<'_>],
    program: &Program,
) -> Result<Seq<Event>, Fail<ScriptError>>
    requires { length orders.now < 2 ^ 32 }
    ensures { Answers result (events_of program.now (map asked orders.now)) }
{
    let mut events = Seq::new(alloc);
    for (place, order) in orders.iter().enumerate() {
        match event_of(program, order) {
            Some(event) => events.push(event)?,
            None => return Err(Fail::Refused(ScriptError::Event(place as u32 + 1))),
        }
    }
    Ok(events)
}

// The event that is asked for; none for a launch of a class that isn't launchable.
fn event_of(program: &Program, order: &Order<'_>) -> Option<Event>
    ensures { result ≡ event_of program.now (asked order.now) }
{
    match order {
        Order::Launch(name) => match launched_class(program, name) {
            Some(class) => Some(Event::Launch(class)),
            None => None,
        },
        Order::Call(event) => Some(*event),
    }
}

// The class of a name, where the harness launches its objects.
fn launched_class(program: &Program, name: &[u8]) -> Option<ClassId>
    ensures { option_map (λ c. c.0) result ≡ launched_class program.now name.now }
{
    match class_named(program, name) {
        Some(class) => {
            if is_launchable(program.hierarchy(), class) {
                Some(class)
            } else {
                None
            }
        }
        None => None,
    }
}

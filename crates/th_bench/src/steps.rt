// Steps of the machine that runs a program.
use std::alloc::{AllocError, Global};
use th_base::{ClassId, Lifecycle, Text};
use th_linker::{can_link, link};
use th_machine::Machine;
use th_reader::read_class;
use th_syntax::{ClassFile, Event, Program};

// A class Act, an Activity with an int n, whose onCreate goes on for ever: it stores n into an array of
// 16 ints, one place further each time, and calls the method add, which adds a number to n: 19 steps.
const LOOP: &[u8] =
    b"\xca\xfe\xba\xbe\0\0\04\0\x14\x01\0\x03Act\x07\0\x01\x01\0\x14android/app/Activity\x07\0\x03\x01\0\x01n\x01\0\x01I\x01\0\x06<init>\x01\0\x03()V\x0c\0\x07\0\x08\x0a\0\x04\0\x09\x01\0\x04Code\x01\0\x03add\x01\0\x04(I)V\x0c\0\x05\0\x06\x09\0\x02\0\x0e\x01\0\x08onCreate\x01\0\x16(Landroid/os/Bundle;)V\x0c\0\x0c\0\x0d\x0a\0\x02\0\x12\0!\0\x02\0\x04\0\0\0\x01\0\x01\0\x05\0\x06\0\0\0\x03\0\x01\0\x07\0\x08\0\x01\0\x0b\0\0\0\x11\0\x02\0\x01\0\0\0\x05*\xb7\0\x0a\xb1\0\0\0\0\0\x01\0\x0c\0\x0d\0\x01\0\x0b\0\0\0\x17\0\x03\0\x02\0\0\0\x0b**\xb4\0\x0f\x1b`\xb5\0\x0f\xb1\0\0\0\0\0\x01\0\x10\0\x11\0\x01\0\x0b\0\0\0(\0\x04\0\x04\0\0\0\x1c\x10\x10\xbc\x0aM\x03>,\x1d\x10\x0f~*\xb4\0\x0fO*\x1d\xb6\0\x13\x84\x03\x01\xa7\xff\xee\0\0\0\0\0\0";

// The place of onCreate among the handlers.
const ON_CREATE: u8 = 0;

// The number of the first class of a file.
const FIRST_CLASS: u32 = 11;

fn loop_class(alloc: Global) -> Result<Vec<ClassFile>, AllocError> {
    let mut classes = Vec::new(alloc);
    if let Ok(class) = read_class(alloc, &Text::new(alloc)?, LOOP) {
        classes.push(class)?;
    }
    Ok(classes)
}

// What fuel an event in a machine leaves, and the machine then; all of it where nothing can be made.
fn after<'a>(
    machine: Machine<'a>,
    event: Event,
    fuel: u64,
) -> Result<(Machine<'a>, u64), AllocError> {
    if machine.state().ended || !machine.state().frames.is_empty() {
        return Ok((machine, fuel));
    }
    let answered = machine.event(event, fuel)?;
    Ok((answered.machine, answered.fuel))
}

// How many steps of the loop are made with so much fuel.
fn made(alloc: Global, program: &Program, fuel: u64) -> Result<u64, AllocError> {
    let machine = Machine::start(alloc, program, Lifecycle::Any)?;
    let launch = Event::Launch(ClassId(FIRST_CLASS));
    let (launched, rest) = after(machine, launch, fuel)?;
    let call = Event::Handler {
        object: 1,
        handler: ON_CREATE,
        bundle: false,
    };
    let (_, left) = after(launched, call, rest)?;
    Ok(fuel.saturating_sub(left))
}

// So many thousand steps of the loop; how many were made.
pub(crate) fn steps(alloc: Global, thousands: u32) -> Result<u64, AllocError> {
    let classes = loop_class(alloc)?;
    if !can_link(classes.as_slice()) {
        return Ok(0);
    }
    match link(alloc, classes) {
        Ok(program) => made(alloc, &program, u64::from(thousands) * 1000),
        Err(_) => Ok(0),
    }
}

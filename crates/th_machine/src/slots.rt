// Changes of locals and of operand stacks (Java specification 2.6.1, 2.6.2).
ghost use Rattle.std.specs.Prelude.{◌≡◌, drop, slice_set, IfOk};
ghost use Rattle.th_syntax.specs.Slots.{pushed, stored};

use std::alloc::AllocError;
use th_base::{Seq, Stack};
use th_syntax::{Slot, Value};

// A stack without so many slots on top.
pub(crate) fn without_slots(stack: Stack<Slot>, taken: usize) -> Stack<Slot>
    ensures { result ≡ drop taken stack }
{
    let mut rest = stack;
    for _ in 0..taken {
        rest.pop();
    }
    rest
}

// A stack with a value on top: a long takes two slots.
pub(crate) fn with_value(stack: Stack<Slot>, value: Value) -> Result<Stack<Slot>, AllocError>
    ensures { IfOk result (λ s. s ≡ pushed value stack) }
{
    let mut longer = stack;
    longer.push(Slot::Holds(value))?;
    match value {
        Value::Long(_) => {
            longer.push(Slot::SecondHalf)?;
            Ok(longer)
        }
        Value::Int(_) | Value::Null | Value::Address(_) => Ok(longer),
    }
}

// Items with another one at a place, where there is this place.
pub(crate) fn with_item<T: Drop>(items: Seq<T>, at: usize, item: T) -> Seq<T>
    ensures { result ≡ slice_set items at item }
{
    let mut changed = items;
    if at < changed.len() {
        changed.set(at, item);
        changed
    } else {
        changed
    }
}

// Locals with a value stored: a long takes the next place too.
pub(crate) fn with_stored(locals: Seq<Slot>, at: u16, value: Value) -> Seq<Slot>
    ensures { result ≡ stored locals at value }
{
    let changed = with_item(locals, at as usize, Slot::Holds(value));
    match value {
        Value::Long(_) => with_item(changed, at as usize + 1, Slot::SecondHalf),
        Value::Int(_) | Value::Null | Value::Address(_) => changed,
    }
}

// Values of an operand stack, looked at where they are.
ghost use Rattle.std.specs.Prelude.{◌≡◌, ◌<◌, ◌≤◌, ◌+◌, ◌^◌, drop, length, IfSome, option_map};
ghost use Rattle.th_syntax.specs.Slots.{popped, popped_int, popped_long, popped_reference};
ghost use Rattle.th_acts.specs.Acts.{value_of, int_of, long_of};

use th_base::Stack;
use th_syntax::{Slot, Value};
// A value, and how many slots of the stack it and all above it take.
#[derive(Clone, Copy)]
pub(crate) struct TakenValue {
    pub(crate) value: Value,
    pub(crate) upto: usize,
}

#[derive(Clone, Copy)]
pub(crate) struct TakenInt {
    pub(crate) value: i32,
    pub(crate) upto: usize,
}

#[derive(Clone, Copy)]
pub(crate) struct TakenLong {
    pub(crate) value: i64,
    pub(crate) upto: usize,
}

// The value on top of the stack, where so many slots are gone.
pub(crate) fn value_at(stack: &Stack<Slot>, from: usize) -> Option<TakenValue>
    ensures value { option_map (value_of stack.now) result ≡ popped (drop from stack.now) }
    ensures within { IfSome result (λ p. p.upto ≤ length stack.now) }
{
    if from >= stack.len() {
        return None;
    }
    match stack.get(from) {
        Some(Slot::Holds(value)) => Some(TakenValue {
            value: *value,
            upto: from + 1,
        }),
        Some(Slot::SecondHalf) => match stack.get(from + 1) {
            Some(Slot::Holds(value)) => Some(TakenValue {
                value: *value,
                upto: from + 2,
            }),
            Some(Slot::SecondHalf) => None,
            None => None,
        },
        None => None,
    }
}

// The same of an int.
pub(crate) fn int_at(stack: &Stack<Slot>, from: usize) -> Option<TakenInt>
    ensures value { option_map (int_of stack.now) result ≡ popped_int (drop from stack.now) }
    ensures within { IfSome result (λ p. p.upto ≤ length stack.now) }
{
    let taken = value_at(stack, from)?;
    match taken.value {
        Value::Int(value) => Some(TakenInt {
            value,
            upto: taken.upto,
        }),
        Value::Long(_) | Value::Null | Value::Address(_) => None,
    }
}

// The same of a long.
pub(crate) fn long_at(stack: &Stack<Slot>, from: usize) -> Option<TakenLong>
    ensures value { option_map (long_of stack.now) result ≡ popped_long (drop from stack.now) }
    ensures within { IfSome result (λ p. p.upto ≤ length stack.now) }
{
    let taken = value_at(stack, from)?;
    match taken.value {
        Value::Long(value) => Some(TakenLong {
            value,
            upto: taken.upto,
        }),
        Value::Int(_) | Value::Null | Value::Address(_) => None,
    }
}

// The same of a reference.
pub(crate) fn reference_at(stack: &Stack<Slot>, from: usize) -> Option<TakenValue>
    ensures value { option_map (value_of stack.now) result ≡ popped_reference (drop from stack.now) }
    ensures within { IfSome result (λ p. p.upto ≤ length stack.now) }
{
    let taken = value_at(stack, from)?;
    match taken.value {
        Value::Null | Value::Address(_) => Some(taken),
        Value::Int(_) | Value::Long(_) => None,
    }
}

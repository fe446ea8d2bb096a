// Arithmetic on ints and longs (Java specification 6.5, iadd to lxor, i2l to lcmp).
ghost use Rattle.std.specs.Prelude.{◌≡◌, drop};
ghost use Rattle.std.specs.Option.{option_map};
ghost use Rattle.th_syntax.specs.Computing.{arithmetic, computes_int, computes_long, negates_int, negates_long, narrowed, narrows, widens, halves, compares, second_operand};
ghost use Rattle.th_wrap.specs.Arithmetic.{int_distance, long_distance};
ghost use Rattle.th_acts.specs.Acts.{Does, second_of, second_number};

use crate::act::Act;
use crate::look::Look;
use crate::peek::{int_at, long_at};
use th_base::{ArithOp, NarrowOp, Stack};
use th_syntax::{Slot, Value};
use th_wrap::{
    add32, add64, and32, and64, compare64, div32, div64, low32, mul32, mul64, narrow_char, narrow8,
    narrow16, neg32, neg64, or32, or64, rem32, rem64, shl32, shl64, shr32, shr64, sub32, sub64,
    ushr32, ushr64, widen64, xor32, xor64,
};

// An operation on two ints; none for a divisor 0.
fn arithmetic32(op: ArithOp, a: i32, b: i32) -> Option<i32>
    ensures { result ≡ arithmetic 32 int_distance op a b }
{
    match op {
        ArithOp::Add => Some(add32(a, b)),
        ArithOp::Sub => Some(sub32(a, b)),
        ArithOp::Mul => Some(mul32(a, b)),
        ArithOp::Div => div32(a, b),
        ArithOp::Rem => rem32(a, b),
        ArithOp::Shl => Some(shl32(a, b)),
        ArithOp::Shr => Some(shr32(a, b)),
        ArithOp::Ushr => Some(ushr32(a, b)),
        ArithOp::And => Some(and32(a, b)),
        ArithOp::Or => Some(or32(a, b)),
        ArithOp::Xor => Some(xor32(a, b)),
    }
}

// iadd to ixor.
pub(crate) fn computes_int<'b>(look: Look<'_>, op: ArithOp) -> Act<'b>
    ensures { Does look.entry result (λ t. computes_int t op) }
{
    let Some(b) = int_at(look.stack, 0) else {
        return Act::Ends;
    };
    let Some(a) = int_at(look.stack, b.upto) else {
        return Act::Ends;
    };
    match arithmetic32(op, a.value, b.value) {
        Some(n) => Act::Gives {
            taken: a.upto,
            value: Value::Int(n),
        },
        None => Act::Ends,
    }
}

// The second operand of an operation on longs, of which one part counts: of a shift the int.
#[derive(Clone, Copy)]
pub(crate) struct TakenSecond {
    pub(crate) long: i64,
    pub(crate) int: i32,
    pub(crate) upto: usize,
}

// The second operand of an operation on longs, which is on top.
fn second_operand(op: ArithOp, stack: &Stack<Slot>) -> Option<TakenSecond>
    ensures { option_map (second_of op stack.now) result ≡ second_operand op stack.now }
{
    match op {
        ArithOp::Shl | ArithOp::Shr | ArithOp::Ushr => {
            let taken = int_at(stack, 0)?;
            Some(TakenSecond {
                long: 0,
                int: taken.value,
                upto: taken.upto,
            })
        }
        ArithOp::Add
        | ArithOp::Sub
        | ArithOp::Mul
        | ArithOp::Div
        | ArithOp::Rem
        | ArithOp::And
        | ArithOp::Or
        | ArithOp::Xor => {
            let taken = long_at(stack, 0)?;
            Some(TakenSecond {
                long: taken.value,
                int: 0,
                upto: taken.upto,
            })
        }
    }
}

// An operation on longs; none for a divisor 0.
fn arithmetic64(op: ArithOp, a: i64, b: i64, distance: i32) -> Option<i64>
    ensures { result ≡ arithmetic 64 long_distance op a (second_number op b distance) }
{
    match op {
        ArithOp::Add => Some(add64(a, b)),
        ArithOp::Sub => Some(sub64(a, b)),
        ArithOp::Mul => Some(mul64(a, b)),
        ArithOp::Div => div64(a, b),
        ArithOp::Rem => rem64(a, b),
        ArithOp::Shl => Some(shl64(a, distance)),
        ArithOp::Shr => Some(shr64(a, distance)),
        ArithOp::Ushr => Some(ushr64(a, distance)),
        ArithOp::And => Some(and64(a, b)),
        ArithOp::Or => Some(or64(a, b)),
        ArithOp::Xor => Some(xor64(a, b)),
    }
}

// ladd to lxor.
pub(crate) fn computes_long<'b>(look: Look<'_>, op: ArithOp) -> Act<'b>
    ensures { Does look.entry result (λ t. computes_long t op) }
{
    let Some(b) = second_operand(op, look.stack) else {
        return Act::Ends;
    };
    let Some(a) = long_at(look.stack, b.upto) else {
        return Act::Ends;
    };
    match arithmetic64(op, a.value, b.long, b.int) {
        Some(n) => Act::Gives {
            taken: a.upto,
            value: Value::Long(n),
        },
        None => Act::Ends,
    }
}

// ineg.
pub(crate) fn negates_int<'b>(look: Look<'_>) -> Act<'b>
    ensures { Does look.entry result negates_int }
{
    let Some(a) = int_at(look.stack, 0) else {
        return Act::Ends;
    };
    Act::Gives {
        taken: a.upto,
        value: Value::Int(neg32(a.value)),
    }
}

// lneg.
pub(crate) fn negates_long<'b>(look: Look<'_>) -> Act<'b>
    ensures { Does look.entry result negates_long }
{
    let Some(a) = long_at(look.stack, 0) else {
        return Act::Ends;
    };
    Act::Gives {
        taken: a.upto,
        value: Value::Long(neg64(a.value)),
    }
}

fn narrowed(op: NarrowOp, n: i32) -> i32
    ensures { result ≡ narrowed op n }
{
    match op {
        NarrowOp::Byte => narrow8(n),
        NarrowOp::Char => narrow_char(n),
        NarrowOp::Short => narrow16(n),
    }
}

// i2b, i2c, i2s.
pub(crate) fn narrows<'b>(look: Look<'_>, op: NarrowOp) -> Act<'b>
    ensures { Does look.entry result (λ t. narrows t op) }
{
    let Some(a) = int_at(look.stack, 0) else {
        return Act::Ends;
    };
    Act::Gives {
        taken: a.upto,
        value: Value::Int(narrowed(op, a.value)),
    }
}

// i2l.
pub(crate) fn widens<'b>(look: Look<'_>) -> Act<'b>
    ensures { Does look.entry result widens }
{
    let Some(a) = int_at(look.stack, 0) else {
        return Act::Ends;
    };
    Act::Gives {
        taken: a.upto,
        value: Value::Long(widen64(a.value)),
    }
}

// l2i.
pub(crate) fn halves<'b>(look: Look<'_>) -> Act<'b>
    ensures { Does look.entry result halves }
{
    let Some(a) = long_at(look.stack, 0) else {
        return Act::Ends;
    };
    Act::Gives {
        taken: a.upto,
        value: Value::Int(low32(a.value)),
    }
}

// lcmp.
pub(crate) fn compares<'b>(look: Look<'_>) -> Act<'b>
    ensures { Does look.entry result compares }
{
    let Some(b) = long_at(look.stack, 0) else {
        return Act::Ends;
    };
    let Some(a) = long_at(look.stack, b.upto) else {
        return Act::Ends;
    };
    Act::Gives {
        taken: a.upto,
        value: Value::Int(compare64(a.value, b.value)),
    }
}

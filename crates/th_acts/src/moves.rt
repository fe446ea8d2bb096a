// Constants, loads, stores and moves on the operand stack (Java specification 6.5).
ghost use Rattle.std.specs.Prelude.{◌≡◌};
ghost use Rattle.th_syntax.specs.declared.machine.Value.TheVariants.{Address};
ghost use Rattle.th_syntax.specs.Effects.{needs};
ghost use Rattle.th_syntax.specs.Slots.{local_value};
ghost use Rattle.th_syntax.specs.Moves.{loads_int, loads_long, loads_reference, stores_int, stores_long, stores_reference, moves_stack, increments, int_value, long_value, pushes};
ghost use Rattle.th_wrap.specs.TwosComplement.{wrapped_value};
ghost use Rattle.th_acts.specs.Acts.{Does, constant_in};
ghost use Rattle.std.specs.Option.{option_map};

use crate::act::Act;
use crate::look::Look;
use crate::peek::{int_at, long_at, reference_at};
use th_base::Seq;
use th_resolved::Operand;
use th_syntax::{Slot, StackOp, Value};
use th_wrap::{add32, add64, low32, widen64};

// The value in a local.
fn local_value(locals: &Seq<Slot>, local: u16) -> Option<Value>
    ensures { result ≡ local_value locals.now local }
{
    match locals.get(local as usize) {
        Some(Slot::Holds(value)) => Some(*value),
        _ => None,
    }
}

// A constant goes onto the stack.
pub(crate) fn gives<'b>(look: Look<'_>, value: Value) -> Act<'b>
    ensures { Does look.entry result (λ t. pushes t value) }
{
    let _look = look;
    Act::Gives { taken: 0, value }
}

// ldc of an Integer, bipush, sipush.
pub(crate) fn gives_int<'b>(look: Look<'_>, n: i32) -> Act<'b>
    ensures { Does look.entry result (λ t. pushes t (int_value n)) }
{
    gives(look, Value::Int(low32(widen64(n))))
}

// A long, which is its own lowest 64 bits.
fn wrapped(n: i64) -> i64
    ensures { result ≡ wrapped_value 64 n }
{
    add64(n, 0)
}

// ldc2_w of a Long.
pub(crate) fn gives_long<'b>(look: Look<'_>, n: i64) -> Act<'b>
    ensures { Does look.entry result (λ t. pushes t (long_value n)) }
{
    gives(look, Value::Long(wrapped(n)))
}

// ldc of a String.
pub(crate) fn gives_string<'b>(look: Look<'_>, operand: &Operand) -> Act<'b>
    ensures { Does look.entry result (λ t. needs (option_map Address (constant_in operand.now)) (pushes t)) }
{
    match operand {
        Operand::Constant(address) => gives(look, Value::Address(*address)),
        _ => Act::Ends,
    }
}

// iload.
pub(crate) fn loads_int<'b>(look: Look<'_>, local: u16) -> Act<'b>
    ensures { Does look.entry result (λ t. loads_int t local) }
{
    match local_value(look.locals, local) {
        Some(Value::Int(n)) => Act::Gives {
            taken: 0,
            value: Value::Int(n),
        },
        _ => Act::Ends,
    }
}

// lload.
pub(crate) fn loads_long<'b>(look: Look<'_>, local: u16) -> Act<'b>
    ensures { Does look.entry result (λ t. loads_long t local) }
{
    match local_value(look.locals, local) {
        Some(Value::Long(n)) => Act::Gives {
            taken: 0,
            value: Value::Long(n),
        },
        _ => Act::Ends,
    }
}

// aload.
pub(crate) fn loads_reference<'b>(look: Look<'_>, local: u16) -> Act<'b>
    ensures { Does look.entry result (λ t. loads_reference t local) }
{
    match local_value(look.locals, local) {
        Some(Value::Null) => Act::Gives {
            taken: 0,
            value: Value::Null,
        },
        Some(Value::Address(a)) => Act::Gives {
            taken: 0,
            value: Value::Address(a),
        },
        _ => Act::Ends,
    }
}

// istore.
pub(crate) fn stores_int<'b>(look: Look<'_>, local: u16) -> Act<'b>
    ensures { Does look.entry result (λ t. stores_int t local) }
{
    match int_at(look.stack, 0) {
        Some(p) => Act::Stores {
            local,
            taken: p.upto,
            value: Value::Int(p.value),
        },
        None => Act::Ends,
    }
}

// lstore.
pub(crate) fn stores_long<'b>(look: Look<'_>, local: u16) -> Act<'b>
    ensures { Does look.entry result (λ t. stores_long t local) }
{
    match long_at(look.stack, 0) {
        Some(p) => Act::Stores {
            local,
            taken: p.upto,
            value: Value::Long(p.value),
        },
        None => Act::Ends,
    }
}

// astore.
pub(crate) fn stores_reference<'b>(look: Look<'_>, local: u16) -> Act<'b>
    ensures { Does look.entry result (λ t. stores_reference t local) }
{
    match reference_at(look.stack, 0) {
        Some(p) => Act::Stores {
            local,
            taken: p.upto,
            value: p.value,
        },
        None => Act::Ends,
    }
}

// iinc.
pub(crate) fn increments<'b>(look: Look<'_>, local: u16, by: i16) -> Act<'b>
    ensures { Does look.entry result (λ t. increments t local by) }
{
    match local_value(look.locals, local) {
        Some(Value::Int(n)) => Act::Stores {
            local,
            taken: 0,
            value: Value::Int(add32(n, by as i32)),
        },
        _ => Act::Ends,
    }
}

// pop to swap.
pub(crate) fn moves_stack<'b>(look: Look<'_>, op: StackOp) -> Act<'b>
    ensures { Does look.entry result (λ t. moves_stack t op) }
{
    let _look = look;
    Act::Moves(op)
}

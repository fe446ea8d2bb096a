// Reading accesses of fields and calls of methods (Java specification 6.5).
ghost use Rattle.std.specs.Prelude.{◌≡◌, ◌==◌, ◌≤◌};
ghost use Rattle.th_syntax.specs.declared.opcode.TheConstants as opcodes;
ghost use Rattle.th_code.specs.Judged.{Takes, as_read, judged, operands_of};

use crate::member::{MethodKind, field, method};
use crate::operand::{Taken, byte, short};
use std::alloc::Global;
use th_pool::{Place, Pool};
use th_syntax::{Instr, opcode};

// An access of a field.
#[tactic(auto, using(crate::proofs::Members::accesses))]
pub(crate) fn access<'a>(
    alloc: Global,
    pool: &Pool,
    code: u8,
    pc: u32,
    place: Place<'a>,
) -> Taken<'a, Instr>
    requires low { opcodes.GETSTATIC ≤ code }
    requires high { code ≤ opcodes.PUTFIELD }
    ensures { Takes as_read result (judged (operands_of pool.now code pc) place.entry.at place.entry.rest.now) }
{
    let (index, place) = short(place)?;
    let field = field(alloc, pool, index)?;
    match code {
        opcode::GETSTATIC => Ok((Instr::GetStatic(field), place)),
        opcode::PUTSTATIC => Ok((Instr::PutStatic(field), place)),
        opcode::GETFIELD => Ok((Instr::GetField(field), place)),
        _ => Ok((Instr::PutField(field), place)),
    }
}

fn is_zero(byte: u8) -> bool
    ensures { result ≡ (byte == 0) }
{
    byte == 0
}

// A call of a method of a class, or of either kind: `invokevirtual` to `invokestatic`.
#[tactic(auto, using(crate::proofs::Members::calls))]
pub(crate) fn call<'a>(
    alloc: Global,
    pool: &Pool,
    code: u8,
    pc: u32,
    place: Place<'a>,
) -> Taken<'a, Instr>
    requires low { opcodes.INVOKEVIRTUAL ≤ code }
    requires high { code ≤ opcodes.INVOKESTATIC }
    ensures { Takes as_read result (judged (operands_of pool.now code pc) place.entry.at place.entry.rest.now) }
{
    let (index, place) = short(place)?;
    match code {
        opcode::INVOKEVIRTUAL => {
            let method = method(alloc, pool, index, MethodKind::OfClass, false, true)?;
            Ok((Instr::InvokeVirtual(method), place))
        }
        opcode::INVOKESPECIAL => {
            let method = method(alloc, pool, index, MethodKind::OfEither, true, true)?;
            Ok((Instr::InvokeSpecial(method), place))
        }
        _ => {
            let method = method(alloc, pool, index, MethodKind::OfEither, false, true)?;
            Ok((Instr::InvokeStatic(method), place))
        }
    }
}

// A call of a method of an interface. Its count isn't looked at, and the byte behind it is 0.
#[tactic(auto, using(crate::proofs::Members::interface_calls))]
pub(crate) fn interface_call<'a>(
    alloc: Global,
    pool: &Pool,
    pc: u32,
    place: Place<'a>,
) -> Taken<'a, Instr>
    ensures { Takes as_read result (judged (operands_of pool.now opcodes.INVOKEINTERFACE pc) place.entry.at place.entry.rest.now) }
{
    let (index, place) = short(place)?;
    let (_, place) = byte(place)?;
    let (last, place) = byte(place)?;
    let sound = is_zero(last);
    match method(alloc, pool, index, MethodKind::OfInterface, false, sound) {
        Ok(method) => Ok((Instr::InvokeInterface(method), place)),
        Err(fail) => Err(fail),
    }
}

// Reading what makes and tests objects and arrays (Java specification 6.5).
ghost use Rattle.std.specs.Prelude.{◌≡◌, ◌<◌, ◌≤◌};
ghost use Rattle.th_syntax.specs.declared.opcode.TheConstants as opcodes;
ghost use Rattle.th_syntax.specs.CodeBytes as spelling;
ghost use Rattle.th_code.specs.Judged.{Takes, as_read, judged, operands_of};

use crate::member::{class, class_or_array};
use crate::operand::{Taken, byte, short};
use std::alloc::Global;
use th_base::Fail;
use th_pool::{Place, Pool};
use th_syntax::cause::{CODE_SHAPE, OPCODE};
use th_syntax::{Instr, Primitive, opcode};

// The element type of `newarray` by its code (Java specification, table 6.5.newarray-A).
fn element_of(code: u8) -> Option<Primitive>
    ensures { result ≡ spelling.element_of code }
{
    match code {
        opcode::T_BOOLEAN => Some(Primitive::Boolean),
        opcode::T_CHAR => Some(Primitive::Char),
        opcode::T_BYTE => Some(Primitive::Byte),
        opcode::T_SHORT => Some(Primitive::Short),
        opcode::T_INT => Some(Primitive::Int),
        opcode::T_LONG => Some(Primitive::Long),
        _ => None,
    }
}

// What is behind `newarray`.
#[tactic(auto, using(crate::proofs::Objects::arrays))]
fn new_array<'a>(pool: &Pool, pc: u32, place: Place<'a>) -> Taken<'a, Instr>
    ensures { Takes as_read result (judged (operands_of pool.now opcodes.NEWARRAY pc) place.entry.at place.entry.rest.now) }
{
    let (element, place) = byte(place)?;
    match element_of(element) {
        Some(element) => Ok((Instr::NewArray(element), place)),
        None => Err(Fail::Refused(CODE_SHAPE)),
    }
}

// What is behind an opcode from `new` to `monitorexit`.
#[tactic(auto, using(crate::proofs::Objects::objects))]
pub(crate) fn object<'a>(
    alloc: Global,
    pool: &Pool,
    code: u8,
    pc: u32,
    place: Place<'a>,
) -> Taken<'a, Instr>
    requires low { opcodes.INVOKEINTERFACE < code }
    requires high { code ≤ opcodes.MONITOREXIT }
    ensures { Takes as_read result (judged (operands_of pool.now code pc) place.entry.at place.entry.rest.now) }
{
    match code {
        opcode::NEWARRAY => {
            let (instr, place) = new_array(pool, pc, place)?;
            Ok((instr, place))
        }
        opcode::NEW => {
            let (index, place) = short(place)?;
            let name = class(alloc, pool, index)?;
            Ok((Instr::New(name), place))
        }
        opcode::ANEWARRAY => {
            let (index, place) = short(place)?;
            let name = class_or_array(alloc, pool, index)?;
            Ok((Instr::ANewArray(name), place))
        }
        opcode::CHECKCAST => {
            let (index, place) = short(place)?;
            let name = class_or_array(alloc, pool, index)?;
            Ok((Instr::CheckCast(name), place))
        }
        opcode::INSTANCEOF => {
            let (index, place) = short(place)?;
            let name = class_or_array(alloc, pool, index)?;
            Ok((Instr::InstanceOf(name), place))
        }
        opcode::ARRAYLENGTH => Ok((Instr::ArrayLength, place)),
        opcode::ATHROW => Ok((Instr::Throw, place)),
        opcode::MONITORENTER => Ok((Instr::MonitorEnter, place)),
        opcode::MONITOREXIT => Ok((Instr::MonitorExit, place)),
        _ => Err(Fail::Refused(OPCODE)),
    }
}

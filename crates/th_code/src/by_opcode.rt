// Reading an instruction from its opcode on.
ghost use Rattle.std.specs.Prelude.{◌≡◌};
ghost use Rattle.th_syntax.specs.CodeBytes as spelling;
ghost use Rattle.th_code.specs.Judged.{Takes, as_read, judged, operands_of};

use crate::access::{access, call, interface_call};
use crate::control::{branch, control};
use crate::object::object;
use crate::operand::{Taken, byte};
use crate::plain::{arithmetic_at, constant, variable};
use crate::wide::extended;
use std::alloc::Global;
use th_pool::{Place, Pool};
use th_syntax::{Instr, opcode};

// What is behind an opcode at `pc`.
fn operands<'a>(alloc: Global, pool: &Pool, code: u8, pc: u32, place: Place<'a>) -> Taken<'a, Instr>
    ensures { Takes as_read result (judged (operands_of pool.now code pc) place.entry.at place.entry.rest.now) }
{
    if code <= opcode::LDC2_W {
        return constant(alloc, pool, code, pc, place);
    }
    if code <= opcode::SASTORE {
        return variable(pool, code, pc, place);
    }
    if code < opcode::IFEQ {
        return arithmetic_at(pool, code, pc, place);
    }
    if code <= opcode::GOTO {
        return branch(pool, code, pc, place);
    }
    if code <= opcode::RETURN {
        return control(alloc, pool, code, pc, place);
    }
    if code <= opcode::PUTFIELD {
        return access(alloc, pool, code, pc, place);
    }
    if code <= opcode::INVOKESTATIC {
        return call(alloc, pool, code, pc, place);
    }
    if code == opcode::INVOKEINTERFACE {
        return interface_call(alloc, pool, pc, place);
    }
    if code <= opcode::MONITOREXIT {
        return object(alloc, pool, code, pc, place);
    }
    extended(pool, code, pc, place)
}

/// The instruction at a place in the code, and the place behind it; refused by the least number of the
/// checks that fail there (Java specification 6.5).
#[tactic(auto, using(crate::proofs::Passing::instructions))]
pub fn instruction<'a>(alloc: Global, pool: &Pool, place: Place<'a>) -> Taken<'a, Instr>
    ensures { Takes as_read result (judged (spelling.instruction pool.now) place.entry.at place.entry.rest.now) }
{
    let pc = place.at;
    let (code, behind) = byte(place)?;
    let (instr, behind) = operands(alloc, pool, code, pc, behind)?;
    Ok((instr, behind))
}

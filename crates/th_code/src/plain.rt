// Reading constants, locals, moves on the stack and arithmetic (Java specification 6.5).
ghost use Rattle.std.specs.Prelude.{◌≡◌, ◌==◌, ◌≤◌, ◌<◌};
ghost use Rattle.th_syntax.specs.declared.opcode.TheConstants as opcodes;
ghost use Rattle.th_syntax.specs.CodeBytes as spelling;
ghost use Rattle.th_code.specs.Judged.{Takes, as_read, judged, operands_of};

use crate::bare::{arithmetic, array_access, conversion, stack_move};
use crate::constant::{load, load_wide};
use crate::family::{small_constant, small_local};
use crate::operand::{Taken, byte, short};
use std::alloc::Global;
use th_base::Fail;
use th_pool::{Place, Pool};
use th_syntax::cause::OPCODE;
use th_syntax::{Instr, opcode};

// ---- constants

// What is behind an opcode up to `ldc2_w`.
#[tactic(auto, using(crate::proofs::Constants::constants))]
pub(crate) fn constant<'a>(
    alloc: Global,
    pool: &Pool,
    code: u8,
    pc: u32,
    place: Place<'a>,
) -> Taken<'a, Instr>
    requires { code ≤ opcodes.LDC2_W }
    ensures { Takes as_read result (judged (operands_of pool.now code pc) place.entry.at place.entry.rest.now) }
{
    if let Some(instr) = small_constant(code) {
        return Ok((instr, place));
    }
    match code {
        opcode::NOP => Ok((Instr::Nop, place)),
        opcode::ACONST_NULL => Ok((Instr::Null, place)),
        opcode::BIPUSH => {
            let (value, place) = byte(place)?;
            Ok((Instr::Int(i32::from(value.cast_signed())), place))
        }
        opcode::SIPUSH => {
            let (value, place) = short(place)?;
            Ok((Instr::Int(i32::from(value.cast_signed())), place))
        }
        opcode::LDC => {
            let (index, place) = byte(place)?;
            let instr = load(alloc, pool, u16::from(index))?;
            Ok((instr, place))
        }
        opcode::LDC_W => {
            let (index, place) = short(place)?;
            let instr = load(alloc, pool, index)?;
            Ok((instr, place))
        }
        opcode::LDC2_W => {
            let (index, place) = short(place)?;
            let instr = load_wide(pool, index)?;
            Ok((instr, place))
        }
        _ => Err(Fail::Refused(OPCODE)),
    }
}

// ---- local variables and arrays

// What is behind an opcode from `iload` to `sastore`.
#[tactic(auto, using(crate::proofs::Variables::variables))]
pub(crate) fn variable<'a>(pool: &Pool, code: u8, pc: u32, place: Place<'a>) -> Taken<'a, Instr>
    requires low { opcodes.ILOAD ≤ code }
    requires high { code ≤ opcodes.SASTORE }
    ensures { Takes as_read result (judged (operands_of pool.now code pc) place.entry.at place.entry.rest.now) }
{
    if let Some(instr) = array_access(code) {
        return Ok((instr, place));
    }
    if let Some(instr) = small_local(code) {
        return Ok((instr, place));
    }
    match code {
        opcode::ILOAD => {
            let (index, place) = byte(place)?;
            Ok((Instr::ILoad(u16::from(index)), place))
        }
        opcode::LLOAD => {
            let (index, place) = byte(place)?;
            Ok((Instr::LLoad(u16::from(index)), place))
        }
        opcode::ALOAD => {
            let (index, place) = byte(place)?;
            Ok((Instr::ALoad(u16::from(index)), place))
        }
        opcode::ISTORE => {
            let (index, place) = byte(place)?;
            Ok((Instr::IStore(u16::from(index)), place))
        }
        opcode::LSTORE => {
            let (index, place) = byte(place)?;
            Ok((Instr::LStore(u16::from(index)), place))
        }
        opcode::ASTORE => {
            let (index, place) = byte(place)?;
            Ok((Instr::AStore(u16::from(index)), place))
        }
        _ => Err(Fail::Refused(OPCODE)),
    }
}

// ---- arithmetic

// What is behind an opcode from `pop` to `lcmp`, and on to the comparisons of floats.
#[tactic(auto, using(crate::proofs::Arithmetic::arithmetics))]
pub(crate) fn arithmetic_at<'a>(
    pool: &Pool,
    code: u8,
    pc: u32,
    place: Place<'a>,
) -> Taken<'a, Instr>
    requires low { opcodes.POP ≤ code }
    requires high { code < opcodes.IFEQ }
    ensures { Takes as_read result (judged (operands_of pool.now code pc) place.entry.at place.entry.rest.now) }
{
    if let Some(instr) = stack_move(code) {
        return Ok((instr, place));
    }
    if let Some(instr) = arithmetic(code) {
        return Ok((instr, place));
    }
    if let Some(instr) = conversion(code) {
        return Ok((instr, place));
    }
    match code {
        opcode::IINC => {
            let (index, place) = byte(place)?;
            let (by, place) = byte(place)?;
            let by = i16::from(by.cast_signed());
            Ok((Instr::Inc(u16::from(index), by), place))
        }
        _ => Err(Fail::Refused(OPCODE)),
    }
}

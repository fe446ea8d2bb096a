// Reading branches, switches and returns (Java specification 6.5).
ghost use Rattle.std.specs.Prelude.{◌≡◌, ◌<◌, ◌≤◌};
ghost use Rattle.th_syntax.specs.declared.opcode.TheConstants as opcodes;
ghost use Rattle.th_code.specs.Judged.{Takes, as_read, judged, operands_of};

use crate::branch::{jump, near};
use crate::operand::{Taken, short};
use crate::switch::{lookup_switch, table_switch};
use std::alloc::Global;
use th_base::Fail;
use th_pool::{Place, Pool};
use th_syntax::cause::OPCODE;
use th_syntax::{Instr, opcode};

// A branch by an offset of two bytes, from `ifeq` to `goto`.
#[tactic(auto, using(crate::proofs::Branching::branches))]
pub(crate) fn branch<'a>(pool: &Pool, code: u8, pc: u32, place: Place<'a>) -> Taken<'a, Instr>
    requires low { opcodes.IFEQ ≤ code }
    requires high { code ≤ opcodes.GOTO }
    ensures { Takes as_read result (judged (operands_of pool.now code pc) place.entry.at place.entry.rest.now) }
{
    let (by, place) = short(place)?;
    let instr = jump(code, near(pc, by));
    Ok((instr, place))
}

// What is behind an opcode from `goto` to `return` that is no branch.
#[tactic(auto, using(crate::proofs::Branching::controls))]
pub(crate) fn control<'a>(
    alloc: Global,
    pool: &Pool,
    code: u8,
    pc: u32,
    place: Place<'a>,
) -> Taken<'a, Instr>
    requires low { opcodes.GOTO < code }
    requires high { code ≤ opcodes.RETURN }
    ensures { Takes as_read result (judged (operands_of pool.now code pc) place.entry.at place.entry.rest.now) }
{
    match code {
        opcode::TABLESWITCH => {
            let (instr, place) = table_switch(alloc, pc, place)?;
            Ok((instr, place))
        }
        opcode::LOOKUPSWITCH => {
            let (instr, place) = lookup_switch(alloc, pc, place)?;
            Ok((instr, place))
        }
        opcode::IRETURN => Ok((Instr::IReturn, place)),
        opcode::LRETURN => Ok((Instr::LReturn, place)),
        opcode::ARETURN => Ok((Instr::AReturn, place)),
        opcode::RETURN => Ok((Instr::Return, place)),
        _ => Err(Fail::Refused(OPCODE)),
    }
}

// Reading what `wide` widens, and the branches behind it (Java specification 6.5).
ghost use Rattle.std.specs.Prelude.{◌≡◌, ◌≤◌};
ghost use Rattle.th_syntax.specs.declared.opcode.TheConstants as opcodes;
ghost use Rattle.th_code.specs.Judged.{Takes, as_read, judged, operands_of, wide_of};

use crate::branch::{far, near};
use crate::operand::{Taken, byte, short, word};
use th_base::Fail;
use th_pool::{Place, Pool};
use th_syntax::cause::OPCODE;
use th_syntax::{Instr, opcode};

// What is behind `wide` and the opcode that it widens.
#[tactic(auto, using(crate::proofs::Widening::wides))]
fn widened<'a>(code: u8, pc: u32, place: Place<'a>) -> Taken<'a, Instr>
    ensures { Takes as_read result (judged (wide_of code pc) place.entry.at place.entry.rest.now) }
{
    match code {
        opcode::ILOAD => {
            let (index, place) = short(place)?;
            Ok((Instr::ILoad(index), place))
        }
        opcode::LLOAD => {
            let (index, place) = short(place)?;
            Ok((Instr::LLoad(index), place))
        }
        opcode::ALOAD => {
            let (index, place) = short(place)?;
            Ok((Instr::ALoad(index), place))
        }
        opcode::ISTORE => {
            let (index, place) = short(place)?;
            Ok((Instr::IStore(index), place))
        }
        opcode::LSTORE => {
            let (index, place) = short(place)?;
            Ok((Instr::LStore(index), place))
        }
        opcode::ASTORE => {
            let (index, place) = short(place)?;
            Ok((Instr::AStore(index), place))
        }
        opcode::IINC => {
            let (index, place) = short(place)?;
            let (by, place) = short(place)?;
            Ok((Instr::Inc(index, by.cast_signed()), place))
        }
        _ => Err(Fail::Refused(OPCODE)),
    }
}

// What is behind an opcode from `wide` on.
#[tactic(auto, using(crate::proofs::Widening::extended))]
pub(crate) fn extended<'a>(pool: &Pool, code: u8, pc: u32, place: Place<'a>) -> Taken<'a, Instr>
    requires { opcodes.WIDE ≤ code }
    ensures { Takes as_read result (judged (operands_of pool.now code pc) place.entry.at place.entry.rest.now) }
{
    match code {
        opcode::WIDE => {
            let (code, place) = byte(place)?;
            let (instr, place) = widened(code, pc, place)?;
            Ok((instr, place))
        }
        opcode::IFNULL => {
            let (by, place) = short(place)?;
            Ok((Instr::IfNull(near(pc, by)), place))
        }
        opcode::IFNONNULL => {
            let (by, place) = short(place)?;
            Ok((Instr::IfNotNull(near(pc, by)), place))
        }
        opcode::GOTO_W => {
            let (by, place) = word(place)?;
            Ok((Instr::Goto(far(pc, by)), place))
        }
        _ => Err(Fail::Refused(OPCODE)),
    }
}

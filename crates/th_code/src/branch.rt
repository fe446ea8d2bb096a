// Branches and their targets (Java specification 6.5).
ghost use Rattle.std.specs.Prelude.{◌≡◌, ◌≤◌, ℕ, List, Ok};
ghost use Rattle.std.specs.Int.{w16, w32, cast_signed};
ghost use Rattle.th_syntax.specs.declared.opcode.TheConstants as opcodes;
ghost use Rattle.th_syntax.specs.Forms.{Placed};
ghost use Rattle.th_syntax.specs.ClassBytes as file;
ghost use Rattle.th_syntax.specs.CodeBytes as spelling;
ghost use Rattle.th_code.specs.Judged.{judged, operand, operands_of};

use th_base::Relation;
use th_syntax::{Instr, OUTSIDE, opcode};

// The offset in the code to which a branch at `pc` leads.
#[tactic(auto, using(crate::proofs::Targets::targets))]
pub(crate) fn target(pc: u32, by: i32) -> u32
    ensures { result ≡ spelling.target pc by }
{
    let to = i64::from(pc) + i64::from(by);
    if to < 0 {
        return OUTSIDE;
    }
    if to > i64::from(OUTSIDE) {
        return OUTSIDE;
    }
    to as u32
}

// The same for a branch by an offset of two bytes, and of four.
pub(crate) fn near(pc: u32, by: u16) -> u32
    ensures { result ≡ spelling.target pc (cast_signed w16 by) }
{
    target(pc, i32::from(by.cast_signed()))
}

pub(crate) fn far(pc: u32, by: u32) -> u32
    ensures { result ≡ spelling.target pc (cast_signed w32 by) }
{
    target(pc, by.cast_signed())
}

// The branch by an offset of two bytes, `ifeq` to `goto`.
#[tactic(auto, using(crate::proofs::Targets::jumps))]
pub(crate) fn jump(code: u8, target: u32) -> Instr
    requires low { opcodes.IFEQ ≤ code }
    requires high { code ≤ opcodes.GOTO }
    ensures { (pool : file.Pool) (pc at : ℕ) (bytes : List ℕ) (x : Placed ℕ) (b : ℕ) (u : List ℕ) → operand file.u2 at bytes ≡ Ok (x, b, u) → target ≡ spelling.target pc (cast_signed w16 x.value) → judged (operands_of pool code pc) at bytes ≡ Ok (result, b, u) }
{
    match code {
        opcode::IFEQ => Instr::IfZero(Relation::Eq, target),
        opcode::IFNE => Instr::IfZero(Relation::Ne, target),
        opcode::IFLT => Instr::IfZero(Relation::Lt, target),
        opcode::IFGE => Instr::IfZero(Relation::Ge, target),
        opcode::IFGT => Instr::IfZero(Relation::Gt, target),
        opcode::IFLE => Instr::IfZero(Relation::Le, target),
        opcode::IF_ICMPEQ => Instr::IfInts(Relation::Eq, target),
        opcode::IF_ICMPNE => Instr::IfInts(Relation::Ne, target),
        opcode::IF_ICMPLT => Instr::IfInts(Relation::Lt, target),
        opcode::IF_ICMPGE => Instr::IfInts(Relation::Ge, target),
        opcode::IF_ICMPGT => Instr::IfInts(Relation::Gt, target),
        opcode::IF_ICMPLE => Instr::IfInts(Relation::Le, target),
        opcode::IF_ACMPEQ => Instr::IfSame(target),
        opcode::IF_ACMPNE => Instr::IfOther(target),
        _ => Instr::Goto(target),
    }
}

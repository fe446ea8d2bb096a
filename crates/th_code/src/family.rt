// Instructions whose opcodes have a number in them, as `iload_3` (Java specification 6.5).
ghost use Rattle.std.specs.Prelude.{◌≡◌, ◌≤◌, ◌&&◌, ◌-◌, ℕ, false, true, nat_le, IfNone, IfSome, pos, ◌-ℤ◌};
ghost use Rattle.std.specs.List.{list_any};
ghost use Rattle.th_syntax.specs.declared.opcode.TheConstants as opcodes;
ghost use Rattle.th_syntax.specs.ClassBytes.{Pool};
ghost use Rattle.th_syntax.specs.CodeBytes.{plain};
ghost use Rattle.th_code.specs.Judged.{operands_of};
ghost use Rattle.th_code.specs.Opcodes.{is_within, small_constants, small_locals};

use th_syntax::{Instr, opcode};

// Whether an opcode is one of those from the first to the last.
pub(crate) fn is_between(code: u8, first: u8, last: u8) -> bool
    ensures { result ≡ (nat_le first code && nat_le code last) }
{
    first <= code && code <= last
}

// The number of `iconst_m1` to `iconst_5`.
fn small_int(code: u8) -> i32
    requires { opcodes.ICONST_M1 ≤ code }
    ensures { result ≡ pos (code - opcodes.ICONST_M1) -ℤ pos 1 }
{
    i32::from(code - opcode::ICONST_M1) - 1
}

// A constant: `iconst_m1` to `iconst_5`, and `lconst_0`, `lconst_1`.
#[tactic(auto, using(crate::proofs::Families::constants))]
pub(crate) fn small_constant(code: u8) -> Option<Instr>
    ensures some { IfSome result (λ i. (pool : Pool) (pc : ℕ) → operands_of pool code pc ≡ plain i) }
    ensures none { IfNone result (list_any (is_within code) small_constants ≡ false) }
{
    if is_between(code, opcode::ICONST_M1, opcode::ICONST_5) {
        return Some(Instr::Int(small_int(code)));
    }
    if is_between(code, opcode::LCONST_0, opcode::LCONST_1) {
        return Some(Instr::Long(i64::from(code - opcode::LCONST_0)));
    }
    None
}

// A load or a store of one of the first four local variables.
#[tactic(auto, using(crate::proofs::Families::locals))]
pub(crate) fn small_local(code: u8) -> Option<Instr>
    ensures some { IfSome result (λ i. (pool : Pool) (pc : ℕ) → operands_of pool code pc ≡ plain i) }
    ensures none { IfNone result (list_any (is_within code) small_locals ≡ false) }
{
    if is_between(code, opcode::ILOAD_0, opcode::ILOAD_3) {
        return Some(Instr::ILoad(u16::from(code - opcode::ILOAD_0)));
    }
    if is_between(code, opcode::LLOAD_0, opcode::LLOAD_3) {
        return Some(Instr::LLoad(u16::from(code - opcode::LLOAD_0)));
    }
    if is_between(code, opcode::ALOAD_0, opcode::ALOAD_3) {
        return Some(Instr::ALoad(u16::from(code - opcode::ALOAD_0)));
    }
    if is_between(code, opcode::ISTORE_0, opcode::ISTORE_3) {
        return Some(Instr::IStore(u16::from(code - opcode::ISTORE_0)));
    }
    if is_between(code, opcode::LSTORE_0, opcode::LSTORE_3) {
        return Some(Instr::LStore(u16::from(code - opcode::LSTORE_0)));
    }
    if is_between(code, opcode::ASTORE_0, opcode::ASTORE_3) {
        return Some(Instr::AStore(u16::from(code - opcode::ASTORE_0)));
    }
    None
}

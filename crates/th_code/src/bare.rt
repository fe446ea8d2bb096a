// Instructions without operands, by their opcodes (Java specification 6.5).
ghost use Rattle.std.specs.Prelude.{◌≡◌, ◌==◌, ℕ, false, IfNone, IfSome};
ghost use Rattle.std.specs.List.{list_any};
ghost use Rattle.th_syntax.specs.ClassBytes.{Pool};
ghost use Rattle.th_syntax.specs.CodeBytes.{plain};
ghost use Rattle.th_code.specs.Judged.{operands_of};
ghost use Rattle.th_code.specs.Opcodes.{arithmetic_codes, array_access_codes, conversion_codes, stack_move_codes};

use th_base::{ArithOp, Elem, NarrowOp};
use th_syntax::{Instr, StackOp, opcode};

// An access of an array: `iaload` to `saload` and `iastore` to `sastore`.
#[tactic(auto, unfolding(crate::specs::Judged::operands_of))]
pub(crate) fn array_access(code: u8) -> Option<Instr>
    ensures some { IfSome result (λ i. (pool : Pool) (pc : ℕ) → operands_of pool code pc ≡ plain i) }
    ensures none { IfNone result (list_any (λ n. n == code) array_access_codes ≡ false) }
{
    Some(match code {
        opcode::IALOAD => Instr::ArrayLoad(Elem::Int),
        opcode::LALOAD => Instr::LArrayLoad,
        opcode::AALOAD => Instr::ArrayLoad(Elem::Ref),
        opcode::BALOAD => Instr::ArrayLoad(Elem::Byte),
        opcode::CALOAD => Instr::ArrayLoad(Elem::Char),
        opcode::SALOAD => Instr::ArrayLoad(Elem::Short),
        opcode::IASTORE => Instr::ArrayStore(Elem::Int),
        opcode::LASTORE => Instr::LArrayStore,
        opcode::AASTORE => Instr::ArrayStore(Elem::Ref),
        opcode::BASTORE => Instr::ArrayStore(Elem::Byte),
        opcode::CASTORE => Instr::ArrayStore(Elem::Char),
        opcode::SASTORE => Instr::ArrayStore(Elem::Short),
        _ => return None,
    })
}

// A move of the operand stack: `pop` to `swap`.
#[tactic(auto, unfolding(crate::specs::Judged::operands_of))]
pub(crate) fn stack_move(code: u8) -> Option<Instr>
    ensures some { IfSome result (λ i. (pool : Pool) (pc : ℕ) → operands_of pool code pc ≡ plain i) }
    ensures none { IfNone result (list_any (λ n. n == code) stack_move_codes ≡ false) }
{
    Some(match code {
        opcode::POP => Instr::Stack(StackOp::Pop),
        opcode::POP2 => Instr::Stack(StackOp::Pop2),
        opcode::DUP => Instr::Stack(StackOp::Dup),
        opcode::DUP_X1 => Instr::Stack(StackOp::DupX1),
        opcode::DUP_X2 => Instr::Stack(StackOp::DupX2),
        opcode::DUP2 => Instr::Stack(StackOp::Dup2),
        opcode::DUP2_X1 => Instr::Stack(StackOp::Dup2X1),
        opcode::DUP2_X2 => Instr::Stack(StackOp::Dup2X2),
        opcode::SWAP => Instr::Stack(StackOp::Swap),
        _ => return None,
    })
}

// An operation on two ints or two longs: `iadd` to `lxor`.
#[tactic(auto, unfolding(crate::specs::Judged::operands_of))]
pub(crate) fn arithmetic(code: u8) -> Option<Instr>
    ensures some { IfSome result (λ i. (pool : Pool) (pc : ℕ) → operands_of pool code pc ≡ plain i) }
    ensures none { IfNone result (list_any (λ n. n == code) arithmetic_codes ≡ false) }
{
    Some(match code {
        opcode::IADD => Instr::Arith(ArithOp::Add),
        opcode::LADD => Instr::LArith(ArithOp::Add),
        opcode::ISUB => Instr::Arith(ArithOp::Sub),
        opcode::LSUB => Instr::LArith(ArithOp::Sub),
        opcode::IMUL => Instr::Arith(ArithOp::Mul),
        opcode::LMUL => Instr::LArith(ArithOp::Mul),
        opcode::IDIV => Instr::Arith(ArithOp::Div),
        opcode::LDIV => Instr::LArith(ArithOp::Div),
        opcode::IREM => Instr::Arith(ArithOp::Rem),
        opcode::LREM => Instr::LArith(ArithOp::Rem),
        opcode::ISHL => Instr::Arith(ArithOp::Shl),
        opcode::LSHL => Instr::LArith(ArithOp::Shl),
        opcode::ISHR => Instr::Arith(ArithOp::Shr),
        opcode::LSHR => Instr::LArith(ArithOp::Shr),
        opcode::IUSHR => Instr::Arith(ArithOp::Ushr),
        opcode::LUSHR => Instr::LArith(ArithOp::Ushr),
        opcode::IAND => Instr::Arith(ArithOp::And),
        opcode::LAND => Instr::LArith(ArithOp::And),
        opcode::IOR => Instr::Arith(ArithOp::Or),
        opcode::LOR => Instr::LArith(ArithOp::Or),
        opcode::IXOR => Instr::Arith(ArithOp::Xor),
        opcode::LXOR => Instr::LArith(ArithOp::Xor),
        _ => return None,
    })
}

// An operation on one value, and the comparison of two longs.
#[tactic(auto, unfolding(crate::specs::Judged::operands_of))]
pub(crate) fn conversion(code: u8) -> Option<Instr>
    ensures some { IfSome result (λ i. (pool : Pool) (pc : ℕ) → operands_of pool code pc ≡ plain i) }
    ensures none { IfNone result (list_any (λ n. n == code) conversion_codes ≡ false) }
{
    Some(match code {
        opcode::INEG => Instr::Neg,
        opcode::LNEG => Instr::LNeg,
        opcode::I2L => Instr::I2L,
        opcode::L2I => Instr::L2I,
        opcode::I2B => Instr::Narrow(NarrowOp::Byte),
        opcode::I2C => Instr::Narrow(NarrowOp::Char),
        opcode::I2S => Instr::Narrow(NarrowOp::Short),
        opcode::LCMP => Instr::LCmp,
        _ => return None,
    })
}

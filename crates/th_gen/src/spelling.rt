// How an instruction is spelled.
ghost use Rattle.std.specs.Prelude.{◌≡◌, ◌<◌, IfOk};
ghost use Rattle.th_gen.specs.Items.{index_of};
ghost use Rattle.th_gen.specs.Spellings as spec;

use crate::item::PoolItem;
use crate::pool::Pool;
use std::alloc::{AllocError, Global};
use th_base::{ArithOp, Elem, NarrowOp, Relation, Text, TryCopy};
use th_syntax::{Instr, MemberRef, Primitive, StackOp, opcode};

/// The opcode of an instruction, and what stands behind it (Java specification 6.5).
#[derive(Clone, Copy)]
pub enum Spelling {
    /// No operands.
    Bare(u8),
    /// An operand of one byte.
    Byte(u8, u8),
    /// An operand of two bytes.
    Short(u8, u16),
    /// A local variable by two bytes, behind `wide`.
    Wide(u8, u16),
    /// `iinc` of a local variable, by a number of one byte.
    Increment(u8, i8),
    /// `wide iinc`: both of two bytes.
    WideIncrement(u16, i16),
    /// A branch to the instruction at this place.
    Branch(u8, u32),
    /// `invokeinterface` of a method by its index.
    Interface(u16),
    /// A switch, whose operands the instruction has.
    Switch(u8),
}

fn array_load(elem: Elem) -> u8
    ensures { result ≡ spec.array_load elem }
{
    match elem {
        Elem::Int => opcode::IALOAD,
        Elem::Ref => opcode::AALOAD,
        Elem::Byte => opcode::BALOAD,
        Elem::Char => opcode::CALOAD,
        Elem::Short => opcode::SALOAD,
    }
}

fn array_store(elem: Elem) -> u8
    ensures { result ≡ spec.array_store elem }
{
    match elem {
        Elem::Int => opcode::IASTORE,
        Elem::Ref => opcode::AASTORE,
        Elem::Byte => opcode::BASTORE,
        Elem::Char => opcode::CASTORE,
        Elem::Short => opcode::SASTORE,
    }
}

fn stack_move(op: StackOp) -> u8
    ensures { result ≡ spec.stack_move op }
{
    match op {
        StackOp::Pop => opcode::POP,
        StackOp::Pop2 => opcode::POP2,
        StackOp::Dup => opcode::DUP,
        StackOp::DupX1 => opcode::DUP_X1,
        StackOp::DupX2 => opcode::DUP_X2,
        StackOp::Dup2 => opcode::DUP2,
        StackOp::Dup2X1 => opcode::DUP2_X1,
        StackOp::Dup2X2 => opcode::DUP2_X2,
        StackOp::Swap => opcode::SWAP,
    }
}

fn int_arith(op: ArithOp) -> u8
    ensures { result ≡ spec.int_arith op }
{
    match op {
        ArithOp::Add => opcode::IADD,
        ArithOp::Sub => opcode::ISUB,
        ArithOp::Mul => opcode::IMUL,
        ArithOp::Div => opcode::IDIV,
        ArithOp::Rem => opcode::IREM,
        ArithOp::Shl => opcode::ISHL,
        ArithOp::Shr => opcode::ISHR,
        ArithOp::Ushr => opcode::IUSHR,
        ArithOp::And => opcode::IAND,
        ArithOp::Or => opcode::IOR,
        ArithOp::Xor => opcode::IXOR,
    }
}

fn long_arith(op: ArithOp) -> u8
    ensures { result ≡ spec.long_arith op }
{
    match op {
        ArithOp::Add => opcode::LADD,
        ArithOp::Sub => opcode::LSUB,
        ArithOp::Mul => opcode::LMUL,
        ArithOp::Div => opcode::LDIV,
        ArithOp::Rem => opcode::LREM,
        ArithOp::Shl => opcode::LSHL,
        ArithOp::Shr => opcode::LSHR,
        ArithOp::Ushr => opcode::LUSHR,
        ArithOp::And => opcode::LAND,
        ArithOp::Or => opcode::LOR,
        ArithOp::Xor => opcode::LXOR,
    }
}

fn narrowing(op: NarrowOp) -> u8
    ensures { result ≡ spec.narrowing op }
{
    match op {
        NarrowOp::Byte => opcode::I2B,
        NarrowOp::Char => opcode::I2C,
        NarrowOp::Short => opcode::I2S,
    }
}

fn zero_branch(relation: Relation) -> u8
    ensures { result ≡ spec.zero_branch relation }
{
    match relation {
        Relation::Eq => opcode::IFEQ,
        Relation::Ne => opcode::IFNE,
        Relation::Lt => opcode::IFLT,
        Relation::Ge => opcode::IFGE,
        Relation::Gt => opcode::IFGT,
        Relation::Le => opcode::IFLE,
    }
}

fn int_branch(relation: Relation) -> u8
    ensures { result ≡ spec.int_branch relation }
{
    match relation {
        Relation::Eq => opcode::IF_ICMPEQ,
        Relation::Ne => opcode::IF_ICMPNE,
        Relation::Lt => opcode::IF_ICMPLT,
        Relation::Ge => opcode::IF_ICMPGE,
        Relation::Gt => opcode::IF_ICMPGT,
        Relation::Le => opcode::IF_ICMPLE,
    }
}

fn element_code(element: Primitive) -> u8
    ensures { result ≡ spec.element_code element }
{
    match element {
        Primitive::Boolean => opcode::T_BOOLEAN,
        Primitive::Char => opcode::T_CHAR,
        Primitive::Byte => opcode::T_BYTE,
        Primitive::Short => opcode::T_SHORT,
        Primitive::Int => opcode::T_INT,
        Primitive::Long => opcode::T_LONG,
    }
}

// A load or store of a local variable; four have opcodes of their own, from `first` on.
fn local(code: u8, first: u8, index: u16) -> Spelling
    requires { first < 252 }
    ensures { result ≡ spec.local_spelling code first index }
{
    if index < 4 {
        Spelling::Bare(first + index as u8)
    } else if index < 256 {
        Spelling::Byte(code, index as u8)
    } else {
        Spelling::Wide(code, index)
    }
}

// A constant by its index.
fn constant(index: u16) -> Spelling
    ensures { result ≡ spec.constant_spelling index }
{
    if index < 256 {
        Spelling::Byte(opcode::LDC, index as u8)
    } else {
        Spelling::Short(opcode::LDC_W, index)
    }
}

fn int(pool: &Pool, value: i32) -> Spelling
    ensures { result ≡ spec.int_spelling pool.now.items.keys value }
{
    if -1 <= value && value <= 5 {
        Spelling::Bare(opcode::ICONST_M1 + (value + 1).unsigned_abs() as u8)
    } else if -128 <= value && value <= 127 {
        Spelling::Byte(opcode::BIPUSH, (value as i8).cast_unsigned())
    } else if -32768 <= value && value <= 32767 {
        Spelling::Short(opcode::SIPUSH, (value as i16).cast_unsigned())
    } else {
        constant(pool.index(&PoolItem::Integer(value)))
    }
}

fn long(pool: &Pool, value: i64) -> Spelling
    ensures { result ≡ spec.long_spelling pool.now.items.keys value }
{
    if 0 <= value && value <= 1 {
        Spelling::Bare(opcode::LCONST_0 + value.unsigned_abs() as u8)
    } else {
        Spelling::Short(opcode::LDC2_W, pool.index(&PoolItem::LongInteger(value)))
    }
}

fn increment(index: u16, by: i16) -> Spelling
    ensures { result ≡ spec.increment_spelling index by }
{
    if index < 256 && -128 <= by && by <= 127 {
        Spelling::Increment(index as u8, by as i8)
    } else {
        Spelling::WideIncrement(index, by)
    }
}

// An instruction by the index of a field, of a method or of a class.
fn by_field(alloc: Global, pool: &Pool, code: u8, field: &MemberRef) -> Result<Spelling, AllocError>
    ensures { IfOk result (λ spelling. spelling ≡ Spelling.Short code (index_of pool.now.items.keys (PoolItem.FieldRef field.now))) }
{
    let item = PoolItem::FieldRef(field.try_copy(alloc)?);
    Ok(Spelling::Short(code, pool.index(&item)))
}

fn by_method(
    alloc: Global,
    pool: &Pool,
    code: u8,
    method: &MemberRef,
) -> Result<Spelling, AllocError>
    ensures { IfOk result (λ spelling. spelling ≡ Spelling.Short code (index_of pool.now.items.keys (PoolItem.MethodRef method.now))) }
{
    let item = PoolItem::MethodRef(method.try_copy(alloc)?);
    Ok(Spelling::Short(code, pool.index(&item)))
}

fn by_interface_method(
    alloc: Global,
    pool: &Pool,
    method: &MemberRef,
) -> Result<Spelling, AllocError>
    ensures { IfOk result (λ spelling. spelling ≡ Spelling.Interface (index_of pool.now.items.keys (PoolItem.InterfaceMethodRef method.now))) }
{
    let item = PoolItem::InterfaceMethodRef(method.try_copy(alloc)?);
    Ok(Spelling::Interface(pool.index(&item)))
}

fn by_class(alloc: Global, pool: &Pool, code: u8, name: &Text) -> Result<Spelling, AllocError>
    ensures { IfOk result (λ spelling. spelling ≡ Spelling.Short code (index_of pool.now.items.keys (PoolItem.ClassName name.now))) }
{
    let item = PoolItem::ClassName(name.copy(alloc)?);
    Ok(Spelling::Short(code, pool.index(&item)))
}

fn string(alloc: Global, pool: &Pool, text: &Text) -> Result<Spelling, AllocError>
    ensures { IfOk result (λ spelling. spelling ≡ spec.constant_spelling (index_of pool.now.items.keys (PoolItem.StringText text.now))) }
{
    let item = PoolItem::StringText(text.copy(alloc)?);
    Ok(constant(pool.index(&item)))
}

// How an instruction is spelled, over a pool that has the entries it needs.
pub(crate) fn spelling_of(alloc: Global, pool: &Pool, instr: &Instr) -> Result<Spelling, AllocError>
    ensures { IfOk result (λ spelling. spelling ≡ spec.spelling_of pool.now.items.keys instr.now) }
{
    Ok(match instr {
        Instr::Nop => Spelling::Bare(opcode::NOP),
        Instr::Null => Spelling::Bare(opcode::ACONST_NULL),
        Instr::Int(value) => int(pool, *value),
        Instr::Long(value) => long(pool, *value),
        Instr::Str(text) => string(alloc, pool, text)?,
        Instr::ILoad(index) => local(opcode::ILOAD, opcode::ILOAD_0, *index),
        Instr::LLoad(index) => local(opcode::LLOAD, opcode::LLOAD_0, *index),
        Instr::ALoad(index) => local(opcode::ALOAD, opcode::ALOAD_0, *index),
        Instr::IStore(index) => local(opcode::ISTORE, opcode::ISTORE_0, *index),
        Instr::LStore(index) => local(opcode::LSTORE, opcode::LSTORE_0, *index),
        Instr::AStore(index) => local(opcode::ASTORE, opcode::ASTORE_0, *index),
        Instr::ArrayLoad(elem) => Spelling::Bare(array_load(*elem)),
        Instr::LArrayLoad => Spelling::Bare(opcode::LALOAD),
        Instr::ArrayStore(elem) => Spelling::Bare(array_store(*elem)),
        Instr::LArrayStore => Spelling::Bare(opcode::LASTORE),
        Instr::Stack(op) => Spelling::Bare(stack_move(*op)),
        Instr::Arith(op) => Spelling::Bare(int_arith(*op)),
        Instr::LArith(op) => Spelling::Bare(long_arith(*op)),
        Instr::Neg => Spelling::Bare(opcode::INEG),
        Instr::LNeg => Spelling::Bare(opcode::LNEG),
        Instr::Inc(index, by) => increment(*index, *by),
        Instr::Narrow(op) => Spelling::Bare(narrowing(*op)),
        Instr::I2L => Spelling::Bare(opcode::I2L),
        Instr::L2I => Spelling::Bare(opcode::L2I),
        Instr::LCmp => Spelling::Bare(opcode::LCMP),
        Instr::IfZero(relation, place) => Spelling::Branch(zero_branch(*relation), *place),
        Instr::IfInts(relation, place) => Spelling::Branch(int_branch(*relation), *place),
        Instr::IfSame(place) => Spelling::Branch(opcode::IF_ACMPEQ, *place),
        Instr::IfOther(place) => Spelling::Branch(opcode::IF_ACMPNE, *place),
        Instr::IfNull(place) => Spelling::Branch(opcode::IFNULL, *place),
        Instr::IfNotNull(place) => Spelling::Branch(opcode::IFNONNULL, *place),
        Instr::Goto(place) => Spelling::Branch(opcode::GOTO, *place),
        Instr::TableSwitch { .. } => Spelling::Switch(opcode::TABLESWITCH),
        Instr::LookupSwitch { .. } => Spelling::Switch(opcode::LOOKUPSWITCH),
        Instr::IReturn => Spelling::Bare(opcode::IRETURN),
        Instr::LReturn => Spelling::Bare(opcode::LRETURN),
        Instr::AReturn => Spelling::Bare(opcode::ARETURN),
        Instr::Return => Spelling::Bare(opcode::RETURN),
        Instr::GetStatic(field) => by_field(alloc, pool, opcode::GETSTATIC, field)?,
        Instr::PutStatic(field) => by_field(alloc, pool, opcode::PUTSTATIC, field)?,
        Instr::GetField(field) => by_field(alloc, pool, opcode::GETFIELD, field)?,
        Instr::PutField(field) => by_field(alloc, pool, opcode::PUTFIELD, field)?,
        Instr::InvokeVirtual(method) => by_method(alloc, pool, opcode::INVOKEVIRTUAL, method)?,
        Instr::InvokeSpecial(method) => by_method(alloc, pool, opcode::INVOKESPECIAL, method)?,
        Instr::InvokeInterface(method) => by_interface_method(alloc, pool, method)?,
        Instr::InvokeStatic(method) => by_method(alloc, pool, opcode::INVOKESTATIC, method)?,
        Instr::New(name) => by_class(alloc, pool, opcode::NEW, name)?,
        Instr::NewArray(element) => Spelling::Byte(opcode::NEWARRAY, element_code(*element)),
        Instr::ANewArray(name) => by_class(alloc, pool, opcode::ANEWARRAY, name)?,
        Instr::ArrayLength => Spelling::Bare(opcode::ARRAYLENGTH),
        Instr::Throw => Spelling::Bare(opcode::ATHROW),
        Instr::CheckCast(name) => by_class(alloc, pool, opcode::CHECKCAST, name)?,
        Instr::InstanceOf(name) => by_class(alloc, pool, opcode::INSTANCEOF, name)?,
        Instr::MonitorEnter => Spelling::Bare(opcode::MONITORENTER),
        Instr::MonitorExit => Spelling::Bare(opcode::MONITOREXIT),
    })
}

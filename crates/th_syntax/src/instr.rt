// The instructions of the profile.
use std::alloc::{AllocError, Global};
use std::hash::{Hash, Hasher};
use th_base::{ArithOp, Elem, NarrowOp, Relation, Same, Seq, Text, TryCopy};

/// A move of groups of stack slots (Java specification 6.5, `pop` to `swap`).
#[derive(Clone, Copy, Debug, PartialEq, Eq)]
pub enum StackOp {
    Pop,
    Pop2,
    Dup,
    DupX1,
    DupX2,
    Dup2,
    Dup2X1,
    Dup2X2,
    Swap,
}

/// The element type of an array of a primitive type (Java specification, table 6.5.newarray-A).
#[derive(Clone, Copy, Debug, PartialEq, Eq)]
pub enum Primitive {
    Boolean,
    Char,
    Byte,
    Short,
    Int,
    Long,
}

/// A symbolic reference to a field or a method (Java specification 4.4.2).
#[derive(Debug, Drop)]
pub struct MemberRef {
    /// The named class, or an array descriptor for a method of an array class.
    pub owner: Text,
    pub name: Text,
    pub descriptor: Text,
}

/// The target of a branch that leads to before the code, or to 2^32 or beyond: no instruction starts
/// there.
pub const OUTSIDE: u32 = u32::MAX;

/// An instruction (Java specification 6.5). Several spellings of one instruction, such as
/// `aload_0` and `aload 0`, are one variant. A local variable is named by its index, and the
/// target of a branch by its offset in bytes from the start of the code.
#[derive(Debug, Drop)]
pub enum Instr {
    /// `nop`.
    Nop,
    /// `aconst_null`.
    Null,
    /// `iconst_<i>`, `bipush`, `sipush`, and `ldc` of an Integer.
    Int(i32),
    /// `lconst_<l>`, and `ldc2_w` of a Long.
    Long(i64),
    /// `ldc` of a String, by its bytes.
    Str(Text),
    ILoad(u16),
    LLoad(u16),
    ALoad(u16),
    IStore(u16),
    LStore(u16),
    AStore(u16),
    /// `iaload` to `saload`, but for `laload`.
    ArrayLoad(Elem),
    LArrayLoad,
    /// `iastore` to `sastore`, but for `lastore`.
    ArrayStore(Elem),
    LArrayStore,
    Stack(StackOp),
    /// `iadd` to `ixor`.
    Arith(ArithOp),
    /// `ladd` to `lxor`.
    LArith(ArithOp),
    /// `ineg`.
    Neg,
    LNeg,
    /// `iinc`: the local, and what is added.
    Inc(u16, i16),
    /// `i2b`, `i2c`, `i2s`.
    Narrow(NarrowOp),
    I2L,
    L2I,
    LCmp,
    /// `if<cond>`.
    IfZero(Relation, u32),
    /// `if_icmp<cond>`.
    IfInts(Relation, u32),
    /// `if_acmpeq`.
    IfSame(u32),
    /// `if_acmpne`.
    IfOther(u32),
    IfNull(u32),
    IfNotNull(u32),
    /// `goto`, `goto_w`.
    Goto(u32),
    /// `tableswitch`: the targets of `low`, `low + 1` and on, and the default's.
    TableSwitch {
        low: i32,
        targets: Seq<u32>,
        other: u32,
    },
    /// `lookupswitch`: ascending keys with their targets, and the default's target.
    LookupSwitch {
        pairs: Seq<(i32, u32)>,
        other: u32,
    },
    IReturn,
    LReturn,
    AReturn,
    Return,
    GetStatic(MemberRef),
    PutStatic(MemberRef),
    GetField(MemberRef),
    PutField(MemberRef),
    InvokeVirtual(MemberRef),
    InvokeSpecial(MemberRef),
    InvokeInterface(MemberRef),
    InvokeStatic(MemberRef),
    New(Text),
    NewArray(Primitive),
    /// `anewarray`: the element class, or an array descriptor.
    ANewArray(Text),
    ArrayLength,
    /// `athrow`.
    Throw,
    CheckCast(Text),
    InstanceOf(Text),
    MonitorEnter,
    MonitorExit,
}

impl TryCopy for MemberRef {
    fn try_copy(&self, alloc: Global) -> Result<MemberRef, AllocError> {
        Ok(MemberRef {
            owner: self.owner.copy(alloc)?,
            name: self.name.copy(alloc)?,
            descriptor: self.descriptor.copy(alloc)?,
        })
    }
}

impl PartialEq for MemberRef {
    ghost use Rattle.std.proofs.Common.{rules};
    ghost use Rattle.std.specs.Cmp.Rules.{comparing};
    ghost use Rattle.th_syntax.specs.Refs.{is_same_ref};

    ghost eq = { is_same_ref };

    ghost laws = { Prim.search (comparing, rules) };

    fn eq(&self, other: &MemberRef) -> bool {
        self.owner == other.owner
            && (self.name == other.name && self.descriptor == other.descriptor)
    }
}

impl Eq for MemberRef {
    ghost use Rattle.std.proofs.Common.{rules};
    ghost use Rattle.std.specs.Cmp.Rules.{comparing};

    ghost laws = { Prim.search (comparing, rules) };
}

impl Hash for MemberRef {
    ghost use Rattle.std.specs.Prelude.{◌++◌};
    ghost use Rattle.std.specs.Hash as fed;
    ghost use Rattle.std.proofs.Common.{rules};
    ghost use Rattle.std.specs.Cmp.Rules.{comparing, hashing};

    ghost hash_input = { λ r. fed.slice fed.u8 r.owner ++ fed.slice fed.u8 r.name ++ fed.slice fed.u8 r.descriptor };

    ghost respects_eq = { Prim.search (hashing, rules) };

    fn hash<H: Hasher>(&self, state: &mut H) {
        self.owner.hash(state);
        self.name.hash(state);
        self.descriptor.hash(state);
    }
}

impl Same for MemberRef {
    fn same(&self, other: &MemberRef) -> bool {
        self.owner.same(&other.owner)
            && self.name.same(&other.name)
            && self.descriptor.same(&other.descriptor)
    }
}

impl TryCopy for Instr {
    fn try_copy(&self, alloc: Global) -> Result<Instr, AllocError> {
        Ok(match self {
            Instr::Nop => Instr::Nop,
            Instr::Null => Instr::Null,
            Instr::Int(value) => Instr::Int(*value),
            Instr::Long(value) => Instr::Long(*value),
            Instr::Str(text) => Instr::Str(text.copy(alloc)?),
            Instr::ILoad(local) => Instr::ILoad(*local),
            Instr::LLoad(local) => Instr::LLoad(*local),
            Instr::ALoad(local) => Instr::ALoad(*local),
            Instr::IStore(local) => Instr::IStore(*local),
            Instr::LStore(local) => Instr::LStore(*local),
            Instr::AStore(local) => Instr::AStore(*local),
            Instr::ArrayLoad(elem) => Instr::ArrayLoad(*elem),
            Instr::LArrayLoad => Instr::LArrayLoad,
            Instr::ArrayStore(elem) => Instr::ArrayStore(*elem),
            Instr::LArrayStore => Instr::LArrayStore,
            Instr::Stack(op) => Instr::Stack(*op),
            Instr::Arith(op) => Instr::Arith(*op),
            Instr::LArith(op) => Instr::LArith(*op),
            Instr::Neg => Instr::Neg,
            Instr::LNeg => Instr::LNeg,
            Instr::Inc(local, by) => Instr::Inc(*local, *by),
            Instr::Narrow(op) => Instr::Narrow(*op),
            Instr::I2L => Instr::I2L,
            Instr::L2I => Instr::L2I,
            Instr::LCmp => Instr::LCmp,
            Instr::IfZero(relation, target) => Instr::IfZero(*relation, *target),
            Instr::IfInts(relation, target) => Instr::IfInts(*relation, *target),
            Instr::IfSame(target) => Instr::IfSame(*target),
            Instr::IfOther(target) => Instr::IfOther(*target),
            Instr::IfNull(target) => Instr::IfNull(*target),
            Instr::IfNotNull(target) => Instr::IfNotNull(*target),
            Instr::Goto(target) => Instr::Goto(*target),
            Instr::TableSwitch {
                low,
                targets,
                other,
            } => Instr::TableSwitch {
                low: *low,
                targets: targets.copy(alloc)?,
                other: *other,
            },
            Instr::LookupSwitch { pairs, other } => Instr::LookupSwitch {
                pairs: pairs.copy(alloc)?,
                other: *other,
            },
            Instr::IReturn => Instr::IReturn,
            Instr::LReturn => Instr::LReturn,
            Instr::AReturn => Instr::AReturn,
            Instr::Return => Instr::Return,
            Instr::GetStatic(member) => Instr::GetStatic(member.try_copy(alloc)?),
            Instr::PutStatic(member) => Instr::PutStatic(member.try_copy(alloc)?),
            Instr::GetField(member) => Instr::GetField(member.try_copy(alloc)?),
            Instr::PutField(member) => Instr::PutField(member.try_copy(alloc)?),
            Instr::InvokeVirtual(member) => Instr::InvokeVirtual(member.try_copy(alloc)?),
            Instr::InvokeSpecial(member) => Instr::InvokeSpecial(member.try_copy(alloc)?),
            Instr::InvokeInterface(member) => Instr::InvokeInterface(member.try_copy(alloc)?),
            Instr::InvokeStatic(member) => Instr::InvokeStatic(member.try_copy(alloc)?),
            Instr::New(text) => Instr::New(text.copy(alloc)?),
            Instr::NewArray(primitive) => Instr::NewArray(*primitive),
            Instr::ANewArray(text) => Instr::ANewArray(text.copy(alloc)?),
            Instr::ArrayLength => Instr::ArrayLength,
            Instr::Throw => Instr::Throw,
            Instr::CheckCast(text) => Instr::CheckCast(text.copy(alloc)?),
            Instr::InstanceOf(text) => Instr::InstanceOf(text.copy(alloc)?),
            Instr::MonitorEnter => Instr::MonitorEnter,
            Instr::MonitorExit => Instr::MonitorExit,
        })
    }
}

impl Same for Instr {
    fn same(&self, other: &Instr) -> bool {
        match (self, other) {
            (Instr::Nop, Instr::Nop) => true,
            (Instr::Null, Instr::Null) => true,
            (Instr::Int(left), Instr::Int(right)) => *left == *right,
            (Instr::Long(left), Instr::Long(right)) => *left == *right,
            (Instr::Str(left), Instr::Str(right)) => left.same(right),
            (Instr::ILoad(left), Instr::ILoad(right)) => *left == *right,
            (Instr::LLoad(left), Instr::LLoad(right)) => *left == *right,
            (Instr::ALoad(left), Instr::ALoad(right)) => *left == *right,
            (Instr::IStore(left), Instr::IStore(right)) => *left == *right,
            (Instr::LStore(left), Instr::LStore(right)) => *left == *right,
            (Instr::AStore(left), Instr::AStore(right)) => *left == *right,
            (Instr::ArrayLoad(left), Instr::ArrayLoad(right)) => *left == *right,
            (Instr::LArrayLoad, Instr::LArrayLoad) => true,
            (Instr::ArrayStore(left), Instr::ArrayStore(right)) => *left == *right,
            (Instr::LArrayStore, Instr::LArrayStore) => true,
            (Instr::Stack(left), Instr::Stack(right)) => *left == *right,
            (Instr::Arith(left), Instr::Arith(right)) => *left == *right,
            (Instr::LArith(left), Instr::LArith(right)) => *left == *right,
            (Instr::Neg, Instr::Neg) => true,
            (Instr::LNeg, Instr::LNeg) => true,
            (Instr::Inc(left, by), Instr::Inc(right, to)) => *left == *right && *by == *to,
            (Instr::Narrow(left), Instr::Narrow(right)) => *left == *right,
            (Instr::I2L, Instr::I2L) => true,
            (Instr::L2I, Instr::L2I) => true,
            (Instr::LCmp, Instr::LCmp) => true,
            (Instr::IfZero(left, by), Instr::IfZero(right, to)) => *left == *right && *by == *to,
            (Instr::IfInts(left, by), Instr::IfInts(right, to)) => *left == *right && *by == *to,
            (Instr::IfSame(left), Instr::IfSame(right)) => *left == *right,
            (Instr::IfOther(left), Instr::IfOther(right)) => *left == *right,
            (Instr::IfNull(left), Instr::IfNull(right)) => *left == *right,
            (Instr::IfNotNull(left), Instr::IfNotNull(right)) => *left == *right,
            (Instr::Goto(left), Instr::Goto(right)) => *left == *right,
            (
                Instr::TableSwitch {
                    low,
                    targets,
                    other,
                },
                Instr::TableSwitch {
                    low: low_too,
                    targets: targets_too,
                    other: other_too,
                },
            ) => *low == *low_too && targets.same(targets_too) && *other == *other_too,
            (
                Instr::LookupSwitch { pairs, other },
                Instr::LookupSwitch {
                    pairs: pairs_too,
                    other: other_too,
                },
            ) => pairs.same(pairs_too) && *other == *other_too,
            (Instr::IReturn, Instr::IReturn) => true,
            (Instr::LReturn, Instr::LReturn) => true,
            (Instr::AReturn, Instr::AReturn) => true,
            (Instr::Return, Instr::Return) => true,
            (Instr::GetStatic(left), Instr::GetStatic(right)) => left.same(right),
            (Instr::PutStatic(left), Instr::PutStatic(right)) => left.same(right),
            (Instr::GetField(left), Instr::GetField(right)) => left.same(right),
            (Instr::PutField(left), Instr::PutField(right)) => left.same(right),
            (Instr::InvokeVirtual(left), Instr::InvokeVirtual(right)) => left.same(right),
            (Instr::InvokeSpecial(left), Instr::InvokeSpecial(right)) => left.same(right),
            (Instr::InvokeInterface(left), Instr::InvokeInterface(right)) => left.same(right),
            (Instr::InvokeStatic(left), Instr::InvokeStatic(right)) => left.same(right),
            (Instr::New(left), Instr::New(right)) => left.same(right),
            (Instr::NewArray(left), Instr::NewArray(right)) => *left == *right,
            (Instr::ANewArray(left), Instr::ANewArray(right)) => left.same(right),
            (Instr::ArrayLength, Instr::ArrayLength) => true,
            (Instr::Throw, Instr::Throw) => true,
            (Instr::CheckCast(left), Instr::CheckCast(right)) => left.same(right),
            (Instr::InstanceOf(left), Instr::InstanceOf(right)) => left.same(right),
            (Instr::MonitorEnter, Instr::MonitorEnter) => true,
            (Instr::MonitorExit, Instr::MonitorExit) => true,
            _ => false,
        }
    }
}

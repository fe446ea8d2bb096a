// The statements of the register form.
use std::alloc::{AllocError, Global};
use th_base::{
    ArithOp, ClassId, Elem, FieldId, MethodId, NarrowOp, Reg, Relation, Same, Seq, SiteId, Text,
    TryCopy,
};

/// How a call finds the method that it takes.
#[derive(Clone, Copy, Debug, PartialEq, Eq)]
pub enum CallKind {
    /// By the class of the receiver.
    Virtual,
    /// This method; `None` where there is none with code.
    Special(Option<MethodId>),
    /// The resolved method.
    Static,
}

/// What an `Assume` asks.
#[derive(Debug, Drop)]
pub enum Condition {
    /// An int stands in this relation to a second one, or to 0.
    Ints(Relation, Reg, Option<Reg>),
    /// Two references are the same.
    SameRef(Reg, Reg),
    /// Two references are not the same.
    OtherRef(Reg, Reg),
    /// A reference is null.
    IsNull(Reg),
    /// A reference is not null.
    NotNull(Reg),
    /// An int is this number.
    Key(Reg, i32),
    /// An int is none of these numbers.
    NoKey(Reg, Seq<i32>),
}

/// A statement. A register that it sets stands first.
#[derive(Debug, Drop)]
pub enum Stmt {
    /// Does nothing.
    Nop,
    /// Sets a register to an int.
    Const(Reg, i32),
    /// Sets a register to null.
    Null(Reg),
    /// Sets a register to the String constant of a site.
    Str(Reg, SiteId),
    /// Moves all at once, each target before its source.
    Copy(Seq<(Reg, Reg)>),
    /// An operation on two ints.
    Arith(Reg, ArithOp, Reg, Reg),
    /// The negation of an int.
    Neg(Reg, Reg),
    /// The sum of an int and a number.
    AddConst(Reg, Reg, i32),
    /// A narrowing of an int.
    Narrow(Reg, NarrowOp, Reg),
    /// Sets a register to any int.
    AnyInt(Reg),
    /// Goes on only where the condition holds.
    Assume(Condition),
    /// The value of a static field.
    GetStatic(Reg, FieldId),
    /// Stores a register into a static field.
    PutStatic(FieldId, Reg),
    /// The value of a field of an object.
    GetField(Reg, Reg, FieldId),
    /// Stores the last register into a field of the object in the first.
    PutField(Reg, FieldId, Reg),
    /// Some element of an array of references; any int where the elements are of an int type.
    GetElem(Reg, Reg, Elem),
    /// Stores the last register into some element of the array of references in the first.
    PutElem(Reg, Reg),
    /// The length of an array.
    Length(Reg, Reg),
    /// A new object of the class of a site.
    New(Reg, SiteId),
    /// A new array of a site with as many elements as the last register says.
    NewArray(Reg, SiteId, Reg),
    /// Goes on only where the value is null or of a subtype of this class or array type.
    Cast(Reg, Reg, Text),
    /// 1 where the value is an object of a subtype of this class or array type, else 0.
    InstanceOf(Reg, Reg, Text),
    /// A call of a resolved method, the receiver first among the arguments. Where it takes a result
    /// the first register has it.
    Call(Option<Reg>, CallKind, MethodId, Seq<Reg>),
    /// Passes, or calls the initialiser of the class or of a superclass and comes back to itself.
    Init(ClassId),
    /// Leaves the method, with a result where there is one.
    Return(Option<Reg>),
    /// Any launched object of the class.
    Pick(Reg, ClassId),
    /// Goes on only where the value is not null.
    NonNull(Reg),
    /// Never goes on.
    Halt,
}

impl TryCopy for CallKind {
    fn try_copy(&self, _alloc: Global) -> Result<CallKind, AllocError> {
        Ok(*self)
    }
}

impl Same for CallKind {
    fn same(&self, other: &CallKind) -> bool {
        *self == *other
    }
}

impl TryCopy for Condition {
    fn try_copy(&self, alloc: Global) -> Result<Condition, AllocError> {
        Ok(match self {
            Condition::Ints(relation, left, right) => Condition::Ints(*relation, *left, *right),
            Condition::SameRef(left, right) => Condition::SameRef(*left, *right),
            Condition::OtherRef(left, right) => Condition::OtherRef(*left, *right),
            Condition::IsNull(src) => Condition::IsNull(*src),
            Condition::NotNull(src) => Condition::NotNull(*src),
            Condition::Key(src, key) => Condition::Key(*src, *key),
            Condition::NoKey(src, keys) => Condition::NoKey(*src, keys.try_copy(alloc)?),
        })
    }
}

impl Same for Condition {
    fn same(&self, other: &Condition) -> bool {
        match (self, other) {
            (Condition::Ints(relation, a, b), Condition::Ints(other_relation, c, d)) => {
                *relation == *other_relation && *a == *c && b.same(d)
            }
            (Condition::SameRef(a, b), Condition::SameRef(c, d)) => *a == *c && *b == *d,
            (Condition::OtherRef(a, b), Condition::OtherRef(c, d)) => *a == *c && *b == *d,
            (Condition::IsNull(a), Condition::IsNull(c)) => *a == *c,
            (Condition::NotNull(a), Condition::NotNull(c)) => *a == *c,
            (Condition::Key(a, key), Condition::Key(c, other_key)) => {
                *a == *c && *key == *other_key
            }
            (Condition::NoKey(a, keys), Condition::NoKey(c, other_keys)) => {
                *a == *c && keys.same(other_keys)
            }
            _ => false,
        }
    }
}

impl TryCopy for Stmt {
    fn try_copy(&self, alloc: Global) -> Result<Stmt, AllocError> {
        Ok(match self {
            Stmt::Nop => Stmt::Nop,
            Stmt::Const(dst, value) => Stmt::Const(*dst, *value),
            Stmt::Null(dst) => Stmt::Null(*dst),
            Stmt::Str(dst, site) => Stmt::Str(*dst, *site),
            Stmt::Copy(pairs) => Stmt::Copy(pairs.try_copy(alloc)?),
            Stmt::Arith(dst, op, a, b) => Stmt::Arith(*dst, *op, *a, *b),
            Stmt::Neg(dst, a) => Stmt::Neg(*dst, *a),
            Stmt::AddConst(dst, a, value) => Stmt::AddConst(*dst, *a, *value),
            Stmt::Narrow(dst, op, a) => Stmt::Narrow(*dst, *op, *a),
            Stmt::AnyInt(dst) => Stmt::AnyInt(*dst),
            Stmt::Assume(condition) => Stmt::Assume(condition.try_copy(alloc)?),
            Stmt::GetStatic(dst, field) => Stmt::GetStatic(*dst, *field),
            Stmt::PutStatic(field, src) => Stmt::PutStatic(*field, *src),
            Stmt::GetField(dst, base, field) => Stmt::GetField(*dst, *base, *field),
            Stmt::PutField(base, field, src) => Stmt::PutField(*base, *field, *src),
            Stmt::GetElem(dst, array, kind) => Stmt::GetElem(*dst, *array, *kind),
            Stmt::PutElem(array, src) => Stmt::PutElem(*array, *src),
            Stmt::Length(dst, array) => Stmt::Length(*dst, *array),
            Stmt::New(dst, site) => Stmt::New(*dst, *site),
            Stmt::NewArray(dst, site, count) => Stmt::NewArray(*dst, *site, *count),
            Stmt::Cast(dst, src, class) => Stmt::Cast(*dst, *src, class.try_copy(alloc)?),
            Stmt::InstanceOf(dst, src, class) => {
                let class = class.try_copy(alloc)?;
                Stmt::InstanceOf(*dst, *src, class)
            }
            Stmt::Call(dst, kind, method, args) => {
                let args = args.try_copy(alloc)?;
                Stmt::Call(*dst, *kind, *method, args)
            }
            Stmt::Init(class) => Stmt::Init(*class),
            Stmt::Return(src) => Stmt::Return(*src),
            Stmt::Pick(dst, class) => Stmt::Pick(*dst, *class),
            Stmt::NonNull(src) => Stmt::NonNull(*src),
            Stmt::Halt => Stmt::Halt,
        })
    }
}

impl Same for Stmt {
    fn same(&self, other: &Stmt) -> bool {
        match (self, other) {
            (Stmt::Nop, Stmt::Nop) => true,
            (Stmt::Const(a, value), Stmt::Const(c, other_value)) => {
                *a == *c && *value == *other_value
            }
            (Stmt::Null(a), Stmt::Null(c)) => *a == *c,
            (Stmt::Str(a, site), Stmt::Str(c, other_site)) => *a == *c && *site == *other_site,
            (Stmt::Copy(pairs), Stmt::Copy(other_pairs)) => pairs.same(other_pairs),
            (Stmt::Arith(dst, op, a, b), Stmt::Arith(other_dst, other_op, c, d)) => {
                *dst == *other_dst && *op == *other_op && *a == *c && *b == *d
            }
            (Stmt::Neg(a, b), Stmt::Neg(c, d)) => *a == *c && *b == *d,
            (Stmt::AddConst(a, b, value), Stmt::AddConst(c, d, other_value)) => {
                *a == *c && *b == *d && *value == *other_value
            }
            (Stmt::Narrow(a, op, b), Stmt::Narrow(c, other_op, d)) => {
                *a == *c && *op == *other_op && *b == *d
            }
            (Stmt::AnyInt(a), Stmt::AnyInt(c)) => *a == *c,
            (Stmt::Assume(condition), Stmt::Assume(other_condition)) => {
                condition.same(other_condition)
            }
            (Stmt::GetStatic(a, field), Stmt::GetStatic(c, other_field)) => {
                *a == *c && *field == *other_field
            }
            (Stmt::PutStatic(field, a), Stmt::PutStatic(other_field, c)) => {
                *field == *other_field && *a == *c
            }
            (Stmt::GetField(a, b, field), Stmt::GetField(c, d, other_field)) => {
                *a == *c && *b == *d && *field == *other_field
            }
            (Stmt::PutField(a, field, b), Stmt::PutField(c, other_field, d)) => {
                *a == *c && *field == *other_field && *b == *d
            }
            (Stmt::GetElem(a, b, kind), Stmt::GetElem(c, d, other_kind)) => {
                *a == *c && *b == *d && *kind == *other_kind
            }
            (Stmt::PutElem(a, b), Stmt::PutElem(c, d)) => *a == *c && *b == *d,
            (Stmt::Length(a, b), Stmt::Length(c, d)) => *a == *c && *b == *d,
            (Stmt::New(a, site), Stmt::New(c, other_site)) => *a == *c && *site == *other_site,
            (Stmt::NewArray(a, site, b), Stmt::NewArray(c, other_site, d)) => {
                *a == *c && *site == *other_site && *b == *d
            }
            (Stmt::Cast(a, b, class), Stmt::Cast(c, d, other_class)) => {
                *a == *c && *b == *d && class.same(other_class)
            }
            (Stmt::InstanceOf(a, b, class), Stmt::InstanceOf(c, d, other_class)) => {
                *a == *c && *b == *d && class.same(other_class)
            }
            (
                Stmt::Call(dst, kind, method, args),
                Stmt::Call(other_dst, other_kind, other_method, other_args),
            ) => {
                dst.same(other_dst)
                    && *kind == *other_kind
                    && *method == *other_method
                    && args.same(other_args)
            }
            (Stmt::Init(class), Stmt::Init(other_class)) => *class == *other_class,
            (Stmt::Return(src), Stmt::Return(other_src)) => src.same(other_src),
            (Stmt::Pick(a, class), Stmt::Pick(c, other_class)) => {
                *a == *c && *class == *other_class
            }
            (Stmt::NonNull(a), Stmt::NonNull(c)) => *a == *c,
            (Stmt::Halt, Stmt::Halt) => true,
            _ => false,
        }
    }
}

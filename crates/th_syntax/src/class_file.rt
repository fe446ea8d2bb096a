// What a class file stands for.
use crate::Instr;
use std::alloc::{AllocError, Global};
use th_base::{Same, Seq, Text, TryCopy};

/// A class or an interface as its file defines it (Java specification 4.1).
#[derive(Debug, Drop)]
pub struct ClassFile {
    /// The major version, from 45 to 52.
    pub major: u16,
    /// The access flags (Java specification 4.1, table 4.1-A).
    pub access: u16,
    /// The class's own name, in internal form.
    pub name: Text,
    /// The direct superclass's name, where the file names one.
    pub super_name: Option<Text>,
    /// The names of the direct superinterfaces, in order.
    pub interfaces: Seq<Text>,
    /// The fields that the class declares, in order.
    pub fields: Seq<Member>,
    /// The methods that the class declares, in order.
    pub methods: Seq<Member>,
}

/// A field or a method (Java specification 4.5 and 4.6).
#[derive(Debug, Drop)]
pub struct Member {
    /// The access flags (Java specification, tables 4.5-A and 4.6-A).
    pub access: u16,
    pub name: Text,
    pub descriptor: Text,
    /// The value of a static field's ConstantValue attribute (Java specification 4.7.2).
    pub constant: Option<Constant>,
    /// A method's Code attribute.
    pub code: Option<Code>,
}

/// The value of a ConstantValue attribute.
#[derive(Debug, Drop)]
pub enum Constant {
    Int(i32),
    Long(i64),
    Str(Text),
}

/// The code of a method (Java specification 4.7.3).
#[derive(Debug, Drop)]
pub struct Code {
    pub max_stack: u16,
    pub max_locals: u16,
    /// The instructions in order, each with its offset in bytes from the start of the code.
    pub instrs: Seq<(u32, Instr)>,
    /// How many entries the exception table has.
    pub handlers: u32,
}

impl TryCopy for Constant {
    fn try_copy(&self, alloc: Global) -> Result<Constant, AllocError> {
        Ok(match self {
            Constant::Int(value) => Constant::Int(*value),
            Constant::Long(value) => Constant::Long(*value),
            Constant::Str(text) => Constant::Str(text.copy(alloc)?),
        })
    }
}

impl Same for Constant {
    fn same(&self, other: &Constant) -> bool {
        match (self, other) {
            (Constant::Int(left), Constant::Int(right)) => *left == *right,
            (Constant::Long(left), Constant::Long(right)) => *left == *right,
            (Constant::Str(left), Constant::Str(right)) => left.same(right),
            _ => false,
        }
    }
}

impl TryCopy for Code {
    fn try_copy(&self, alloc: Global) -> Result<Code, AllocError> {
        Ok(Code {
            max_stack: self.max_stack,
            max_locals: self.max_locals,
            instrs: self.instrs.copy(alloc)?,
            handlers: self.handlers,
        })
    }
}

impl Same for Code {
    fn same(&self, other: &Code) -> bool {
        self.max_stack == other.max_stack
            && self.max_locals == other.max_locals
            && self.instrs.same(&other.instrs)
            && self.handlers == other.handlers
    }
}

impl TryCopy for Member {
    fn try_copy(&self, alloc: Global) -> Result<Member, AllocError> {
        Ok(Member {
            access: self.access,
            name: self.name.copy(alloc)?,
            descriptor: self.descriptor.copy(alloc)?,
            constant: self.constant.try_copy(alloc)?,
            code: self.code.try_copy(alloc)?,
        })
    }
}

impl Same for Member {
    fn same(&self, other: &Member) -> bool {
        self.access == other.access
            && self.name.same(&other.name)
            && self.descriptor.same(&other.descriptor)
            && self.constant.same(&other.constant)
            && self.code.same(&other.code)
    }
}

impl TryCopy for ClassFile {
    fn try_copy(&self, alloc: Global) -> Result<ClassFile, AllocError> {
        Ok(ClassFile {
            major: self.major,
            access: self.access,
            name: self.name.copy(alloc)?,
            super_name: self.super_name.try_copy(alloc)?,
            interfaces: self.interfaces.copy(alloc)?,
            fields: self.fields.copy(alloc)?,
            methods: self.methods.copy(alloc)?,
        })
    }
}

impl Same for ClassFile {
    fn same(&self, other: &ClassFile) -> bool {
        self.major == other.major
            && self.access == other.access
            && self.name.same(&other.name)
            && self.super_name.same(&other.super_name)
            && self.interfaces.same(&other.interfaces)
            && self.fields.same(&other.fields)
            && self.methods.same(&other.methods)
    }
}

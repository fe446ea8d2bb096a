// A class to be written.
ghost use Rattle.std.specs.Prelude.{◌≡◌, [], ◌∷◌, ◌++◌, OnOk, OnErr, IfOk};

use std::alloc::{AllocError, Global};
use th_base::{Seq, Text, TryCopy};
use th_syntax::Instr;

/// A field of a class to be written.
#[derive(Debug, Drop)]
pub struct DraftField {
    /// The access flags (Java specification, table 4.5-A).
    pub access: u16,
    pub name: Text,
    pub descriptor: Text,
}

/// A method of a class to be written. One without instructions has no code.
#[derive(Debug, Drop)]
pub struct DraftMethod {
    /// The access flags (Java specification, table 4.6-A).
    pub access: u16,
    pub name: Text,
    pub descriptor: Text,
    pub max_stack: u16,
    pub max_locals: u16,
    /// The instructions in order. The targets of branches are their places, from 0.
    pub instrs: Seq<Instr>,
}

/// A public class to be written, of Java SE 8 (version 52.0).
#[derive(Debug, Drop)]
pub struct ClassWriter {
    /// The class's name, in internal form.
    pub name: Text,
    /// The direct superclass's name.
    pub super_name: Text,
    /// The fields, in order.
    pub fields: Seq<DraftField>,
    /// The methods, in order.
    pub methods: Seq<DraftMethod>,
}

// A copy of each instruction.
fn copied(alloc: Global, instrs: &[Instr]) -> Result<Seq<Instr>, AllocError>
    ensures { IfOk result (λ copy. copy ≡ instrs.now) }
{
    let mut copy = Seq::new(alloc);
    for instr in instrs {
        copy.push(instr.try_copy(alloc)?)?;
    }
    Ok(copy)
}

impl ClassWriter {
    /// A class without members.
    pub fn new(alloc: Global, name: &Text, super_name: &Text) -> Result<ClassWriter, AllocError>
        ensures { IfOk result (λ writer. writer ≡ record { name = name.now; super_name = super_name.now; fields = []; methods = [] }) }
    {
        Ok(ClassWriter {
            name: name.copy(alloc)?,
            super_name: super_name.copy(alloc)?,
            fields: Seq::new(alloc),
            methods: Seq::new(alloc),
        })
    }

    /// Adds a field. After want of memory the class is as before.
    pub fn field(
        &mut self,
        alloc: Global,
        access: u16,
        name: &Text,
        descriptor: &Text,
    ) -> Result<(), AllocError>
        ensures ok { OnOk result (self.new ≡ record self.old { fields = self.old.fields ++ record { access = access; name = name.now; descriptor = descriptor.now } ∷ [] }) }
        ensures err { OnErr result (self.new ≡ self.old) }
    {
        self.fields.push(DraftField {
            access,
            name: name.copy(alloc)?,
            descriptor: descriptor.copy(alloc)?,
        })
    }

    /// Adds a method with these instructions, whose branches lead to places of instructions; one
    /// without instructions has no code. After want of memory the class is as before.
    pub fn method(
        &mut self,
        alloc: Global,
        access: u16,
        name: &Text,
        descriptor: &Text,
        max_stack: u16,
        max_locals: u16,
        instrs: &[Instr],
    ) -> Result<(), AllocError>
        ensures ok { OnOk result (self.new ≡ record self.old { methods = self.old.methods ++ record { access = access; name = name.now; descriptor = descriptor.now; max_stack = max_stack; max_locals = max_locals; instrs = instrs.now } ∷ [] }) }
        ensures err { OnErr result (self.new ≡ self.old) }
    {
        self.methods.push(DraftMethod {
            access,
            name: name.copy(alloc)?,
            descriptor: descriptor.copy(alloc)?,
            max_stack,
            max_locals,
            instrs: copied(alloc, instrs)?,
        })
    }
}

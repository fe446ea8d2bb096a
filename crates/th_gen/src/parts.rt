// Parts of the classes of the generated program.
ghost use Rattle.std.specs.Prelude.{◌≡◌, IfOk};
ghost use Rattle.th_gen.specs.Generated as spec;

use crate::draft::{DraftField, DraftMethod};
use std::alloc::{AllocError, Global};
use th_base::{Seq, Text};
use th_syntax::{Instr, MemberRef};

// A member of a class.
pub(crate) fn member(
    alloc: Global,
    owner: &Text,
    name: &[u8],
    descriptor: &[u8],
) -> Result<MemberRef, AllocError>
    ensures { IfOk result (λ m. m ≡ spec.member owner.now name.now descriptor.now) }
{
    Ok(MemberRef {
        owner: owner.copy(alloc)?,
        name: Text::from_slice(alloc, name)?,
        descriptor: Text::from_slice(alloc, descriptor)?,
    })
}

// A class's constructor without parameters.
pub(crate) fn constructor(alloc: Global, owner: &Text) -> Result<MemberRef, AllocError>
    ensures { IfOk result (λ m. m ≡ spec.constructor owner.now) }
{
    member(alloc, owner, b"<init>", b"()V")
}

// A method of a class to be written.
pub(crate) fn method(
    alloc: Global,
    access: u16,
    name: &[u8],
    descriptor: &[u8],
    max_stack: u16,
    max_locals: u16,
    instrs: Vec<Instr>,
) -> Result<DraftMethod, AllocError>
    ensures { IfOk result (λ m. m ≡ record { access = access; name = name.now; descriptor = descriptor.now; max_stack = max_stack; max_locals = max_locals; instrs = instrs.items }) }
{
    Ok(DraftMethod {
        access,
        name: Text::from_slice(alloc, name)?,
        descriptor: Text::from_slice(alloc, descriptor)?,
        max_stack,
        max_locals,
        instrs: Seq::from_vec(instrs),
    })
}

// A field of a class to be written.
pub(crate) fn field(
    alloc: Global,
    access: u16,
    name: &[u8],
    descriptor: &[u8],
) -> Result<DraftField, AllocError>
    ensures { IfOk result (λ f. f ≡ record { access = access; name = name.now; descriptor = descriptor.now }) }
{
    Ok(DraftField {
        access,
        name: Text::from_slice(alloc, name)?,
        descriptor: Text::from_slice(alloc, descriptor)?,
    })
}

// A constructor that calls the superclass's.
pub(crate) fn plain_constructor(alloc: Global, super_name: &Text) -> Result<DraftMethod, AllocError>
    ensures { IfOk result (λ m. m ≡ spec.plain_constructor super_name.now) }
{
    let instrs = vec![in alloc;
        Instr::ALoad(0),
        Instr::InvokeSpecial(constructor(alloc, super_name)?),
        Instr::Return,
    ]?;
    method(alloc, 1, b"<init>", b"()V", 1, 1, instrs)
}

// The handler of the event that a class is created by.
pub(crate) fn on_create(
    alloc: Global,
    max_stack: u16,
    instrs: Vec<Instr>,
) -> Result<DraftMethod, AllocError>
    ensures { IfOk result (λ m. m ≡ spec.on_create max_stack instrs.items) }
{
    method(
        alloc,
        1,
        b"onCreate",
        b"(Landroid/os/Bundle;)V",
        max_stack,
        2,
        instrs,
    )
}

// What a single instruction names.
ghost use Rattle.std.specs.Prelude.{◌≡◌, ◌<◌, ◌&&◌, ◌++◌, ◌∷◌, [], length};
ghost use Rattle.th_syntax.specs.declared.cause.TheConstants as causes;
ghost use Rattle.th_syntax.specs.Arrays as arrays;
ghost use Rattle.th_syntax.specs.Flaws.{unless};
ghost use Rattle.th_syntax.specs.LinkChecks as checks;
ghost use Rattle.th_syntax.specs.Program.{hierarchy_of};
ghost use Rattle.th_linker.specs.Checking.{Checks};
ghost use Rattle.th_linker.specs.Sites.{refusals_at};

use crate::element::class_in_type;
use crate::member_text::{field_text, method_text};
use crate::program::{find_class, is_interface};
use crate::refuse::refuse;
use std::alloc::Global;
use th_base::{ClassId, Fail, Text};
use th_syntax::{Instr, MemberRef, Program, Refusal, cause};

// An instruction's place: its class, and its offset in a method's code.
#[derive(Clone, Copy)]
pub(crate) struct Site<'a> {
    pub(crate) alloc: Global,
    pub(crate) program: &'a Program,
    pub(crate) class: &'a Text,
    pub(crate) offset: u32,
}

impl Site<'_> {
    // What an instruction names is there (Java specification 6.5).
    pub(crate) fn check_instr(&self, instr: &Instr) -> Result<(), Fail<Refusal>>
        ensures { Checks result (refusals_at self.now (checks.use_faults self.now.program.now (checks.use_of instr.now))) }
    {
        match instr {
            Instr::GetStatic(field) | Instr::PutStatic(field) => self.check_field(true, field),
            Instr::GetField(field) | Instr::PutField(field) => self.check_field(false, field),
            Instr::InvokeVirtual(method) | Instr::InvokeSpecial(method) => {
                self.check_method(false, false, method)
            }
            Instr::InvokeInterface(method) => self.check_method(false, true, method),
            Instr::InvokeStatic(method) => self.check_method(true, false, method),
            Instr::New(name)
            | Instr::ANewArray(name)
            | Instr::CheckCast(name)
            | Instr::InstanceOf(name) => self.check_type(name),
            _ => Ok(()),
        }
    }

    // A class, or that of an array's elements, is there.
    fn check_type(&self, name: &Text) -> Result<(), Fail<Refusal>>
        ensures { Checks result (refusals_at self.now (checks.type_faults self.now.program.now name.now)) }
    {
        match class_in_type(name.as_bytes()) {
            Some(class) => self.check_class(class),
            None => Ok(()),
        }
    }

    fn check_class(&self, name: &[u8]) -> Result<(), Fail<Refusal>>
        ensures { Checks result (refusals_at self.now (checks.class_faults self.now.program.now name.now)) }
    {
        match find_class(self.program, name) {
            Some(_) => Ok(()),
            None => self.refuse(cause::MISSING_CLASS, Text::from_slice(self.alloc, name)?),
        }
    }

    // A field is found, and static or not as it must be.
    fn check_field(&self, is_static: bool, field: &MemberRef) -> Result<(), Fail<Refusal>>
        ensures { Checks result (refusals_at self.now (checks.use_faults self.now.program.now (checks.Use.field_use is_static field.now))) }
    {
        match find_class(self.program, field.owner.as_bytes()) {
            Some(owner) => self.check_field_in(owner, is_static, field),
            None => self.refuse(cause::MISSING_CLASS, field.owner.copy(self.alloc)?),
        }
    }

    fn check_field_in(
        &self,
        owner: ClassId,
        is_static: bool,
        field: &MemberRef,
    ) -> Result<(), Fail<Refusal>>
        requires { owner.0 < length (hierarchy_of self.now.program.now) }
        ensures { Checks result (refusals_at self.now (checks.field_faults_in self.now.program.now is_static field.now owner.0)) }
    {
        let (name, descriptor) = (field.name.as_bytes(), field.descriptor.as_bytes());
        match self
            .program
            .hierarchy()
            .resolve_field(owner, name, descriptor)
        {
            Some((_, found)) => self.check_field_fit(agrees(is_static, found.is_static), field),
            None => self.refuse(cause::MISSING_MEMBER, field_text(self.alloc, field)?),
        }
    }

    fn check_field_fit(&self, fits: bool, field: &MemberRef) -> Result<(), Fail<Refusal>>
        ensures { Checks result (refusals_at self.now (unless fits (checks.fault_of causes.MEMBER (checks.field_text field.now)))) }
    {
        if fits {
            return Ok(());
        }
        self.refuse(cause::MEMBER, field_text(self.alloc, field)?)
    }

    // A method is found, and static or not as it must be; and so is its class an interface or not. No
    // method of an array is found.
    fn check_method(
        &self,
        is_static: bool,
        of_interface: bool,
        method: &MemberRef,
    ) -> Result<(), Fail<Refusal>>
        ensures { Checks result (refusals_at self.now (checks.use_faults self.now.program.now (checks.Use.method_use is_static of_interface method.now))) }
    {
        if begins_array(method.owner.as_bytes()) {
            return self.check_array_method(method);
        }
        match find_class(self.program, method.owner.as_bytes()) {
            Some(owner) => self.check_method_in(owner, is_static, of_interface, method),
            None => self.refuse(cause::MISSING_CLASS, method.owner.copy(self.alloc)?),
        }
    }

    fn check_array_method(&self, method: &MemberRef) -> Result<(), Fail<Refusal>>
        ensures { Checks result (refusals_at self.now (checks.type_faults self.now.program.now method.now.owner ++ checks.fault_of causes.MISSING_MEMBER (checks.method_text method.now) ∷ [])) }
    {
        self.check_type(&method.owner)?;
        self.refuse(cause::MISSING_MEMBER, method_text(self.alloc, method)?)
    }

    fn check_method_in(
        &self,
        owner: ClassId,
        is_static: bool,
        of_interface: bool,
        method: &MemberRef,
    ) -> Result<(), Fail<Refusal>>
        requires { owner.0 < length (hierarchy_of self.now.program.now) }
        ensures { Checks result (refusals_at self.now (checks.method_faults_in self.now.program.now is_static of_interface method.now owner.0)) }
    {
        let (name, descriptor) = (method.name.as_bytes(), method.descriptor.as_bytes());
        match self
            .program
            .hierarchy()
            .resolve_method(owner, name, descriptor)
        {
            Some((_, found)) => {
                let interface = is_interface(self.program, owner);
                let fits = agree_both(is_static, found.is_static, of_interface, interface);
                self.check_method_fit(fits, method)
            }
            None => self.refuse(cause::MISSING_MEMBER, method_text(self.alloc, method)?),
        }
    }

    fn check_method_fit(&self, fits: bool, method: &MemberRef) -> Result<(), Fail<Refusal>>
        ensures { Checks result (refusals_at self.now (unless fits (checks.fault_of causes.MEMBER (checks.method_text method.now)))) }
    {
        if fits {
            return Ok(());
        }
        self.refuse(cause::MEMBER, method_text(self.alloc, method)?)
    }

    // The class is refused at this instruction.
    fn refuse(&self, number: u8, member: Text) -> Result<(), Fail<Refusal>>
        ensures { Checks result (refusals_at self.now (checks.fault_of number member ∷ [])) }
    {
        refuse(self.alloc, number, self.class, member, self.offset)
    }
}

// Two answers are one.
fn agrees(wanted: bool, is: bool) -> bool
    ensures { result ≡ checks.agrees wanted is }
{
    if wanted { is } else { !is }
}

// Both answers are as they are wanted.
fn agree_both(is_static: bool, found: bool, of_interface: bool, interface: bool) -> bool
    ensures { result ≡ (checks.agrees is_static found && checks.agrees of_interface interface) }
{
    agrees(is_static, found) && agrees(of_interface, interface)
}

// Whether a name is an array's descriptor.
fn begins_array(name: &[u8]) -> bool
    ensures { result ≡ arrays.begins_array name.now }
{
    match name {
        [first, ..] => *first == b'[',
        [] => false,
    }
}

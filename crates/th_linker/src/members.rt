// The third pass: no class has a member twice, and members are what they must be.
ghost use Rattle.std.specs.Prelude.{◌≡◌, ◌<◌, ◌&&◌, [], ◌++◌, not, length, take, codes, slice_get, Some};
ghost use Rattle.std.specs.Option.{option_map};
ghost use Rattle.th_syntax.specs.declared.cause.TheConstants as causes;
ghost use Rattle.th_syntax.specs.Flaws.{unless};
ghost use Rattle.th_syntax.specs.LinkChecks as checks;
ghost use Rattle.th_syntax.specs.Program.{all_classes};
ghost use Rattle.th_linker.specs.Checking.{Checks};

use crate::member_text::{own_field_text, own_method_text};
use crate::program::{class_at, info_at};
use crate::refuse::refuse;
use std::alloc::Global;
use th_base::{ClassId, ClassInfo, Fail, TAKES_NOTHING};
use th_syntax::{ACC_ABSTRACT, ACC_STATIC, ClassFile, Member, Program, Refusal, cause, has_flag};

// The name of a class's initialiser (Java specification 2.9).
const CLASS_INITIALISER: &str = "<clinit>";

// Of each class the fields, then the methods.
pub(crate) fn check_members(alloc: Global, program: &Program) -> Result<(), Fail<Refusal>>
    ensures { Checks result (checks.member_refusals program.now) }
{
    for (at, class) in program.files().iter().enumerate() {
        check_class_members(alloc, program, class_at(program, at), class)?;
    }
    Ok(())
}

fn check_class_members(
    alloc: Global,
    program: &Program,
    id: ClassId,
    class: &ClassFile,
) -> Result<(), Fail<Refusal>>
    requires { slice_get (all_classes program.now) id.0 ≡ Some class.now }
    ensures { Checks result (checks.found_along (checks.field_refusals class.now) [] class.now.fields ++ checks.found_along (checks.method_refusals class.now) [] class.now.methods) }
{
    check_fields(alloc, program, id, class)?;
    check_methods(alloc, program, id, class)
}

fn check_fields(
    alloc: Global,
    program: &Program,
    id: ClassId,
    class: &ClassFile,
) -> Result<(), Fail<Refusal>>
    requires { slice_get (all_classes program.now) id.0 ≡ Some class.now }
    ensures { Checks result (checks.found_along (checks.field_refusals class.now) [] class.now.fields) }
{
    for (at, field) in class.fields.as_slice().iter().enumerate() {
        let is_new = is_new_field(program, id, class, at, field);
        check_field(alloc, class, field, is_new)?;
    }
    Ok(())
}

// Whether no field of the class before this place has the name and the descriptor of the one there.
fn is_new_field(
    program: &Program,
    id: ClassId,
    class: &ClassFile,
    at: usize,
    field: &Member,
) -> bool
    requires class { slice_get (all_classes program.now) id.0 ≡ Some class.now }
    requires field { slice_get class.now.fields at ≡ Some field.now }
    ensures { result ≡ not (checks.has_member (take at class.now.fields) field.now.name field.now.descriptor) }
{
    let own = field_number(info_at(program, id), at);
    match program
        .hierarchy()
        .resolve_field(id, field.name.as_bytes(), field.descriptor.as_bytes())
    {
        Some((_, first)) => first.id.0 == own,
        None => unreachable!(),
    }
}

// The number of the field at a place of a class.
fn field_number(class: &ClassInfo, at: usize) -> u32
    requires { at < length class.now.fields }
    ensures { option_map (λ field. field.id.0) (slice_get class.now.fields at) ≡ Some result }
{
    class.fields.as_slice()[at].id.0
}

fn check_field(
    alloc: Global,
    class: &ClassFile,
    field: &Member,
    is_new: bool,
) -> Result<(), Fail<Refusal>>
    ensures { Checks result (unless is_new (checks.refusal_at causes.MEMBER class.now (field.now.name ++ codes ":" ++ field.now.descriptor))) }
{
    if is_new {
        return Ok(());
    }
    let text = own_field_text(alloc, field)?;
    refuse(alloc, cause::MEMBER, &class.name, text, 0)
}

fn check_methods(
    alloc: Global,
    program: &Program,
    id: ClassId,
    class: &ClassFile,
) -> Result<(), Fail<Refusal>>
    requires { slice_get (all_classes program.now) id.0 ≡ Some class.now }
    ensures { Checks result (checks.found_along (checks.method_refusals class.now) [] class.now.methods) }
{
    for (at, method) in class.methods.as_slice().iter().enumerate() {
        let is_new = is_new_method(program, id, class, at, method);
        check_method(alloc, class, method, is_new)?;
    }
    Ok(())
}

// Whether no method of the class before this place has the name and the descriptor of the one there.
fn is_new_method(
    program: &Program,
    id: ClassId,
    class: &ClassFile,
    at: usize,
    method: &Member,
) -> bool
    requires class { slice_get (all_classes program.now) id.0 ≡ Some class.now }
    requires method { slice_get class.now.methods at ≡ Some method.now }
    ensures { result ≡ not (checks.has_member (take at class.now.methods) method.now.name method.now.descriptor) }
{
    let own = method_number(info_at(program, id), at);
    match program
        .hierarchy()
        .declared_method(id, method.name.as_bytes(), method.descriptor.as_bytes())
    {
        Some(first) => first.id.0 == own,
        None => unreachable!(),
    }
}

// The number of the method at a place of a class.
fn method_number(class: &ClassInfo, at: usize) -> u32
    requires { at < length class.now.methods }
    ensures { option_map (λ method. method.id.0) (slice_get class.now.methods at) ≡ Some result }
{
    class.methods.as_slice()[at].id.0
}

fn check_method(
    alloc: Global,
    class: &ClassFile,
    method: &Member,
    is_new: bool,
) -> Result<(), Fail<Refusal>>
    ensures { Checks result (unless (is_new && checks.is_code_fit method.now && checks.is_initialiser_fit method.now) (checks.refusal_at causes.MEMBER class.now (method.now.name ++ method.now.descriptor))) }
{
    if is_new && is_code_fit(method) && is_initialiser_fit(method) {
        return Ok(());
    }
    let text = own_method_text(alloc, method)?;
    refuse(alloc, cause::MEMBER, &class.name, text, 0)
}

// A method has code exactly where it isn't abstract.
fn is_code_fit(method: &Member) -> bool
    ensures { result ≡ checks.is_code_fit method.now }
{
    if has_flag(method.access, ACC_ABSTRACT) {
        method.code.is_none()
    } else {
        method.code.is_some()
    }
}

// A class's initialiser is static, takes and gives nothing, and isn't abstract.
fn is_initialiser_fit(method: &Member) -> bool
    ensures { result ≡ checks.is_initialiser_fit method.now }
{
    method.name.as_bytes() != CLASS_INITIALISER.as_bytes()
        || (has_flag(method.access, ACC_STATIC)
            && method.descriptor.as_bytes() == TAKES_NOTHING.as_bytes()
            && !has_flag(method.access, ACC_ABSTRACT))
}

// The classes of a program as the hierarchy knows them.
ghost use Rattle.std.specs.Prelude.{◌≡◌, ◌+◌, ◌<◌, ◌^◌, [], ◌∷◌, length, IfOk, filter_map};
ghost use Rattle.th_syntax.specs.Program as program;
ghost use Rattle.th_linker.specs.Checking.{AreNumbered};

use crate::classes::Classes;
use std::alloc::{AllocError, Global};
use th_base::{ClassId, ClassInfo, FieldId, FieldInfo, MethodId, MethodInfo, Seq, Text};
use th_syntax::{
    ACC_ABSTRACT, ACC_INTERFACE, ACC_PRIVATE, ACC_STATIC, ClassFile, Member, has_flag,
};

// All the classes, whose fields and methods are numbered in order.
pub(crate) fn class_infos(alloc: Global, classes: &Classes) -> Result<Vec<ClassInfo>, AllocError>
    requires { AreNumbered classes.now }
    ensures { IfOk result (λ infos. infos.items ≡ program.hierarchy_of classes.now) }
{
    let mut infos = Vec::new(alloc);
    let mut field: u32 = 0;
    let mut method: u32 = 0;
    for class in classes.all() {
        let info = class_info(alloc, classes, field, method, class)?;
        infos.push(info)?;
        field += class.fields.len() as u32;
        method += class.methods.len() as u32;
    }
    Ok(infos)
}

// A class whose fields and methods are numbered from these on.
fn class_info(
    alloc: Global,
    classes: &Classes,
    field: u32,
    method: u32,
    class: &ClassFile,
) -> Result<ClassInfo, AllocError>
    requires fields { field + length class.now.fields < 2 ^ 32 }
    requires methods { method + length class.now.methods < 2 ^ 32 }
    ensures { IfOk result (λ info. info ≡ program.class_info classes.now field method class.now) }
{
    let super_id = match &class.super_name {
        Some(name) => classes.id(name),
        None => None,
    };
    Ok(ClassInfo {
        name: class.name.copy(alloc)?,
        super_id,
        interfaces: ids_of(alloc, classes, class.interfaces.as_slice())?,
        is_interface: has_flag(class.access, ACC_INTERFACE),
        is_abstract: has_flag(class.access, ACC_ABSTRACT),
        fields: field_infos(alloc, field, class.fields.as_slice())?,
        methods: method_infos(alloc, method, class.methods.as_slice())?,
    })
}

// The numbers of the classes of these names.
fn ids_of(alloc: Global, classes: &Classes, names: &[Text]) -> Result<Seq<ClassId>, AllocError>
    ensures { IfOk result (λ ids. ids ≡ filter_map (program.id_named classes.now) names.now) }
{
    let mut ids = Seq::new(alloc);
    for name in names {
        match classes.id(name) {
            Some(id) => ids.push(id)?,
            None => {}
        }
    }
    Ok(ids)
}

// Fields, numbered from this on.
fn field_infos(alloc: Global, first: u32, fields: &[Member]) -> Result<Seq<FieldInfo>, AllocError>
    requires { first + length fields.now < 2 ^ 32 }
    ensures { IfOk result (λ infos. infos ≡ program.field_infos first fields.now) }
{
    let mut infos = Seq::new(alloc);
    for (at, field) in fields.iter().enumerate() {
        let info = field_info(alloc, first + at as u32, field)?;
        infos.push(info)?;
    }
    Ok(infos)
}

fn field_info(alloc: Global, number: u32, field: &Member) -> Result<FieldInfo, AllocError>
    ensures { IfOk result (λ info. program.field_infos number (field.now ∷ []) ≡ info ∷ []) }
{
    Ok(FieldInfo {
        id: FieldId(number),
        name: field.name.copy(alloc)?,
        descriptor: field.descriptor.copy(alloc)?,
        is_static: has_flag(field.access, ACC_STATIC),
    })
}

// Methods, numbered from this on.
fn method_infos(
    alloc: Global,
    first: u32,
    methods: &[Member],
) -> Result<Seq<MethodInfo>, AllocError>
    requires { first + length methods.now < 2 ^ 32 }
    ensures { IfOk result (λ infos. infos ≡ program.method_infos first methods.now) }
{
    let mut infos = Seq::new(alloc);
    for (at, method) in methods.iter().enumerate() {
        let info = method_info(alloc, first + at as u32, method)?;
        infos.push(info)?;
    }
    Ok(infos)
}

fn method_info(alloc: Global, number: u32, method: &Member) -> Result<MethodInfo, AllocError>
    ensures { IfOk result (λ info. program.method_infos number (method.now ∷ []) ≡ info ∷ []) }
{
    Ok(MethodInfo {
        id: MethodId(number),
        name: method.name.copy(alloc)?,
        descriptor: method.descriptor.copy(alloc)?,
        is_static: has_flag(method.access, ACC_STATIC),
        is_private: has_flag(method.access, ACC_PRIVATE),
        is_abstract: method.code.is_none(),
    })
}

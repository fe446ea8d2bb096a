// The static fields into which reachable code stores.
ghost use Rattle.std.specs.Prelude.{◌≡◌, ◌<◌, ◌&&◌, ◌++◌, filter, filter_map, length, map, option_map, IfOk, OnOk};
ghost use Rattle.std.specs.BTreeSet.{contains};
ghost use Rattle.std.specs.Ordering.{nat_cmp};
ghost use Rattle.th_base.specs.Hierarchy.{resolved_field};
ghost use Rattle.th_base.specs.IdSet.{has};
ghost use Rattle.th_base.specs.ValueKinds.{is_reference};
ghost use Rattle.th_syntax.specs.Fields.{field_resolved};
ghost use Rattle.th_coarse.specs.Coarse.{stored_field, is_static_reference, declared_fields};
ghost use Rattle.th_syntax.specs.Program.{hierarchy_of};

use crate::numbers::set_of;
use std::alloc::{AllocError, Global};
use std::collections::BTreeSet;
use th_base::{ClassId, ClassInfo, FieldId, FieldInfo, Hierarchy};
use th_harness::class_named;
use th_syntax::{Instr, MemberRef, Program};

// The static fields of reference type into which one of these instructions stores, in order.
pub(crate) fn alarming_fields(
    alloc: Global,
    program: &Program,
    instrs: &[&Instr],
) -> Result<Vec<FieldId>, AllocError>
    ensures { IfOk result (λ fields. map (λ f. f.0) fields.items
        ≡ map (λ f. f.id.0) (filter (λ f. is_static_reference f && has (filter_map (stored_field program.now) (map (λ i. i.now) instrs.now)) f.id.0) (declared_fields (hierarchy_of program.now)))) }
{
    let stored = stored_fields(alloc, program, instrs)?;
    let stored = set_of(alloc, stored)?;
    fields_in(alloc, &stored, program.hierarchy().classes())
}

// The fields into which these instructions store, by their numbers.
fn stored_fields(
    alloc: Global,
    program: &Program,
    instrs: &[&Instr],
) -> Result<Vec<u32>, AllocError>
    ensures { IfOk result (λ numbers. numbers.items ≡ filter_map (stored_field program.now) (map (λ i. i.now) instrs.now)) }
{
    let mut numbers = Vec::new(alloc);
    for instr in instrs {
        if let Some(number) = stored_field(program, instr) {
            numbers.push(number)?;
        }
    }
    Ok(numbers)
}

// The field into which an instruction stores, by its number.
fn stored_field(program: &Program, instr: &Instr) -> Option<u32>
    ensures { result ≡ stored_field program.now instr.now }
{
    match instr {
        Instr::PutStatic(field) => number_of(program, field),
        _ => None,
    }
}

// The number of the field to which a reference resolves.
fn number_of(program: &Program, field: &MemberRef) -> Option<u32>
    ensures { result ≡ option_map (λ f. f.1.id.0) (field_resolved program.now field.now) }
{
    match class_named(program, field.owner.as_bytes()) {
        Some(class) => number_in(program.hierarchy(), class, field),
        None => None,
    }
}

// The number of the field to which a reference resolves, where the class that it names is known.
fn number_in(hierarchy: &Hierarchy, class: ClassId, field: &MemberRef) -> Option<u32>
    requires { class.0 < length hierarchy.now }
    ensures { result ≡ option_map (λ f. f.1.id.0) (resolved_field hierarchy.now class.0 field.now.name field.now.descriptor) }
{
    match hierarchy.find_field(class, &field.name, &field.descriptor) {
        Some(id) => Some(id.0),
        None => None,
    }
}

// Those static fields of classes that are of reference type and in a set.
fn fields_in(
    alloc: Global,
    stored: &BTreeSet<u32>,
    classes: &[ClassInfo],
) -> Result<Vec<FieldId>, AllocError>
    ensures { IfOk result (λ fields. map (λ f. f.0) fields.items ≡ map (λ f. f.id.0) (filter (λ f. is_static_reference f && contains nat_cmp stored.now f.id.0) (declared_fields classes.now))) }
{
    let mut found = Vec::new(alloc);
    for class in classes {
        add_fields(&mut found, stored, class.fields.as_slice())?;
    }
    Ok(found)
}

// Adds those of these fields that are static, of reference type and in a set.
fn add_fields(
    found: &mut Vec<FieldId>,
    stored: &BTreeSet<u32>,
    fields: &[FieldInfo],
) -> Result<(), AllocError>
    ensures { OnOk result (map (λ f. f.0) found.new.items ≡ map (λ f. f.0) found.old.items ++ map (λ f. f.id.0) (filter (λ f. is_static_reference f && contains nat_cmp stored.now f.id.0) fields.now)) }
{
    for field in fields {
        if is_static_reference(field) && stored.contains(&field.id.0) {
            found.push(field.id)?;
        }
    }
    Ok(())
}

// Whether a field is static and of reference type.
fn is_static_reference(field: &FieldInfo) -> bool
    ensures { result ≡ is_static_reference field.now }
{
    field.is_static && is_reference(field.descriptor.as_bytes())
}

// Whether a descriptor is that of a class or of an array.
fn is_reference(descriptor: &[u8]) -> bool
    ensures { result ≡ is_reference descriptor.now }
{
    match descriptor {
        [first, ..] => *first == b'L' || *first == b'[',
        [] => false,
    }
}

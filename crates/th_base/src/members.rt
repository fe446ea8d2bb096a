// The members that a class declares, found by name and descriptor, and look-ups along a list of classes.
ghost use Rattle.std.specs.Prelude.{◌≡◌, ◌<◌, ◌&&◌, ℕ, not, length, find, true, IfOk};
ghost use Rattle.std.specs.Option.{option_copied, option_map};
ghost use Rattle.std.specs.Str.{bytes_eq};
ghost use Rattle.th_base.specs.Hierarchy.{first_field, first_method, overriding_along as overriding_method_along};
ghost use Rattle.th_base.specs.IdSet.{has};
ghost use Rattle.th_base.specs.MemberIndex.{IsIndex, AreIndexed, entry_of, field_entries, method_entries, overriding_entries};

use crate::index::{Entry, Index};
use crate::{ClassId, ClassInfo, FieldInfo, MethodInfo, Text};
use std::alloc::{AllocError, Global};

// The indexes of a class's fields, of its methods, and of its instance methods that aren't private.
#[derive(Debug, Drop)]
pub(crate) struct Members {
    pub(crate) fields: Index,
    pub(crate) methods: Index,
    pub(crate) overriding: Index,
}

// The indexes of all classes, in order.
pub(crate) fn members_of(alloc: Global, classes: &[ClassInfo]) -> Result<Vec<Members>, AllocError>
    ensures { IfOk result (λ members. AreIndexed classes.now members.items) }
{
    let mut members = Vec::new(alloc);
    for class in classes {
        let fields = Index::new(field_entries(alloc, class.fields.as_slice())?)?;
        let methods = Index::new(method_entries(alloc, class.methods.as_slice())?)?;
        let overriding = Index::new(overriding_entries(alloc, class.methods.as_slice())?)?;
        members.push(Members {
            fields,
            methods,
            overriding,
        })?;
    }
    Ok(members)
}

// The entries of fields, in order.
fn field_entries(alloc: Global, fields: &[FieldInfo]) -> Result<Vec<Entry>, AllocError>
    ensures { IfOk result (λ entries. entries.items ≡ field_entries fields.now) }
{
    let mut entries = Vec::new(alloc);
    for (place, field) in fields.iter().enumerate() {
        let entry = entry_of(alloc, &field.name, &field.descriptor, place)?;
        entries.push(entry)?;
    }
    Ok(entries)
}

// The entries of methods, in order.
fn method_entries(alloc: Global, methods: &[MethodInfo]) -> Result<Vec<Entry>, AllocError>
    ensures { IfOk result (λ entries. entries.items ≡ method_entries methods.now) }
{
    let mut entries = Vec::new(alloc);
    for (place, method) in methods.iter().enumerate() {
        let entry = entry_of(alloc, &method.name, &method.descriptor, place)?;
        entries.push(entry)?;
    }
    Ok(entries)
}

// The entries of the instance methods that aren't private, in order.
fn overriding_entries(alloc: Global, methods: &[MethodInfo]) -> Result<Vec<Entry>, AllocError>
    ensures { IfOk result (λ entries. entries.items ≡ overriding_entries methods.now) }
{
    let mut entries = Vec::new(alloc);
    for (place, method) in methods.iter().enumerate() {
        if is_overriding(method) {
            let entry = entry_of(alloc, &method.name, &method.descriptor, place)?;
            entries.push(entry)?;
        }
    }
    Ok(entries)
}

// The entry of a member. It shares the bytes of its texts.
fn entry_of(
    alloc: Global,
    name: &Text,
    descriptor: &Text,
    place: usize,
) -> Result<Entry, AllocError>
    ensures { IfOk result (λ entry. entry ≡ entry_of name.now descriptor.now place) }
{
    Ok(Entry {
        name: name.copy(alloc)?,
        descriptor: descriptor.copy(alloc)?,
        place,
    })
}

// Whether a method is an instance method that isn't private.
fn is_overriding(method: &MethodInfo) -> bool
    ensures { result ≡ (not method.now.is_static && not method.now.is_private) }
{
    !method.is_static && !method.is_private
}

// The first field of this name and descriptor that a class declares.
pub(crate) fn field_in<'a>(
    class: &'a ClassInfo,
    members: &Members,
    name: &[u8],
    descriptor: &[u8],
) -> Option<&'a FieldInfo>
    requires { IsIndex (field_entries class.now.fields) members.now.fields.entries.items }
    ensures { option_copied result ≡ find (λ f. bytes_eq f.name name.now && bytes_eq f.descriptor descriptor.now) class.now.fields }
{
    let place = members.fields.first(name, descriptor)?;
    class.fields.as_slice().get(place)
}

// The first method of this name and descriptor that a class declares.
pub(crate) fn method_in<'a>(
    class: &'a ClassInfo,
    members: &Members,
    name: &[u8],
    descriptor: &[u8],
) -> Option<&'a MethodInfo>
    requires { IsIndex (method_entries class.now.methods) members.now.methods.entries.items }
    ensures { option_copied result ≡ find (λ m. bytes_eq m.name name.now && bytes_eq m.descriptor descriptor.now) class.now.methods }
{
    let place = members.methods.first(name, descriptor)?;
    class.methods.as_slice().get(place)
}

// The first instance method of this name and descriptor that a class declares and that isn't private.
pub(crate) fn overriding_in<'a>(
    class: &'a ClassInfo,
    members: &Members,
    name: &[u8],
    descriptor: &[u8],
) -> Option<&'a MethodInfo>
    requires { IsIndex (overriding_entries class.now.methods) members.now.overriding.entries.items }
    ensures { option_copied result ≡ find (λ m. (bytes_eq m.name name.now && bytes_eq m.descriptor descriptor.now) && (not m.is_static && not m.is_private)) class.now.methods }
{
    let place = members.overriding.first(name, descriptor)?;
    class.methods.as_slice().get(place)
}

// Along a list of classes, the first that declares the field, and the field.
pub(crate) fn field_along<'a>(
    classes: &'a [ClassInfo],
    members: &[Members],
    order: &[u32],
    name: &[u8],
    descriptor: &[u8],
) -> Option<(ClassId, &'a FieldInfo)>
    requires indexed { AreIndexed classes.now members.now }
    requires inside { (c : ℕ) → has order.now c ≡ true → c < length classes.now }
    ensures { option_map (λ found. (found.0.0, found.1.now)) result ≡ first_field classes.now name.now descriptor.now order.now }
{
    for class in order {
        let at = *class as usize;
        if let Some(field) = field_in(&classes[at], &members[at], name, descriptor) {
            return Some((ClassId(*class), field));
        }
    }
    None
}

// Along a list of classes, the first that declares the method, and the method.
pub(crate) fn method_along<'a>(
    classes: &'a [ClassInfo],
    members: &[Members],
    order: &[u32],
    name: &[u8],
    descriptor: &[u8],
) -> Option<(ClassId, &'a MethodInfo)>
    requires indexed { AreIndexed classes.now members.now }
    requires inside { (c : ℕ) → has order.now c ≡ true → c < length classes.now }
    ensures { option_map (λ found. (found.0.0, found.1.now)) result ≡ first_method classes.now name.now descriptor.now order.now }
{
    for class in order {
        let at = *class as usize;
        if let Some(method) = method_in(&classes[at], &members[at], name, descriptor) {
            return Some((ClassId(*class), method));
        }
    }
    None
}

// Along a list of classes, the first that declares such an instance method, not private, and the method.
pub(crate) fn overriding_along<'a>(
    classes: &'a [ClassInfo],
    members: &[Members],
    order: &[u32],
    name: &[u8],
    descriptor: &[u8],
) -> Option<&'a MethodInfo>
    requires indexed { AreIndexed classes.now members.now }
    requires inside { (c : ℕ) → has order.now c ≡ true → c < length classes.now }
    ensures { option_copied result ≡ option_map (λ found. found.1) (overriding_method_along classes.now name.now descriptor.now order.now) }
{
    for class in order {
        let at = *class as usize;
        if let Some(method) = overriding_in(&classes[at], &members[at], name, descriptor) {
            return Some(method);
        }
    }
    None
}

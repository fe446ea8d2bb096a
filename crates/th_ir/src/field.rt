// What a field is: those that the classes declare, and two that no class declares.
ghost use Rattle.std.specs.Prelude.{◌≡◌, ◌<◌, length};
ghost use Rattle.std.specs.List.{list_any};
ghost use Rattle.th_base.specs.Launchable.{is_launchable, can_be_made, is_launch_constructor};
ghost use Rattle.th_ir.specs.Fields.{field_known, field_kind, kind_of, is_kept_instance, class_has, has_field};
ghost use Rattle.th_ir.specs.Sites.{is_array_text};
ghost use Rattle.th_ir.specs.WellFormed.{AreNumbered};

use crate::RegProgram;
use std::alloc::{AllocError, Global};
use th_base::{
    ACTIVITY_NUMBER, BUILT_IN_COUNT, CONSTRUCTOR, ClassId, ClassInfo, FieldId, FieldInfo,
    Hierarchy, MethodInfo, Same, SiteId, TAKES_NOTHING, TryCopy,
};

/// The length of an array. It is a field of queries alone: no statement names it.
pub const LENGTH: FieldId = FieldId(4294967295);

/// The stage of a launched object in the lifecycle, an int. The objects of launchable classes have it.
pub const STAGE: FieldId = FieldId(4294967294);

/// What the register form keeps of a value. It keeps no longs.
#[derive(Clone, Copy, Debug, PartialEq, Eq)]
pub enum FieldKind {
    /// An int of 32 bits.
    Int,
    /// A reference, or null.
    Ref,
}

impl TryCopy for FieldKind {
    fn try_copy(&self, _alloc: Global) -> Result<FieldKind, AllocError> {
        Ok(*self)
    }
}

impl Same for FieldKind {
    fn same(&self, other: &FieldKind) -> bool {
        *self == *other
    }
}

/// Whether the number is a field's: one that a class declares, `LENGTH` or `STAGE`. It costs one
/// look-up by number.
pub fn field_known(hierarchy: &Hierarchy, field: FieldId) -> bool
    ensures { AreNumbered hierarchy.now → result ≡ field_known hierarchy.now field.0 }
{
    hierarchy.field(field).is_some() || field == STAGE || field == LENGTH
}

/// What a field holds; `None` for a field of longs and for what is no field. It costs one look-up by
/// number.
pub fn field_kind(hierarchy: &Hierarchy, field: FieldId) -> Option<FieldKind>
    ensures { AreNumbered hierarchy.now → result ≡ field_kind hierarchy.now field.0 }
{
    if field == STAGE || field == LENGTH {
        return Some(FieldKind::Int);
    }
    match hierarchy.field(field) {
        Some(found) => kind_of(found.1.descriptor.as_bytes()),
        None => None,
    }
}

/// Whether the objects of a class have the field: the class or a superclass declares it, it isn't
/// static, and it holds ints or references. Objects of launchable classes have `STAGE`, arrays alone
/// have `LENGTH`. It costs one look-up by number; for `STAGE` the methods of the class are looked
/// through.
pub fn class_has(hierarchy: &Hierarchy, class: ClassId, field: FieldId) -> bool
    requires { class.0 < length hierarchy.now }
    ensures { AreNumbered hierarchy.now → result ≡ class_has hierarchy.now class.0 field.0 }
{
    if field == STAGE {
        return is_launchable(hierarchy, class);
    }
    match hierarchy.field(field) {
        Some(found) => is_kept_instance(found.1) && hierarchy.is_subclass(class, found.0),
        None => false,
    }
}

/// Whether the objects or arrays of a site have the field. It costs a look-up of the site's class by
/// its name, and that of `class_has`; a loop that asks often keeps the class of each site.
pub fn has_field(hierarchy: &Hierarchy, program: &RegProgram, site: SiteId, field: FieldId) -> bool
    ensures { AreNumbered hierarchy.now → result ≡ has_field hierarchy.now program.now site.0 field.0 }
{
    match program.sites.get(site.0 as usize) {
        Some(found) => {
            let name = found.class.as_bytes();
            if is_array_text(name) {
                return field == LENGTH;
            }
            match hierarchy.find_class(name) {
                Some(class) => field != LENGTH && class_has(hierarchy, class, field),
                None => false,
            }
        }
        None => false,
    }
}

// What the register form keeps of a value of this descriptor.
fn kind_of(descriptor: &[u8]) -> Option<FieldKind>
    ensures { result ≡ kind_of descriptor.now }
{
    match descriptor {
        [b'L' | b'[', ..] => Some(FieldKind::Ref),
        [b'B' | b'C' | b'I' | b'S' | b'Z', ..] => Some(FieldKind::Int),
        _ => None,
    }
}

// Whether it is an instance field of ints or references.
fn is_kept_instance(field: &FieldInfo) -> bool
    ensures { result ≡ is_kept_instance field.now }
{
    !field.is_static && kind_of(field.descriptor.as_bytes()).is_some()
}

// Whether the text is an array descriptor, and not the name of a class.
fn is_array_text(text: &[u8]) -> bool
    ensures { result ≡ is_array_text text.now }
{
    match text {
        [first, ..] => *first == b'[',
        [] => false,
    }
}

// Whether the harness launches objects of the class.
fn is_launchable(hierarchy: &Hierarchy, class: ClassId) -> bool
    requires { class.0 < length hierarchy.now }
    ensures { result ≡ is_launchable hierarchy.now class.0 }
{
    class.0 >= BUILT_IN_COUNT
        && hierarchy.is_subclass(class, ClassId(ACTIVITY_NUMBER))
        && can_be_made(&hierarchy.classes()[class.0 as usize])
}

// Whether there are objects of the class, and it has a constructor that a launch can call.
fn can_be_made(class: &ClassInfo) -> bool
    ensures { result ≡ can_be_made class.now }
{
    !class.is_abstract && !class.is_interface && has_launch_constructor(class.methods.as_slice())
}

// Whether one of the methods is such a constructor.
fn has_launch_constructor(methods: &[MethodInfo]) -> bool
    ensures { result ≡ list_any is_launch_constructor methods.now }
{
    for method in methods {
        if is_launch_constructor(method) {
            return true;
        }
    }
    false
}

// Whether it is a constructor without parameters that a launch can call.
fn is_launch_constructor(method: &MethodInfo) -> bool
    ensures { result ≡ is_launch_constructor method.now }
{
    method.name.as_bytes() == CONSTRUCTOR.as_bytes()
        && method.descriptor.as_bytes() == TAKES_NOTHING.as_bytes()
        && !method.is_static
        && !method.is_abstract
}

// Which methods calls take, and what sites are.
ghost use Rattle.std.specs.Prelude.{◌≡◌, ◌<◌, List, length, IfOk};
ghost use Rattle.std.specs.Option.{option_map};
ghost use Rattle.th_base.specs.declared.class.ClassInfo.{ClassInfo};
ghost use Rattle.th_ir.specs.Calls.{site_target, static_target, target_by, virtual_target, with_code};
ghost use Rattle.th_ir.specs.Fields.{has_field};
ghost use Rattle.th_ir.specs.Sites.{is_array_site, is_array_text, is_ref_array, site_class, site_is};
ghost use Rattle.th_ir.specs.WellFormed.{AreNumbered};
ghost use Rattle.th_points_to.specs.Storing.{is_ref_text};
ghost use Rattle.th_points_to.specs.Tables.{AreClasses, class_of};

use std::alloc::{AllocError, Global};
use th_base::{ClassId, FieldId, Hierarchy, MethodId, MethodInfo, SiteId, Text};
use th_ir::{CallKind, LENGTH, RegProgram, Site, class_has};

// Whether the text is an array descriptor, and not the name of a class.
fn is_array_text(text: &[u8]) -> bool
    ensures { result ≡ is_array_text text.now }
{
    match text {
        [first, ..] => *first == b'[',
        [] => false,
    }
}

// The class of what a site makes; `None` for arrays.
fn class_of(hierarchy: &Hierarchy, site: &Site) -> Option<ClassId>
    ensures { option_map (λ class. class.0) result ≡ class_of hierarchy.now site.now }
{
    let name = site.class.as_bytes();
    if is_array_text(name) {
        return None;
    }
    hierarchy.find_class(name)
}

// The class of each of these sites.
pub(crate) fn classes_of(
    alloc: Global,
    hierarchy: &Hierarchy,
    sites: &[Site],
) -> Result<Vec<Option<ClassId>>, AllocError>
    ensures { IfOk result (λ classes. AreClasses hierarchy.now sites.now classes.items) }
{
    let mut classes = Vec::new(alloc);
    for site in sites {
        classes.push(class_of(hierarchy, site))?;
    }
    Ok(classes)
}

// The class of the objects of a site, by the table; `None` for arrays.
fn site_class(classes: &[Option<ClassId>], site: SiteId) -> Option<ClassId>
    ensures { (h : List ClassInfo) (p : RegProgram) → AreClasses h p.sites classes.now → option_map (λ class. class.0) result ≡ site_class h p site.0 }
{
    match classes.get(site.0 as usize) {
        Some(class) => *class,
        None => None,
    }
}

// Whether the objects of a site have a field.
pub(crate) fn has_field(
    hierarchy: &Hierarchy,
    program: &RegProgram,
    classes: &[Option<ClassId>],
    site: SiteId,
    field: FieldId,
) -> bool
    requires { AreClasses hierarchy.now program.now.sites classes.now }
    ensures { AreNumbered hierarchy.now → result ≡ has_field hierarchy.now program.now site.0 field.0 }
{
    if field == LENGTH {
        return is_array(program, site);
    }
    match site_class(classes, site) {
        Some(class) => class_has(hierarchy, class, field),
        None => false,
    }
}

// Whether the site makes arrays.
fn is_array(program: &RegProgram, site: SiteId) -> bool
    ensures { result ≡ is_array_site program.now site.0 }
{
    match program.sites.get(site.0 as usize) {
        Some(found) => is_array_text(found.class.as_bytes()),
        None => false,
    }
}

// The method that a call takes on a receiver of a site.
pub(crate) fn site_target(
    hierarchy: &Hierarchy,
    program: &RegProgram,
    classes: &[Option<ClassId>],
    kind: CallKind,
    method: MethodId,
    site: SiteId,
) -> Option<MethodId>
    requires { AreClasses hierarchy.now program.now.sites classes.now }
    ensures { AreNumbered hierarchy.now → option_map (λ to. to.0) result ≡ site_target hierarchy.now program.now kind method.0 site.0 }
{
    let class = site_class(classes, site)?;
    let declared = hierarchy.method(method)?;
    if !hierarchy.is_class_subtype(class, declared.0) {
        return None;
    }
    target_by(hierarchy, kind, method, declared.1, class)
}

// The method that a call takes on a receiver of a class, by its kind.
fn target_by(
    hierarchy: &Hierarchy,
    kind: CallKind,
    method: MethodId,
    info: &MethodInfo,
    class: ClassId,
) -> Option<MethodId>
    requires { class.0 < length hierarchy.now }
    ensures { option_map (λ to. to.0) result ≡ target_by hierarchy.now kind method.0 info.now class.0 }
{
    match kind {
        CallKind::Virtual => virtual_target(hierarchy, method, info, class),
        CallKind::Special(target) => target,
        CallKind::Static => None,
    }
}

// The method that a virtual call takes on a receiver of a class.
fn virtual_target(
    hierarchy: &Hierarchy,
    method: MethodId,
    info: &MethodInfo,
    class: ClassId,
) -> Option<MethodId>
    requires { class.0 < length hierarchy.now }
    ensures { option_map (λ to. to.0) result ≡ virtual_target hierarchy.now method.0 info.now class.0 }
{
    if info.is_private {
        with_code(method, info)
    } else {
        hierarchy.select(class, &info.name, &info.descriptor)
    }
}

// The method itself, where it has code.
fn with_code(method: MethodId, info: &MethodInfo) -> Option<MethodId>
    ensures { option_map (λ to. to.0) result ≡ with_code method.0 info.now }
{
    if info.is_abstract { None } else { Some(method) }
}

// The method that a static call takes.
pub(crate) fn static_target(hierarchy: &Hierarchy, method: MethodId) -> Option<MethodId>
    ensures { AreNumbered hierarchy.now → option_map (λ to. to.0) result ≡ static_target hierarchy.now method.0 }
{
    let declared = hierarchy.method(method)?;
    with_code(method, declared.1)
}

// Whether the site makes arrays of references.
pub(crate) fn is_ref_array(program: &RegProgram, site: SiteId) -> bool
    ensures { result ≡ is_ref_array program.now site.0 }
{
    match program.sites.get(site.0 as usize) {
        Some(found) => is_ref_array_text(found.class.as_bytes()),
        None => false,
    }
}

// Whether the text is the descriptor of an array of references.
pub(crate) fn is_ref_array_text(text: &[u8]) -> bool
    ensures { result ≡ is_ref_text text.now }
{
    match text {
        [b'[', b'L' | b'[', ..] => true,
        _ => false,
    }
}

// Whether what a site makes is of a subtype of a class or array type.
pub(crate) fn site_is(
    hierarchy: &Hierarchy,
    program: &RegProgram,
    text: &Text,
    site: SiteId,
) -> bool
    ensures { result ≡ site_is hierarchy.now program.now text.now site.0 }
{
    match program.sites.get(site.0 as usize) {
        Some(found) => hierarchy.is_subtype(&found.class, text),
        None => false,
    }
}

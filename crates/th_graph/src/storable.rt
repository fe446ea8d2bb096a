// What may stand in the arrays of a site.
ghost use Rattle.std.specs.Prelude.{◌≡◌};
ghost use Rattle.th_base.specs.Subtype.{ClassType, described_type, is_array_supertype, is_class_subtype, is_type_subtype, named_type};
ghost use Rattle.th_graph.specs.Stores.{is_ref_array_text};
ghost use Rattle.th_ir.specs.Sites.{can_store, is_ref_array};

use th_base::{CLONEABLE, Hierarchy, OBJECT, SERIALIZABLE, SiteId};
use th_ir::RegProgram;

// Whether a site makes arrays of references.
pub(crate) fn is_ref_array(program: &RegProgram, site: SiteId) -> bool
    ensures { result ≡ is_ref_array program.now site.0 }
{
    match program.sites.get(site.0 as usize) {
        Some(found) => is_ref_array_text(found.class.as_bytes()),
        None => false,
    }
}

// Whether the text is the descriptor of an array of references.
fn is_ref_array_text(text: &[u8]) -> bool
    ensures { result ≡ is_ref_array_text text.now }
{
    match text {
        [b'[', b'L' | b'[', ..] => true,
        _ => false,
    }
}

// Whether what the second site makes may stand in the arrays of the first (Java specification 6.5,
// aastore).
pub(crate) fn can_store(
    hierarchy: &Hierarchy,
    program: &RegProgram,
    array: SiteId,
    site: SiteId,
) -> bool
    ensures { result ≡ can_store hierarchy.now program.now array.0 site.0 }
{
    match (
        program.sites.get(array.0 as usize),
        program.sites.get(site.0 as usize),
    ) {
        (Some(array), Some(site)) => match array.class.as_bytes() {
            [_, component @ ..] => is_subtype(hierarchy, site.class.as_bytes(), component),
            [] => false,
        },
        _ => false,
    }
}

// Whether a type, by its name, is a subtype of another, by its field descriptor.
fn is_subtype(hierarchy: &Hierarchy, name: &[u8], descriptor: &[u8]) -> bool
    ensures { result ≡ is_type_subtype hierarchy.now (named_type name.now) (described_type descriptor.now) }
{
    match descriptor {
        [b'[', ..] => hierarchy.is_subtype_named(name, descriptor),
        [b'L', class @ .., _] => is_below_class(hierarchy, name, class),
        [b'L'] => is_below_class(hierarchy, name, &[]),
        _ => false,
    }
}

// Whether a type, by its name, is a subtype of a class.
fn is_below_class(hierarchy: &Hierarchy, name: &[u8], class: &[u8]) -> bool
    ensures { result ≡ is_type_subtype hierarchy.now (named_type name.now) (ClassType class.now) }
{
    match name {
        [b'[', ..] => is_above_arrays(class),
        _ => is_class_below(hierarchy, name, class),
    }
}

// Whether every array is a subtype of this class (Java language specification 4.10.3).
fn is_above_arrays(name: &[u8]) -> bool
    ensures { result ≡ is_array_supertype name.now }
{
    name == OBJECT.as_bytes() || name == CLONEABLE.as_bytes() || name == SERIALIZABLE.as_bytes()
}

// Whether a class is a subtype of another, by their names.
fn is_class_below(hierarchy: &Hierarchy, a: &[u8], b: &[u8]) -> bool
    ensures { result ≡ is_class_subtype hierarchy.now a.now b.now }
{
    if a == b {
        return true;
    }
    match (hierarchy.find_class(a), hierarchy.find_class(b)) {
        (Some(i), Some(j)) => hierarchy.is_class_subtype(i, j),
        _ => false,
    }
}

// Questions about classes by number, also about numbers that no class has.
ghost use Rattle.std.specs.Prelude.{◌≡◌};
ghost use Rattle.th_base.specs.Hierarchy.{is_subclass, supertypes_of, selected_method};
ghost use Rattle.th_base.specs.IdSet.{has};
ghost use Rattle.th_syntax.specs.Calls.{selected_for};
ghost use Rattle.th_syntax.specs.Program.{hierarchy_of};
ghost use Rattle.std.specs.Option.{option_map};

use crate::look::{Look, hierarchy_in};
use th_base::{ClassId, Hierarchy, MethodId, MethodInfo};

// Whether a class is this one or a subclass of it.
fn is_subclass(hierarchy: &Hierarchy, class: ClassId, above: ClassId) -> bool
    ensures { result ≡ is_subclass hierarchy.now class.0 above.0 }
{
    let count = hierarchy.classes().len();
    if count == 0 {
        return false;
    }
    if class.0 as usize >= count {
        return class.0 == above.0;
    }
    if above.0 as usize >= count {
        return false;
    }
    hierarchy.is_subclass(class, above)
}

// Whether a class is this one or has it among its supertypes.
fn is_below(hierarchy: &Hierarchy, class: ClassId, above: ClassId) -> bool
    ensures { result ≡ has (supertypes_of hierarchy.now class.0) above.0 }
{
    let count = hierarchy.classes().len();
    if count == 0 {
        return false;
    }
    if class.0 as usize >= count {
        return class.0 == above.0;
    }
    hierarchy.is_class_subtype(class, above)
}

// The method that a call of this one on a receiver of a class takes.
fn selected_for(hierarchy: &Hierarchy, method: &MethodInfo, class: ClassId) -> Option<MethodId>
    ensures { option_map (λ id. id.0) result ≡ selected_for hierarchy.now method.now class.0 }
{
    if method.is_private {
        return Some(method.id);
    }
    if class.0 as usize >= hierarchy.classes().len() {
        return None;
    }
    hierarchy.select(class, &method.name, &method.descriptor)
}

// Whether a class of the program is this one or a subclass of it.
pub(crate) fn has_superclass(look: Look<'_>, class: ClassId, above: ClassId) -> bool
    ensures { result ≡ is_subclass (hierarchy_of look.entry.resolved.now) class.0 above.0 }
{
    is_subclass(hierarchy_in(look), class, above)
}

// Whether a class of the program is this one or has it among its supertypes.
pub(crate) fn has_supertype(look: Look<'_>, class: ClassId, above: ClassId) -> bool
    ensures { result ≡ has (supertypes_of (hierarchy_of look.entry.resolved.now) class.0) above.0 }
{
    is_below(hierarchy_in(look), class, above)
}

// The method that a call of this one on a receiver of a class of the program takes.
pub(crate) fn taken_on(look: Look<'_>, method: &MethodInfo, class: ClassId) -> Option<MethodId>
    ensures { option_map (λ id. id.0) result ≡ selected_for (hierarchy_of look.entry.resolved.now) method.now class.0 }
{
    selected_for(hierarchy_in(look), method, class)
}

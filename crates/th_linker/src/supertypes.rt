// The second pass: every class's supertypes are there, and of the right kind.
ghost use Rattle.std.specs.Prelude.{◌≡◌, [], ◌∷◌, ◌++◌};
ghost use Rattle.std.specs.Option.{option_map_or};
ghost use Rattle.th_syntax.specs.declared.cause.TheConstants as causes;
ghost use Rattle.th_syntax.specs.Flags as flags;
ghost use Rattle.th_syntax.specs.Flaws.{unless};
ghost use Rattle.th_syntax.specs.LinkChecks as checks;
ghost use Rattle.th_linker.specs.Checking.{Checks};

use crate::classes::Classes;
use crate::refuse::{check_class, check_name};
use std::alloc::Global;
use th_base::{Fail, OBJECT, Text};
use th_syntax::{ACC_INTERFACE, ClassFile, Refusal, cause, has_flag};

// Of each class the superclass, then the superinterfaces.
pub(crate) fn check_supertypes(alloc: Global, classes: &Classes) -> Result<(), Fail<Refusal>>
    ensures { Checks result (checks.supertype_refusals classes.now) }
{
    for class in classes.files() {
        check_class_supertypes(alloc, classes, class)?;
    }
    Ok(())
}

fn check_class_supertypes(
    alloc: Global,
    classes: &Classes,
    class: &ClassFile,
) -> Result<(), Fail<Refusal>>
    ensures { Checks result (checks.superclass_refusals classes.now class.now ++ checks.interface_refusals classes.now class.now) }
{
    check_superclass(alloc, classes, class)?;
    check_interfaces(alloc, classes, class)
}

fn check_superclass(
    alloc: Global,
    classes: &Classes,
    class: &ClassFile,
) -> Result<(), Fail<Refusal>>
    ensures { Checks result (checks.superclass_refusals classes.now class.now) }
{
    match &class.super_name {
        Some(name) => {
            let fits = match classes.class(name) {
                Some(superclass) => Some(is_fit_superclass(class, superclass)),
                None => None,
            };
            check_supertype(alloc, class, name, fits)
        }
        None => check_class(alloc, false, cause::SUPER, class),
    }
}

fn check_interfaces(
    alloc: Global,
    classes: &Classes,
    class: &ClassFile,
) -> Result<(), Fail<Refusal>>
    ensures { Checks result (checks.interface_refusals classes.now class.now) }
{
    for name in class.interfaces.as_slice() {
        check_interface(alloc, classes, class, name)?;
    }
    Ok(())
}

fn check_interface(
    alloc: Global,
    classes: &Classes,
    class: &ClassFile,
    name: &Text,
) -> Result<(), Fail<Refusal>>
    ensures { Checks result (checks.supertype_name_refusals classes.now class.now flags.is_interface name.now) }
{
    let fits = match classes.class(name) {
        Some(interface) => Some(is_interface(interface)),
        None => None,
    };
    check_supertype(alloc, class, name, fits)
}

// A class that is named is there, and fits.
fn check_supertype(
    alloc: Global,
    class: &ClassFile,
    name: &Text,
    fits: Option<bool>,
) -> Result<(), Fail<Refusal>>
    ensures { Checks result (option_map_or (λ b. unless b (checks.refusal_at causes.SUPER class.now name.now)) fits (checks.refusal_at causes.MISSING_CLASS class.now name.now ∷ [])) }
{
    match fits {
        Some(fits) => check_name(alloc, fits, cause::SUPER, class, name),
        None => check_name(alloc, false, cause::MISSING_CLASS, class, name),
    }
}

// A superclass is no interface, and that of an interface is `java/lang/Object`.
fn is_fit_superclass(class: &ClassFile, superclass: &ClassFile) -> bool
    ensures { result ≡ checks.is_fit_superclass class.now superclass.now }
{
    !is_interface(superclass)
        && (!is_interface(class) || superclass.name.as_bytes() == OBJECT.as_bytes())
}

fn is_interface(class: &ClassFile) -> bool
    ensures { result ≡ flags.is_interface class.now }
{
    has_flag(class.access, ACC_INTERFACE)
}

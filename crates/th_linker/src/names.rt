// The first pass: every class has a name of its own.
ghost use Rattle.std.specs.Prelude.{◌≡◌, [], ◌++◌, not};
ghost use Rattle.th_base.specs.BuiltIn.{is_built_in};
ghost use Rattle.th_syntax.specs.declared.cause.TheConstants as causes;
ghost use Rattle.th_syntax.specs.Flaws.{unless};
ghost use Rattle.th_syntax.specs.LinkChecks.{name_refusals, refusal_at};
ghost use Rattle.th_linker.specs.Checking.{Checks};

use crate::built_in::is_built_in_name;
use crate::refuse::check_class;
use indexmap::IndexSet;
use std::alloc::Global;
use th_base::Fail;
use th_syntax::{ClassFile, Refusal, cause};

// No two classes have one name, and none has that of a built-in one.
pub(crate) fn check_names(alloc: Global, files: &[ClassFile]) -> Result<(), Fail<Refusal>>
    ensures { Checks result (name_refusals files.now) }
{
    let mut names = IndexSet::new(alloc);
    for class in files {
        let is_new = names.insert(&class.name)?;
        check_own_name(alloc, class, is_new)?;
    }
    Ok(())
}

// A class's name is new, and isn't that of a built-in class.
fn check_own_name(alloc: Global, class: &ClassFile, is_new: bool) -> Result<(), Fail<Refusal>>
    ensures { Checks result (unless is_new (refusal_at causes.DUPLICATE class.now []) ++ unless (not (is_built_in class.now.name)) (refusal_at causes.BUILT_IN class.now [])) }
{
    check_class(alloc, is_new, cause::DUPLICATE, class)?;
    let is_own = !is_built_in_name(class.name.as_bytes());
    check_class(alloc, is_own, cause::BUILT_IN, class)
}

// The classes whose objects the harness launches.
ghost use Rattle.std.specs.Prelude.{◌≡◌, ◌<◌, length, map, IfOk};
ghost use Rattle.std.specs.List.{list_any};
ghost use Rattle.th_base.specs.Launchable.{is_launchable, launchable, can_be_made, is_launch_constructor};
ghost use Rattle.th_syntax.specs.Program.{hierarchy_of};

use std::alloc::{AllocError, Global};
use th_base::{
    ACTIVITY_NUMBER, BUILT_IN_COUNT, CONSTRUCTOR, ClassId, ClassInfo, Hierarchy, MethodInfo,
    TAKES_NOTHING,
};
use th_syntax::Program;

/// The launchable classes of a program, in order.
pub fn activities(alloc: Global, program: &Program) -> Result<Vec<ClassId>, AllocError>
    ensures { IfOk result (λ classes. map (λ c. c.0) classes.items ≡ launchable (hierarchy_of program.now)) }
{
    launchable_in(alloc, program.hierarchy())
}

fn launchable_in(alloc: Global, hierarchy: &Hierarchy) -> Result<Vec<ClassId>, AllocError>
    ensures { IfOk result (λ classes. map (λ c. c.0) classes.items ≡ launchable hierarchy.now) }
{
    let mut found = Vec::new(alloc);
    let count = hierarchy.classes().len();
    for number in 0..count {
        let class = ClassId(number as u32);
        if is_launchable(hierarchy, class) {
            found.push(class)?;
        }
    }
    Ok(found)
}

/// Whether the harness launches objects of a class: it comes from a file, is a subclass of
/// `android/app/Activity`, is neither abstract nor an interface, and declares a constructor without
/// parameters that is neither static nor abstract.
pub fn is_launchable(hierarchy: &Hierarchy, class: ClassId) -> bool
    requires { class.0 < length hierarchy.now }
    ensures { result ≡ is_launchable hierarchy.now class.0 }
{
    class.0 >= BUILT_IN_COUNT
        && hierarchy.is_subclass(class, ClassId(ACTIVITY_NUMBER))
        && can_be_made(&hierarchy.classes()[class.0 as usize])
}

// Whether there are objects of the class, and it has a constructor that a launch can call.
fn can_be_made(class: &ClassInfo) -> bool
    ensures { result ≡ can_be_made class.now }
{
    !class.is_abstract && !class.is_interface && has_launch_constructor(class.methods.as_slice())
}

// Whether one of the methods is such a constructor.
fn has_launch_constructor(methods: &[MethodInfo]) -> bool
    ensures { result ≡ list_any is_launch_constructor methods.now }
{
    for method in methods {
        if is_launch_constructor(method) {
            return true;
        }
    }
    false
}

// Whether it is a constructor without parameters that a launch can call.
fn is_launch_constructor(method: &MethodInfo) -> bool
    ensures { result ≡ is_launch_constructor method.now }
{
    method.name.as_bytes() == CONSTRUCTOR.as_bytes()
        && method.descriptor.as_bytes() == TAKES_NOTHING.as_bytes()
        && !method.is_static
        && !method.is_abstract
}

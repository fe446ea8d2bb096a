// What the later passes ask a program.
ghost use Rattle.std.specs.Prelude.{◌≡◌, ◌+◌, ◌<◌, false, length, slice_get, Some, IfSome};
ghost use Rattle.std.specs.Option.{option_map, option_map_or};
ghost use Rattle.th_syntax.specs.Flags as flags;
ghost use Rattle.th_syntax.specs.LinkChecks as checks;
ghost use Rattle.th_syntax.specs.Program.{all_classes, hierarchy_of, number_named};

use th_base::{BUILT_IN_COUNT, ClassId, ClassInfo};
use th_syntax::{Program, limit};

// The number of the class of a file.
pub(crate) fn class_at(program: &Program, at: usize) -> ClassId
    requires { at < length program.now }
    ensures { slice_get (all_classes program.now) result.0 ≡ slice_get program.now at }
{
    let classes = program.hierarchy().classes();
    let number = BUILT_IN_COUNT as usize + at;
    // For the proof alone: numbers of classes have 32 bits.
    prove!(number < classes.len());
    ClassId(number as u32)
}

// The class of a name.
pub(crate) fn find_class(program: &Program, name: &[u8]) -> Option<ClassId>
    ensures value { option_map (λ class. class.0) result ≡ number_named program.now name.now }
    ensures inside { IfSome result (λ class. class.0 < length (hierarchy_of program.now)) }
{
    program.hierarchy().find_class(name)
}

// Whether the class of a number is an interface.
pub(crate) fn is_interface(program: &Program, class: ClassId) -> bool
    requires { class.0 < length (hierarchy_of program.now) }
    ensures { result ≡ option_map_or flags.is_interface (slice_get (all_classes program.now) class.0) false }
{
    info_at(program, class).is_interface
}

// The class of a number, as the hierarchy knows it.
pub(crate) fn info_at(program: &Program, class: ClassId) -> &ClassInfo
    requires { class.0 < length (hierarchy_of program.now) }
    ensures { slice_get (hierarchy_of program.now) class.0 ≡ Some result.now }
{
    &program.hierarchy().classes()[class.0 as usize]
}

// Whether the methods of a program, with those of the built-in classes, are not too many.
pub(crate) fn has_few_methods(program: &Program) -> bool
    ensures { result ≡ checks.are_few program.now }
{
    let mut left = limit::MOST_METHODS;
    for class in program.hierarchy().classes() {
        let here = class.methods.len();
        if here > left {
            return false;
        }
        left -= here;
    }
    true
}

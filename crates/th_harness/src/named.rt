// Classes by their names.
ghost use Rattle.std.specs.Prelude.{◌≡◌, ◌<◌, length, IfSome, option_map};
ghost use Rattle.th_syntax.specs.Program.{number_named, hierarchy_of};

use th_base::ClassId;
use th_syntax::Program;

/// The first class of a name, of the built-in classes and the files'; `None` exactly where there is none.
pub fn class_named(program: &Program, name: &[u8]) -> Option<ClassId>
    ensures value { option_map (λ c. c.0) result ≡ number_named program.now name.now }
    ensures within { IfSome result (λ c. c.0 < length (hierarchy_of program.now)) }
{
    program.hierarchy().find_class(name)
}

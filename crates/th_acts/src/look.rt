// What an instruction may look at.
ghost use Rattle.std.specs.Prelude.{◌≡◌};
ghost use Rattle.th_syntax.specs.Program.{hierarchy_of};

use th_base::{Hierarchy, Seq, Stack};
use th_resolved::Resolved;
use th_syntax::{Mark, Object, Slot, Value};

/// The parts of a state, and of the code frame on top of it, that instructions look at.
#[derive(Clone, Copy)]
pub struct Look<'a> {
    /// The program.
    pub resolved: &'a Resolved<'a>,
    /// The objects by address.
    pub heap: &'a Seq<Object>,
    /// A value for each field of the program by number.
    pub statics: &'a Seq<Value>,
    /// A mark for each class.
    pub marks: &'a Seq<Mark>,
    /// The locals of the frame on top.
    pub locals: &'a Seq<Slot>,
    /// Its operand stack.
    pub stack: &'a Stack<Slot>,
}

// The hierarchy of the program's classes.
pub(crate) fn hierarchy_in<'a>(look: Look<'a>) -> &'a Hierarchy
    ensures { result.now ≡ hierarchy_of look.entry.resolved.now }
{
    look.resolved.program().hierarchy()
}

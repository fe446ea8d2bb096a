// Linking class files with each other.
ghost use Rattle.std.specs.Prelude.{◌≡◌, IfOk};
ghost use Rattle.th_syntax.specs.LinkChecks as checks;
ghost use Rattle.th_syntax.specs.Linking.{AreOrdered, IsLinked, IsFirstRefusal};
ghost use Rattle.th_syntax.specs.Program as program;
ghost use Rattle.th_linker.specs.Checking.{AreNumbered, IfRefused};
ghost use Rattle.th_linker.specs.Linkable.{CanLink};

use crate::built_in::with_built_in;
use crate::classes::Classes;
use crate::hierarchy::hierarchy_of;
use crate::members::check_members;
use crate::names::check_names;
use crate::program::has_few_methods;
use crate::supertypes::check_supertypes;
use crate::uses::check_uses;
use std::alloc::{AllocError, Global};
use th_base::{BUILT_IN_COUNT, Fail, Hierarchy, Seq, Text};
use th_syntax::{ClassFile, Program, Refusal, cause};

/// The program of class files, or why they are refused.
///
/// `Ok` comes exactly where the files are linked: their names and supertypes are in order, their members
/// are what they must be, what reachable instructions name is there, and the methods are not too many
/// (`docs/LINKING.md` has each check with its place). The program has the files as they were given. A
/// refusal is the first one: by pass, then by class, then within the class. Takes time in proportion to
/// the files but for look-ups of members, each of which is a binary search in the classes that it asks.
pub fn link(alloc: Global, files: Vec<ClassFile>) -> Result<Program, Fail<Refusal>>
    requires { CanLink files.items }
    ensures linked { IfOk result (λ program. (program ≡ files.items) × IsLinked files.items) }
    ensures refused { IfRefused result (IsFirstRefusal files.items) }
{
    let program = ordered(alloc, files)?;
    check_members(alloc, &program)?;
    check_uses(alloc, &program)?;
    if has_few_methods(&program) {
        Ok(program)
    } else {
        Err(Fail::Refused(too_many_methods(alloc)?))
    }
}

// The program, where names and supertypes are in order.
fn ordered(alloc: Global, files: Vec<ClassFile>) -> Result<Program, Fail<Refusal>>
    requires { AreNumbered files.items }
    ensures ok { IfOk result (λ program. (program ≡ files.items) × AreOrdered files.items) }
    ensures refused { IfRefused result (IsFirstRefusal files.items) }
{
    let mut all = with_built_in(alloc, files)?;
    let (_, own) = all.as_slice().split_at(BUILT_IN_COUNT as usize);
    let hierarchy = ordered_hierarchy(alloc, all.as_slice(), own)?;
    let files = all.split_off(BUILT_IN_COUNT as usize)?;
    Ok(Program::new(Seq::from_vec(files), hierarchy))
}

// The hierarchy of all classes, of which these are the files', where names and supertypes are in order.
fn ordered_hierarchy(
    alloc: Global,
    all: &[ClassFile],
    files: &[ClassFile],
) -> Result<Hierarchy, Fail<Refusal>>
    requires all { all.now ≡ program.all_classes files.now }
    requires numbered { AreNumbered files.now }
    ensures ok { IfOk result (λ hierarchy. (hierarchy ≡ program.hierarchy_of files.now) × AreOrdered files.now) }
    ensures refused { IfRefused result (IsFirstRefusal files.now) }
{
    check_names(alloc, files)?;
    let classes = Classes::new(alloc, all, files)?;
    check_supertypes(alloc, &classes)?;
    hierarchy_of(alloc, &classes)
}

fn too_many_methods(alloc: Global) -> Result<Refusal, AllocError>
    ensures { IfOk result (λ refusal. refusal ≡ checks.methods_refusal) }
{
    Ok(Refusal {
        number: cause::LIMIT,
        class: Text::new(alloc)?,
        member: Text::from_slice(alloc, b"methods")?,
        offset: 0,
    })
}

// The fourth pass: what reachable instructions name is there, and is what it must be.
ghost use Rattle.std.specs.Prelude.{◌≡◌, [], ◌∷◌, ◌++◌, if◌then◌else◌};
ghost use Rattle.std.specs.List.{flat_map};
ghost use Rattle.th_base.specs.IdSet.{has};
ghost use Rattle.th_syntax.specs.Flow.{reached_code};
ghost use Rattle.th_syntax.specs.LinkChecks as checks;
ghost use Rattle.th_linker.specs.Checking.{Checks};
ghost use Rattle.th_linker.specs.Sites.{refusals_at};

use crate::site::Site;
use std::alloc::Global;
use th_base::Fail;
use th_reach::Reached;
use th_syntax::{ClassFile, Instr, Member, Program, Refusal};

// Of each class the methods, in order.
pub(crate) fn check_uses(alloc: Global, program: &Program) -> Result<(), Fail<Refusal>>
    ensures { Checks result (checks.use_refusals program.now) }
{
    for class in program.files() {
        check_class_uses(alloc, program, class)?;
    }
    Ok(())
}

fn check_class_uses(
    alloc: Global,
    program: &Program,
    class: &ClassFile,
) -> Result<(), Fail<Refusal>>
    ensures { Checks result (flat_map (checks.code_refusals program.now class.now) class.now.methods) }
{
    for method in class.methods.as_slice() {
        check_method_uses(alloc, program, class, method)?;
    }
    Ok(())
}

fn check_method_uses(
    alloc: Global,
    program: &Program,
    class: &ClassFile,
    method: &Member,
) -> Result<(), Fail<Refusal>>
    ensures { Checks result (checks.code_refusals program.now class.now method.now) }
{
    match &method.code {
        Some(code) => check_code(alloc, program, class, code.instrs.as_slice()),
        None => Ok(()),
    }
}

// The instructions that are reached, in order.
fn check_code(
    alloc: Global,
    program: &Program,
    class: &ClassFile,
    instrs: &[(u32, Instr)],
) -> Result<(), Fail<Refusal>>
    ensures { Checks result (flat_map (checks.instr_refusals program.now class.now) (reached_code instrs.now)) }
{
    let reached = Reached::new(alloc, instrs)?;
    for (offset, instr) in instrs {
        let site = Site {
            alloc,
            program,
            class: &class.name,
            offset: *offset,
        };
        check_if_reached(&site, &reached, instr)?;
    }
    Ok(())
}

fn check_if_reached(site: &Site, reached: &Reached, instr: &Instr) -> Result<(), Fail<Refusal>>
    ensures { Checks result (if has reached.now site.now.offset then refusals_at site.now (checks.use_faults site.now.program.now (checks.use_of instr.now)) else []) }
{
    if reached.contains(site.offset) {
        site.check_instr(instr)
    } else {
        Ok(())
    }
}

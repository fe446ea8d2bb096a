// The hierarchy of a program: no class stands above itself.
ghost use Rattle.std.specs.Prelude.{◌≡◌, ℕ, IfOk};
ghost use Rattle.th_base.specs.Cycles.{IsFirstCycle};
ghost use Rattle.th_base.specs.Hierarchy.{IsAcyclic};
ghost use Rattle.th_syntax.specs.LinkChecks.{cycle_refusal};
ghost use Rattle.th_syntax.specs.Program as program;
ghost use Rattle.th_linker.specs.Checking.{AreNumbered, IfRefused};

use crate::classes::Classes;
use crate::infos::class_infos;
use std::alloc::{AllocError, Global};
use th_base::{Cycle, Fail, Hierarchy, first_cycle};
use th_syntax::{Refusal, cause};

// The hierarchy, or the refusal of the first class on a cycle.
pub(crate) fn hierarchy_of(alloc: Global, classes: &Classes) -> Result<Hierarchy, Fail<Refusal>>
    requires { AreNumbered classes.now }
    ensures value { IfOk result (λ hierarchy. hierarchy ≡ program.hierarchy_of classes.now) }
    ensures acyclic { IfOk result (λ hierarchy. IsAcyclic (program.hierarchy_of classes.now)) }
    ensures refused { IfRefused result (λ refusal. (c s : ℕ) × IsFirstCycle (program.hierarchy_of classes.now) c s × (refusal ≡ cycle_refusal classes.now c s)) }
{
    let infos = class_infos(alloc, classes)?;
    match first_cycle(alloc, infos.as_slice())? {
        Some(cycle) => Err(Fail::Refused(refusal_of_cycle(alloc, classes, cycle)?)),
        None => Ok(Hierarchy::new(alloc, infos)?),
    }
}

fn refusal_of_cycle(alloc: Global, classes: &Classes, cycle: Cycle) -> Result<Refusal, AllocError>
    ensures { IfOk result (λ refusal. refusal ≡ cycle_refusal classes.now cycle.class.0 cycle.supertype.0) }
{
    Ok(Refusal {
        number: cause::SUPER,
        class: classes.name(alloc, cycle.class)?,
        member: classes.name(alloc, cycle.supertype)?,
        offset: 0,
    })
}

// Class initialisers that may run: a class's own and those of its superclasses. Each class is met once.
ghost use Rattle.std.specs.Prelude.{◌≡◌, ◌<◌, ◌⊎◌, ℕ, true, length, IfOk, OnOk, Contains};
ghost use Rattle.std.specs.List.{AllByRecursion};
ghost use Rattle.std.specs.Option.{option_map};
ghost use Rattle.th_base.specs.Hierarchy.{superclass_of};
ghost use Rattle.th_base.specs.IdSet.{has};
ghost use Rattle.th_ir.specs.Rules.{ReachesInitialisers};
ghost use Rattle.th_ir.specs.declared.program.RegProgram.{RegProgram};
ghost use Rattle.th_points_to.specs.Found.{Adds, IsLaid, Keeps};
ghost use Rattle.th_points_to.specs.Initialisers.{InitsGo, IsWalk, ReachesOwn};

use crate::found::{Found, reach};
use crate::place::Layout;
use indexmap::IndexSet;
use std::alloc::{AllocError, Global};
use th_base::{ClassId, Hierarchy, TAKES_NOTHING};

// The name of class initialisers (Java specification 2.9).
const CLASS_INITIALISER: &str = "<clinit>";

// The initialiser of a class may run, where the class has one.
fn reach_own(
    found: &mut Found,
    layout: Layout,
    hierarchy: &Hierarchy,
    class: ClassId,
) -> Result<(), AllocError>
    requires laid { IsLaid layout found.old }
    requires class { class.0 < length hierarchy.now }
    ensures { OnOk result ((p : RegProgram) → Adds layout p found.old found.new (λ t. ReachesOwn hierarchy.now t class.0)) }
{
    let name = CLASS_INITIALISER.as_bytes();
    match hierarchy.declared_method(class, name, TAKES_NOTHING.as_bytes()) {
        Some(method) => {
            reach(found, layout, method.id)?;
            Ok(())
        }
        None => Ok(()),
    }
}

// Whether a class was met before.
fn was_met(met: &IndexSet<u32>, class: u32) -> bool
    ensures { result ≡ true → Contains met.now.keys class }
{
    met.contains(&class)
}

// The superclass of a class.
fn superclass_of(hierarchy: &Hierarchy, class: ClassId) -> Option<ClassId>
    requires { class.0 < length hierarchy.now }
    ensures { option_map (λ k. k.0) result ≡ superclass_of hierarchy.now class.0 }
{
    hierarchy.classes()[class.0 as usize].super_id
}

// A class and its superclasses, upwards, up to the first that was met before.
fn walk(
    alloc: Global,
    met: &IndexSet<u32>,
    hierarchy: &Hierarchy,
    class: ClassId,
) -> Result<Vec<u32>, AllocError>
    requires { class.0 < length hierarchy.now }
    ensures { IfOk result (λ walked. IsWalk hierarchy.now met.now.keys class.0 walked.items) }
{
    // For the proof alone: no class stands above itself.
    let _classes = hierarchy.classes();
    let mut walked = Vec::new(alloc);
    let mut next = Some(class);
    loop {
        match next {
            Some(at) => {
                if was_met(met, at.0) {
                    return Ok(walked);
                }
                walked.push(at.0)?;
                next = superclass_of(hierarchy, at);
            }
            None => return Ok(walked),
        }
    }
}

// The initialisers of these classes may run.
fn reach_each(
    found: &mut Found,
    layout: Layout,
    hierarchy: &Hierarchy,
    classes: &[u32],
) -> Result<(), AllocError>
    requires laid { IsLaid layout found.old }
    requires classes { AllByRecursion (λ c. c < length hierarchy.now) classes.now }
    ensures { OnOk result ((p : RegProgram) → Adds layout p found.old found.new (λ t. AllByRecursion (ReachesOwn hierarchy.now t) classes.now)) }
{
    for class in classes {
        reach_own(found, layout, hierarchy, ClassId(*class))?;
    }
    Ok(())
}

// These classes were met.
fn meet_each(met: &mut IndexSet<u32>, classes: &[u32]) -> Result<(), AllocError>
    ensures { OnOk result ((c : ℕ) → Contains met.new.keys c → Contains met.old.keys c ⊎ (has classes.now c ≡ true)) }
{
    for class in classes {
        met.insert(*class)?;
    }
    Ok(())
}

// The initialisers of a class and of its superclasses may run.
pub(crate) fn reach_initialisers(
    found: &mut Found,
    alloc: Global,
    layout: Layout,
    hierarchy: &Hierarchy,
    met: &mut IndexSet<u32>,
    class: ClassId,
) -> Result<(), AllocError>
    requires { IsLaid layout found.old }
    ensures keeps { OnOk result (Keeps layout found.old found.new) }
    ensures adds { InitsGo hierarchy.now layout found.old met.old.keys
        → OnOk result ((p : RegProgram) → Adds layout p found.old found.new (λ t. class.0 < length hierarchy.now → ReachesInitialisers hierarchy.now t class.0)) }
    ensures inits { InitsGo hierarchy.now layout found.old met.old.keys → OnOk result (InitsGo hierarchy.now layout found.new met.new.keys) }
{
    if class.0 as usize >= hierarchy.classes().len() {
        return Ok(());
    }
    let walked = walk(alloc, met, hierarchy, class)?;
    reach_each(found, layout, hierarchy, walked.as_slice())?;
    meet_each(met, walked.as_slice())?;
    Ok(())
}

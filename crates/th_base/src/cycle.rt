// The first class that lies on a cycle of direct supertypes.
ghost use Rattle.std.specs.Prelude.{◌≡◌, ◌↔◌, ◌<◌, ◌^◌, ℕ, length, slice_index, true, IfOk, IfSome, IfNone, IsTrue};
ghost use Rattle.th_base.specs.Climb.{NeverRise, superclass_first_in};
ghost use Rattle.th_base.specs.Cycles.{IsAtOrAbove, IsFirstBack, IsFirstCycle};
ghost use Rattle.th_base.specs.Hierarchy.{StandsAbove, direct_supertypes};
ghost use Rattle.th_base.specs.IdSet.{has};

use crate::climb::is_at_or_above;
use crate::order::count_supertypes;
use crate::rank::{rank_of, ranks_of};
use crate::{ClassId, ClassInfo};
use std::alloc::{AllocError, Global};

/// A class on a cycle of direct supertypes, and a direct supertype on the same cycle.
#[derive(Clone, Copy, Debug, PartialEq, Eq)]
pub struct Cycle {
    /// The class.
    pub class: ClassId,
    /// The supertype.
    pub supertype: ClassId,
}

/// The first class, in order, that stands above itself, and the first of its direct supertypes, the
/// superclass before the interfaces, that lies on the same cycle; `None` exactly where no class stands
/// above itself. A number that no class has lies on no cycle. Takes time in the number of classes and
/// direct supertypes together.
pub fn first_cycle(alloc: Global, classes: &[ClassInfo]) -> Result<Option<Cycle>, AllocError>
    requires { length classes.now < 2 ^ 32 }
    ensures some { IfOk result (λ found. IfSome found (λ cycle. IsFirstCycle classes.now cycle.class.0 cycle.supertype.0)) }
    ensures none { IfOk result (λ found. IfNone found ((c : ℕ) → StandsAbove classes.now c c → ⊥)) }
{
    let ranks = ranks_of(alloc, classes)?;
    for number in 0..classes.len() {
        if let Some(supertype) = way_back(alloc, classes, ranks.as_slice(), number)? {
            let class = ClassId(number as u32);
            return Ok(Some(Cycle { class, supertype }));
        }
    }
    Ok(None)
}

// The first direct supertype of a class that the class stands above, or is.
fn way_back(
    alloc: Global,
    classes: &[ClassInfo],
    ranks: &[usize],
    class: usize,
) -> Result<Option<ClassId>, AllocError>
    requires class { class < length classes.now }
    requires ranks { NeverRise classes.now ranks.now }
    ensures some { IfOk result (λ found. IfSome found (λ supertype. IsFirstBack classes.now class supertype.0)) }
    ensures none { IfOk result (λ found. IfNone found (StandsAbove classes.now class class → ⊥)) }
{
    let info = &classes[class];
    for at in 0..count_supertypes(info) {
        let supertype = supertype_after_superclass(info, at);
        if leads_back(alloc, classes, ranks, class, supertype.0 as usize)? {
            return Ok(Some(supertype));
        }
    }
    Ok(None)
}

// Whether a class stands above one of its direct supertypes, or is it. On a cycle no rank is below
// another, so most classes are not climbed from.
fn leads_back(
    alloc: Global,
    classes: &[ClassInfo],
    ranks: &[usize],
    class: usize,
    supertype: usize,
) -> Result<bool, AllocError>
    requires class { class < length classes.now }
    requires ranks { NeverRise classes.now ranks.now }
    ensures { IfOk result (λ answer. IsTrue answer ↔ IsAtOrAbove classes.now class supertype) }
{
    if rank_of(ranks, supertype) < rank_of(ranks, class) {
        return Ok(false);
    }
    is_at_or_above(alloc, classes, class, supertype)
}

// The direct supertype at a place: the superclass, then the superinterfaces in order.
fn supertype_after_superclass(class: &ClassInfo, at: usize) -> ClassId
    requires { at < length (superclass_first_in class.now) }
    ensures { result.0 ≡ slice_index (superclass_first_in class.now) at }
{
    let interfaces = class.interfaces.as_slice();
    match class.super_id {
        Some(id) => { if at == 0 { id } else { interfaces[at - 1] } }
        None => interfaces[at],
    }
}

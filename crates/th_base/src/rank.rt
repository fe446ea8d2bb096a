// Ranks of classes that never rise from a class to a direct supertype, and are equal on a cycle.
ghost use Rattle.std.specs.Prelude.{◌≡◌, ◌≤◌, ℕ, true, IfOk};
ghost use Rattle.std.specs.List.{slice_index_or};
ghost use Rattle.th_base.specs.Climb.{rank_of, NeverRise};
ghost use Rattle.th_base.specs.IdSet.{has};
ghost use Rattle.th_base.specs.Order.{supertypes_in};

use crate::ClassInfo;
use crate::component::components_of;
use crate::order::{count_supertypes, supertype_at};
use std::alloc::{AllocError, Global};

// Ranks that never rise. They are the numbers of the strong components, supertypes first. Of these it
// is looked up, and not proved, that they never rise; if they did, all ranks would be the same.
pub(crate) fn ranks_of(alloc: Global, classes: &[ClassInfo]) -> Result<Vec<usize>, AllocError>
    ensures { IfOk result (λ ranks. NeverRise classes.now ranks.items) }
{
    let ranks = components_of(alloc, classes)?;
    if never_rise(classes, ranks.as_slice()) {
        return Ok(ranks);
    }
    Ok(Vec::new(alloc))
}

// The rank of a class; 0 where it has none.
pub(crate) fn rank_of(ranks: &[usize], class: usize) -> usize
    ensures { result ≡ rank_of ranks.now class }
{
    match ranks.get(class) {
        Some(rank) => *rank,
        None => 0,
    }
}

// Whether no direct supertype has a higher rank.
fn never_rise(classes: &[ClassInfo], ranks: &[usize]) -> bool
    ensures { result ≡ true → NeverRise classes.now ranks.now }
{
    for (number, class) in classes.iter().enumerate() {
        if !is_highest(class, ranks, rank_of(ranks, number)) {
            return false;
        }
    }
    true
}

// Whether no direct supertype of a class has a rank above this one.
fn is_highest(class: &ClassInfo, ranks: &[usize], own: usize) -> bool
    ensures { result ≡ true → (s : ℕ) → has (supertypes_in class.now) s ≡ true → rank_of ranks.now s ≤ own }
{
    for at in 0..count_supertypes(class) {
        if own < rank_of(ranks, supertype_at(class, at)) {
            return false;
        }
    }
    true
}

// Small steps on lists of inclusions, pairs and sets.
ghost use Rattle.std.specs.Prelude.{◌≡◌, ◌<◌, ◌++◌, [], ℕ, length, map, slice_set, IfOk, OnOk};
ghost use Rattle.std.specs.Option.{option_to_list};
ghost use Rattle.th_base.specs.IdSet.{has};
ghost use Rattle.th_incl.specs.Least.{set_at};

use std::alloc::{AllocError, Global};
use std::mem;
use th_base::{IdSet, Seq};

// Adds an item where there is one.
pub(crate) fn push_some<T: Drop>(items: &mut Seq<T>, item: Option<T>) -> Result<(), AllocError>
    ensures { OnOk result (items.new ≡ items.old ++ option_to_list item) }
{
    match item {
        Some(item) => items.push(item),
        None => Ok(()),
    }
}

// The numbers of pairs, each with its set.
fn second_of_each(alloc: Global, pairs: &[(usize, u32)]) -> Result<Vec<u32>, AllocError>
    ensures { IfOk result (λ ids. ids.items ≡ map (λ pair. pair.1) pairs.now) }
{
    pairs.iter().map(|pair| pair.1).collect(alloc)
}

// The set of the numbers of pairs.
pub(crate) fn numbers_of(alloc: Global, pairs: &[(usize, u32)]) -> Result<IdSet, AllocError>
    ensures { IfOk result (λ set. (x : ℕ) → has set x ≡ has (map (λ pair. pair.1) pairs.now) x) }
{
    let mut ids = second_of_each(alloc, pairs)?;
    ids.sort()?;
    ids.dedup();
    Ok(IdSet::from_ascending(ids))
}

// Takes the set at a place, and leaves an empty one. Takes no memory.
pub(crate) fn take_set(alloc: Global, sets: &mut [IdSet], at: usize) -> IdSet
    requires { at < length sets.old }
    ensures taken { result ≡ set_at sets.old at }
    ensures left { sets.new ≡ slice_set sets.old at [] }
{
    mem::replace(&mut sets[at], IdSet::new(alloc))
}

// Sets of numbers.
ghost use Rattle.std.specs.Prelude.{◌≡◌, ℕ, IfOk};
ghost use Rattle.std.specs.BTreeSet.{contains};
ghost use Rattle.std.specs.Ordering.{nat_cmp};
ghost use Rattle.th_base.specs.IdSet.{has};

use std::alloc::{AllocError, Global};
use std::collections::BTreeSet;

// The set of these numbers.
pub(crate) fn set_of(alloc: Global, numbers: Vec<u32>) -> Result<BTreeSet<u32>, AllocError>
    ensures { IfOk result (λ set. (x : ℕ) → contains nat_cmp set x ≡ has numbers.items x) }
{
    numbers.into_iter().collect(alloc)
}

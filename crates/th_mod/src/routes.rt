// The inclusions in the order in which they are added.
ghost use Rattle.std.specs.Prelude.{[], IfOk, IsPermutation};
ghost use Rattle.th_incl.specs.Least.{IsInRange};
ghost use Rattle.th_mod.specs.Told.{AreTold, system_of};

use crate::adding::least_sets;
use crate::lists::numbers_of;
use crate::places::{place_at, places_of};
use std::alloc::{AllocError, Global};
use th_base::{IdSet, Seq};
use th_incl::Inclusion;

// The inclusions by the places of the sets that they lead to, and the place of each set.
#[derive(Drop)]
pub(crate) struct Routes {
    pub(crate) copies: Vec<Inclusion>,
    pub(crate) places: Vec<usize>,
}

// Puts the inclusions between so many sets in order.
pub(crate) fn routes_of(
    alloc: Global,
    sets: usize,
    copies: Seq<Inclusion>,
) -> Result<Routes, AllocError>
    ensures { IfOk result (λ routes. IsPermutation copies routes.copies.items) }
{
    let places = places_of(alloc, sets, copies.as_slice())?;
    let mut copies = copies.into_vec();
    sort_copies(&mut copies, places.as_slice())?;
    Ok(Routes { copies, places })
}

// Puts inclusions in the order of the places of the sets that they lead to.
fn sort_copies(copies: &mut Vec<Inclusion>, places: &[usize]) -> Result<(), AllocError>
    ensures { IsPermutation copies.old.items copies.new.items }
{
    copies.sort_by_key(|copy| place_at(places, copy.to))
}

// Puts base pairs in the order of the places of their sets.
fn sort_pairs(pairs: &mut Vec<(usize, u32)>, places: &[usize]) -> Result<(), AllocError>
    ensures { IsPermutation pairs.old.items pairs.new.items }
{
    pairs.sort_by_key(|pair| place_at(places, pair.0))
}

// The least sets of base pairs under the inclusions.
pub(crate) fn told(
    alloc: Global,
    sets: usize,
    base: Seq<(usize, u32)>,
    routes: &Routes,
) -> Result<Vec<IdSet>, AllocError>
    requires { IsInRange (system_of sets base routes.now.copies.items []) }
    ensures { IfOk result (λ told. AreTold sets base routes.now.copies.items told.items) }
{
    let passing = numbers_of(alloc, base.as_slice())?;
    let mut pairs = base.into_vec();
    sort_pairs(&mut pairs, routes.places.as_slice())?;
    least_sets(
        alloc,
        sets,
        pairs.as_slice(),
        routes.copies.as_slice(),
        routes.places.as_slice(),
        passing,
    )
}

// In which order sets come to their numbers: those that are included in a set before it, but for cycles.
// The least sets are the same in every order, so nothing is said of this one: it serves speed alone.
use std::alloc::{AllocError, Global};
use th_base::Seq;
use th_incl::Inclusion;

// A walk against the inclusions: whether each set was entered, the sets that the walk is in, each with how
// many of its sources it followed, the place of each set that it left, and how many it left.
#[derive(Drop)]
struct Walk {
    entered: Vec<bool>,
    path: Vec<(usize, usize)>,
    places: Vec<usize>,
    left: usize,
}

// The walk's beginning over so many sets.
fn begin(alloc: Global, sets: usize) -> Result<Walk, AllocError> {
    let mut entered = Vec::new(alloc);
    let mut places = Vec::new(alloc);
    for _ in 0..sets {
        entered.push(false)?;
        places.push(0)?;
    }
    Ok(Walk {
        entered,
        path: Vec::new(alloc),
        places,
        left: 0,
    })
}

// The sets that are included in each set.
fn sources_of(
    alloc: Global,
    sets: usize,
    copies: &[Inclusion],
) -> Result<Vec<Seq<usize>>, AllocError> {
    let mut sources: Vec<Seq<usize>> = Vec::new(alloc);
    for _ in 0..sets {
        sources.push(Seq::new(alloc))?;
    }
    for copy in copies {
        if copy.to < sources.len() {
            sources[copy.to].push(copy.from)?;
        }
    }
    Ok(sources)
}

fn source_at(sources: &[Seq<usize>], set: usize, followed: usize) -> Option<usize> {
    let row = sources.get(set)?;
    row.get(followed).copied()
}

// Goes into a set, where it wasn't entered.
fn enter(walk: &mut Walk, set: usize) -> Result<(), AllocError> {
    if set < walk.entered.len() && !walk.entered[set] {
        walk.entered[set] = true;
        walk.path.push((set, 0))?;
    }
    Ok(())
}

// Gives a set the next place.
fn leave(walk: &mut Walk, set: usize) {
    if set < walk.places.len() {
        walk.places[set] = walk.left;
        walk.left = walk.left.saturating_add(1);
    }
}

// Follows one source of the innermost set, or leaves it.
fn step(walk: &mut Walk, sources: &[Seq<usize>]) -> Result<(), AllocError> {
    let (set, followed) = match walk.path.pop() {
        Some(top) => top,
        None => return Ok(()),
    };
    match source_at(sources, set, followed) {
        Some(source) => {
            walk.path.push((set, followed.saturating_add(1)))?;
            enter(walk, source)
        }
        None => {
            leave(walk, set);
            Ok(())
        }
    }
}

// Walks from a set, in so many steps at most.
fn walk_from(
    walk: &mut Walk,
    sources: &[Seq<usize>],
    set: usize,
    most: usize,
) -> Result<(), AllocError> {
    enter(walk, set)?;
    for _ in 0..most {
        if walk.path.is_empty() {
            return Ok(());
        }
        step(walk, sources)?;
    }
    Ok(())
}

// The place of each set. All walks together follow each inclusion once and leave each set once.
pub(crate) fn places_of(
    alloc: Global,
    sets: usize,
    copies: &[Inclusion],
) -> Result<Vec<usize>, AllocError> {
    let sources = sources_of(alloc, sets, copies)?;
    let most = sets.saturating_add(copies.len());
    let mut walk = begin(alloc, sets)?;
    for set in 0..sets {
        walk_from(&mut walk, sources.as_slice(), set, most)?;
    }
    Ok(walk.places)
}

// The place of a set.
pub(crate) fn place_at(places: &[usize], set: usize) -> usize {
    match places.get(set) {
        Some(place) => *place,
        None => 0,
    }
}

// A search level by level. Its steps come in the order of their paths: the steps of a level stand in
// that order, each is followed along its edges in ascending order, and a site is taken once.
ghost use Rattle.std.specs.Prelude.{◌≡◌, ◌<◌, ◌+◌, ◌^◌, [], length, replicate, IfOk, OnOk, None, slice_index};
ghost use Rattle.th_paths.specs.Links.{AreLinks};
ghost use Rattle.th_paths.specs.Search.{AreMarks, Offers, IsBegun, IsFollowedTo, Ends, IsNearest, StepsStay, is_static_of, lesser_of, site_place};

use crate::links::{Links, end_of};
use std::alloc::{AllocError, Global};
use th_base::{EdgeId, FieldId, IdSet};
use th_ir::Edge;

// A step to a site that hadn't been found: the edge that leads there, and the place of the step whose
// site it starts at, none where it is an edge of the static field.
#[derive(Clone, Copy, Debug)]
pub(crate) struct Step {
    pub(crate) edge: EdgeId,
    pub(crate) before: Option<usize>,
}

#[derive(Debug, Drop)]
pub(crate) struct Search {
    // The steps so far, in the order of their paths.
    pub(crate) steps: Vec<Step>,
    // The place of each site's step, by the edge by which the site is known.
    pub(crate) places: Vec<Option<usize>>,
}

// A mark for each edge: whether it is in the cut.
pub(crate) fn marks_of(alloc: Global, count: usize, cut: &IdSet) -> Result<Vec<bool>, AllocError>
    ensures { IfOk result (λ marks. AreMarks count cut.now marks.items) }
{
    let mut marks = vec![in alloc; false; count]?;
    for edge in cut.ids() {
        if (*edge as usize) < count {
            marks[*edge as usize] = true;
        }
    }
    Ok(marks)
}

// Adds a step along an edge, unless the edge is cut or its site has been found.
fn offer(
    links: &Links,
    marks: &[bool],
    search: &mut Search,
    edge: usize,
    before: Option<usize>,
) -> Result<(), AllocError>
    requires few { edge < 2 ^ 32 }
    requires marks { edge < length marks.now }
    requires firsts { edge < length links.now.firsts.items }
    requires places { slice_index links.now.firsts.items edge < length search.old.places.items }
    ensures { OnOk result (Offers links.now.firsts.items marks.now search.old search.new edge before) }
{
    if marks[edge] {
        return Ok(());
    }
    let first = links.firsts[edge] as usize;
    if search.places[first].is_some() {
        return Ok(());
    }
    let at = search.steps.len();
    let edge = EdgeId(edge as u32);
    search.steps.push(Step { edge, before })?;
    search.places[first] = Some(at);
    Ok(())
}

// A search that has found nothing.
fn start(alloc: Global, count: usize) -> Result<Search, AllocError>
    ensures steps { IfOk result (λ s. s.steps.items ≡ []) }
    ensures places { IfOk result (λ s. s.places.items ≡ replicate count None) }
{
    let steps = Vec::new(alloc);
    let places = vec![in alloc; None; count]?;
    Ok(Search { steps, places })
}

// A search that has followed the edges of the static field.
pub(crate) fn begin(
    alloc: Global,
    links: &Links,
    field: FieldId,
    cut: &IdSet,
    marks: &[bool],
) -> Result<Search, AllocError>
    requires links { AreLinks links.now }
    requires marks { AreMarks (length links.now.edges) cut.now marks.now }
    ensures { IfOk result (λ s. IsFollowedTo links.now field cut.now s 0) }
{
    let edges = links.edges.as_slice();
    let mut search = start(alloc, edges.len())?;
    for k in 0..edges.len() {
        begin_along(links, field, cut, marks, &mut search, k)?;
    }
    Ok(search)
}

// Whether an edge is one of a static field.
fn is_static_of(edge: Edge, field: FieldId) -> bool
    ensures { result ≡ is_static_of field edge }
{
    match edge {
        Edge::Static(own, _) => own.0 == field.0,
        Edge::Field(_, _, _) => false,
        Edge::Element(_, _) => false,
    }
}

// Follows an edge, if it is one of the static field. The cut serves the proof alone: the marks say it.
fn begin_along(
    links: &Links,
    field: FieldId,
    _cut: &IdSet,
    marks: &[bool],
    search: &mut Search,
    k: usize,
) -> Result<(), AllocError>
    requires links { AreLinks links.now }
    requires marks { AreMarks (length links.now.edges) _cut.now marks.now }
    requires inside { k < length links.now.edges }
    requires begun { IsBegun links.now.edges links.now.firsts.items field _cut.now search.old.steps.items search.old.places.items k }
    ensures { OnOk result (IsBegun links.now.edges links.now.firsts.items field _cut.now search.new.steps.items search.new.places.items (k + 1)) }
{
    if is_static_of(links.edges.as_slice()[k], field) {
        return offer(links, marks, search, k, None);
    }
    Ok(())
}

// Follows the edges from the site of a step, the next one. The field and the cut serve the proof alone.
fn follow(
    links: &Links,
    _field: FieldId,
    _cut: &IdSet,
    marks: &[bool],
    search: &mut Search,
    at: usize,
) -> Result<(), AllocError>
    requires links { AreLinks links.now }
    requires marks { AreMarks (length links.now.edges) _cut.now marks.now }
    requires inside { at < length search.old.steps.items }
    requires followed { IsFollowedTo links.now _field _cut.now search.old at }
    ensures followed { OnOk result (IsFollowedTo links.now _field _cut.now search.new (at + 1)) }
    ensures stay { OnOk result (StepsStay search.old.steps.items search.new.steps.items) }
{
    let edge = search.steps.as_slice()[at].edge;
    let first = links.firsts.as_slice()[edge.0 as usize] as usize;
    for next in links.out.as_slice()[first].as_slice() {
        offer(links, marks, search, *next as usize, Some(at))?;
    }
    Ok(())
}

// Goes on to the first step to a site of the goal, or to the end.
pub(crate) fn run(
    links: &Links,
    field: FieldId,
    goal: &IdSet,
    cut: &IdSet,
    marks: &[bool],
    search: &mut Search,
) -> Result<Option<usize>, AllocError>
    requires links { AreLinks links.now }
    requires marks { AreMarks (length links.now.edges) cut.now marks.now }
    requires begun { IsFollowedTo links.now field cut.now search.old 0 }
    ensures { IfOk result (Ends links.now field goal.now cut.now search.new) }
{
    let mut at = 0;
    while at < search.steps.len() {
        let step = search.steps.as_slice()[at];
        let edge = links.edges.as_slice()[step.edge.0 as usize];
        if goal.contains(end_of(edge)) {
            return Ok(Some(at));
        }
        follow(links, field, cut, marks, search, at)?;
        at += 1;
    }
    Ok(None)
}

// The place of a site's step, if the site has been found.
fn place_of(links: &Links, search: &Search, site: u32) -> Option<usize>
    requires links { AreLinks links.now }
    requires places { length search.now.places.items ≡ length links.now.edges }
    ensures { result ≡ site_place links.now.edges search.now.places.items site }
{
    match links.sites.get(&site) {
        Some(first) => search.places.as_slice()[*first as usize],
        None => None,
    }
}

// The first step to a site of the goal.
pub(crate) fn nearest(links: &Links, search: &Search, goal: &IdSet) -> Option<usize>
    requires links { AreLinks links.now }
    requires places { length search.now.places.items ≡ length links.now.edges }
    ensures { IsNearest links.now.edges search.now.places.items goal.now result }
{
    let mut nearest = None;
    for site in goal.ids() {
        nearest = lesser(nearest, place_of(links, search, *site));
    }
    nearest
}

// The lesser of two places that there may be.
fn lesser(left: Option<usize>, right: Option<usize>) -> Option<usize>
    ensures { result ≡ lesser_of left right }
{
    match (left, right) {
        (Some(a), Some(b)) => Some(a.min(b)),
        (Some(a), None) => Some(a),
        (None, b) => b,
    }
}

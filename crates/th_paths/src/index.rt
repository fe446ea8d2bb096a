// The index of a graph, and the least paths by it.
ghost use Rattle.std.specs.Prelude.{◌≡◌, ◌<◌, ◌^◌, length, IfOk};
ghost use Rattle.th_paths.specs.Links.{AreLinks};
ghost use Rattle.th_paths.specs.Paths.{TellsLeast, TellEachLeast};
ghost use Rattle.th_paths.specs.Search.{IsFollowedTo};

use crate::links::{Links, links_of};
use crate::search::{Search, begin, marks_of, nearest, run};
use crate::trace::path_to;
use std::alloc::{AllocError, Global};
use std::marker::Model;
use th_base::{EdgeId, FieldId, IdSet, Seq};
use th_ir::Graph;

/// A graph made ready for many searches. Contracts see it as the list of the graph's edges.
#[derive(Debug, Drop)]
pub struct PathIndex {
    links: Links,
}

impl Model for PathIndex {
    ghost use Rattle.std.specs.Prelude.{List};
    ghost use Rattle.th_ir.specs.declared.graph.Edge.{Edge};
    ghost use Rattle.th_paths.specs.Links.{AreLinks};

    ghost Value = { List Edge };

    ghost view = { λ s. s.links.edges };

    ghost invariant = { λ s. AreLinks s.links };
}

impl PathIndex {
    /// The index of a graph.
    pub fn new(alloc: Global, graph: &Graph) -> Result<PathIndex, AllocError>
        requires { length graph.now.edges < 2 ^ 32 }
        ensures { IfOk result (λ index. index ≡ graph.now.edges) }
    {
        let edges = graph.edges.copy(alloc)?;
        let links = links_of(alloc, edges)?;
        Ok(PathIndex { links })
    }

    /// The least path from a static field to a site of the goal without an edge of the cut, by length,
    /// then by the list of edge numbers; `None` exactly where there is no path. It stops at the first
    /// site of the goal. Takes time in the number of edges, and for each site found until then that of
    /// a look-up in the goal.
    pub fn least_path(
        &self,
        alloc: Global,
        field: FieldId,
        goal: &IdSet,
        cut: &IdSet,
    ) -> Result<Option<Seq<EdgeId>>, AllocError>
        ensures { IfOk result (TellsLeast self.now field goal.now cut.now) }
    {
        first_path(alloc, &self.links, field, goal, cut)
    }

    /// For each goal the least path from a static field to a site of it without an edge of the cut, by
    /// one search. Takes time in the number of edges, then for each member of a goal that of a look-up
    /// of a site, and the length of each path.
    pub fn least_paths(
        &self,
        alloc: Global,
        field: FieldId,
        goals: &[IdSet],
        cut: &IdSet,
    ) -> Result<Vec<Option<Seq<EdgeId>>>, AllocError>
        ensures { IfOk result (λ found. TellEachLeast self.now field goals.now cut.now found.items) }
    {
        paths_to_each(alloc, &self.links, field, goals, cut)
    }
}

// The least path to a site of the goal, by a search that stops there.
fn first_path(
    alloc: Global,
    links: &Links,
    field: FieldId,
    goal: &IdSet,
    cut: &IdSet,
) -> Result<Option<Seq<EdgeId>>, AllocError>
    requires { AreLinks links.now }
    ensures { IfOk result (TellsLeast links.now.edges field goal.now cut.now) }
{
    let marks = marks_of(alloc, links.edges.len(), cut)?;
    let mut search = begin(alloc, links, field, cut, marks.as_slice())?;
    let stop = run(links, field, goal, cut, marks.as_slice(), &mut search)?;
    match stop {
        Some(at) => Ok(Some(path_to(alloc, search.steps.as_slice(), at)?)),
        None => Ok(None),
    }
}

// For each goal the least path to a site of it, by one search.
fn paths_to_each(
    alloc: Global,
    links: &Links,
    field: FieldId,
    goals: &[IdSet],
    cut: &IdSet,
) -> Result<Vec<Option<Seq<EdgeId>>>, AllocError>
    requires { AreLinks links.now }
    ensures { IfOk result (λ found. TellEachLeast links.now.edges field goals.now cut.now found.items) }
{
    let search = whole_search(alloc, links, field, cut)?;
    let mut found = Vec::new(alloc);
    for goal in goals {
        found.push(path_to_goal(alloc, links, &search, field, goal, cut)?)?;
    }
    Ok(found)
}

// A search that has gone on to its end.
fn whole_search(
    alloc: Global,
    links: &Links,
    field: FieldId,
    cut: &IdSet,
) -> Result<Search, AllocError>
    requires { AreLinks links.now }
    ensures { IfOk result (λ s. IsFollowedTo links.now field cut.now s (length s.steps.items)) }
{
    let marks = marks_of(alloc, links.edges.len(), cut)?;
    let mut search = begin(alloc, links, field, cut, marks.as_slice())?;
    let goal = IdSet::new(alloc);
    run(links, field, &goal, cut, marks.as_slice(), &mut search)?;
    Ok(search)
}

// The least path to a site of a goal, by a search that went on to its end. The field and the cut serve
// the proof alone.
fn path_to_goal(
    alloc: Global,
    links: &Links,
    search: &Search,
    _field: FieldId,
    goal: &IdSet,
    _cut: &IdSet,
) -> Result<Option<Seq<EdgeId>>, AllocError>
    requires links { AreLinks links.now }
    requires over { IsFollowedTo links.now _field _cut.now search.now (length search.now.steps.items) }
    ensures { IfOk result (TellsLeast links.now.edges _field goal.now _cut.now) }
{
    match nearest(links, search, goal) {
        Some(at) => Ok(Some(path_to(alloc, search.steps.as_slice(), at)?)),
        None => Ok(None),
    }
}

/// The least path of a graph from a static field to a site of the goal without an edge of the cut, by
/// length, then by the list of edge numbers; `None` exactly where there is no path. Makes an index for
/// this one search.
pub fn least_path(
    alloc: Global,
    graph: &Graph,
    field: FieldId,
    goal: &IdSet,
    cut: &IdSet,
) -> Result<Option<Seq<EdgeId>>, AllocError>
    requires { length graph.now.edges < 2 ^ 32 }
    ensures { IfOk result (TellsLeast graph.now.edges field goal.now cut.now) }
{
    let index = PathIndex::new(alloc, graph)?;
    index.least_path(alloc, field, goal, cut)
}

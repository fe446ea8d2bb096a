// Least paths in heap graphs of one shape: a tree over the sites, and as many edges again across it.
ghost use Rattle.std.specs.Prelude.{◌≡◌, ◌<◌, ◌^◌, length, IfOk};

use std::alloc::{AllocError, Global};
use th_base::{EdgeId, FieldId, IdSet, Seq, SiteId};
use th_ir::{Edge, Graph};
use th_paths::PathIndex;

// The static field from which all sites are reached.
const ROOT: FieldId = FieldId(0);

const FIELD: FieldId = FieldId(1);

// Leads from each site to another in no order.
const STRIDE: u32 = 7919;

// How many sites the graph has in which one path is looked for many times; it has 38,299 edges.
const CUT_SITES: u32 = 18_089;

// How many edges lead among so many sites.
fn edge_count(sites: u32) -> u32 {
    sites
        .wrapping_mul(2)
        .wrapping_add(sites / 8)
        .wrapping_sub(sites / 129)
}

fn edge_of(number: u32, sites: u32) -> Edge
    requires { 0 < sites }
{
    if number == 0 {
        return Edge::Static(ROOT, SiteId(0));
    }
    if number < sites {
        return Edge::Element(SiteId((number - 1) / 2), SiteId(number));
    }
    Edge::Field(
        SiteId(number % sites),
        FIELD,
        SiteId(number.wrapping_mul(STRIDE) % sites),
    )
}

fn graph_of(alloc: Global, sites: u32) -> Result<Graph, AllocError>
    requires { 0 < sites }
    ensures { IfOk result (λ g. length g.edges < 2 ^ 32) }
{
    let mut edges = Vec::new(alloc);
    for number in 0..edge_count(sites) {
        edges.push(edge_of(number, sites))?;
    }
    Ok(Graph {
        edges: Seq::from_vec(edges),
    })
}

fn set_of(alloc: Global, number: u32) -> Result<IdSet, AllocError> {
    let mut set = IdSet::new(alloc);
    set.insert(number)?;
    Ok(set)
}

fn length_of(path: &Option<Seq<EdgeId>>) -> u64 {
    match path {
        Some(path) => path.len() as u64,
        None => 0,
    }
}

fn index_of(alloc: Global, sites: u32) -> Result<PathIndex, AllocError>
    requires { 0 < sites }
{
    PathIndex::new(alloc, &graph_of(alloc, sites)?)
}

// Asks by one search for the least path to each of so many sites, and counts the edges of the paths.
pub(crate) fn paths(alloc: Global, sites: u32) -> Result<u64, AllocError> {
    let mut count = 0u64;
    if sites == 0 {
        return Ok(count);
    }
    let index = index_of(alloc, sites)?;
    let mut goals = Vec::new(alloc);
    for site in 0..sites {
        goals.push(set_of(alloc, site)?)?;
    }
    let found = index.least_paths(alloc, ROOT, goals.as_slice(), &IdSet::new(alloc))?;
    for path in &found {
        count = count.saturating_add(length_of(path));
    }
    Ok(count)
}

// Asks so many times for the least path to the last site, each time with another edge cut, and counts
// the edges of the paths.
pub(crate) fn cuts(alloc: Global, times: u32) -> Result<u64, AllocError> {
    let mut count = 0u64;
    let index = index_of(alloc, CUT_SITES)?;
    let goal = set_of(alloc, CUT_SITES - 1)?;
    for number in 0..times {
        let cut = set_of(alloc, number % CUT_SITES)?;
        count = count.saturating_add(length_of(&index.least_path(alloc, ROOT, &goal, &cut)?));
    }
    Ok(count)
}

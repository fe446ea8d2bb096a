ghost use Rattle.std.specs.Prelude.{◌<◌, ◌^◌, length, IfOk};

use std::alloc::Global;
use std::process::Abort;
use std::test::Fail;
use th_base::{EdgeId, FieldId, IdSet, Seq, SiteId};
use th_ir::{Edge, Graph};
use th_paths::{PathIndex, least_path};

// Stands for no path.
const NONE: u32 = 99;

// An edge of the static field that is asked about.
fn held(site: u32) -> Edge {
    Edge::Static(FieldId(0), SiteId(site))
}

// An edge of another static field.
fn other(site: u32) -> Edge {
    Edge::Static(FieldId(9), SiteId(site))
}

fn field(from: u32, to: u32) -> Edge {
    Edge::Field(SiteId(from), FieldId(5), SiteId(to))
}

fn elem(from: u32, to: u32) -> Edge {
    Edge::Element(SiteId(from), SiteId(to))
}

fn graph(alloc: Global, edges: &[Edge]) -> Result<Graph, Fail>
    ensures { IfOk result (λ g. length g.edges < 2 ^ 32) }
{
    if edges.len() > 99 {
        return Err("too many edges".into());
    }
    let edges = Seq::from_slice(alloc, edges)?;
    Ok(Graph { edges })
}

fn ids(alloc: Global, numbers: &[u32]) -> Result<IdSet, Fail> {
    let mut set = IdSet::new(alloc);
    for number in numbers {
        set.insert(*number)?;
    }
    Ok(set)
}

fn numbers(alloc: Global, path: Option<Seq<EdgeId>>) -> Result<Vec<u32>, Fail> {
    let mut numbers = Vec::new(alloc);
    match path {
        None => numbers.push(NONE)?,
        Some(path) => {
            for edge in path.as_slice() {
                numbers.push(edge.0)?;
            }
        }
    }
    Ok(numbers)
}

fn plainly(alloc: Global, edges: &[Edge], goal: &[u32], cut: &[u32]) -> Result<Vec<u32>, Fail> {
    let graph = graph(alloc, edges)?;
    let path = least_path(
        alloc,
        &graph,
        FieldId(0),
        &ids(alloc, goal)?,
        &ids(alloc, cut)?,
    )?;
    numbers(alloc, path)
}

fn by_index(alloc: Global, edges: &[Edge], goal: &[u32], cut: &[u32]) -> Result<Vec<u32>, Fail> {
    let index = PathIndex::new(alloc, &graph(alloc, edges)?)?;
    let path = index.least_path(alloc, FieldId(0), &ids(alloc, goal)?, &ids(alloc, cut)?)?;
    numbers(alloc, path)
}

fn among_goals(alloc: Global, edges: &[Edge], goal: &[u32], cut: &[u32]) -> Result<Vec<u32>, Fail> {
    let index = PathIndex::new(alloc, &graph(alloc, edges)?)?;
    let mut goals = Vec::new(alloc);
    goals.push(IdSet::new(alloc))?;
    goals.push(ids(alloc, goal)?)?;
    let mut paths = index.least_paths(alloc, FieldId(0), goals.as_slice(), &ids(alloc, cut)?)?;
    match paths.pop() {
        Some(path) => numbers(alloc, path),
        None => Err("no answer".into()),
    }
}

// The edges, the goal, the cut, and the path that each call must give.
fn check(
    rt: &(impl Abort + Alloc<A = Global>),
    edges: &[Edge],
    goal: &[u32],
    cut: &[u32],
    expected: &[u32],
) -> Result<(), Fail> {
    let alloc = rt.alloc();
    assert_eq!(rt; plainly(alloc, edges, goal, cut)?.as_slice(), expected);
    assert_eq!(rt; by_index(alloc, edges, goal, cut)?.as_slice(), expected);
    assert_eq!(rt; among_goals(alloc, edges, goal, cut)?.as_slice(), expected);
    Ok(())
}

#[test]
fn short_path_is_cut_and_the_longer_stays(rt: HostRuntime) -> Result<(), Fail> {
    let edges = [held(1), held(2), field(2, 1)];
    check(&rt, &edges, &[1], &[], &[0])?;
    check(&rt, &edges, &[1], &[0], &[1, 2])?;
    check(&rt, &edges, &[1], &[0, 2], &[NONE])?;
    check(&rt, &edges, &[1], &[0, 1], &[NONE])
}

#[test]
fn ties_go_to_the_lesser_edge(rt: HostRuntime) -> Result<(), Fail> {
    let crossed = [held(1), held(2), elem(2, 3), elem(1, 3)];
    check(&rt, &crossed, &[3], &[], &[0, 3])?;
    let twice = [held(1), field(1, 2), elem(1, 2)];
    check(&rt, &twice, &[2], &[], &[0, 1])?;
    check(&rt, &twice, &[2], &[1], &[0, 2])?;
    check(&rt, &[elem(1, 2), held(1), held(1)], &[2], &[], &[1, 0])
}

#[test]
fn shorter_is_before_lesser(rt: HostRuntime) -> Result<(), Fail> {
    let straight = [held(1), elem(1, 2), elem(2, 3), held(3)];
    check(&rt, &straight, &[3], &[], &[3])?;
    let long = [
        held(1),
        held(2),
        elem(1, 4),
        elem(4, 2),
        elem(2, 3),
        elem(1, 3),
    ];
    check(&rt, &long, &[3], &[], &[0, 5])?;
    check(&rt, &long, &[3], &[5], &[1, 4])?;
    check(&rt, &long, &[2, 3], &[], &[1])
}

#[test]
fn cycles_end(rt: HostRuntime) -> Result<(), Fail> {
    let round = [held(1), elem(1, 2), elem(2, 1), elem(2, 3)];
    check(&rt, &round, &[3], &[], &[0, 1, 3])?;
    check(&rt, &round, &[3], &[3], &[NONE])?;
    check(&rt, &[held(1), elem(1, 1)], &[1], &[], &[0])?;
    check(&rt, &[other(1), elem(1, 2), held(2)], &[1], &[], &[NONE])
}

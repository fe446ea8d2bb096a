// The edges of the heap graph.
ghost use Rattle.std.specs.Prelude.{◌≡◌, ◌++◌, ◌+◌, nat_lt, List, flat_map, length, map, IfOk, OnOk};
ghost use Rattle.th_graph.specs.Graphs.{AreFieldsNumbered};
ghost use Rattle.th_graph.specs.Tables.{edges_of, edges_of_static, edges_of_cell, edges_of_elem, static_edges, static_edges_at, left_after};
ghost use Rattle.th_ir.specs.declared.graph.Edge.{Edge};
ghost use Rattle.th_ir.specs.declared.program.RegProgram.{RegProgram};
ghost use Rattle.th_ir.specs.FactSets.{sets_of, AreListed};
ghost use Rattle.th_ir.specs.Graph.{IsGraph};

use crate::statics::file_statics;
use std::alloc::{AllocError, Global};
use th_base::{FieldId, Hierarchy, IdSet, Seq, SiteId};
use th_ir::laws::listings::graphs_are_one;
use th_ir::{Edge, Facts, Graph};

/// The heap graph of facts: an edge for each static field of a class of a file and each site in its set,
/// for each site in the set of a field of a site, and for each site in the set of a site's elements. They
/// are numbered in this order, each group by its numbers. Takes time in the number of fields and edges.
pub fn heap_graph(alloc: Global, hierarchy: &Hierarchy, facts: &Facts) -> Result<Graph, AllocError>
    ensures { IfOk result (λ graph. (p : RegProgram) → AreFieldsNumbered hierarchy.now → AreListed hierarchy.now p facts.now
        → IsGraph hierarchy.now (sets_of facts.now) graph.edges) }
{
    let mut edges = Vec::new(alloc);
    let fields = file_statics(alloc, hierarchy.classes())?;
    add_statics(&mut edges, fields.as_slice(), facts.statics.as_slice())?;
    add_cells(&mut edges, facts.cells.as_slice())?;
    add_elems(&mut edges, facts.elems.as_slice())?;
    Ok(Graph {
        edges: Seq::from_vec(edges),
    })
}

// Adds the edges of static fields.
fn add_statics(
    edges: &mut Vec<Edge>,
    fields: &[FieldId],
    statics: &[IdSet],
) -> Result<(), AllocError>
    ensures { OnOk result (edges.new.items ≡ edges.old.items ++ static_edges statics.now fields.now) }
{
    for field in fields {
        add_static_at(edges, *field, statics)?;
    }
    Ok(())
}

// Adds the edges of a static field, if there is a set for it.
fn add_static_at(edges: &mut Vec<Edge>, field: FieldId, statics: &[IdSet]) -> Result<(), AllocError>
    ensures { OnOk result (edges.new.items ≡ edges.old.items ++ static_edges_at statics.now field) }
{
    match statics.get(field.0 as usize) {
        Some(sites) => add_static(edges, field, sites.ids()),
        None => Ok(()),
    }
}

// Adds an edge from a static field to each of these sites.
fn add_static(edges: &mut Vec<Edge>, field: FieldId, sites: &[u32]) -> Result<(), AllocError>
    ensures { OnOk result (edges.new.items ≡ edges.old.items ++ edges_of_static field sites.now) }
{
    for site in sites {
        edges.push(Edge::Static(field, SiteId(*site)))?;
    }
    Ok(())
}

// Adds the edges of fields of objects.
fn add_cells(edges: &mut Vec<Edge>, cells: &[(SiteId, FieldId, IdSet)]) -> Result<(), AllocError>
    ensures { OnOk result (edges.new.items ≡ edges.old.items ++ flat_map edges_of_cell cells.now) }
{
    for cell in cells {
        add_cell(edges, cell.0, cell.1, cell.2.ids())?;
    }
    Ok(())
}

// Adds an edge from a field of a site to each of these sites.
fn add_cell(
    edges: &mut Vec<Edge>,
    from: SiteId,
    field: FieldId,
    sites: &[u32],
) -> Result<(), AllocError>
    ensures { OnOk result (edges.new.items ≡ edges.old.items ++ edges_of_cell (from, field, sites.now)) }
{
    for site in sites {
        edges.push(Edge::Field(from, field, SiteId(*site)))?;
    }
    Ok(())
}

// Adds the edges of elements of arrays.
fn add_elems(edges: &mut Vec<Edge>, elems: &[(SiteId, IdSet)]) -> Result<(), AllocError>
    ensures { OnOk result (edges.new.items ≡ edges.old.items ++ flat_map edges_of_elem elems.now) }
{
    for elem in elems {
        add_elem(edges, elem.0, elem.1.ids())?;
    }
    Ok(())
}

// Adds an edge from the elements of a site to each of these sites.
fn add_elem(edges: &mut Vec<Edge>, from: SiteId, sites: &[u32]) -> Result<(), AllocError>
    ensures { OnOk result (edges.new.items ≡ edges.old.items ++ edges_of_elem (from, sites.now)) }
{
    for site in sites {
        edges.push(Edge::Element(from, SiteId(*site)))?;
    }
    Ok(())
}

/// Whether the heap graph of facts has more edges than this. Makes none of them, and takes time in the
/// number of fields and sets.
pub fn edges_pass(
    alloc: Global,
    hierarchy: &Hierarchy,
    facts: &Facts,
    most: u32,
) -> Result<bool, AllocError>
    ensures { IfOk result (λ pass. (p : RegProgram) (edges : List Edge) → AreFieldsNumbered hierarchy.now → AreListed hierarchy.now p facts.now
        → IsGraph hierarchy.now (sets_of facts.now) edges → pass ≡ nat_lt most (length edges)) }
{
    graphs_are_one();
    let fields = file_statics(alloc, hierarchy.classes())?;
    let left = after_statics(
        Some(most as usize),
        fields.as_slice(),
        facts.statics.as_slice(),
    );
    let left = after_cells(left, facts.cells.as_slice());
    let left = after_elems(left, facts.elems.as_slice());
    Ok(left.is_none())
}

// What is left of a number after one more is taken away.
fn after(left: Option<usize>, count: usize) -> Option<usize>
    ensures { result ≡ left_after left count }
{
    match left {
        Some(left) if count <= left => Some(left - count),
        _ => None,
    }
}

// What is left after the edges of static fields.
fn after_statics(left: Option<usize>, fields: &[FieldId], statics: &[IdSet]) -> Option<usize>
    ensures { result ≡ left_after left (length (static_edges statics.now fields.now)) }
{
    let mut left = left;
    for field in fields {
        left = after(left, count_at(statics, *field));
    }
    left
}

// How many edges a static field has.
fn count_at(statics: &[IdSet], field: FieldId) -> usize
    ensures { result ≡ length (static_edges_at statics.now field) }
{
    match statics.get(field.0 as usize) {
        Some(sites) => sites.len(),
        None => 0,
    }
}

// What is left after the edges of fields of objects.
fn after_cells(left: Option<usize>, cells: &[(SiteId, FieldId, IdSet)]) -> Option<usize>
    ensures { result ≡ left_after left (length (flat_map edges_of_cell cells.now)) }
{
    let mut left = left;
    for cell in cells {
        left = after(left, cell.2.len());
    }
    left
}

// What is left after the edges of elements.
fn after_elems(left: Option<usize>, elems: &[(SiteId, IdSet)]) -> Option<usize>
    ensures { result ≡ left_after left (length (flat_map edges_of_elem elems.now)) }
{
    let mut left = left;
    for elem in elems {
        left = after(left, elem.1.len());
    }
    left
}

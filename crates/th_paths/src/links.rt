// Which edges follow which, listed once for a graph.
ghost use Rattle.std.specs.Prelude.{◌≡◌, ◌<◌, ◌^◌, ◌==◌, replicate, ◌++◌, ◌∷◌, [], ℕ, length, map, IfOk, OnOk, Some, None, slice_set, slice_index, if◌then◌else◌};
ghost use Rattle.std.specs.Option.{option_or, unwrap_or};
ghost use Rattle.th_paths.specs.Links.{first_at, first_in, FindsFirsts, firsts_of, follows, row_of, row_at, AreLinks};
ghost use Rattle.th_paths.specs.Paths.{end_of, start_of};

use std::alloc::{AllocError, Global};
use std::collections::BTreeMap;
use th_base::Seq;
use th_ir::Edge;

#[derive(Debug, Drop)]
pub(crate) struct Links {
    // The edges of the graph.
    pub(crate) edges: Seq<Edge>,
    // The first edge that ends at each site.
    pub(crate) sites: BTreeMap<u32, u32>,
    // For each edge the first that ends at the same site: by it the site is known.
    pub(crate) firsts: Vec<u32>,
    // For each edge by which a site is known, the edges that start at the site, ascending.
    pub(crate) out: Vec<Seq<u32>>,
}

// The site at which an edge ends.
pub(crate) fn end_of(edge: Edge) -> u32
    ensures { result ≡ end_of edge }
{
    match edge {
        Edge::Static(_, site) => site.0,
        Edge::Field(_, _, site) => site.0,
        Edge::Element(_, site) => site.0,
    }
}

// The site at which an edge starts.
fn start_of(edge: Edge) -> Option<u32>
    ensures { result ≡ start_of edge }
{
    match edge {
        Edge::Static(_, _) => None,
        Edge::Field(site, _, _) => Some(site.0),
        Edge::Element(site, _) => Some(site.0),
    }
}

// The links of edges.
pub(crate) fn links_of(alloc: Global, edges: Seq<Edge>) -> Result<Links, AllocError>
    requires { length edges < 2 ^ 32 }
    ensures links { IfOk result AreLinks }
    ensures edges { IfOk result (λ links. links.edges ≡ edges) }
{
    let sites = site_table(alloc, edges.as_slice())?;
    let firsts = firsts_of(alloc, edges.as_slice(), &sites)?;
    let out = rows_of(alloc, edges.as_slice(), &sites)?;
    Ok(Links {
        edges,
        sites,
        firsts,
        out,
    })
}

// The first edge that ends at each site.
fn site_table(alloc: Global, edges: &[Edge]) -> Result<BTreeMap<u32, u32>, AllocError>
    requires { length edges.now < 2 ^ 32 }
    ensures { IfOk result (FindsFirsts edges.now) }
{
    let mut sites = BTreeMap::new(alloc);
    for (number, edge) in edges.iter().enumerate() {
        add_site(&mut sites, end_of(*edge), number as u32)?;
    }
    Ok(sites)
}

// Adds the edge of a site, unless there is one.
fn add_site(sites: &mut BTreeMap<u32, u32>, site: u32, edge: u32) -> Result<(), AllocError>
    ensures { OnOk result ((x : ℕ) → first_in sites.new x ≡ option_or (first_in sites.old x) (if site == x then Some edge else None)) }
{
    if !sites.contains_key(&site) {
        sites.insert(site, edge)?;
    }
    Ok(())
}

// For each edge the first that ends at the same site.
fn firsts_of(
    alloc: Global,
    edges: &[Edge],
    sites: &BTreeMap<u32, u32>,
) -> Result<Vec<u32>, AllocError>
    requires { FindsFirsts edges.now sites.now }
    ensures { IfOk result (λ firsts. firsts.items ≡ firsts_of edges.now) }
{
    let mut firsts = Vec::new(alloc);
    for edge in edges {
        firsts.push(sites.get(&end_of(*edge)).copied().unwrap_or(0))?;
    }
    Ok(firsts)
}

// For each edge by which a site is known, the edges that start at the site.
fn rows_of(
    alloc: Global,
    edges: &[Edge],
    sites: &BTreeMap<u32, u32>,
) -> Result<Vec<Seq<u32>>, AllocError>
    requires few { length edges.now < 2 ^ 32 }
    requires sites { FindsFirsts edges.now sites.now }
    ensures count { IfOk result (λ rows. length rows.items ≡ length edges.now) }
    ensures rows { IfOk result (λ rows. (r : ℕ) → row_at rows.items r ≡ row_of edges.now r edges.now) }
{
    let mut rows = empty_rows(alloc, edges.len())?;
    for (number, edge) in edges.iter().enumerate() {
        add_edge(&mut rows, edges, sites, *edge, number as u32)?;
    }
    Ok(rows)
}

// So many empty rows.
fn empty_rows(alloc: Global, count: usize) -> Result<Vec<Seq<u32>>, AllocError>
    ensures { IfOk result (λ rows. rows.items ≡ replicate count []) }
{
    let mut rows = Vec::new(alloc);
    for _ in 0..count {
        rows.push(Seq::new(alloc))?;
    }
    Ok(rows)
}

// Puts an edge into the row of the site at which it starts, if edges end there. The edges of the graph
// serve the proof alone.
fn add_edge(
    rows: &mut Vec<Seq<u32>>,
    edges: &[Edge],
    sites: &BTreeMap<u32, u32>,
    edge: Edge,
    number: u32,
) -> Result<(), AllocError>
    requires sites { FindsFirsts edges.now sites.now }
    requires rows { length rows.old.items ≡ length edges.now }
    ensures count { length rows.new.items ≡ length rows.old.items }
    ensures rows { OnOk result ((r : ℕ) → row_at rows.new.items r ≡ row_at rows.old.items r ++ (if follows edges.now r edge then number ∷ [] else [])) }
{
    if let Some(site) = start_of(edge) {
        if let Some(first) = sites.get(&site) {
            return add_to(rows, *first as usize, number);
        }
    }
    Ok(())
}

// Adds a number to one of the rows.
fn add_to(rows: &mut Vec<Seq<u32>>, row: usize, number: u32) -> Result<(), AllocError>
    requires { row < length rows.old.items }
    ensures count { length rows.new.items ≡ length rows.old.items }
    ensures rows { OnOk result (rows.new.items ≡ slice_set rows.old.items row (row_at rows.old.items row ++ number ∷ [])) }
{
    rows[row].push(number)
}

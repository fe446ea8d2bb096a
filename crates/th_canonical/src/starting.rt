// The queries with which the searches for an edge start.
ghost use Rattle.std.specs.Prelude.{◌≡◌, ◌==◌, ◌↔◌, ◌∷◌, [], false, if◌then◌else◌, IfOk, Some, None};
ghost use Rattle.th_ir.specs.FactSets.{AscendBy, cell_key, elem_key};
ghost use Rattle.th_ir.specs.WellFormed.{AreNumbered};
ghost use Rattle.th_narrow.specs.Made.{IsTableOf};
ghost use Rattle.th_query.specs.declared.query.Query.{Query};
ghost use Rattle.th_query.specs.declared.query.Sym.TheVariants.{Ref};
ghost use Rattle.th_query.specs.Start.{IsStart, object_of, query_at, start_at, start_idle, start_of, stores as stores_of};

use crate::forming::canonical;
use std::alloc::{AllocError, Global};
use th_base::{FieldId, IdSet, NodeId, Reg, Seq, SiteId};
use th_ir::{Edge, Plan, Producer, RegProgram, Stmt};
use th_narrow::SiteTable;
use th_query::{Frame, Query, Sites, Sym};

/// The query with which the search for an edge starts at what may make it true, in canonical form: at a store
/// the base holds an object of the edge's first site, and the source one of its last; for the String
/// constant of a static field the field holds it and nothing runs yet. `None` where what stands there
/// makes no edge of this kind.
pub fn start_query(
    alloc: Global,
    plan: &Plan,
    table: &SiteTable,
    edge: Edge,
    producer: Producer,
) -> Result<Option<Query>, AllocError>
    requires table { IsTableOf plan.now table.now }
    requires cells { AscendBy cell_key plan.now.facts.cells }
    requires elems { AscendBy elem_key plan.now.facts.elems }
    ensures none { IfOk result (λ found. found ≡ None ↔ start_of plan.now.program edge producer ≡ None) }
    ensures start { IfOk result (λ found. AreNumbered plan.now.hierarchy → (query : Query) → found ≡ Some query → IsStart plan.now edge producer query) }
{
    match raw_start(alloc, &plan.program, edge, producer)? {
        Some(raw) => Ok(Some(canonical(alloc, plan, table, raw)?)),
        None => Ok(None),
    }
}

// The start query before it is canonical.
fn raw_start(
    alloc: Global,
    program: &RegProgram,
    edge: Edge,
    producer: Producer,
) -> Result<Option<Query>, AllocError>
    ensures { IfOk result (λ found. found ≡ start_of program.now edge producer) }
{
    match producer {
        Producer::Node(node) => match program.nodes.get(node.0 as usize) {
            Some(found) => at_store(alloc, node, &found.stmt, edge),
            None => Ok(None),
        },
        Producer::Constant(field) => idle(alloc, field, edge),
    }
}

// The query at a store, for an edge of its kind.
fn at_store(
    alloc: Global,
    node: NodeId,
    stmt: &Stmt,
    edge: Edge,
) -> Result<Option<Query>, AllocError>
    ensures { IfOk result (λ found. found ≡ start_at node.0 stmt.now edge) }
{
    match (stmt, edge) {
        (Stmt::PutStatic(_, src), Edge::Static(_, site)) => {
            Ok(Some(holds(alloc, node, *src, site)?))
        }
        (Stmt::PutField(base, _, src), Edge::Field(first, _, last)) => {
            Ok(Some(stores(alloc, node, *base, *src, first, last)?))
        }
        (Stmt::PutElem(array, src), Edge::Element(first, last)) => {
            Ok(Some(stores(alloc, node, *array, *src, first, last)?))
        }
        _ => Ok(None),
    }
}

// The query before anything runs: the field holds a String constant of the edge's site.
fn idle(alloc: Global, field: FieldId, edge: Edge) -> Result<Option<Query>, AllocError>
    ensures { IfOk result (λ found. found ≡ start_idle field edge) }
{
    match edge {
        Edge::Static(_, site) => {
            let mut statics = Vec::new(alloc);
            statics.push((field, 0))?;
            let mut syms = Vec::new(alloc);
            syms.push(object(alloc, site)?)?;
            Ok(Some(Query {
                frames: Seq::new(alloc),
                statics: Seq::from_vec(statics),
                cells: Seq::new(alloc),
                elems: Seq::new(alloc),
                syms: Seq::from_vec(syms),
                diffs: Seq::new(alloc),
                facts: Seq::new(alloc),
            }))
        }
        Edge::Field(_, _, _) => Ok(None),
        Edge::Element(_, _) => Ok(None),
    }
}

// At the node the register holds an object of the site.
fn holds(alloc: Global, node: NodeId, src: Reg, site: SiteId) -> Result<Query, AllocError>
    ensures { IfOk result (λ query. query ≡ query_at node.0 ((src, 0) ∷ []) (object_of site.0 ∷ [])) }
{
    let mut regs = Vec::new(alloc);
    regs.push((src, 0))?;
    let mut syms = Vec::new(alloc);
    syms.push(object(alloc, site)?)?;
    at_node(alloc, node, regs, syms)
}

// At the node the first register holds an object of the first site, and the second one of the last.
fn stores(
    alloc: Global,
    node: NodeId,
    base: Reg,
    src: Reg,
    first: SiteId,
    last: SiteId,
) -> Result<Query, AllocError>
    ensures { IfOk result (λ query. query ≡ stores_of node.0 base src first.0 last.0) }
{
    let mut regs = Vec::new(alloc);
    let mut syms = Vec::new(alloc);
    regs.push((base, 0))?;
    if base.0 == src.0 {
        syms.push(common_object(alloc, first, last)?)?;
        return at_node(alloc, node, regs, syms);
    }
    regs.push((src, 1))?;
    syms.push(object(alloc, first)?)?;
    syms.push(object(alloc, last)?)?;
    at_node(alloc, node, regs, syms)
}

// The query that knows of these registers at a node, and no more.
fn at_node(
    alloc: Global,
    node: NodeId,
    regs: Vec<(Reg, u32)>,
    syms: Vec<Sym>,
) -> Result<Query, AllocError>
    ensures { IfOk result (λ query. query ≡ query_at node.0 regs.items syms.items) }
{
    let regs = Seq::from_vec(regs);
    let mut frames = Vec::new(alloc);
    frames.push(Frame { node, regs })?;
    Ok(Query {
        frames: Seq::from_vec(frames),
        statics: Seq::new(alloc),
        cells: Seq::new(alloc),
        elems: Seq::new(alloc),
        syms: Seq::from_vec(syms),
        diffs: Seq::new(alloc),
        facts: Seq::new(alloc),
    })
}

// An object of both sites: of none where they aren't one.
fn common_object(alloc: Global, first: SiteId, last: SiteId) -> Result<Sym, AllocError>
    ensures { IfOk result (λ sym. sym ≡ (if first.0 == last.0 then object_of first.0 else Ref false [])) }
{
    if first.0 == last.0 {
        return object(alloc, first);
    }
    Ok(Sym::Ref {
        null: false,
        sites: Sites::of(IdSet::new(alloc)),
    })
}

// An object of the site.
fn object(alloc: Global, site: SiteId) -> Result<Sym, AllocError>
    ensures { IfOk result (λ sym. sym ≡ object_of site.0) }
{
    let mut ids = Vec::new(alloc);
    ids.push(site.0)?;
    let sites = Sites::of(IdSet::from_ascending(ids));
    Ok(Sym::Ref { null: false, sites })
}

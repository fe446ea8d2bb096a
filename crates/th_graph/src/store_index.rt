// What may make an edge true, by an index that is made once.
ghost use Rattle.std.specs.Prelude.{◌≡◌, ◌<◌, ◌+◌, ◌^◌, ◌++◌, ℕ, List, length, map, filter, slice_get, Some, IfOk, OnOk};
ghost use Rattle.std.specs.List.{list_any};
ghost use Rattle.th_graph.specs.Searching.{row_of};
ghost use Rattle.th_graph.specs.Stores.{IsIndexOf, bucket, static_key, field_key, constant_key, stores_element, element_places, candidates, store_test, stores_test, store_at, constants_at, holds_at, any_holds};
ghost use Rattle.th_ir.specs.declared.graph.Edge.{Edge};
ghost use Rattle.th_ir.specs.FactSets.{sets_of, set_at};
ghost use Rattle.th_ir.specs.Graph.{AreProducers};
ghost use Rattle.th_ir.specs.WellFormed.{AreNumbered};

use crate::storable::{can_store, is_ref_array};
use crate::targets::rows_by;
use std::alloc::{AllocError, Global};
use th_base::{EdgeId, FieldId, NodeId, Reg, Seq, SiteId};
use th_ir::{Edge, Facts, Node, Plan, Producer, RegProgram, Stmt, has_field};

/// The stores of a program by what they store into, made once for many edges.
#[derive(Debug, Drop)]
pub struct StoreIndex {
    // How many fields have a row of their own; all others share the next row.
    pub(crate) count: u32,
    // The nodes that store into each static field.
    pub(crate) statics: Vec<Seq<u32>>,
    // The nodes that store into each field of objects.
    pub(crate) fields: Vec<Seq<u32>>,
    // The nodes that store into elements.
    pub(crate) elements: Vec<u32>,
    // The places of each static field among the String constants.
    pub(crate) constants: Vec<Seq<u32>>,
}

impl StoreIndex {
    /// The index of a plan's program. Takes time in the number of nodes and fields.
    pub fn new(alloc: Global, plan: &Plan) -> Result<StoreIndex, AllocError>
        requires nodes { length plan.now.program.nodes < 2 ^ 32 }
        requires strings { length plan.now.program.strings < 2 ^ 32 }
        ensures { IfOk result (IsIndexOf plan.now.program) }
    {
        index_of(alloc, &plan.program, row_count(plan.facts.statics.len()))
    }

    /// The producers of an edge: first a String constant that the static field holds from the start, then
    /// by number the stores, in methods that may run, whose rule gives the edge. Takes the plan whose
    /// index it is, and time in the number of stores into the edge's field, or of all stores into
    /// elements, each with a few look-ups.
    pub fn producers_of(
        &self,
        alloc: Global,
        plan: &Plan,
        edge: Edge,
    ) -> Result<Seq<Producer>, AllocError>
        requires { IsIndexOf plan.now.program self.now }
        ensures { IfOk result (λ list. AreNumbered plan.now.hierarchy
            → AreProducers plan.now.hierarchy plan.now.program (sets_of plan.now.facts) edge list) }
    {
        let mut list = Vec::new(alloc);
        self.add_constant(&plan.program, edge, &mut list)?;
        add_stores(plan, edge, self.candidates(edge), &mut list)?;
        Ok(Seq::from_vec(list))
    }

    // Adds the String constant of a static edge, if there is one.
    fn add_constant(
        &self,
        program: &RegProgram,
        edge: Edge,
        list: &mut Vec<Producer>,
    ) -> Result<(), AllocError>
        requires { self.now.count < length self.now.constants.items }
        ensures { OnOk result (list.new.items ≡ list.old.items ++ constants_at self.now program.now edge) }
    {
        if let Edge::Static(field, site) = edge {
            let row = self.constants[bucket(field, self.count) as usize].as_slice();
            if any_holds(program.strings.as_slice(), field, site, row) {
                list.push(Producer::Constant(field))?;
            }
        }
        Ok(())
    }

    // The nodes among which the stores of an edge are.
    fn candidates(&self, edge: Edge) -> &[u32]
        requires statics { self.now.count < length self.now.statics.items }
        requires fields { self.now.count < length self.now.fields.items }
        ensures { result.now ≡ candidates self.now edge }
    {
        match edge {
            Edge::Static(field, _) => self.statics[bucket(field, self.count) as usize].as_slice(),
            Edge::Field(_, field, _) => self.fields[bucket(field, self.count) as usize].as_slice(),
            Edge::Element(_, _) => self.elements.as_slice(),
        }
    }
}

/// The producers of the edge of a plan with this number, in the order of `StoreIndex::producers_of`. Makes an
/// index for this one edge.
pub fn producers(alloc: Global, plan: &Plan, edge: EdgeId) -> Result<Seq<Producer>, AllocError>
    requires nodes { length plan.now.program.nodes < 2 ^ 32 }
    requires strings { length plan.now.program.strings < 2 ^ 32 }
    requires inside { edge.0 < length plan.now.graph.edges }
    ensures { IfOk result (λ list. (e : Edge) → slice_get plan.now.graph.edges edge.0 ≡ Some e → AreNumbered plan.now.hierarchy
        → AreProducers plan.now.hierarchy plan.now.program (sets_of plan.now.facts) e list) }
{
    let index = StoreIndex::new(alloc, plan)?;
    let edge = plan.graph.edges.as_slice()[edge.0 as usize];
    let list = index.producers_of(alloc, plan, edge)?;
    Ok(list)
}

// How many rows are made for so many fields.
fn row_count(fields: usize) -> u32 {
    if fields < 0xffff_ffff {
        fields as u32
    } else {
        0
    }
}

// The index of a program, with so many rows.
fn index_of(alloc: Global, program: &RegProgram, count: u32) -> Result<StoreIndex, AllocError>
    requires nodes { length program.now.nodes < 2 ^ 32 }
    requires strings { length program.now.strings < 2 ^ 32 }
    ensures { IfOk result (IsIndexOf program.now) }
{
    let nodes = program.nodes.as_slice();
    let rows = count as usize + 1;
    let statics = rows_by(alloc, rows, static_keys(alloc, nodes, count)?.as_slice())?;
    let fields = rows_by(alloc, rows, field_keys(alloc, nodes, count)?.as_slice())?;
    let keys = constant_keys(alloc, program.strings.as_slice(), count)?;
    let constants = rows_by(alloc, rows, keys.as_slice())?;
    let elements = element_places(alloc, nodes)?;
    Ok(StoreIndex {
        count,
        statics,
        fields,
        elements,
        constants,
    })
}

// Whether a static field holds the String constant of a site, by one of these places of the list.
fn any_holds(strings: &[(FieldId, SiteId)], field: FieldId, site: SiteId, places: &[u32]) -> bool
    ensures { result ≡ any_holds strings.now field.0 site.0 places.now }
{
    for place in places {
        if holds_at(strings, field, site, *place as usize) {
            return true;
        }
    }
    false
}

fn holds_at(strings: &[(FieldId, SiteId)], field: FieldId, site: SiteId, place: usize) -> bool
    ensures { result ≡ holds_at strings.now field.0 site.0 place }
{
    match strings.get(place) {
        Some(held) => held.0 == field && held.1 == site,
        None => false,
    }
}

// The row of a field: its own, or the last one.
fn bucket(field: FieldId, count: u32) -> u32
    ensures { result ≡ bucket field.0 count }
{
    if field.0 < count { field.0 } else { count }
}

// The row of the static field that each node stores into.
fn static_keys(alloc: Global, nodes: &[Node], count: u32) -> Result<Vec<Option<u32>>, AllocError>
    ensures { IfOk result (λ keys. keys.items ≡ map (static_key count) nodes.now) }
{
    let mut keys = Vec::new(alloc);
    for node in nodes {
        keys.push(static_key(node, count))?;
    }
    Ok(keys)
}

fn static_key(node: &Node, count: u32) -> Option<u32>
    ensures { result ≡ static_key count node.now }
{
    if let Stmt::PutStatic(field, _) = &node.stmt {
        return Some(bucket(*field, count));
    }
    None
}

// The row of the field of objects that each node stores into.
fn field_keys(alloc: Global, nodes: &[Node], count: u32) -> Result<Vec<Option<u32>>, AllocError>
    ensures { IfOk result (λ keys. keys.items ≡ map (field_key count) nodes.now) }
{
    let mut keys = Vec::new(alloc);
    for node in nodes {
        keys.push(field_key(node, count))?;
    }
    Ok(keys)
}

fn field_key(node: &Node, count: u32) -> Option<u32>
    ensures { result ≡ field_key count node.now }
{
    if let Stmt::PutField(_, field, _) = &node.stmt {
        return Some(bucket(*field, count));
    }
    None
}

// The row of the static field of each String constant.
fn constant_keys(
    alloc: Global,
    strings: &[(FieldId, SiteId)],
    count: u32,
) -> Result<Vec<Option<u32>>, AllocError>
    ensures { IfOk result (λ keys. keys.items ≡ map (constant_key count) strings.now) }
{
    let mut keys = Vec::new(alloc);
    for held in strings {
        keys.push(Some(bucket(held.0, count)))?;
    }
    Ok(keys)
}

// The nodes that store into elements.
fn element_places(alloc: Global, nodes: &[Node]) -> Result<Vec<u32>, AllocError>
    requires { length nodes.now < 2 ^ 32 }
    ensures { IfOk result (λ places. places.items ≡ element_places nodes.now) }
{
    let mut places = Vec::new(alloc);
    for (place, node) in nodes.iter().enumerate() {
        if stores_element(&node.stmt) {
            places.push(place as u32)?;
        }
    }
    Ok(places)
}

fn stores_element(stmt: &Stmt) -> bool
    ensures { result ≡ stores_element stmt.now }
{
    if let Stmt::PutElem(_, _) = stmt {
        return true;
    }
    false
}

// Adds the nodes of a row whose stores give the edge.
fn add_stores(
    plan: &Plan,
    edge: Edge,
    row: &[u32],
    list: &mut Vec<Producer>,
) -> Result<(), AllocError>
    ensures { OnOk result (AreNumbered plan.now.hierarchy → list.new.items ≡ list.old.items
        ++ map store_at (filter (λ n. stores_test plan.now.hierarchy plan.now.program (sets_of plan.now.facts) n edge) row.now)) }
{
    for node in row {
        if gives(plan, *node, edge) {
            list.push(Producer::Node(NodeId(*node)))?;
        }
    }
    Ok(())
}

// Whether the store at a node of a method that may run gives the edge.
fn gives(plan: &Plan, node: u32, edge: Edge) -> bool
    ensures { AreNumbered plan.now.hierarchy → result ≡ stores_test plan.now.hierarchy plan.now.program (sets_of plan.now.facts) node edge }
{
    match plan.program.nodes.get(node as usize) {
        Some(found) => {
            plan.facts.reached.contains(found.method.0) && store_gives(plan, &found.stmt, edge)
        }
        None => false,
    }
}

// Whether a statement gives the edge, by its rule.
fn store_gives(plan: &Plan, stmt: &Stmt, edge: Edge) -> bool
    ensures { AreNumbered plan.now.hierarchy → result ≡ store_test plan.now.hierarchy plan.now.program (sets_of plan.now.facts) stmt.now edge }
{
    let facts = &plan.facts;
    match (stmt, edge) {
        (Stmt::PutStatic(own, src), Edge::Static(field, site)) => {
            *own == field && may_hold(facts, *src, site)
        }
        (Stmt::PutField(base, own, src), Edge::Field(from, field, to)) => {
            *own == field
                && may_hold(facts, *base, from)
                && has_field(&plan.hierarchy, &plan.program, from, field)
                && may_hold(facts, *src, to)
        }
        (Stmt::PutElem(array, src), Edge::Element(from, to)) => {
            may_hold(facts, *array, from)
                && is_ref_array(&plan.program, from)
                && may_hold(facts, *src, to)
                && can_store(&plan.hierarchy, &plan.program, from, to)
        }
        _ => false,
    }
}

// Whether a register may hold objects of a site.
fn may_hold(facts: &Facts, register: Reg, site: SiteId) -> bool
    ensures { result ≡ set_at facts.now.regs register.0 site.0 }
{
    match facts.regs.get(register.0 as usize) {
        Some(sites) => sites.contains(site.0),
        None => false,
    }
}

// Alarms: which static fields lead to which Activity classes.
ghost use Rattle.std.specs.Prelude.{◌≡◌, ◌||◌, ◌<◌, ◌^◌, ◌++◌, ◌∷◌, [], ℕ, nat_lt, Bool, true, false, List, length, IfOk, OnOk, Some, None};
ghost use Rattle.std.specs.List.{list_any};
ghost use Rattle.std.specs.Option.{option_map_or};
ghost use Rattle.th_base.specs.declared.built_in.TheConstants.{ACTIVITY_NUMBER};
ghost use Rattle.th_base.specs.IdSet.{has};
ghost use Rattle.th_graph.specs.Searching.{AreTargetsBelow, hits, Adds, IsSearched, AreAlarmsOf, AreAllOrPass, is_root, is_past};
ghost use Rattle.th_ir.specs.declared.graph.Alarm.{Alarm};
ghost use Rattle.th_ir.specs.Fields.{is_file_static, is_ref_field};
ghost use Rattle.th_ir.specs.Graph.{AreAlarms};
ghost use Rattle.th_ir.specs.WellFormed.{AreNumbered};

use crate::statics::file_statics;
use crate::targets::{Targets, targets_of};
use std::alloc::{AllocError, Global};
use th_base::laws::members_of_inserted;
use th_base::{ACTIVITY_NUMBER, ClassId, EdgeId, FieldId, Hierarchy, IdSet, Seq};
use th_ir::laws::listings::graphs_are_one;
use th_ir::{Alarm, Edge, FieldKind, Graph, RegProgram, field_kind};
use th_paths::PathIndex;
use th_paths::laws::paths_lead;

/// The alarms of a heap graph, by field and class: each static field of reference type of a class of a
/// file, and each Activity class to a site of exactly which a path leads from the field. It makes one
/// search of the graph for each static field that has an edge; each takes time in the number of edges
/// and Activity classes, and the length of the least path to each class found.
pub fn alarms(
    alloc: Global,
    program: &RegProgram,
    hierarchy: &Hierarchy,
    graph: &Graph,
) -> Result<Seq<Alarm>, AllocError>
    requires edges { length graph.now.edges < 2 ^ 32 }
    requires sites { length program.now.sites < 2 ^ 32 }
    ensures { IfOk result (λ alarms. AreNumbered hierarchy.now → AreAlarms hierarchy.now program.now graph.now.edges alarms) }
{
    let alarms = alarms_within(alloc, program, hierarchy, graph, None)?;
    Ok(Seq::from_vec(alarms))
}

/// Whether a heap graph has more alarms than this. It stops at the first field at which there are.
pub fn alarms_pass(
    alloc: Global,
    program: &RegProgram,
    hierarchy: &Hierarchy,
    graph: &Graph,
    most: u32,
) -> Result<bool, AllocError>
    requires edges { length graph.now.edges < 2 ^ 32 }
    requires sites { length program.now.sites < 2 ^ 32 }
    ensures { IfOk result (λ pass. (alarms : List Alarm) → AreNumbered hierarchy.now → AreAlarms hierarchy.now program.now graph.now.edges alarms
        → pass ≡ nat_lt most (length alarms)) }
{
    graphs_are_one();
    let alarms = alarms_within(alloc, program, hierarchy, graph, Some(most as usize))?;
    Ok(alarms.as_slice().len() > most as usize)
}

// All alarms, or where there is a limit, alarms of the first fields, more than the limit.
fn alarms_within(
    alloc: Global,
    program: &RegProgram,
    hierarchy: &Hierarchy,
    graph: &Graph,
    most: Option<usize>,
) -> Result<Vec<Alarm>, AllocError>
    requires edges { length graph.now.edges < 2 ^ 32 }
    requires sites { length program.now.sites < 2 ^ 32 }
    ensures { IfOk result (λ alarms. AreNumbered hierarchy.now
        → AreAllOrPass hierarchy.now program.now graph.now.edges most alarms.items) }
{
    if hierarchy.classes().len() <= ACTIVITY_NUMBER as usize {
        return Ok(Vec::new(alloc));
    }
    let targets = targets_of(alloc, program, hierarchy)?;
    let index = PathIndex::new(alloc, graph)?;
    let roots = roots_of(alloc, graph.edges.as_slice())?;
    alarms_by(alloc, program, hierarchy, &index, &roots, &targets, most)
}

// The same, by the tables of the program and the graph.
fn alarms_by(
    alloc: Global,
    program: &RegProgram,
    hierarchy: &Hierarchy,
    index: &PathIndex,
    roots: &IdSet,
    targets: &Targets,
    most: Option<usize>,
) -> Result<Vec<Alarm>, AllocError>
    requires targets { AreTargetsBelow hierarchy.now program.now targets.now (length hierarchy.now) }
    requires roots { (f : ℕ) → has roots.now f ≡ list_any (is_root f) index.now }
    ensures { IfOk result (λ alarms. AreNumbered hierarchy.now → AreAllOrPass hierarchy.now program.now index.now most alarms.items) }
{
    let fields = file_statics(alloc, hierarchy.classes())?;
    let mut alarms = Vec::new(alloc);
    for field in &fields {
        if is_past(most, alarms.len()) {
            return Ok(alarms);
        }
        add_alarms(
            alloc,
            program,
            hierarchy,
            index,
            roots,
            targets,
            *field,
            &mut alarms,
        )?;
    }
    Ok(alarms)
}

// Whether a count is past a limit, where there is one.
fn is_past(most: Option<usize>, count: usize) -> bool
    ensures { result ≡ is_past most count }
{
    match most {
        Some(most) => count > most,
        None => false,
    }
}

// The static fields that have an edge.
fn roots_of(alloc: Global, edges: &[Edge]) -> Result<IdSet, AllocError>
    ensures { IfOk result (λ roots. (f : ℕ) → has roots f ≡ list_any (is_root f) edges.now) }
{
    let mut roots = IdSet::new(alloc);
    for edge in edges {
        add_root(&mut roots, *edge)?;
    }
    Ok(roots)
}

// Adds the static field of an edge, if it is one of a static field.
fn add_root(roots: &mut IdSet, edge: Edge) -> Result<(), AllocError>
    ensures { OnOk result ((f : ℕ) → has roots.new f ≡ (has roots.old f || is_root f edge)) }
{
    members_of_inserted();
    if let Edge::Static(field, _) = edge {
        roots.insert(field.0)?;
    }
    Ok(())
}

// Adds the alarms of a static field. The program serves the proof alone.
fn add_alarms(
    alloc: Global,
    _program: &RegProgram,
    hierarchy: &Hierarchy,
    index: &PathIndex,
    roots: &IdSet,
    targets: &Targets,
    field: FieldId,
    alarms: &mut Vec<Alarm>,
) -> Result<(), AllocError>
    requires targets { AreTargetsBelow hierarchy.now _program.now targets.now (length hierarchy.now) }
    requires roots { (f : ℕ) → has roots.now f ≡ list_any (is_root f) index.now }
    ensures { OnOk result (Adds alarms.old.items alarms.new.items
        (λ more. AreNumbered hierarchy.now → is_file_static hierarchy.now field.0 ≡ true → AreAlarmsOf hierarchy.now _program.now index.now (field.0 ∷ []) more)) }
{
    paths_lead();
    if roots.contains(field.0) && is_ref_field(hierarchy, field) {
        return add_found(alloc, index, targets, field, alarms);
    }
    Ok(())
}

// Whether a field holds references.
fn is_ref_field(hierarchy: &Hierarchy, field: FieldId) -> bool
    ensures { AreNumbered hierarchy.now → result ≡ is_ref_field hierarchy.now field.0 }
{
    match field_kind(hierarchy, field) {
        Some(FieldKind::Ref) => true,
        Some(FieldKind::Int) => false,
        None => false,
    }
}

// Adds an alarm for each class that the static field leads to, by one search.
fn add_found(
    alloc: Global,
    index: &PathIndex,
    targets: &Targets,
    field: FieldId,
    alarms: &mut Vec<Alarm>,
) -> Result<(), AllocError>
    requires { length targets.now.goals.items ≡ length targets.now.classes.items }
    ensures { OnOk result (Adds alarms.old.items alarms.new.items (IsSearched index.now field targets.now)) }
{
    let cut = IdSet::new(alloc);
    let found = index.least_paths(alloc, field, targets.goals.as_slice(), &cut)?;
    add_hits(field, targets.classes.as_slice(), found.as_slice(), alarms)
}

// Adds an alarm for each class to which there is a path.
fn add_hits(
    field: FieldId,
    classes: &[u32],
    found: &[Option<Seq<EdgeId>>],
    alarms: &mut Vec<Alarm>,
) -> Result<(), AllocError>
    requires { length found.now ≡ length classes.now }
    ensures { OnOk result (alarms.new.items ≡ alarms.old.items ++ hits field classes.now found.now) }
{
    for place in 0..found.len() {
        if found[place].is_some() {
            let class = ClassId(classes[place]);
            alarms.push(Alarm { field, class })?;
        }
    }
    Ok(())
}

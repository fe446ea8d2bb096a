// Nodes of methods that may run: each asks at once, and then of each site that comes to its base.
ghost use Rattle.std.specs.Prelude.{◌≡◌, ◌↔◌, true, Option, slice_get, OnOk};
ghost use Rattle.std.specs.List.{AllByRecursion};
ghost use Rattle.th_ir.specs.WellFormed.{AreNumbered};
ghost use Rattle.th_points_to.specs.Asked.{AsksOn};
ghost use Rattle.th_points_to.specs.Found.{Adds, CallsGo, IsLaid, Keeps};
ghost use Rattle.th_points_to.specs.Initialisers.{InitsGo};
ghost use Rattle.th_points_to.specs.Opening.{IsOpen, Opens, OpensAt, MeetsAt};
ghost use Rattle.th_points_to.specs.Tables.{AreTables};

use crate::found::Found;
use crate::nodes::{ask, ask_on};
use crate::place::Layout;
use crate::rows::base_of;
use crate::tables::Tables;
use indexmap::IndexSet;
use std::alloc::{AllocError, Global};
use th_base::{Hierarchy, IdSet, SiteId};
use th_ir::{Node, RegProgram};

// What a node asks of each of these sites.
fn ask_sites(
    found: &mut Found,
    alloc: Global,
    layout: Layout,
    program: &RegProgram,
    hierarchy: &Hierarchy,
    tables: &Tables,
    number: u32,
    node: &Node,
    sites: &[u32],
) -> Result<(), AllocError>
    requires laid { IsLaid layout found.old }
    requires tables { AreTables hierarchy.now layout program.now found.old.solver.constraints.filters tables.now }
    requires node { slice_get program.now.nodes number ≡ Option.Some node.now }
    ensures keeps { OnOk result (Keeps layout found.old found.new) }
    ensures adds { AreNumbered hierarchy.now → CallsGo layout program.now found.old → OnOk result (Adds layout program.now found.old found.new
        (λ t. AllByRecursion (λ a. AsksOn hierarchy.now layout program.now t number node.now.stmt record { 0 = a }) sites.now)) }
{
    for site in sites {
        let site = SiteId(*site);
        ask_on(
            found, alloc, layout, program, hierarchy, tables, number, node, site,
        )?;
    }
    Ok(())
}

// What a node asks at once, and of the sites of its base that were looked at.
fn open_node(
    found: &mut Found,
    alloc: Global,
    layout: Layout,
    program: &RegProgram,
    hierarchy: &Hierarchy,
    tables: &Tables,
    met: &mut IndexSet<u32>,
    handled: &[IdSet],
    number: u32,
    node: &Node,
) -> Result<(), AllocError>
    requires laid { IsLaid layout found.old }
    requires tables { AreTables hierarchy.now layout program.now found.old.solver.constraints.filters tables.now }
    requires node { slice_get program.now.nodes number ≡ Option.Some node.now }
    ensures keeps { OnOk result (Keeps layout found.old found.new) }
    ensures inits { AreNumbered hierarchy.now → CallsGo layout program.now found.old → InitsGo hierarchy.now layout found.old met.old.keys
        → OnOk result (InitsGo hierarchy.now layout found.new met.new.keys) }
    ensures adds { AreNumbered hierarchy.now → CallsGo layout program.now found.old → InitsGo hierarchy.now layout found.old met.old.keys → OnOk result (Adds layout program.now found.old found.new
        (λ t. Opens hierarchy.now layout program.now handled.now t number node.now.stmt)) }
{
    ask(
        found, alloc, layout, program, hierarchy, tables, met, number, node,
    )?;
    match base_of(&node.stmt) {
        Some(base) => {
            let at = base.0 as usize;
            if at >= handled.len() {
                return Ok(());
            }
            let sites = handled[at].ids();
            ask_sites(
                found, alloc, layout, program, hierarchy, tables, number, node, sites,
            )?;
            Ok(())
        }
        None => Ok(()),
    }
}

// Opens the node of a number.
fn open_at(
    found: &mut Found,
    alloc: Global,
    layout: Layout,
    program: &RegProgram,
    hierarchy: &Hierarchy,
    tables: &Tables,
    met: &mut IndexSet<u32>,
    handled: &[IdSet],
    number: u32,
) -> Result<(), AllocError>
    requires laid { IsLaid layout found.old }
    requires tables { AreTables hierarchy.now layout program.now found.old.solver.constraints.filters tables.now }
    ensures keeps { OnOk result (Keeps layout found.old found.new) }
    ensures inits { AreNumbered hierarchy.now → CallsGo layout program.now found.old → InitsGo hierarchy.now layout found.old met.old.keys
        → OnOk result (InitsGo hierarchy.now layout found.new met.new.keys) }
    ensures adds { AreNumbered hierarchy.now → CallsGo layout program.now found.old → InitsGo hierarchy.now layout found.old met.old.keys → OnOk result (Adds layout program.now found.old found.new
        (λ t. OpensAt hierarchy.now layout program.now handled.now t number)) }
{
    match program.nodes.get(number as usize) {
        Some(node) => {
            open_node(
                found, alloc, layout, program, hierarchy, tables, met, handled, number, node,
            )?;
            Ok(())
        }
        None => Ok(()),
    }
}

// Opens these nodes.
pub(crate) fn open_nodes(
    found: &mut Found,
    alloc: Global,
    layout: Layout,
    program: &RegProgram,
    hierarchy: &Hierarchy,
    tables: &Tables,
    met: &mut IndexSet<u32>,
    handled: &[IdSet],
    numbers: &[u32],
) -> Result<(), AllocError>
    requires laid { IsLaid layout found.old }
    requires tables { AreTables hierarchy.now layout program.now found.old.solver.constraints.filters tables.now }
    ensures keeps { OnOk result (Keeps layout found.old found.new) }
    ensures inits { AreNumbered hierarchy.now → CallsGo layout program.now found.old → InitsGo hierarchy.now layout found.old met.old.keys
        → OnOk result (InitsGo hierarchy.now layout found.new met.new.keys) }
    ensures adds { AreNumbered hierarchy.now → CallsGo layout program.now found.old → InitsGo hierarchy.now layout found.old met.old.keys → OnOk result (Adds layout program.now found.old found.new
        (λ t. AllByRecursion (OpensAt hierarchy.now layout program.now handled.now t) numbers.now)) }
{
    for number in numbers {
        open_at(
            found, alloc, layout, program, hierarchy, tables, met, handled, *number,
        )?;
    }
    Ok(())
}

// Whether a method is open.
fn is_open(entered: &[bool], method: u32) -> bool
    ensures { result ≡ true ↔ IsOpen entered.now method }
{
    match entered.get(method as usize) {
        Some(flag) => *flag,
        None => false,
    }
}

// What the node of a number asks of these sites, where its method is open.
fn meet_at(
    found: &mut Found,
    alloc: Global,
    layout: Layout,
    program: &RegProgram,
    hierarchy: &Hierarchy,
    tables: &Tables,
    entered: &[bool],
    sites: &[u32],
    number: u32,
) -> Result<(), AllocError>
    requires laid { IsLaid layout found.old }
    requires tables { AreTables hierarchy.now layout program.now found.old.solver.constraints.filters tables.now }
    ensures keeps { OnOk result (Keeps layout found.old found.new) }
    ensures adds { AreNumbered hierarchy.now → CallsGo layout program.now found.old → OnOk result (Adds layout program.now found.old found.new
        (λ t. MeetsAt hierarchy.now layout program.now entered.now sites.now t number)) }
{
    match program.nodes.get(number as usize) {
        Some(node) => {
            if !is_open(entered, node.method.0) {
                return Ok(());
            }
            ask_sites(
                found, alloc, layout, program, hierarchy, tables, number, node, sites,
            )?;
            Ok(())
        }
        None => Ok(()),
    }
}

// What these nodes ask of these sites, where their methods are open.
pub(crate) fn meet(
    found: &mut Found,
    alloc: Global,
    layout: Layout,
    program: &RegProgram,
    hierarchy: &Hierarchy,
    tables: &Tables,
    entered: &[bool],
    sites: &[u32],
    numbers: &[u32],
) -> Result<(), AllocError>
    requires laid { IsLaid layout found.old }
    requires tables { AreTables hierarchy.now layout program.now found.old.solver.constraints.filters tables.now }
    ensures keeps { OnOk result (Keeps layout found.old found.new) }
    ensures adds { AreNumbered hierarchy.now → CallsGo layout program.now found.old → OnOk result (Adds layout program.now found.old found.new
        (λ t. AllByRecursion (MeetsAt hierarchy.now layout program.now entered.now sites.now t) numbers.now)) }
{
    for number in numbers {
        meet_at(
            found, alloc, layout, program, hierarchy, tables, entered, sites, *number,
        )?;
    }
    Ok(())
}

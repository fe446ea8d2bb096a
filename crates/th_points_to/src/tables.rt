// What is looked up in a program.
ghost use Rattle.std.specs.Prelude.{◌≤◌, ◌^◌, ℕ, List, length, IfOk};
ghost use Rattle.th_points_to.specs.Tables.{AreFilters, AreTables};

use crate::place::Layout;
use crate::rows::{launched_by_class, nodes_by_base, nodes_by_method, returned_by_method};
use crate::targets::classes_of;
use std::alloc::{AllocError, Global};
use th_base::{ClassId, Hierarchy, Seq};
use th_ir::RegProgram;

// Rows by number.
#[derive(Drop)]
pub(crate) struct Tables {
    // The nodes of each method.
    pub(crate) nodes: Vec<Seq<u32>>,
    // The nodes whose base is each register.
    pub(crate) based: Vec<Seq<u32>>,
    // The registers that each method returns.
    pub(crate) returned: Vec<Seq<u32>>,
    // The sites of the launches of each class.
    pub(crate) launched: Vec<Seq<u32>>,
    // The class of the objects of each site.
    pub(crate) classes: Vec<Option<ClassId>>,
    // For each site of arrays of references the number of the filter of what may stand in them.
    pub(crate) filters: Vec<usize>,
}

// The tables of a program, with the number of each site's filter.
pub(crate) fn tables_of(
    alloc: Global,
    layout: Layout,
    program: &RegProgram,
    hierarchy: &Hierarchy,
    filters: Vec<usize>,
) -> Result<Tables, AllocError>
    requires nodes { length program.now.nodes ≤ 2 ^ 32 }
    requires sites { length program.now.sites ≤ 2 ^ 32 }
    ensures { IfOk result (λ tables. (fs : List (List ℕ)) → AreFilters hierarchy.now program.now fs filters.items → AreTables hierarchy.now layout program.now fs tables) }
{
    let methods = program.methods.len();
    let classes = hierarchy.classes().len();
    let program_nodes = program.nodes.as_slice();
    let nodes = nodes_by_method(alloc, methods, program_nodes)?;
    let based = nodes_by_base(alloc, layout.registers, program_nodes)?;
    let returned = returned_by_method(alloc, methods, program_nodes)?;
    let sites = program.sites.as_slice();
    let launched = launched_by_class(alloc, classes, sites)?;
    let classes = classes_of(alloc, hierarchy, sites)?;
    Ok(Tables {
        nodes,
        based,
        returned,
        launched,
        classes,
        filters,
    })
}

// All that the searches of a program need.
ghost use Rattle.std.specs.Prelude.{◌≡◌, ◌↔◌, IsTrue};

use crate::{Alarm, Facts, Graph, Mods, RegProgram};
use std::alloc::{AllocError, Global};
use th_base::{ClassInfo, Hierarchy, Same, Seq, TryCopy};

/// How many nodes a program has at most.
pub const MOST_NODES: u32 = 1_000_000;

/// How many registers a program has at most.
pub const MOST_REGISTERS: u32 = 8_000_000;

/// How many allocation sites a program has at most.
pub const MOST_SITES: u32 = 65_535;

/// How many sites all points-to sets together have at most.
pub const MOST_PAIRS: u32 = 100_000_000;

/// How many edges a heap graph has at most.
pub const MOST_EDGES: u32 = 65_535;

/// How many alarms there are at most.
pub const MOST_ALARMS: u32 = 65_535;

/// A program with all that is known of it, and the budget of each search.
#[derive(Debug, Drop)]
pub struct Plan {
    /// The program in register form.
    pub program: RegProgram,
    /// The classes that it belongs to.
    pub hierarchy: Hierarchy,
    /// Its points-to facts.
    pub facts: Facts,
    /// A summary for each method.
    pub mods: Seq<Mods>,
    /// Its heap graph.
    pub graph: Graph,
    /// Its alarms, in order.
    pub alarms: Seq<Alarm>,
    /// How many steps each search may take.
    pub budget: u32,
}

impl TryCopy for Plan {
    fn try_copy(&self, alloc: Global) -> Result<Plan, AllocError> {
        Ok(Plan {
            program: self.program.try_copy(alloc)?,
            hierarchy: self.hierarchy.copy(alloc)?,
            facts: self.facts.try_copy(alloc)?,
            mods: self.mods.try_copy(alloc)?,
            graph: self.graph.try_copy(alloc)?,
            alarms: self.alarms.try_copy(alloc)?,
            budget: self.budget,
        })
    }
}

impl Same for Plan {
    fn same(&self, other: &Plan) -> bool {
        self.program.same(&other.program)
            && are_same_classes(self.hierarchy.classes(), other.hierarchy.classes())
            && self.facts.same(&other.facts)
            && self.mods.same(&other.mods)
            && self.graph.same(&other.graph)
            && self.alarms.same(&other.alarms)
            && self.budget == other.budget
    }
}

// Whether two lists of classes are the same.
fn are_same_classes(left: &[ClassInfo], right: &[ClassInfo]) -> bool
    ensures { IsTrue result ↔ (left.now ≡ right.now) }
{
    if left.len() != right.len() {
        return false;
    }
    for i in 0..left.len() {
        if !left[i].same(&right[i]) {
            return false;
        }
    }
    true
}

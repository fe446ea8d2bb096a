// Points-to facts with the call graph, and summaries of methods.
use std::alloc::{AllocError, Global};
use th_base::{FieldId, IdSet, MethodId, NodeId, Same, Seq, SiteId, TryCopy};

/// The points-to facts of a program: for each place the sites of the objects that it may hold, and
/// the call graph. Cells, elements and calls ascend by their numbers, each once.
#[derive(Debug, Drop)]
pub struct Facts {
    /// A set for each register.
    pub regs: Seq<IdSet>,
    /// A set for each field. Those of instance fields are empty.
    pub statics: Seq<IdSet>,
    /// For the objects of a site, the set of a field, where it isn't empty.
    pub cells: Seq<(SiteId, FieldId, IdSet)>,
    /// For the arrays of a site, the set of the elements, where it isn't empty.
    pub elems: Seq<(SiteId, IdSet)>,
    /// Which node may call which method.
    pub calls: Seq<(NodeId, MethodId)>,
    /// The methods that may run.
    pub reached: IdSet,
}

/// What a method writes and makes, with all that it may call and initialise.
#[derive(Debug, Drop)]
pub struct Mods {
    /// The instance fields that it may write.
    pub fields: IdSet,
    /// The static fields that it may write.
    pub statics: IdSet,
    /// Whether it may write elements of arrays of references.
    pub elements: bool,
    /// The sites of the objects that it may make.
    pub sites: IdSet,
}

impl TryCopy for Facts {
    fn try_copy(&self, alloc: Global) -> Result<Facts, AllocError> {
        Ok(Facts {
            regs: self.regs.try_copy(alloc)?,
            statics: self.statics.try_copy(alloc)?,
            cells: self.cells.try_copy(alloc)?,
            elems: self.elems.try_copy(alloc)?,
            calls: self.calls.try_copy(alloc)?,
            reached: self.reached.try_copy(alloc)?,
        })
    }
}

impl Same for Facts {
    fn same(&self, other: &Facts) -> bool {
        self.regs.same(&other.regs)
            && self.statics.same(&other.statics)
            && self.cells.same(&other.cells)
            && self.elems.same(&other.elems)
            && self.calls.same(&other.calls)
            && self.reached.same(&other.reached)
    }
}

impl TryCopy for Mods {
    fn try_copy(&self, alloc: Global) -> Result<Mods, AllocError> {
        Ok(Mods {
            fields: self.fields.try_copy(alloc)?,
            statics: self.statics.try_copy(alloc)?,
            elements: self.elements,
            sites: self.sites.try_copy(alloc)?,
        })
    }
}

impl Same for Mods {
    fn same(&self, other: &Mods) -> bool {
        self.fields.same(&other.fields)
            && self.statics.same(&other.statics)
            && self.elements == other.elements
            && self.sites.same(&other.sites)
    }
}

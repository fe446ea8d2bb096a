// The places whose sets the analysis finds.
use th_base::{FieldId, Reg, SiteId};

// A place that holds references.
#[derive(Clone, Copy)]
pub(crate) enum Place {
    Register(Reg),
    Static(FieldId),
    // The elements of the arrays of a site.
    Elements(SiteId),
    // A field of the objects of a site.
    Cell(SiteId, FieldId),
}

// How many places there are of each kind but the last. Their sets come in this order, then those of
// cells, which are made as they are needed.
#[derive(Clone, Copy)]
pub(crate) struct Layout {
    pub(crate) registers: usize,
    pub(crate) fields: usize,
    pub(crate) sites: usize,
    // The number of the first cell's set.
    pub(crate) first_cell: usize,
}

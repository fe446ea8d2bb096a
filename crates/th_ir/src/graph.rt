// The heap graph, alarms, and what produces an edge.
use std::alloc::{AllocError, Global};
use th_base::{ClassId, FieldId, NodeId, Same, Seq, SiteId, TryCopy};

/// An edge of the heap graph. Sites stand for their objects.
#[derive(Clone, Copy, Debug, PartialEq, Eq)]
pub enum Edge {
    /// A static field holds an object of the site.
    Static(FieldId, SiteId),
    /// A field of an object of the first site holds one of the last.
    Field(SiteId, FieldId, SiteId),
    /// An element of an array of the first site holds an object of the last.
    Element(SiteId, SiteId),
}

/// The heap graph.
#[derive(Debug, Drop)]
pub struct Graph {
    /// Its edges, by number.
    pub edges: Seq<Edge>,
}

/// A static field that may keep an Activity alive.
#[derive(Clone, Copy, Debug, PartialEq, Eq)]
pub struct Alarm {
    /// The static field.
    pub field: FieldId,
    /// The class of the Activity, exactly.
    pub class: ClassId,
}

/// What may make an edge true.
#[derive(Clone, Copy, Debug, PartialEq, Eq)]
pub enum Producer {
    /// The store at a node.
    Node(NodeId),
    /// The String constant that a static field holds from the start.
    Constant(FieldId),
}

impl TryCopy for Edge {
    fn try_copy(&self, _alloc: Global) -> Result<Edge, AllocError> {
        Ok(*self)
    }
}

impl Same for Edge {
    fn same(&self, other: &Edge) -> bool {
        *self == *other
    }
}

impl TryCopy for Graph {
    fn try_copy(&self, alloc: Global) -> Result<Graph, AllocError> {
        Ok(Graph {
            edges: self.edges.try_copy(alloc)?,
        })
    }
}

impl Same for Graph {
    fn same(&self, other: &Graph) -> bool {
        self.edges.same(&other.edges)
    }
}

impl TryCopy for Alarm {
    fn try_copy(&self, _alloc: Global) -> Result<Alarm, AllocError> {
        Ok(*self)
    }
}

impl Same for Alarm {
    fn same(&self, other: &Alarm) -> bool {
        *self == *other
    }
}

impl TryCopy for Producer {
    fn try_copy(&self, _alloc: Global) -> Result<Producer, AllocError> {
        Ok(*self)
    }
}

impl Same for Producer {
    fn same(&self, other: &Producer) -> bool {
        *self == *other
    }
}

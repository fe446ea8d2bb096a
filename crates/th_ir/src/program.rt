// A program in register form.
use crate::Stmt;
use std::alloc::{AllocError, Global};
use th_base::{ClassId, FieldId, IdSet, MethodId, NodeId, Reg, Same, Seq, SiteId, Text, TryCopy};

/// Where the objects of an allocation site are made.
#[derive(Debug, Drop)]
pub enum Place {
    /// Nowhere: the String constant of these bytes is there from the start.
    Str(Text),
    /// At launches of this class by the harness.
    Launch(ClassId),
    /// Where the harness makes a Bundle for a handler.
    Event,
    /// At the instruction of a method at an offset.
    Code(MethodId, u32),
}

/// An allocation site.
#[derive(Debug, Drop)]
pub struct Site {
    /// The class of its objects, or the descriptor of its arrays.
    pub class: Text,
    /// Where they are made.
    pub place: Place,
}

/// A node: one statement of a method.
#[derive(Debug, Drop)]
pub struct Node {
    /// Its method.
    pub method: MethodId,
    /// The offset of its instruction; 0 in methods of the harness.
    pub offset: u32,
    /// What it does.
    pub stmt: Stmt,
    /// The nodes that may come next, in order.
    pub next: Seq<NodeId>,
    /// Whether it is the first node of the instruction at a loop head.
    pub loop_head: bool,
}

/// A method.
#[derive(Debug, Drop)]
pub struct Method {
    /// The class that declares it; `None` for a method of the harness.
    pub owner: Option<ClassId>,
    /// Its first node; 0 where it has no code.
    pub entry: NodeId,
    /// The registers of its parameters, the receiver first.
    pub params: Seq<Reg>,
    /// Its nodes that return.
    pub returns: Seq<NodeId>,
}

/// A program in register form.
#[derive(Debug, Drop)]
pub struct RegProgram {
    /// Its methods, by number.
    pub methods: Seq<Method>,
    /// Its nodes, by number.
    pub nodes: Seq<Node>,
    /// Its allocation sites, by number.
    pub sites: Seq<Site>,
    /// The methods of the harness, in order.
    pub harness: Seq<MethodId>,
    /// The registers that hold references.
    pub refs: IdSet,
    /// The static fields that hold this int from the start.
    pub ints: Seq<(FieldId, i32)>,
    /// The static fields that hold the String constant of this site from the start.
    pub strings: Seq<(FieldId, SiteId)>,
}

impl TryCopy for Place {
    fn try_copy(&self, alloc: Global) -> Result<Place, AllocError> {
        Ok(match self {
            Place::Str(text) => Place::Str(text.try_copy(alloc)?),
            Place::Launch(class) => Place::Launch(*class),
            Place::Event => Place::Event,
            Place::Code(method, offset) => Place::Code(*method, *offset),
        })
    }
}

impl Same for Place {
    fn same(&self, other: &Place) -> bool {
        match (self, other) {
            (Place::Str(left), Place::Str(right)) => left.same(right),
            (Place::Launch(left), Place::Launch(right)) => *left == *right,
            (Place::Event, Place::Event) => true,
            (Place::Code(left, at), Place::Code(right, to)) => *left == *right && *at == *to,
            _ => false,
        }
    }
}

impl TryCopy for Site {
    fn try_copy(&self, alloc: Global) -> Result<Site, AllocError> {
        Ok(Site {
            class: self.class.try_copy(alloc)?,
            place: self.place.try_copy(alloc)?,
        })
    }
}

impl Same for Site {
    fn same(&self, other: &Site) -> bool {
        self.class.same(&other.class) && self.place.same(&other.place)
    }
}

impl TryCopy for Node {
    fn try_copy(&self, alloc: Global) -> Result<Node, AllocError> {
        Ok(Node {
            method: self.method,
            offset: self.offset,
            stmt: self.stmt.try_copy(alloc)?,
            next: self.next.try_copy(alloc)?,
            loop_head: self.loop_head,
        })
    }
}

impl Same for Node {
    fn same(&self, other: &Node) -> bool {
        self.method == other.method
            && self.offset == other.offset
            && self.stmt.same(&other.stmt)
            && self.next.same(&other.next)
            && self.loop_head == other.loop_head
    }
}

impl TryCopy for Method {
    fn try_copy(&self, alloc: Global) -> Result<Method, AllocError> {
        Ok(Method {
            owner: self.owner,
            entry: self.entry,
            params: self.params.try_copy(alloc)?,
            returns: self.returns.try_copy(alloc)?,
        })
    }
}

impl Same for Method {
    fn same(&self, other: &Method) -> bool {
        self.owner.same(&other.owner)
            && self.entry == other.entry
            && self.params.same(&other.params)
            && self.returns.same(&other.returns)
    }
}

impl TryCopy for RegProgram {
    fn try_copy(&self, alloc: Global) -> Result<RegProgram, AllocError> {
        Ok(RegProgram {
            methods: self.methods.try_copy(alloc)?,
            nodes: self.nodes.try_copy(alloc)?,
            sites: self.sites.try_copy(alloc)?,
            harness: self.harness.try_copy(alloc)?,
            refs: self.refs.try_copy(alloc)?,
            ints: self.ints.try_copy(alloc)?,
            strings: self.strings.try_copy(alloc)?,
        })
    }
}

impl Same for RegProgram {
    fn same(&self, other: &RegProgram) -> bool {
        self.methods.same(&other.methods)
            && self.nodes.same(&other.nodes)
            && self.sites.same(&other.sites)
            && self.harness.same(&other.harness)
            && self.refs.same(&other.refs)
            && self.ints.same(&other.ints)
            && self.strings.same(&other.strings)
    }
}

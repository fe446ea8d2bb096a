// The numbers by which the parts of a program are named.
use crate::{Same, TryCopy};
use std::alloc::{AllocError, Global};

/// A class, by its place in the class order: the built-in classes, then the files' in order.
#[derive(Clone, Copy, Debug, PartialEq, Eq, PartialOrd, Ord, Hash)]
pub struct ClassId(pub u32);

impl TryCopy for ClassId {
    fn try_copy(&self, _alloc: Global) -> Result<ClassId, AllocError> {
        Ok(*self)
    }
}

impl Same for ClassId {
    fn same(&self, other: &ClassId) -> bool {
        *self == *other
    }
}

/// A method, by its place in the order of classes and, within a class, of its methods.
#[derive(Clone, Copy, Debug, PartialEq, Eq, PartialOrd, Ord, Hash)]
pub struct MethodId(pub u32);

impl TryCopy for MethodId {
    fn try_copy(&self, _alloc: Global) -> Result<MethodId, AllocError> {
        Ok(*self)
    }
}

impl Same for MethodId {
    fn same(&self, other: &MethodId) -> bool {
        *self == *other
    }
}

/// A field, by its place in the order of classes and, within a class, of its fields.
#[derive(Clone, Copy, Debug, PartialEq, Eq, PartialOrd, Ord, Hash)]
pub struct FieldId(pub u32);

impl TryCopy for FieldId {
    fn try_copy(&self, _alloc: Global) -> Result<FieldId, AllocError> {
        Ok(*self)
    }
}

impl Same for FieldId {
    fn same(&self, other: &FieldId) -> bool {
        *self == *other
    }
}

/// A node of the register form, by its place in the order of methods and, within a method, of its nodes.
#[derive(Clone, Copy, Debug, PartialEq, Eq, PartialOrd, Ord, Hash)]
pub struct NodeId(pub u32);

impl TryCopy for NodeId {
    fn try_copy(&self, _alloc: Global) -> Result<NodeId, AllocError> {
        Ok(*self)
    }
}

impl Same for NodeId {
    fn same(&self, other: &NodeId) -> bool {
        *self == *other
    }
}

/// A register of the register form, by its place in the order of methods and, within a method, of its registers.
#[derive(Clone, Copy, Debug, PartialEq, Eq, PartialOrd, Ord, Hash)]
pub struct Reg(pub u32);

impl TryCopy for Reg {
    fn try_copy(&self, _alloc: Global) -> Result<Reg, AllocError> {
        Ok(*self)
    }
}

impl Same for Reg {
    fn same(&self, other: &Reg) -> bool {
        *self == *other
    }
}

/// An allocation site, by its place in the order of sites.
#[derive(Clone, Copy, Debug, PartialEq, Eq, PartialOrd, Ord, Hash)]
pub struct SiteId(pub u32);

impl TryCopy for SiteId {
    fn try_copy(&self, _alloc: Global) -> Result<SiteId, AllocError> {
        Ok(*self)
    }
}

impl Same for SiteId {
    fn same(&self, other: &SiteId) -> bool {
        *self == *other
    }
}

/// An edge of the heap graph, by its place in the order of edges.
#[derive(Clone, Copy, Debug, PartialEq, Eq, PartialOrd, Ord, Hash)]
pub struct EdgeId(pub u32);

impl TryCopy for EdgeId {
    fn try_copy(&self, _alloc: Global) -> Result<EdgeId, AllocError> {
        Ok(*self)
    }
}

impl Same for EdgeId {
    fn same(&self, other: &EdgeId) -> bool {
        *self == *other
    }
}

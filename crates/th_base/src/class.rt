// What the hierarchy knows of a class and of its members.
use crate::{ClassId, FieldId, MethodId, Same, Seq, Text, TryCopy};
use std::alloc::{AllocError, Global};

/// A field that a class declares (Java specification 4.5).
#[derive(Debug, Drop)]
pub struct FieldInfo {
    /// Its number.
    pub id: FieldId,
    /// Its name.
    pub name: Text,
    /// Its descriptor.
    pub descriptor: Text,
    /// Whether it belongs to the class and not to its instances.
    pub is_static: bool,
}

/// A method that a class declares (Java specification 4.6).
#[derive(Debug, Drop)]
pub struct MethodInfo {
    /// Its number.
    pub id: MethodId,
    /// Its name.
    pub name: Text,
    /// Its descriptor.
    pub descriptor: Text,
    /// Whether it belongs to the class and not to its instances.
    pub is_static: bool,
    /// Whether only its own class may call it.
    pub is_private: bool,
    /// Whether it has no code.
    pub is_abstract: bool,
}

/// A class or interface: its direct supertypes and what it declares (Java specification 4.1).
#[derive(Debug, Drop)]
pub struct ClassInfo {
    /// Its name, as in `java/lang/Object`.
    pub name: Text,
    /// Its direct superclass; `None` for `java/lang/Object` alone.
    pub super_id: Option<ClassId>,
    /// Its direct superinterfaces, in declared order.
    pub interfaces: Seq<ClassId>,
    /// Whether it is an interface.
    pub is_interface: bool,
    /// Whether it is marked abstract.
    pub is_abstract: bool,
    /// The fields that it declares, in order.
    pub fields: Seq<FieldInfo>,
    /// The methods that it declares, in order.
    pub methods: Seq<MethodInfo>,
}

impl TryCopy for FieldInfo {
    fn try_copy(&self, alloc: Global) -> Result<FieldInfo, AllocError> {
        Ok(FieldInfo {
            id: self.id,
            name: self.name.copy(alloc)?,
            descriptor: self.descriptor.copy(alloc)?,
            is_static: self.is_static,
        })
    }
}

impl Same for FieldInfo {
    fn same(&self, other: &FieldInfo) -> bool {
        self.id == other.id
            && self.name.same(&other.name)
            && self.descriptor.same(&other.descriptor)
            && self.is_static == other.is_static
    }
}

impl TryCopy for MethodInfo {
    fn try_copy(&self, alloc: Global) -> Result<MethodInfo, AllocError> {
        Ok(MethodInfo {
            id: self.id,
            name: self.name.copy(alloc)?,
            descriptor: self.descriptor.copy(alloc)?,
            is_static: self.is_static,
            is_private: self.is_private,
            is_abstract: self.is_abstract,
        })
    }
}

impl Same for MethodInfo {
    fn same(&self, other: &MethodInfo) -> bool {
        self.id == other.id
            && self.name.same(&other.name)
            && self.descriptor.same(&other.descriptor)
            && self.is_static == other.is_static
            && self.is_private == other.is_private
            && self.is_abstract == other.is_abstract
    }
}

impl TryCopy for ClassInfo {
    fn try_copy(&self, alloc: Global) -> Result<ClassInfo, AllocError> {
        Ok(ClassInfo {
            name: self.name.copy(alloc)?,
            super_id: self.super_id,
            interfaces: self.interfaces.copy(alloc)?,
            is_interface: self.is_interface,
            is_abstract: self.is_abstract,
            fields: self.fields.copy(alloc)?,
            methods: self.methods.copy(alloc)?,
        })
    }
}

impl Same for ClassInfo {
    fn same(&self, other: &ClassInfo) -> bool {
        self.name.same(&other.name)
            && self.super_id.same(&other.super_id)
            && self.interfaces.same(&other.interfaces)
            && self.is_interface == other.is_interface
            && self.is_abstract == other.is_abstract
            && self.fields.same(&other.fields)
            && self.methods.same(&other.methods)
    }
}

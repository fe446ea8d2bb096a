// The classes of a program, with what its look-ups need.
ghost use Rattle.std.specs.Prelude.{◌≡◌, ◌<◌, ◌^◌, ◌==◌, ℕ, length, true, IfOk};
ghost use Rattle.std.specs.Option.{option_copied, option_map};
ghost use Rattle.th_base.specs.Hierarchy.{IsAcyclic, is_subclass, supertypes_of, resolved_field, field_of, resolved_method, method_of, declared_method, first_method, selected_method, numbered_field, numbered_method};
ghost use Rattle.th_base.specs.IdSet.{has};
ghost use Rattle.th_base.specs.Subtype.{class_named, is_class_subtype, described_type, is_type_subtype, is_subtype};

use crate::ancestors::{Ancestors, ancestors_of};
use crate::members::{Members, field_along, members_of, method_along, method_in, overriding_along};
use crate::names::names_of;
use crate::numbered::{Place, field_numbers, method_numbers, places_of};
use crate::order::order_of;
use crate::shape::{Shape, described, is_above_arrays, named};
use crate::{CONSTRUCTOR, ClassId, ClassInfo, FieldId, FieldInfo, MethodId, MethodInfo, Seq, Text};
use std::alloc::{AllocError, Global};
use std::collections::BTreeMap;
use std::marker::Model;

/// The class hierarchy of a program. Contracts see it as the list of its classes, each named by its
/// place in it.
///
/// It keeps for each class what stands above it and indexes of its members, and tables of names and
/// numbers. No look-up takes memory. A class is asked for a member by a binary search, whatever the
/// names are: `docs/HIERARCHY.md` has the cost of each look-up.
#[derive(Debug, Drop)]
pub struct Hierarchy {
    classes: Seq<ClassInfo>,
    above: Vec<Ancestors>,
    members: Vec<Members>,
    names: BTreeMap<Vec<u8>, u32>,
    fields: BTreeMap<u32, Place>,
    methods: BTreeMap<u32, Place>,
}

impl Model for Hierarchy {
    ghost use Rattle.std.specs.Prelude.{List};
    ghost use Rattle.th_base.specs.declared.class.ClassInfo.{ClassInfo};
    ghost use Rattle.th_base.specs.Lookup.{IsHierarchy};

    ghost Value = { List ClassInfo };

    ghost view = { λ h. h.classes };

    ghost invariant = { λ h. IsHierarchy h.classes h.above.items h.members.items h.names h.fields h.methods };
}

impl Hierarchy {
    /// The hierarchy of these classes, in the order of their numbers.
    pub fn new(alloc: Global, classes: Vec<ClassInfo>) -> Result<Hierarchy, AllocError>
        requires acyclic { IsAcyclic classes.items }
        requires few { length classes.items < 2 ^ 32 }
        ensures { IfOk result (λ hierarchy. hierarchy ≡ classes.items) }
    {
        let list = classes.as_slice();
        let above = match order_of(alloc, list)? {
            Some(order) => ancestors_of(alloc, list, order.as_slice())?,
            None => unreachable!(),
        };
        let members = members_of(alloc, list)?;
        let names = names_of(alloc, list)?;
        let fields = places_of(alloc, field_numbers(alloc, list)?.as_slice())?;
        let methods = places_of(alloc, method_numbers(alloc, list)?.as_slice())?;
        Ok(Hierarchy {
            classes: Seq::from_vec(classes),
            above,
            members,
            names,
            fields,
            methods,
        })
    }

    /// A copy, made anew from a copy of the classes.
    pub fn copy(&self, alloc: Global) -> Result<Hierarchy, AllocError>
        ensures { IfOk result (λ copy. copy ≡ self.now) }
    {
        let classes = self.classes.copy(alloc)?;
        Hierarchy::new(alloc, classes.into_vec())
    }

    /// The classes, in the order of their numbers.
    pub fn classes(&self) -> &[ClassInfo]
        ensures value { result.now ≡ self.now }
        ensures acyclic { IsAcyclic self.now }
        ensures few { length self.now < 2 ^ 32 }
    {
        self.classes.as_slice()
    }

    /// The first class of a name; `None` exactly where there is none.
    pub fn find_class(&self, name: &[u8]) -> Option<ClassId>
        ensures { option_map (λ class. class.0) result ≡ class_named self.now name.now }
    {
        self.names.get(name).map(|number| ClassId(*number))
    }

    /// The first field of this number, class by class, and the class that declares it; `None` exactly
    /// where there is none.
    pub fn field(&self, id: FieldId) -> Option<(ClassId, &FieldInfo)>
        ensures { option_map (λ found. (found.0.0, found.1.now)) result ≡ numbered_field self.now id.0 }
    {
        match self.fields.get(&id.0) {
            Some(place) => {
                let class = &self.classes.as_slice()[place.class as usize];
                Some((ClassId(place.class), &class.fields.as_slice()[place.at]))
            }
            None => None,
        }
    }

    /// The first method of this number, class by class, and the class that declares it; `None` exactly
    /// where there is none.
    pub fn method(&self, id: MethodId) -> Option<(ClassId, &MethodInfo)>
        ensures { option_map (λ found. (found.0.0, found.1.now)) result ≡ numbered_method self.now id.0 }
    {
        match self.methods.get(&id.0) {
            Some(place) => {
                let class = &self.classes.as_slice()[place.class as usize];
                Some((ClassId(place.class), &class.methods.as_slice()[place.at]))
            }
            None => None,
        }
    }

    /// Whether the first class is the second or has it as a superclass, near or far. An interface has
    /// the superclass of its class file.
    pub fn is_subclass(&self, a: ClassId, b: ClassId) -> bool
        requires a { a.0 < length self.now }
        requires b { b.0 < length self.now }
        ensures { result ≡ is_subclass self.now a.0 b.0 }
    {
        let line = self.above[a.0 as usize].line.as_slice();
        let rest = self.above[b.0 as usize].line.len();
        if line.len() < rest {
            return false;
        }
        line[line.len() - rest] == b.0
    }

    /// Whether the first class is the second or has it above itself, as a superclass or an interface
    /// (Java language specification 4.10.2).
    pub fn is_class_subtype(&self, a: ClassId, b: ClassId) -> bool
        requires { a.0 < length self.now }
        ensures { result ≡ has (supertypes_of self.now a.0) b.0 }
    {
        self.above[a.0 as usize].all.contains(b.0)
    }

    /// The field of this name and descriptor that field resolution finds for a class, and the class that
    /// declares it: its own, else that of its superinterfaces and what stands above them, else that of
    /// its superclass in the same way (Java specification 5.4.3.2).
    pub fn resolve_field(
        &self,
        class: ClassId,
        name: &[u8],
        descriptor: &[u8],
    ) -> Option<(ClassId, &FieldInfo)>
        requires { class.0 < length self.now }
        ensures { option_map (λ found. (found.0.0, found.1.now)) result ≡ resolved_field self.now class.0 name.now descriptor.now }
    {
        let order = self.above[class.0 as usize].supertypes.as_slice();
        field_along(
            self.classes.as_slice(),
            self.members.as_slice(),
            order,
            name,
            descriptor,
        )
    }

    /// The number of the field that field resolution finds.
    pub fn find_field(&self, class: ClassId, name: &Text, descriptor: &Text) -> Option<FieldId>
        requires { class.0 < length self.now }
        ensures { result ≡ field_of self.now class.0 name.now descriptor.now }
    {
        self.resolve_field(class, name.as_bytes(), descriptor.as_bytes())
            .map(|found| found.1.id)
    }

    /// The method of this name and descriptor that a class declares itself.
    pub fn declared_method(
        &self,
        class: ClassId,
        name: &[u8],
        descriptor: &[u8],
    ) -> Option<&MethodInfo>
        requires { class.0 < length self.now }
        ensures { option_copied result ≡ declared_method self.now name.now descriptor.now class.0 }
    {
        let at = class.0 as usize;
        method_in(
            &self.classes.as_slice()[at],
            &self.members[at],
            name,
            descriptor,
        )
    }

    /// The method of this name and descriptor that method resolution finds for a class, and the class
    /// that declares it: its own or the nearest superclass's, else that of the first superinterface to
    /// declare one. `<init>` is looked for in the class alone (Java specification 5.4.3.3, 5.4.3.4).
    pub fn resolve_method(
        &self,
        class: ClassId,
        name: &[u8],
        descriptor: &[u8],
    ) -> Option<(ClassId, &MethodInfo)>
        requires { class.0 < length self.now }
        ensures { option_map (λ found. (found.0.0, found.1.now)) result ≡ resolved_method self.now class.0 name.now descriptor.now }
    {
        if name == CONSTRUCTOR.as_bytes() {
            return self
                .declared_method(class, name, descriptor)
                .map(|method| (class, method));
        }
        let above = &self.above[class.0 as usize];
        match self.method_on(above.line.as_slice(), name, descriptor) {
            Some(found) => Some(found),
            None => self.method_on(above.superinterfaces.as_slice(), name, descriptor),
        }
    }

    /// The number of the method that method resolution finds.
    pub fn find_method(&self, class: ClassId, name: &Text, descriptor: &Text) -> Option<MethodId>
        requires { class.0 < length self.now }
        ensures { result ≡ method_of self.now class.0 name.now descriptor.now }
    {
        self.resolve_method(class, name.as_bytes(), descriptor.as_bytes())
            .map(|found| found.1.id)
    }

    /// The method that a call on a receiver of this class runs: the first instance method of this name
    /// and descriptor that isn't private, from the class upwards; `None` where there is none or it is
    /// abstract (Java specification 6.5, invokevirtual).
    pub fn select(&self, class: ClassId, name: &Text, descriptor: &Text) -> Option<MethodId>
        requires { class.0 < length self.now }
        ensures { result ≡ selected_method self.now class.0 name.now descriptor.now }
    {
        let method = overriding_along(
            self.classes.as_slice(),
            self.members.as_slice(),
            self.above[class.0 as usize].line.as_slice(),
            name.as_bytes(),
            descriptor.as_bytes(),
        );
        match method {
            Some(found) if !found.is_abstract => Some(found.id),
            _ => None,
        }
    }

    /// Whether the first type is a subtype of the second. Types are named by class names and array
    /// descriptors (Java specification 4.4.1). A type is a subtype of itself; a class or interface of
    /// what stands above it; an array of `java/lang/Object`, `java/lang/Cloneable` and
    /// `java/io/Serializable`, and of an array whose components are of a supertype of its components'
    /// type, where these are references (Java language specification 4.10).
    pub fn is_subtype(&self, a: &Text, b: &Text) -> bool
        ensures { result ≡ is_subtype self.now a.now b.now }
    {
        self.is_subtype_named(a.as_bytes(), b.as_bytes())
    }

    /// The same, of names that are borrowed.
    pub fn is_subtype_named(&self, a: &[u8], b: &[u8]) -> bool
        ensures { result ≡ is_subtype self.now a.now b.now }
    {
        match (named(a), named(b)) {
            (Shape::Array(left), Shape::Array(right)) => self.is_component_subtype(left, right),
            (Shape::Array(_), Shape::Class(right)) => is_above_arrays(right),
            (Shape::Class(left), Shape::Class(right)) => self.is_name_below(left, right),
            _ => false,
        }
    }

    // Whether a type is a subtype of another, by their field descriptors.
    fn is_component_subtype(&self, left: &[u8], right: &[u8]) -> bool
        ensures { result ≡ is_type_subtype self.now (described_type left.now) (described_type right.now) }
    {
        let mut lower = left;
        let mut upper = right;
        loop {
            match (described(lower), described(upper)) {
                (Shape::Array(s), Shape::Array(t)) => {
                    lower = s;
                    upper = t;
                }
                (Shape::Array(_), Shape::Class(name)) => return is_above_arrays(name),
                (Shape::Class(s), Shape::Class(t)) => return self.is_name_below(s, t),
                (Shape::Primitive, Shape::Primitive) => return lower == upper,
                _ => return false,
            }
        }
    }

    // Whether a class is a subtype of another, by their names.
    fn is_name_below(&self, a: &[u8], b: &[u8]) -> bool
        ensures { result ≡ is_class_subtype self.now a.now b.now }
    {
        if a == b {
            return true;
        }
        match (self.find_class(a), self.find_class(b)) {
            (Some(i), Some(j)) => self.is_class_subtype(i, j),
            _ => false,
        }
    }

    // Along a list of classes, the first that declares the method, and the method.
    fn method_on(
        &self,
        order: &[u32],
        name: &[u8],
        descriptor: &[u8],
    ) -> Option<(ClassId, &MethodInfo)>
        requires { (c : ℕ) → has order.now c ≡ true → c < length self.now }
        ensures { option_map (λ found. (found.0.0, found.1.now)) result ≡ first_method self.now name.now descriptor.now order.now }
    {
        method_along(
            self.classes.as_slice(),
            self.members.as_slice(),
            order,
            name,
            descriptor,
        )
    }
}

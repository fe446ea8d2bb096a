//! The plain values that every layer speaks of, and the class hierarchy.
//!
//! Texts, sequences, stacks, names and sets of numbers are seen by contracts as lists, so that a value
//! that a layer makes can be compared with the value of a definition. Numbers of classes, methods,
//! fields, nodes, registers, sites and edges are types of their own.
//!
//! The layers above use that a copy is equal to what it was copied from (`TryCopy`), that a
//! comparison answers exactly whether two values are equal (`Same`), and that each look-up of a
//! hierarchy is the rule of `specs/Hierarchy.antt`.
#![tactic(auto)]

mod ancestors;
mod built_in;
mod class;
mod climb;
mod component;
mod copy;
mod cycle;
mod fail;
mod handler;
mod hierarchy;
mod id_set;
mod index;
pub mod laws;
mod lifecycle;
mod members;
mod name;
mod names;
mod number;
mod numbered;
mod operation;
mod order;
mod rank;
mod seq;
mod set_walks;
mod shape;
mod stack;
mod text;

pub use built_in::{
    ACTIVITY, ACTIVITY_NUMBER, BUILT_IN_COUNT, BUNDLE, BUNDLE_NUMBER, CLONEABLE, CONSTRUCTOR,
    OBJECT, SERIALIZABLE, STRING, STRING_NUMBER,
};
pub use class::{ClassInfo, FieldInfo, MethodInfo};
pub use copy::{Same, TryCopy};
pub use cycle::{Cycle, first_cycle};
pub use fail::Fail;
pub use handler::{
    HANDLERS, ON_CREATE, ON_DESTROY, ON_PAUSE, ON_RESTART, ON_RESUME, ON_SAVE_INSTANCE_STATE,
    ON_START, ON_STOP, TAKES_BUNDLE, TAKES_NOTHING,
};
pub use hierarchy::Hierarchy;
pub use id_set::IdSet;
pub use lifecycle::Lifecycle;
pub use name::Name;
pub use number::{ClassId, EdgeId, FieldId, MethodId, NodeId, Reg, SiteId};
pub use operation::{ArithOp, Elem, NarrowOp, Relation};
pub use order::acyclic;
pub use seq::Seq;
pub use stack::Stack;
pub use text::Text;

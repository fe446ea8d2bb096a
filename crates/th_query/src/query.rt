// A query: what a state must have.
ghost use Rattle.std.specs.Prelude.{◌≡◌, ◌↔◌, IfOk, IsTrue};

use crate::Sites;
use std::alloc::{AllocError, Global};
use th_base::{FieldId, NodeId, Reg, Same, Seq, TryCopy};
use th_linear::Lin;

/// How many frames a query has at most.
pub const MOST_FRAMES: usize = 4;

/// How many facts of registers a query has at most, over all frames.
pub const MOST_REGISTERS: usize = 64;

/// How many facts of static fields a query has at most.
pub const MOST_STATICS: usize = 32;

/// How many cells and elements a query has at most, together.
pub const MOST_LINKS: usize = 64;

/// How many differences a query has at most.
pub const MOST_DIFFERENCES: usize = 64;

/// How many linear facts a query has at most.
pub const MOST_FACTS: usize = 24;

/// A frame: where it stands, and a symbol for each register that is spoken of.
#[derive(Debug, Drop)]
pub struct Frame {
    /// The node that runs next; of an outer frame the Call or Init in progress.
    pub node: NodeId,
    /// Registers, each with the symbol of its value.
    pub regs: Seq<(Reg, u32)>,
}

/// A field of an object has a value.
#[derive(Clone, Copy, Debug, PartialEq, Eq)]
pub struct Cell {
    /// The symbol of the object.
    pub base: u32,
    /// The field, or LENGTH.
    pub field: FieldId,
    /// The symbol of the value.
    pub value: u32,
}

/// Some element of an array has a value.
#[derive(Clone, Copy, Debug, PartialEq, Eq)]
pub struct Element {
    /// The symbol of the array.
    pub array: u32,
    /// The symbol of the value.
    pub value: u32,
}

/// A part of an object that holds values.
#[derive(Clone, Copy, Debug, PartialEq, Eq)]
pub enum Slot {
    /// A field.
    Field(FieldId),
    /// The elements of an array.
    Elements,
}

/// An object holds a value in a slot: a cell or an element.
#[derive(Clone, Copy, Debug, PartialEq, Eq)]
pub struct Link {
    /// The symbol of the object.
    pub base: u32,
    /// Where it holds the value.
    pub slot: Slot,
    /// The symbol of the value.
    pub value: u32,
}

/// What a symbol may stand for.
#[derive(Debug, Drop)]
pub enum Sym {
    /// A reference: null where the flag is set, or an object of one of the sites.
    Ref {
        /// Whether it may be null.
        null: bool,
        /// The sites that its object may be from.
        sites: Sites,
    },
    /// An int: a number from -2^31 to 2^31 - 1.
    Int,
    /// A carry: a number from -1 to 1.
    Carry,
}

/// What a state must have. A symbol is named by its place in `syms`; a query without frames is idle.
#[derive(Debug, Drop)]
pub struct Query {
    /// The innermost frames, innermost first. Those below them are unknown.
    pub frames: Seq<Frame>,
    /// Static fields, each with the symbol of its value.
    pub statics: Seq<(FieldId, u32)>,
    /// Fields of objects.
    pub cells: Seq<Cell>,
    /// Elements of arrays.
    pub elems: Seq<Element>,
    /// What each symbol may stand for.
    pub syms: Seq<Sym>,
    /// Pairs of symbols that stand for two values.
    pub diffs: Seq<(u32, u32)>,
    /// What holds between the numbers; a variable is a symbol.
    pub facts: Seq<Lin>,
}

impl TryCopy for Frame {
    fn try_copy(&self, alloc: Global) -> Result<Frame, AllocError> {
        Ok(Frame {
            node: self.node,
            regs: self.regs.try_copy(alloc)?,
        })
    }
}

impl Same for Frame {
    fn same(&self, other: &Frame) -> bool {
        self.node == other.node && self.regs.same(&other.regs)
    }
}

impl TryCopy for Cell {
    fn try_copy(&self, _alloc: Global) -> Result<Cell, AllocError> {
        Ok(*self)
    }
}

impl Same for Cell {
    fn same(&self, other: &Cell) -> bool {
        *self == *other
    }
}

impl TryCopy for Element {
    fn try_copy(&self, _alloc: Global) -> Result<Element, AllocError> {
        Ok(*self)
    }
}

impl Same for Element {
    fn same(&self, other: &Element) -> bool {
        *self == *other
    }
}

impl TryCopy for Sym {
    fn try_copy(&self, alloc: Global) -> Result<Sym, AllocError> {
        match self {
            Sym::Ref { null, sites } => {
                let sites = sites.try_copy(alloc)?;
                Ok(Sym::Ref { null: *null, sites })
            }
            Sym::Int => Ok(Sym::Int),
            Sym::Carry => Ok(Sym::Carry),
        }
    }
}

impl Same for Sym {
    fn same(&self, other: &Sym) -> bool {
        match (self, other) {
            (
                Sym::Ref { null, sites },
                Sym::Ref {
                    null: flag,
                    sites: others,
                },
            ) => { *null == *flag && sites.same(others) }
            (Sym::Int, Sym::Int) => true,
            (Sym::Carry, Sym::Carry) => true,
            _ => false,
        }
    }
}

// A copy of each fact, in order.
fn copy_facts(alloc: Global, facts: &[Lin]) -> Result<Seq<Lin>, AllocError>
    ensures { IfOk result (λ copy. copy ≡ facts.now) }
{
    let mut copy = Vec::new(alloc);
    for fact in facts {
        copy.push(fact.copy(alloc)?)?;
    }
    Ok(Seq::from_vec(copy))
}

// Whether the facts are equal, one by one.
fn same_facts(left: &[Lin], right: &[Lin]) -> bool
    ensures { IsTrue result ↔ (left.now ≡ right.now) }
{
    if left.len() != right.len() {
        return false;
    }
    for i in 0..left.len() {
        if !left[i].same(&right[i]) {
            return false;
        }
    }
    true
}

impl TryCopy for Query {
    fn try_copy(&self, alloc: Global) -> Result<Query, AllocError> {
        Ok(Query {
            frames: self.frames.try_copy(alloc)?,
            statics: self.statics.try_copy(alloc)?,
            cells: self.cells.try_copy(alloc)?,
            elems: self.elems.try_copy(alloc)?,
            syms: self.syms.try_copy(alloc)?,
            diffs: self.diffs.try_copy(alloc)?,
            facts: copy_facts(alloc, self.facts.as_slice())?,
        })
    }
}

impl Same for Query {
    fn same(&self, other: &Query) -> bool {
        self.frames.same(&other.frames)
            && self.statics.same(&other.statics)
            && self.cells.same(&other.cells)
            && self.elems.same(&other.elems)
            && self.syms.same(&other.syms)
            && self.diffs.same(&other.diffs)
            && same_facts(self.facts.as_slice(), other.facts.as_slice())
    }
}

// Lists of facts, and what a step makes of them.
ghost use Rattle.std.specs.Prelude.{◌≡◌, [], ◌∷◌, ◌++◌, ◌<◌, length, IfOk, OnOk, slice_index_or};
ghost use Rattle.std.specs.List.{remove};

use std::alloc::{AllocError, Global};
use std::marker::Model;
use th_linear::Lin;

// Facts in order, which contracts see as a list.
#[derive(Debug, Drop)]
pub(crate) struct FactList {
    items: Vec<Lin>,
}

impl Model for FactList {
    ghost use Rattle.std.specs.Prelude.{List};
    ghost use Rattle.th_linear.specs.Forms.{Form};

    ghost Value = { List Form };

    ghost view = { λ f. f.items.items };
}

// What a step makes of a list of facts.
#[derive(Debug, Drop)]
pub(crate) enum Outcome {
    // No integers satisfy the facts.
    Refuted,
    // The facts are given up: they are too many, or a magnitude reaches 2^62.
    Undecided,
    // The facts that are left.
    Remaining(FactList),
}

impl FactList {
    // No facts. Takes no memory.
    pub(crate) fn new(alloc: Global) -> FactList
        ensures { result ≡ [] }
    {
        FactList {
            items: Vec::new(alloc),
        }
    }

    // No facts, with room for so many.
    pub(crate) fn with_capacity(alloc: Global, capacity: usize) -> Result<FactList, AllocError>
        ensures { IfOk result (λ list. list ≡ []) }
    {
        let items = Vec::with_capacity(alloc, capacity)?;
        Ok(FactList { items })
    }

    // The facts, borrowed.
    pub(crate) fn as_slice(&self) -> &[Lin]
        ensures { result.now ≡ self.now }
    {
        self.items.as_slice()
    }

    // How many facts there are.
    pub(crate) fn len(&self) -> usize
        ensures { result ≡ length self.now }
    {
        self.items.len()
    }

    // The facts as a vector. Takes no memory.
    pub(crate) fn into_vec(self) -> Vec<Lin>
        ensures { result.items ≡ self }
    {
        let FactList { items } = self;
        items
    }

    // Adds a fact at the end.
    pub(crate) fn push(&mut self, fact: Lin) -> Result<(), AllocError>
        ensures { OnOk result (self.new ≡ self.old ++ fact ∷ []) }
    {
        self.items.push(fact)?;
        Ok(())
    }

    // Takes the fact at a place away.
    pub(crate) fn remove(&mut self, at: usize) -> Lin
        requires { at < length self.old }
        ensures fact { result ≡ slice_index_or self.old at result }
        ensures rest { self.new ≡ remove self.old at }
    {
        self.items.remove(at)
    }
}

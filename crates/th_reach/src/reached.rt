// The offsets of a method's code to which paths lead from its start.
ghost use Rattle.std.specs.Prelude.{◌≡◌, ℕ, IfOk};
ghost use Rattle.th_base.specs.IdSet.{has};
ghost use Rattle.th_syntax.specs.Flow.{is_reached};

use crate::visit::visit;
use indexmap::IndexSet;
use std::alloc::{AllocError, Global};
use std::marker::Model;
use th_syntax::Instr;

/// The offsets of a method's code to which paths lead from its start, without exception handlers.
/// Contracts see them as a list, in the order in which a visit came to them. An offset at which no
/// instruction stands is among them where a branch leads there.
#[derive(Drop)]
pub struct Reached {
    offsets: IndexSet<u32>,
}

impl Model for Reached {
    ghost use Rattle.std.specs.Prelude.{List, ℕ};

    ghost Value = { List ℕ };

    ghost view = { λ r. r.offsets.keys };
}

impl Reached {
    /// The offsets that are reached in these instructions, each of which stands at its offset. Takes
    /// time in the number of instructions and of branch targets together, whatever the order and the
    /// offsets of the instructions are.
    pub fn new(alloc: Global, instrs: &[(u32, Instr)]) -> Result<Reached, AllocError>
        ensures { IfOk result (λ reached. (offset : ℕ) → has reached offset ≡ is_reached instrs.now offset) }
    {
        let offsets = visit(alloc, instrs)?;
        Ok(Reached { offsets })
    }

    /// Whether an offset is reached. Takes no memory.
    pub fn contains(&self, offset: u32) -> bool
        ensures { result ≡ has self.now offset }
    {
        self.offsets.contains(&offset)
    }
}

// The numbers that a set doesn't hold yet.
ghost use Rattle.std.specs.Prelude.{◌≡◌, ◌↔◌, ◌∷◌, ◌++◌, [], true, length, IfOk, OnOk, IsTrue};
ghost use Rattle.th_base.specs.IdSet.{IsAscending};
ghost use Rattle.th_incl.specs.Parts.{SameMembers};

use std::alloc::{AllocError, Global};
use std::marker::Model;
use th_base::IdSet;

// Numbers that are to go into a set, in any order and maybe more than once. Contracts see them as a
// list.
#[derive(Debug, Drop)]
pub(crate) struct News {
    ids: Vec<u32>,
    is_ascending: bool,
}

// With fewer numbers than these, repeats cost less than a look for them.
const FEW: usize = 64;

impl Model for News {
    ghost use Rattle.std.specs.Prelude.{◌≡◌, ℕ, List, true};
    ghost use Rattle.th_base.specs.IdSet.{IsAscending};

    ghost Value = { List ℕ };

    ghost view = { λ n. n.ids.items };

    ghost invariant = { λ n. n.is_ascending ≡ true → IsAscending n.ids.items };
}

impl News {
    // No numbers. Takes no memory.
    pub(crate) fn new(alloc: Global) -> News
        ensures { result ≡ [] }
    {
        News {
            ids: Vec::new(alloc),
            is_ascending: true,
        }
    }

    // Whether there are no numbers.
    pub(crate) fn is_empty(&self) -> bool
        ensures { IsTrue result ↔ (self.now ≡ []) }
    {
        self.ids.is_empty()
    }

    // The numbers of a set. Takes no memory.
    pub(crate) fn from_set(set: IdSet) -> News
        ensures { result ≡ set }
    {
        News {
            ids: set.into_vec(),
            is_ascending: true,
        }
    }

    // The numbers as a set.
    pub(crate) fn into_set(mut self) -> Result<IdSet, AllocError>
        ensures members { IfOk result (λ set. SameMembers self set) }
        ensures ascending { IfOk result (λ set. IsAscending set) }
    {
        self.sort()?;
        let News { ids, .. } = self;
        Ok(IdSet::from_ascending(ids))
    }

    // Adds a number.
    pub(crate) fn add(&mut self, id: u32) -> Result<(), AllocError>
        ensures { OnOk result (SameMembers (id ∷ self.old) self.new) }
    {
        self.make_room()?;
        let is_ascending = stays_ascending(self.is_ascending, self.ids.as_slice(), id);
        self.ids.push(id)?;
        self.is_ascending = is_ascending;
        Ok(())
    }

    // Puts the numbers in order, each once. They came as ascending runs, one from each inclusion,
    // which the sort merges.
    fn sort(&mut self) -> Result<(), AllocError>
        ensures members { OnOk result (SameMembers self.old self.new) }
        ensures ascending { OnOk result (IsAscending self.new) }
    {
        if self.is_ascending {
            return Ok(());
        }
        self.ids.sort()?;
        self.ids.dedup();
        self.is_ascending = true;
        Ok(())
    }

    // Where there is no room, drops repeats, and takes half as much again where at most a quarter came
    // free.
    fn make_room(&mut self) -> Result<(), AllocError>
        ensures { OnOk result (SameMembers self.old self.new) }
    {
        if self.ids.len() < self.ids.capacity() || self.ids.len() < FEW {
            return Ok(());
        }
        self.sort()?;
        let len = self.ids.len();
        if len / 3 < self.ids.capacity() / 4 {
            return Ok(());
        }
        self.ids.reserve_exact(len / 2)
    }
}

// Whether numbers that were known to ascend still do with one more.
fn stays_ascending(was: bool, ids: &[u32], id: u32) -> bool
    requires { was ≡ true → IsAscending ids.now }
    ensures { result ≡ true → IsAscending (ids.now ++ id ∷ []) }
{
    if !was {
        return false;
    }
    let len = ids.len();
    if len == 0 {
        return true;
    }
    ids[len - 1] < id
}

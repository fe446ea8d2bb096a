// A `Vec` that contracts see as the list of its items, the top first.
ghost use Rattle.std.specs.Prelude.{◌≡◌, ◌↔◌, ◌<◌, [], ◌∷◌, length, reverse, slice_get, IfOk, OnOk, OnErr, OnSome, IsTrue, MatchOption};
ghost use Rattle.std.specs.Option.{option_copied};

use crate::{Same, Seq, TryCopy};
use std::alloc::{AllocError, Global};
use std::marker::Model;

/// Items of which the last pushed is the top, such as the frames of a machine. Contracts see them as
/// a list that begins with the top.
#[derive(Debug, Drop)]
pub struct Stack<T> {
    items: Seq<T>,
}

impl<T> Model for Stack<T> {
    ghost use Rattle.std.specs.Prelude.{List, reverse};
    ghost use Rattle.std.specs.Coded.{coded_list};

    ghost Value = { List T };

    ghost coded = { coded_list T.code };

    ghost view = { λ s. reverse s.items };
}

impl<T> Stack<T> {
    /// No items. Takes no memory.
    pub fn new(alloc: Global) -> Stack<T>
        ensures { result ≡ [] }
    {
        Stack {
            items: Seq::new(alloc),
        }
    }

    /// How many items there are.
    pub fn len(&self) -> usize
        ensures { result ≡ length self.now }
    {
        self.items.len()
    }

    /// Whether there are no items.
    pub fn is_empty(&self) -> bool
        ensures { IsTrue result ↔ (self.now ≡ []) }
    {
        self.items.len() == 0
    }

    /// The item at a place, counted from the top, which is 0; `None` exactly where there is none.
    pub fn get(&self, at: usize) -> Option<&T>
        ensures value { option_copied result ≡ slice_get self.now at }
        ensures within { OnSome result (at < length self.now) }
    {
        let len = self.items.len();
        if at < len {
            self.items.get(len - 1 - at)
        } else {
            None
        }
    }

    /// The top; `None` exactly where there is none.
    pub fn top(&self) -> Option<&T>
        ensures { option_copied result ≡ slice_get self.now 0 }
    {
        self.get(0)
    }

    /// Puts an item on top. After want of memory the items are as before.
    pub fn push(&mut self, item: T) -> Result<(), AllocError>
    where
        T: Drop,
        ensures ok { OnOk result (self.new ≡ item ∷ self.old) }
        ensures err { OnErr result (self.new ≡ self.old) }
    {
        self.items.push(item)
    }

    /// Takes the top away; `None` exactly where there is none.
    pub fn pop(&mut self) -> Option<T>
        ensures { MatchOption result ((self.old ≡ []) × (self.new ≡ [])) (λ top. self.old ≡ top ∷ self.new) }
    {
        self.items.pop()
    }
}

impl<T: TryCopy> TryCopy for Stack<T> {
    fn try_copy(&self, alloc: Global) -> Result<Stack<T>, AllocError> {
        let items = self.items.copy(alloc)?;
        Ok(Stack { items })
    }
}

impl<T: Same> Same for Stack<T> {
    fn same(&self, other: &Stack<T>) -> bool {
        self.items.same(&other.items)
    }
}

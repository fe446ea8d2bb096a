// A `Vec` that contracts see as the list of its items.
ghost use Rattle.std.specs.Prelude.{◌≡◌, ◌↔◌, ◌<◌, [], ◌∷◌, ◌++◌, length, slice_get, slice_set, IfOk, OnOk, OnErr, OnSome, IsTrue, MatchOption};
ghost use Rattle.std.specs.Option.{option_copied};
ghost use Rattle.std.specs.Fn.{FnReturnsAt, FnReturnsAtPair};

use crate::{Same, TryCopy};
use std::alloc::{AllocError, Global};
use std::marker::Model;

/// Items in order, which contracts see as a list. Room and capacity are no part of what they see.
#[derive(Debug, Drop)]
pub struct Seq<T> {
    items: Vec<T>,
}

impl<T> Model for Seq<T> {
    ghost use Rattle.std.specs.Prelude.{List};
    ghost use Rattle.std.specs.Coded.{coded_list};

    ghost Value = { List T };

    ghost coded = { coded_list T.code };

    ghost view = { λ s. s.items.items };
}

impl<T> Seq<T> {
    /// No items. Takes no memory.
    pub fn new(alloc: Global) -> Seq<T>
        ensures { result ≡ [] }
    {
        Seq {
            items: Vec::new(alloc),
        }
    }

    /// The items of a vector. Takes no memory.
    pub fn from_vec(items: Vec<T>) -> Seq<T>
        ensures { result ≡ items.items }
    {
        Seq { items }
    }

    /// The items as a vector. Takes no memory.
    pub fn into_vec(self) -> Vec<T>
        ensures { result.items ≡ self }
    {
        let Seq { items } = self;
        items
    }

    /// The items, borrowed.
    pub fn as_slice(&self) -> &[T]
        ensures { result.now ≡ self.now }
    {
        self.items.as_slice()
    }

    /// How many items there are.
    pub fn len(&self) -> usize
        ensures { result ≡ length self.now }
    {
        self.items.len()
    }

    /// Whether there are no items.
    pub fn is_empty(&self) -> bool
        ensures { IsTrue result ↔ (self.now ≡ []) }
    {
        self.items.is_empty()
    }

    /// The item at a place, from 0; `None` exactly where there is none.
    pub fn get(&self, at: usize) -> Option<&T>
        ensures value { option_copied result ≡ slice_get self.now at }
        ensures within { OnSome result (at < length self.now) }
    {
        self.items.get(at)
    }

    /// Adds an item at the end. After want of memory the items are as before.
    pub fn push(&mut self, item: T) -> Result<(), AllocError>
    where
        T: Drop,
        ensures ok { OnOk result (self.new ≡ self.old ++ item ∷ []) }
        ensures err { OnErr result (self.new ≡ self.old) }
    {
        self.items.push(item)?;
        Ok(())
    }

    /// Takes the last item away; `None` exactly where there is none.
    pub fn pop(&mut self) -> Option<T>
        ensures { MatchOption result ((self.old ≡ []) × (self.new ≡ [])) (λ last. self.old ≡ self.new ++ last ∷ []) }
    {
        self.items.pop()
    }

    /// A copy of each item, in order, by a function that copies one: for types that have no
    /// `TryCopy`.
    pub fn copy_with<F>(&self, alloc: Global, copy: F) -> Result<Seq<T>, AllocError>
    where
        T: Drop,
        F: Fn(&T) -> Result<T, AllocError> + Drop,
        requires callable { F.IsAlwaysCallable copy }
        requires exact { (x : T) (r : _) → FnReturnsAt F.Fn copy x r → IfOk r (λ y. y ≡ x) }
        ensures { IfOk result (λ seq. seq ≡ self.now) }
    {
        let items = copy_items_with(alloc, self.items.as_slice(), &copy)?;
        Ok(Seq { items })
    }

    /// Whether the items of both are the same, by a function that compares two: for types that have
    /// no `Same`.
    pub fn same_with<F>(&self, other: &Seq<T>, same: F) -> bool
    where
        F: Fn(&T, &T) -> bool + Drop,
        requires callable { F.IsAlwaysCallable same }
        requires exact { (x y : T) (r : _) → FnReturnsAtPair F.Fn same x y r → (IsTrue r ↔ (x ≡ y)) }
        ensures { IsTrue result ↔ (self.now ≡ other.now) }
    {
        same_items_with(self.items.as_slice(), other.items.as_slice(), &same)
    }

    /// Puts an item in the place of the one that stands there.
    pub fn set(&mut self, at: usize, item: T)
    where
        T: Drop,
        requires { at < length self.old }
        ensures { self.new ≡ slice_set self.old at item }
    {
        self.items[at] = item;
    }
}

impl<T: Copy> Seq<T> {
    /// A copy of the items of a slice.
    pub fn from_slice(alloc: Global, items: &[T]) -> Result<Seq<T>, AllocError>
        ensures { IfOk result (λ seq. seq ≡ items.now) }
    {
        let items = Vec::from_slice(alloc, items)?;
        Ok(Seq { items })
    }
}

impl<T: TryCopy> Seq<T> {
    /// A copy of each item, in order.
    pub fn copy(&self, alloc: Global) -> Result<Seq<T>, AllocError>
        ensures { IfOk result (λ seq. seq ≡ self.now) }
    {
        let items = copy_items(alloc, self.items.as_slice())?;
        Ok(Seq { items })
    }
}

fn copy_items<T: TryCopy>(alloc: Global, items: &[T]) -> Result<Vec<T>, AllocError>
    ensures { IfOk result (λ copy. copy.items ≡ items.now) }
{
    let mut copy = Vec::new(alloc);
    for item in items {
        copy.push(item.try_copy(alloc)?)?;
    }
    Ok(copy)
}

fn same_items<T: Same>(left: &[T], right: &[T]) -> bool
    ensures { IsTrue result ↔ (left.now ≡ right.now) }
{
    if left.len() != right.len() {
        return false;
    }
    for i in 0..left.len() {
        if !left[i].same(&right[i]) {
            return false;
        }
    }
    true
}

fn copy_with<T, F>(copy: &F, item: &T) -> Result<T, AllocError>
where
    F: Fn(&T) -> Result<T, AllocError>,
    requires callable { F.IsAlwaysCallable copy.now }
    requires exact { (x : T) (r : _) → FnReturnsAt F.Fn copy.now x r → IfOk r (λ y. y ≡ x) }
    ensures { IfOk result (λ y. y ≡ item.now) }
{
    copy(item)
}

fn same_by<T, F>(same: &F, left: &T, right: &T) -> bool
where
    F: Fn(&T, &T) -> bool,
    requires callable { F.IsAlwaysCallable same.now }
    requires exact { (x y : T) (r : _) → FnReturnsAtPair F.Fn same.now x y r → (IsTrue r ↔ (x ≡ y)) }
    ensures { IsTrue result ↔ (left.now ≡ right.now) }
{
    same(left, right)
}

fn copy_items_with<T, F>(alloc: Global, items: &[T], copy: &F) -> Result<Vec<T>, AllocError>
where
    T: Drop,
    F: Fn(&T) -> Result<T, AllocError>,
    requires callable { F.IsAlwaysCallable copy.now }
    requires exact { (x : T) (r : _) → FnReturnsAt F.Fn copy.now x r → IfOk r (λ y. y ≡ x) }
    ensures { IfOk result (λ copies. copies.items ≡ items.now) }
{
    let mut copies = Vec::new(alloc);
    for item in items {
        copies.push(copy_with(copy, item)?)?;
    }
    Ok(copies)
}

fn same_items_with<T, F>(left: &[T], right: &[T], same: &F) -> bool
where
    F: Fn(&T, &T) -> bool,
    requires callable { F.IsAlwaysCallable same.now }
    requires exact { (x y : T) (r : _) → FnReturnsAtPair F.Fn same.now x y r → (IsTrue r ↔ (x ≡ y)) }
    ensures { IsTrue result ↔ (left.now ≡ right.now) }
{
    if left.len() != right.len() {
        return false;
    }
    for i in 0..left.len() {
        if !same_by(same, &left[i], &right[i]) {
            return false;
        }
    }
    true
}

impl<T: TryCopy> TryCopy for Seq<T> {
    fn try_copy(&self, alloc: Global) -> Result<Seq<T>, AllocError> {
        self.copy(alloc)
    }
}

impl<T: Same> Same for Seq<T> {
    fn same(&self, other: &Seq<T>) -> bool {
        same_items(self.items.as_slice(), other.items.as_slice())
    }
}

//! A list that owns its items.
ghost use Rattle.std.specs.Prelude.{◌≡◌, ◌+◌, ◌-◌, ◌<◌, ◌≤◌, ◌↔◌, [], ◌∷◌, ◌++◌, length, IsSome, IsNone, IfSome, IfNone, IfErr, OnOk, OnErr, IsOk, IsTrue, Some, slice_get, insert, remove, set};

use crate::Memory;
use std::alloc::Global;
use std::fmt;
use std::marker::Model;

/// A list of items, with room for some more.
#[derive(Drop)]
pub struct List<T> {
    vec: Vec<T>,
}

impl<T> Model for List<T> {
    ghost use Rattle.std.specs.Prelude.{◌-◌, vec_len, vec_capacity};
    ghost use Rattle.poets_value.specs.Listed.{Listed, listed_code};

    ghost Value = { Listed T };

    ghost coded = { listed_code T.code };

    ghost view = { λ l. record {
      items = l.vec.items;
      room = vec_capacity l.vec - vec_len l.vec;
    } };
}

/// Two lists are equal if their items are, one by one. The room is not compared.
impl<T: PartialEq> PartialEq for List<T> {
    ghost use Rattle.std.specs.Cmp.{on_per};
    ghost use Rattle.std.specs.Cmp.Lexicographic.{pointwise, lists_per};

    ghost eq = { λ x y. pointwise T.eq x.items y.items };

    ghost laws = { on_per (λ x. x.items) (lists_per T.laws) };

    fn eq(&self, other: &List<T>) -> bool {
        self.vec == other.vec
    }
}

impl<T: Eq> Eq for List<T> {
    ghost use Rattle.std.specs.Cmp.{on_equiv};
    ghost use Rattle.std.specs.Cmp.Lexicographic.{lists_equiv};

    ghost laws = { on_equiv (λ x. x.items) (lists_equiv T.Eq.laws) };
}

/// Shows the items as a vector does.
impl<T: fmt::Debug> fmt::Debug for List<T> {
    fn fmt<W: fmt::Write>(&self, f: &mut fmt::Formatter<W>) -> fmt::Result {
        fmt::Debug::fmt(&self.vec, f)
    }
}

impl<T> List<T> {
    /// The empty list.
    pub fn new(alloc: Global) -> List<T>
        ensures { result.items ≡ [] }
    {
        List {
            vec: Vec::new(alloc),
        }
    }

    /// Adds an item at the end. `Err` hands the item back and changes nothing.
    pub fn push(&mut self, item: T) -> Result<(), T>
        ensures ok { OnOk result (self.new.items ≡ self.old.items ++ item ∷ []) }
        ensures err { OnErr result (self.new ≡ self.old) }
        ensures back { IfErr result (λ x. x ≡ item) }
        ensures succeeds { 0 < self.old.room → IsOk result }
        ensures room { self.old.room ≤ self.new.room + 1 }
    {
        if self.vec.reserve(1).is_err() {
            return Err(item);
        }
        match self.vec.push(item) {
            Ok(()) => Ok(()),
            Err(failed) => Err(failed.value),
        }
    }

    /// The number of items.
    pub fn len(&self) -> usize
        ensures { result ≡ length self.now.items }
    {
        self.vec.len()
    }

    /// Whether there is no item.
    pub fn is_empty(&self) -> bool
        ensures { IsTrue result ↔ (self.now.items ≡ []) }
    {
        self.vec.is_empty()
    }

    /// The item at a place, if there is one.
    pub fn get(&self, place: usize) -> Option<&T>
        ensures found { IfSome result (λ x. slice_get self.now.items place ≡ Some x.now) }
        ensures none { IsNone result ↔ (length self.now.items ≤ place) }
    {
        self.vec.get(place)
    }

    /// The same list as a slice.
    pub fn as_slice(&self) -> &[T]
        ensures { result.now ≡ self.now.items }
    {
        self.vec.as_slice()
    }

    /// The items as a vector.
    pub fn into_vec(self) -> Vec<T>
        ensures { result.items ≡ self.items }
    {
        self.vec
    }

    /// Takes the last item.
    pub fn pop(&mut self) -> Option<T>
        ensures some { IfSome result (λ x. self.old.items ≡ self.new.items ++ x ∷ []) }
        ensures none { IfNone result ((self.old.items ≡ []) × (self.new ≡ self.old)) }
        ensures room { IsSome result → self.old.room + 1 ≤ self.new.room }
    {
        self.vec.pop()
    }

    /// Takes out the item at a place, and closes the gap.
    pub fn remove(&mut self, place: usize) -> T
        requires { place < length self.old.items }
        ensures item { slice_get self.old.items place ≡ Some result }
        ensures items { self.new.items ≡ remove self.old.items place }
        ensures room { self.new.room ≡ self.old.room + 1 }
    {
        self.vec.remove(place)
    }

    /// Makes room for so many more items.
    pub fn reserve(&mut self, more: usize) -> Result<(), Memory>
        ensures items { self.new.items ≡ self.old.items }
        ensures ok { OnOk result (more ≤ self.new.room) }
        ensures err { OnErr result (self.new ≡ self.old) }
        ensures succeeds { more ≤ self.old.room → IsOk result }
        ensures room { self.old.room ≤ self.new.room }
    {
        match self.vec.reserve(more) {
            Ok(()) => Ok(()),
            Err(_) => Err(Memory),
        }
    }

    /// Puts an item at a place, and moves those after it. `Err` hands the item back and changes nothing.
    pub fn insert(&mut self, place: usize, item: T) -> Result<(), T>
        requires { place ≤ length self.old.items }
        ensures ok { OnOk result (self.new.items ≡ insert self.old.items place item) }
        ensures err { OnErr result (self.new ≡ self.old) }
        ensures back { IfErr result (λ x. x ≡ item) }
        ensures succeeds { 0 < self.old.room → IsOk result }
        ensures room { self.old.room ≤ self.new.room + 1 }
    {
        if self.vec.reserve(1).is_err() {
            return Err(item);
        }
        match self.vec.insert(place, item) {
            Ok(()) => Ok(()),
            Err(failed) => Err(failed.value),
        }
    }
}

impl<T: Drop> List<T> {
    /// Replaces the item at a place.
    pub fn put(&mut self, place: usize, item: T)
        requires { place < length self.old.items }
        ensures items { self.new.items ≡ set self.old.items place item }
        ensures room { self.new.room ≡ self.old.room }
    {
        self.vec[place] = item;
    }
}

/// Adds the item at the end. If it is out of memory, the list is as before and the item is lost.
pub fn push<T: Drop>(list: &mut List<T>, item: T) -> Result<(), Memory>
    ensures items { OnOk result (list.new.items ≡ list.old.items ++ item ∷ []) }
    ensures memory { OnErr result (list.new ≡ list.old) }
{
    match list.push(item) {
        Ok(()) => Ok(()),
        Err(_) => Err(Memory),
    }
}

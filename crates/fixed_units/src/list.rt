ghost use Rattle.std.specs.Prelude.{◌≡◌, ◌<◌, ◌≤◌, [], ◌∷◌, ◌++◌, length, slice_get, Some, IsTrue, ◌↔◌, IfOk, OnOk, OnErr};
ghost use Rattle.std.specs.Borrow.{sem};
ghost use Rattle.std.specs.List.{insert, remove};
ghost use Rattle.fixed_units.specs.Lending.{LendsItem};

use crate::{Memory, Room};
use std::alloc::Global;
use std::marker::Model;
use std::mem;

/// A growing list, which contracts see as the list of its items.
///
/// A type may hold a `List` of itself: a tree's node holds the list of its children.
#[derive(Debug, Drop)]
pub struct List<T> {
    items: Vec<T>,
}

impl<T> Model for List<T> {
    ghost use Rattle.std.specs.Prelude.{List as Sequence};
    ghost use Rattle.std.specs.Coded.{coded_list};

    ghost Value = { Sequence T };

    ghost coded = { coded_list T.code };

    ghost view = { λ list. list.items.items };
}

impl<T> List<T> {
    /// The empty list. It takes no memory.
    pub fn make(alloc: Global) -> List<T>
        ensures { result ≡ [] }
    {
        List {
            items: Vec::new(alloc),
        }
    }

    /// The empty list with room for that many items, so that it needn't be moved while they come.
    pub fn with_room(alloc: Global, items: usize) -> Result<List<T>, Memory>
        ensures { IfOk result (λ list. list ≡ []) }
    {
        let items = Vec::with_capacity(alloc, items)?;
        Ok(List { items })
    }

    /// How many items there are.
    pub fn len(&self) -> usize
        ensures { result ≡ length self.now }
    {
        self.items.len()
    }

    /// Whether there is no item.
    pub fn is_empty(&self) -> bool
        ensures { IsTrue result ↔ (self.now ≡ []) }
    {
        self.items.is_empty()
    }

    /// The items in order.
    pub fn as_slice(&self) -> &[T]
        ensures { result.now ≡ self.now }
    {
        self.items.as_slice()
    }

    /// Lends one item: when the loan ends, the list has the item as it was left, and all others
    /// as before.
    pub fn at_mut(&mut self, index: usize) -> &mut T
        requires { index < length self.old }
        ensures* lends { sem 𝓛 (LendsItem T.row self.entry index result) }
        ensures value { slice_get self.old index ≡ Some result.now }
    {
        &mut self.items[index]
    }

    /// Puts an item at a place, before the item that stands there; all others keep their order. It
    /// takes no memory: the items move into the room.
    pub fn insert(&mut self, index: usize, item: T, room: Room<T>)
        requires place { index ≤ length self.old }
        requires room { length self.old < room }
        ensures { self.new ≡ insert self.old index item }
    {
        let mut space = room.into_space();
        space.append(&mut self.items).unwrap();
        space.insert(index, item).unwrap();
        let emptied = mem::replace(&mut self.items, space);
        emptied.destroy_empty();
    }

    /// Takes an item out; all others keep their order.
    pub fn remove(&mut self, index: usize) -> T
        requires { index < length self.old }
        ensures value { slice_get self.old index ≡ Some result }
        ensures others { self.new ≡ remove self.old index }
    {
        self.items.remove(index)
    }
}

impl<T> From<Vec<T>> for List<T> {
    ghost use Rattle.std.specs.Prelude.{◌≡◌};

    ghost from_gives = { λ vec list. list ≡ vec.items };

    /// The items of a vector. It takes no memory.
    fn from(items: Vec<T>) -> Self {
        List { items }
    }
}

impl<T: Drop> List<T> {
    /// Adds an item at the end.
    pub fn push(&mut self, item: T) -> Result<(), Memory>
        ensures ok { OnOk result (self.new ≡ self.old ++ item ∷ []) }
        ensures err { OnErr result (self.new ≡ self.old) }
    {
        self.items.push(item)?;
        Ok(())
    }
}

impl<T: Copy> List<T> {
    /// Adds copies of the items of a slice at the end, all of them or none.
    pub fn push_all(&mut self, items: &[T]) -> Result<(), Memory>
        ensures ok { OnOk result (self.new ≡ self.old ++ items.now) }
        ensures err { OnErr result (self.new ≡ self.old) }
    {
        self.items.extend_from_slice(items)?;
        Ok(())
    }

    /// The same items in a list of their own.
    pub fn copy(&self, alloc: Global) -> Result<List<T>, Memory>
        ensures { IfOk result (λ copied. copied ≡ self.now) }
    {
        let items = Vec::from_slice(alloc, self.items.as_slice())?;
        Ok(List { items })
    }
}

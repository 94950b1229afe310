//! Lists of items in the order of their keys, with no key twice.
ghost use Rattle.std.specs.Prelude.{◌≡◌, ◌==◌, Err, IfOk, ◌<◌, ◌≤◌, ◌+◌, ◌-◌, [], IfSome, None, IsTrue, OnErr, OnOk};
ghost use Rattle.std.specs.Prelude.{Ok, insert, is_none, is_some, length, vec_capacity, vec_len};
ghost use Rattle.std.specs.Bool.{Decides};
ghost use Rattle.std.specs.Option.{option_copied};
ghost use Rattle.vet_base.specs.Keyed.{Fits, IsByKey, IsPlace, all_set, edited, item_of, room_after, with_item};
ghost use Rattle.vet_base.specs.Keyed.{without_item};

use crate::exact::Exact;
use std::alloc::{AllocError, Global};
use std::marker::Model;

/// An item that is found in a list by its key.
pub trait HasKey: Drop {
    /// The type of its key.
    type Key: Exact;

    /// The key of an item.
    ghost key_of: { Self → Self.Key };

    /// The item's key. Takes no memory.
    fn key(&self) -> &Self::Key
        ensures { result.now ≡ key_of self.now };
}

/// Items that are equal only to themselves, and whose copies are equal to them.
pub trait ExactItem: HasKey + Clone + Eq {
    /// A copy is equal to the item.
    ghost only_copies: { (a b : Self) → Self.is_clone a b → b ≡ a };

    /// An item is equal only to itself.
    ghost only_itself: { (a b : Self) → Decides (Self.eq a b) (a ≡ b) };
}

/// Items in the order of their keys, with no key twice.
#[derive(Drop)]
pub struct Keyed<T: HasKey> {
    items: Vec<T>,
}

/// An edit of such a list. Making it takes no memory.
#[derive(Drop)]
pub enum KeyedEdit<T: Drop> {
    /// Inserts this item at this place, where its key belongs.
    Put(usize, T),
    /// Removes the item at this place.
    Take(usize),
    /// Replaces the item at this place with this one, which has the same key.
    Swap(usize, T),
}

impl<T: HasKey> Model for Keyed<T> {
    ghost use Rattle.std.specs.Prelude.{◌-◌, vec_capacity, vec_len};
    ghost use Rattle.vet_base.specs.Keyed.{IsByKey, KeyedRoom};
    ghost use Rattle.vet_base.specs.Encodings.{keyed_code};

    ghost Value = { KeyedRoom T };

    ghost coded = { keyed_code T.code };

    ghost view = { λ k. record {
      items = k.items.items;
      room = vec_capacity k.items - vec_len k.items;
    } };

    ghost invariant = { λ k. IsByKey T.Key.cmp T.key_of k.items.items };
}

impl<T: HasKey> Keyed<T> {
    /// The empty list. Takes no memory.
    pub fn new(alloc: Global) -> Keyed<T>
        ensures { result.items ≡ [] }
    {
        Keyed {
            items: Vec::new(alloc),
        }
    }

    /// The list of some items, given in any order. The last one of each key remains. Takes a time of n log n.
    pub fn of(alloc: Global, mut items: Vec<T>) -> Result<Keyed<T>, AllocError>
        ensures { IfOk result (λ k. k.items ≡ all_set T.Key.cmp T.key_of [] items.items) }
    {
        items.sort_by(|a, b| a.key().cmp(b.key()))?;
        // each item belongs after those before it, so none is moved
        set_one_by_one(alloc, items)
    }

    /// The items, in the order of their keys. Takes no memory.
    pub fn items(&self) -> &[T]
        ensures value { result.now ≡ self.now.items }
        ensures by_key { IsByKey T.Key.cmp T.key_of self.now.items }
    {
        self.items.as_slice()
    }

    /// Turns the list into its items, in the order of their keys. Takes no memory.
    pub fn into_items(self) -> Vec<T>
        ensures value { result.items ≡ self.items }
        ensures by_key { IsByKey T.Key.cmp T.key_of self.items }
    {
        let Keyed { items } = self;
        items
    }

    /// How many items there are. Takes no memory.
    pub fn len(&self) -> usize
        ensures { result ≡ length self.now.items }
    {
        self.items.len()
    }

    /// Whether there are no items. Takes no memory.
    pub fn is_empty(&self) -> bool
        ensures { result ≡ (length self.now.items == 0) }
    {
        self.items.is_empty()
    }

    /// The item of a key, if there is one. Takes no memory, and a time of log n.
    pub fn get(&self, key: &T::Key) -> Option<&T>
        ensures { option_copied result ≡ item_of T.Key.cmp T.key_of self.now.items key.now }
    {
        match self.place_of(key) {
            Ok(place) => Some(&self.items[place]),
            Err(_) => None,
        }
    }

    /// Whether there is an item of a key. Takes no memory, and a time of log n.
    pub fn has(&self, key: &T::Key) -> bool
        ensures { result ≡ is_some (item_of T.Key.cmp T.key_of self.now.items key.now) }
    {
        self.place_of(key).is_ok()
    }

    /// Adds an item, or replaces the one of its key, which takes no memory. Costs a binary search; adding also moves
    /// the items after it. If memory runs out, the list is as it was.
    pub fn insert(&mut self, item: T) -> Result<(), AllocError>
        ensures ok { OnOk result (self.new.items ≡ with_item T.Key.cmp T.key_of self.old.items item) }
        ensures held { IsTrue (is_some (item_of T.Key.cmp T.key_of self.old.items (T.key_of item))) → result ≡ Ok tt }
        ensures err { OnErr result (self.new.items ≡ self.old.items) }
    {
        match self.place_of(item.key()) {
            Ok(place) => {
                self.items[place] = item;
                Ok(())
            }
            Err(place) => {
                self.items.insert(place, item)?;
                Ok(())
            }
        }
    }

    /// Makes room for one more item. Costs nothing if there is room; otherwise moves all items to twice the room.
    pub fn reserve(&mut self) -> Result<(), AllocError>
        ensures items { self.new.items ≡ self.old.items }
        ensures ok { OnOk result (0 < self.new.room) }
        ensures kept { self.old.room ≤ self.new.room }
        ensures succeeds { 0 < self.old.room → result ≡ Ok tt }
    {
        self.items.reserve(1)
    }

    /// The edit that adds an item, for which there must be room, or replaces the one of its key. Takes no memory, and a
    /// time of log n.
    pub fn edit_setting(&self, item: T) -> KeyedEdit<T>
        ensures edit { edited result self.now.items ≡ with_item T.Key.cmp T.key_of self.now.items item }
        ensures fits { 0 < self.now.room → Fits T.Key.cmp T.key_of result self.now }
        ensures held { IsTrue (is_some (item_of T.Key.cmp T.key_of self.now.items (T.key_of item)))
            → Fits T.Key.cmp T.key_of result self.now }
    {
        match self.place_of(item.key()) {
            Ok(place) => KeyedEdit::Swap(place, item),
            Err(place) => KeyedEdit::Put(place, item),
        }
    }

    /// The edit that removes the item of a key, if there is one. Takes no memory, and a time of log n.
    pub fn edit_dropping(&self, key: &T::Key) -> Option<KeyedEdit<T>>
        ensures none { is_none result ≡ is_none (item_of T.Key.cmp T.key_of self.now.items key.now) }
        ensures edit { IfSome result (λ e.
            edited e self.now.items ≡ without_item T.Key.cmp T.key_of self.now.items key.now) }
        ensures fits { IfSome result (λ e. Fits T.Key.cmp T.key_of e self.now) }
    {
        match self.place_of(key) {
            Ok(place) => Some(KeyedEdit::Take(place)),
            Err(_) => None,
        }
    }

    /// Removes and returns the item of a key, if there is one, and keeps its room. Takes no memory. Moves the items
    /// after it.
    pub fn take(&mut self, key: &T::Key) -> Option<T>
        ensures item { result ≡ item_of T.Key.cmp T.key_of self.old.items key.now }
        ensures items { self.new.items ≡ without_item T.Key.cmp T.key_of self.old.items key.now }
        ensures room { IfSome result (λ _. self.new.room ≡ self.old.room + 1) }
    {
        match self.place_of(key) {
            Ok(place) => Some(self.items.remove(place)),
            Err(_) => None,
        }
    }

    /// Inserts an item with a new key, for which there must be room. Takes no memory. Moves the items after it.
    pub fn put_reserved(&mut self, item: T)
        requires new { item_of T.Key.cmp T.key_of self.old.items (T.key_of item) ≡ None }
        requires room { 0 < self.old.room }
        ensures items { self.new.items ≡ with_item T.Key.cmp T.key_of self.old.items item }
        ensures room { self.new.room ≡ self.old.room - 1 }
    {
        match self.place_of(item.key()) {
            Ok(_) => unreachable!(),
            Err(place) => put(&mut self.items, place, item),
        }
    }

    /// Makes an edit that fits, and returns the one that undoes it. Takes no memory. An insertion or a removal moves
    /// the items after its place.
    pub fn apply(&mut self, edit: KeyedEdit<T>) -> KeyedEdit<T>
        requires { Fits T.Key.cmp T.key_of edit self.old }
        ensures items { self.new.items ≡ edited edit self.old.items }
        ensures room { self.new.room ≡ room_after edit self.old.room }
        ensures fits { Fits T.Key.cmp T.key_of result self.new }
        ensures back { edited result self.new.items ≡ self.old.items }
        ensures room_back { room_after result self.new.room ≡ self.old.room }
    {
        match edit {
            KeyedEdit::Put(place, item) => {
                put(&mut self.items, place, item);
                KeyedEdit::Take(place)
            }
            KeyedEdit::Take(place) => KeyedEdit::Put(place, self.items.remove(place)),
            KeyedEdit::Swap(place, item) => {
                KeyedEdit::Swap(place, std::mem::replace(&mut self.items[place], item))
            }
        }
    }

    // The place of the item of a key, or, as an error, the place where such an item belongs.
    fn place_of(&self, key: &T::Key) -> Result<usize, usize>
        ensures place { IsPlace T.Key.cmp T.key_of self.now.items key.now result }
        ensures by_key { IsByKey T.Key.cmp T.key_of self.now.items }
    {
        // keys often come in order
        if self.is_behind_all(key) {
            return Err(self.items.len());
        }
        self.items.binary_search_by(|item| item.key().cmp(key))
    }

    // Whether a key is greater than that of the last item.
    fn is_behind_all(&self, key: &T::Key) -> bool
        ensures { IsTrue result → IsPlace T.Key.cmp T.key_of self.now.items key.now (Err (length self.now.items)) }
    {
        match self.items.last() {
            Some(last) => last.key().cmp(key).is_lt(),
            None => false,
        }
    }
}

impl<T: ExactItem> Clone for Keyed<T> {
    ghost is_clone = { λ a b. b.items ≡ a.items };

    fn clone(&self) -> Result<Keyed<T>, AllocError> {
        Ok(Keyed {
            items: self.items.clone()?,
        })
    }
}

impl<T: ExactItem> PartialEq for Keyed<T> {
    ghost use Rattle.std.specs.Cmp.{on_per};
    ghost use Rattle.std.specs.Cmp.Lexicographic.{lists_per, pointwise};
    ghost use Rattle.std.specs.Prelude.{IsTrue, ◌↔◌, ◌≡◌};

    ghost eq = { λ a b. pointwise T.eq a.items b.items };

    ghost laws = { on_per (λ k. k.items) (lists_per T.PartialEq.laws) };

    fn eq(&self, other: &Keyed<T>) -> bool
        ensures value { result ≡ pointwise T.eq self.now.items other.now.items }
        ensures same { IsTrue result ↔ (self.now.items ≡ other.now.items) }
    {
        self.items == other.items
    }
}

// The list after these items are set one after another.
fn set_one_by_one<T: HasKey>(alloc: Global, items: Vec<T>) -> Result<Keyed<T>, AllocError>
    ensures { IfOk result (λ k. k.items ≡ all_set T.Key.cmp T.key_of [] items.items) }
{
    let mut keyed = Keyed::new(alloc);
    for item in items {
        keyed.insert(item)?;
    }
    Ok(keyed)
}

// Inserts an item at a place. There must be room, so it takes no memory.
fn put<T: Drop>(items: &mut Vec<T>, place: usize, item: T)
    requires place { place ≤ vec_len items.old }
    requires room { vec_len items.old < vec_capacity items.old }
    ensures items { items.new.items ≡ insert items.old.items place item }
    ensures len { vec_len items.new ≡ vec_len items.old + 1 }
    ensures capacity { vec_capacity items.new ≡ vec_capacity items.old }
{
    let _ = items.insert(place, item);
}

//! The items that a task holds until its input has ended. Contracts see them as a list.
ghost use Rattle.std.specs.Prelude.{◌≡◌, ◌++◌, ◌∷◌, [], length, slice_get, slice_set, Some, ◌<◌, OnOk, OnErr, MatchOption};
ghost use Rattle.osm_entity.specs.Sorting.{sorted_by_key};

use crate::item::Item;
use crate::sequence::NoMemory;
use std::alloc::Global;
use std::collections::VecDeque;
use std::marker::Model;

/// Items that a task holds, in the order in which it gives them.
#[derive(Debug, Drop)]
pub struct Held {
    items: VecDeque<Item>,
}

impl Model for Held {
    ghost use Rattle.std.specs.Prelude.{List};
    ghost use Rattle.osm_entity.specs.Items.{ItemValue};

    ghost Value = { List ItemValue };

    ghost view = { λ h. h.items.items };
}

impl Held {
    /// No items. It takes no memory.
    pub fn new(alloc: Global) -> Self
        ensures { result ≡ [] }
    {
        Held {
            items: VecDeque::new(alloc),
        }
    }

    pub fn len(&self) -> usize
        ensures { result ≡ length self.now }
    {
        self.items.len()
    }

    /// The item at `place`, counted from 0.
    pub fn get(&self, place: usize) -> &Item
        requires { place < length self.now }
        ensures { slice_get self.now place ≡ Some result.now }
    {
        &self.items[place]
    }

    /// Adds an item at the back. At `Err` the items are as they were.
    pub fn push(&mut self, item: Item) -> Result<(), NoMemory>
        ensures ok { OnOk result (self.new ≡ self.old ++ item ∷ []) }
        ensures err { OnErr result (self.new ≡ self.old) }
    {
        match self.items.push_back(item) {
            Ok(()) => Ok(()),
            Err(_) => Err(NoMemory),
        }
    }

    /// Takes the first item off. It takes no memory.
    pub fn take_first(&mut self) -> Option<Item>
        ensures { MatchOption result ((self.old ≡ []) × (self.new ≡ []))
            (λ first. self.old ≡ first ∷ self.new) }
    {
        self.items.pop_front()
    }

    /// Puts an item in the place of the one at `place`, counted from 0. It takes no memory.
    pub fn replace(&mut self, place: usize, item: Item)
        requires { place < length self.old }
        ensures { self.new ≡ slice_set self.old place item }
    {
        self.items[place] = item;
    }

    /// Sorts the items by key, equal keys in their old order. At `Err` they are as they were.
    pub fn sort_by_key(&mut self) -> Result<(), NoMemory>
        ensures ok { OnOk result (self.new ≡ sorted_by_key self.old) }
        ensures err { OnErr result (self.new ≡ self.old) }
    {
        let alloc = *self.items.allocator();
        sort_items(alloc, self.items.make_contiguous())
    }
}

fn sort_items(alloc: Global, items: &mut [Item]) -> Result<(), NoMemory>
    ensures ok { OnOk result (items.new ≡ sorted_by_key items.old) }
    ensures err { OnErr result (items.new ≡ items.old) }
{
    match items.sort_by_key(alloc, |item: &Item| item.key()) {
        Ok(()) => Ok(()),
        Err(_) => Err(NoMemory),
    }
}

//! A list that says when it is out of memory. Contracts see it as the list of its elements.
ghost use Rattle.std.specs.Prelude.{◌≡◌, ◌++◌, ◌∷◌, [], length, reverse, take, slice_set, ◌<◌, ◌≤◌, IfOk, OnOk, OnErr, MatchOption};
ghost use Rattle.std.specs.Fn.{CalledAt};
ghost use Rattle.std.specs.List.Retain.{IsFiltered};

use std::alloc::Global;
use std::marker::Model;

/// Out of memory.
#[derive(Clone, Copy, Debug, PartialEq, Eq)]
pub struct NoMemory;

/// Bytes, as of a file or a line.
pub type Bytes = Sequence<u8>;

/// A list of `T`, in the order in which its elements were pushed.
#[derive(Debug, Drop)]
pub struct Sequence<T> {
    items: Vec<T>,
}

impl<T> Model for Sequence<T> {
    ghost use Rattle.std.specs.Prelude.{List};
    ghost use Rattle.std.specs.Coded.{coded_list};

    ghost Value = { List T };

    ghost coded = { coded_list T.code };

    ghost view = { λ s. s.items.items };
}

impl<T> Sequence<T> {
    /// The empty list. It takes no memory.
    pub fn new(alloc: Global) -> Self
        ensures { result ≡ [] }
    {
        Sequence {
            items: Vec::new(alloc),
        }
    }

    /// The empty list, with room for `capacity` elements.
    pub fn with_room(alloc: Global, capacity: usize) -> Result<Self, NoMemory>
        ensures { IfOk result (λ s. s ≡ []) }
    {
        match Vec::with_capacity(alloc, capacity) {
            Ok(items) => Ok(Sequence { items }),
            Err(_) => Err(NoMemory),
        }
    }

    pub fn as_slice(&self) -> &[T]
        ensures { result.now ≡ self.now }
    {
        self.items.as_slice()
    }

    pub fn len(&self) -> usize
        ensures { result ≡ length self.now }
    {
        self.items.len()
    }

    /// Takes the last element off. It takes no memory.
    pub fn pop(&mut self) -> Option<T>
        ensures { MatchOption result ((self.old ≡ []) × (self.new ≡ []))
            (λ last. self.old ≡ self.new ++ last ∷ []) }
    {
        self.items.pop()
    }

    /// Turns the list round: its last element comes first. It takes no memory.
    pub fn reverse(&mut self)
        ensures { self.new ≡ reverse self.old }
    {
        self.items.reverse();
    }
}

impl<T: Drop> Sequence<T> {
    /// Adds an element at the back. At `Err` the list is as it was.
    pub fn push(&mut self, item: T) -> Result<(), NoMemory>
        ensures ok { OnOk result (self.new ≡ self.old ++ item ∷ []) }
        ensures err { OnErr result (self.new ≡ self.old) }
    {
        match self.items.push(item) {
            Ok(()) => Ok(()),
            Err(_) => Err(NoMemory),
        }
    }

    /// Adds an element at the back, where there is room for it: it takes no memory. At `Err` there
    /// is none, and the list is as it was.
    #[inline(always)]
    pub fn push_in_room(&mut self, item: T) -> Result<(), NoMemory>
        ensures ok { OnOk result (self.new ≡ self.old ++ item ∷ []) }
        ensures err { OnErr result (self.new ≡ self.old) }
    {
        if self.items.len() < self.items.capacity() {
            self.items.push_reserved(item);
            Ok(())
        } else {
            Err(NoMemory)
        }
    }

    /// Puts an element in the place of the one at `at`. It takes no memory.
    pub fn set(&mut self, at: usize, item: T)
        requires { at < length self.old }
        ensures { self.new ≡ slice_set self.old at item }
    {
        self.items[at] = item;
    }

    /// Keeps the first `count` elements, or all where there are no more. It takes no memory.
    pub fn truncate(&mut self, count: usize)
        ensures { self.new ≡ take count self.old }
    {
        self.items.truncate(count);
    }

    /// Keeps the elements of which `test` says true, in their order. It takes no memory.
    pub fn retain<F: FnMut(&T) -> bool>(&mut self, test: F)
        requires { F.IsAlwaysCallable test }
        ensures filtered { IsFiltered (CalledAt F.FnMut) test self.old self.new }
        ensures bound { length self.new ≤ length self.old }
    {
        self.items.retain(test);
    }
}

impl<T: Copy> Sequence<T> {
    /// A list with the elements of `items`.
    pub fn from_slice(alloc: Global, items: &[T]) -> Result<Self, NoMemory>
        ensures { IfOk result (λ s. s ≡ items.now) }
    {
        match Vec::from_slice(alloc, items) {
            Ok(items) => Ok(Sequence { items }),
            Err(_) => Err(NoMemory),
        }
    }

    /// Adds copies of the elements of `items` at the back. At `Err` the list is as it was.
    pub fn append(&mut self, items: &[T]) -> Result<(), NoMemory>
        ensures ok { OnOk result (self.new ≡ self.old ++ items.now) }
        ensures err { OnErr result (self.new ≡ self.old) }
    {
        match self.items.extend_from_slice(items) {
            Ok(()) => Ok(()),
            Err(_) => Err(NoMemory),
        }
    }
}

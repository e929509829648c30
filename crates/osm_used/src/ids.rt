//! Sets of ids. Contracts ask of a set only whether an id is in it.
//!
//! Ids come by the million, and are looked up only once the last of them came. So they are gathered
//! in a list, eight bytes each, which is sorted once and then searched by halves.
ghost use Rattle.std.specs.Prelude.{◌≡◌, ◌||◌, ◌&&◌, ℤ, false, OnOk};
ghost use Rattle.std.specs.Ordering.{int_eq};
ghost use Rattle.osm_used.specs.Used.{has_id};

use osm_entity::NoMemory;
use std::alloc::Global;
use std::marker::Model;

/// A set of ids.
#[derive(Drop)]
pub(crate) struct Ids {
    ids: Vec<i64>,
    /// Whether they are known to rise.
    is_sorted: bool,
}

impl Model for Ids {
    ghost use Rattle.std.specs.Prelude.{ℤ, List, ◌≡◌, true, IsSorted};
    ghost use Rattle.std.specs.Ordering.{int_cmp};

    ghost Value = { List ℤ };

    ghost view = { λ s. s.ids.items };

    ghost invariant = { λ s. s.is_sorted ≡ true → IsSorted int_cmp s.ids.items };
}

impl Ids {
    /// The empty set. It takes no memory.
    pub(crate) fn new(alloc: Global) -> Self
        ensures { (q : ℤ) → has_id result q ≡ false }
    {
        Ids {
            ids: Vec::new(alloc),
            is_sorted: false,
        }
    }

    /// Adds an id.
    pub(crate) fn add(&mut self, id: i64) -> Result<(), NoMemory>
        ensures { OnOk result ((q : ℤ) → has_id self.new q ≡ (has_id self.old q || int_eq id q)) }
    {
        self.is_sorted = false;
        match self.ids.push(id) {
            Ok(()) => Ok(()),
            Err(_) => Err(NoMemory),
        }
    }

    /// Adds ids.
    pub(crate) fn add_all(&mut self, ids: &[i64]) -> Result<(), NoMemory>
        ensures { OnOk result
            ((q : ℤ) → has_id self.new q ≡ (has_id self.old q || has_id ids.now q)) }
    {
        self.is_sorted = false;
        match self.ids.extend_from_slice(ids) {
            Ok(()) => Ok(()),
            Err(_) => Err(NoMemory),
        }
    }

    /// Adds an id where the test holds.
    pub(crate) fn add_if(&mut self, test: bool, id: i64) -> Result<(), NoMemory>
        ensures { OnOk result
            ((q : ℤ) → has_id self.new q ≡ (has_id self.old q || test && int_eq id q)) }
    {
        if test { self.add(id) } else { Ok(()) }
    }

    /// Adds ids where the test holds.
    pub(crate) fn add_all_if(&mut self, test: bool, ids: &[i64]) -> Result<(), NoMemory>
        ensures { OnOk result
            ((q : ℤ) → has_id self.new q ≡ (has_id self.old q || test && has_id ids.now q)) }
    {
        if test { self.add_all(ids) } else { Ok(()) }
    }

    /// Makes questions quick, until an id is added. It changes nothing else, and takes no memory.
    pub(crate) fn sort(&mut self)
        ensures { (q : ℤ) → has_id self.new q ≡ has_id self.old q }
    {
        self.ids.sort_unstable();
        self.is_sorted = true;
    }

    /// Whether an id is in it.
    pub(crate) fn has(&self, id: i64) -> bool
        ensures { result ≡ has_id self.now id }
    {
        if self.is_sorted {
            self.ids.binary_search(&id).is_ok()
        } else {
            self.ids.iter().any(|other| *other == id)
        }
    }
}

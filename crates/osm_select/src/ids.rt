//! Sets of ids. Contracts ask of a set only whether an id is in it.
//!
//! Ids come by the million, and in most files they rise. Those that do are gathered in a list,
//! eight bytes each, which is searched by halves; all others are in a table, some 35 bytes each.
ghost use Rattle.std.specs.Prelude.{◌≡◌, ◌++◌, ◌∷◌, [], IsSorted, OnOk, cond, false, true};
ghost use Rattle.std.specs.List.{list_any};
ghost use Rattle.std.specs.Ordering.{int_cmp};
ghost use Rattle.osm_select.specs.IdSets.{among, no_ids, with_id, either};

use osm_entity::NoMemory;
use std::alloc::Global;
use std::collections::HashSet;
use std::marker::Model;

/// A set of ids.
#[derive(Drop)]
pub(crate) struct Ids {
    /// Ids that rose as they came.
    rising: Vec<i64>,
    others: HashSet<i64>,
}

impl Model for Ids {
    ghost use Rattle.std.specs.Prelude.{ℤ, List, ◌++◌, IsSorted};
    ghost use Rattle.std.specs.Ordering.{int_cmp};

    ghost Value = { List ℤ };

    ghost view = { λ s. s.rising.items ++ s.others.keys };

    ghost invariant = { λ s. IsSorted int_cmp s.rising.items };
}

fn is_among(rising: &[i64], id: i64) -> bool
    requires { IsSorted int_cmp rising.now }
    ensures { result ≡ among rising.now id }
{
    rising.binary_search(&id).is_ok()
}

// Whether an id is past all ids that rise. Most of those that are asked for are, and aren't searched.
fn is_past(rising: &[i64], id: i64) -> bool
    requires { IsSorted int_cmp rising.now }
    ensures { result ≡ true → among rising.now id ≡ false }
{
    match rising.last() {
        Some(last) => *last < id,
        None => true,
    }
}

fn is_rising(rising: &[i64], id: i64) -> bool
    requires { IsSorted int_cmp rising.now }
    ensures { result ≡ among rising.now id }
{
    !is_past(rising, id) && is_among(rising, id)
}

fn is_other(others: &HashSet<i64>, id: i64) -> bool
    ensures { result ≡ among others.now.keys id }
{
    !others.is_empty() && others.contains(&id)
}

/// Whether an id can stand behind ids that rise.
fn goes_on(rising: &[i64], id: i64) -> bool
    requires { IsSorted int_cmp rising.now }
    ensures { result ≡ true → IsSorted int_cmp (rising.now ++ id ∷ []) }
{
    match rising.last() {
        Some(last) => *last <= id,
        None => true,
    }
}

fn add_other(others: &mut HashSet<i64>, id: i64) -> Result<(), NoMemory>
    ensures { OnOk result (among others.new.keys ≡ with_id id (among others.old.keys)) }
{
    match others.insert(id) {
        Ok(_) => Ok(()),
        Err(_) => Err(NoMemory),
    }
}

impl Ids {
    /// The empty set. It takes no memory.
    pub(crate) fn new(alloc: Global) -> Self
        ensures { among result ≡ no_ids }
    {
        Ids {
            rising: Vec::new(alloc),
            others: HashSet::new(alloc),
        }
    }

    /// Whether an id is in it.
    pub(crate) fn has(&self, id: i64) -> bool
        ensures { result ≡ among self.now id }
    {
        is_rising(self.rising.as_slice(), id) || is_other(&self.others, id)
    }

    /// Whether one of some ids is in it.
    pub(crate) fn has_any(&self, ids: &[i64]) -> bool
        ensures { result ≡ list_any (among self.now) ids.now }
    {
        ids.iter().any(|id| self.has(*id))
    }

    /// Adds an id.
    pub(crate) fn add(&mut self, id: i64) -> Result<(), NoMemory>
        ensures { OnOk result (among self.new ≡ with_id id (among self.old)) }
    {
        if goes_on(self.rising.as_slice(), id) {
            return match self.rising.push(id) {
                Ok(()) => Ok(()),
                Err(_) => Err(NoMemory),
            };
        }
        add_other(&mut self.others, id)
    }

    /// Adds an id where the test holds.
    pub(crate) fn add_if(&mut self, test: bool, id: i64) -> Result<(), NoMemory>
        ensures { OnOk result
            (among self.new ≡ cond test (with_id id (among self.old)) (among self.old)) }
    {
        if test { self.add(id) } else { Ok(()) }
    }

    /// Adds ids.
    pub(crate) fn add_all(&mut self, ids: &[i64]) -> Result<(), NoMemory>
        ensures { OnOk result (among self.new ≡ either (among self.old) (among ids.now)) }
    {
        for id in ids {
            self.add(*id)?;
        }
        Ok(())
    }
}

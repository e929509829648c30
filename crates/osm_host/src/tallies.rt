//! The counts of a host: a row for each name that was opened, with its faults and the bytes given.
ghost use Rattle.std.specs.Prelude.{◌≡◌, ℕ, ◌<◌, ◌==◌, if◌then◌else◌, List, [], Contains, ◌++◌, ◌∷◌, OnOk, OnErr, IsTrue, position, Some};
ghost use Rattle.std.specs.Str.{bytes_eq};
ghost use Rattle.osm_host.specs.Counts.{raised, Rises, Adds, SameCounts, SameCountsBut, GaveOnly};
ghost use Rattle.osm_host.specs.Names.{KeepsNames, AddsOnly};
ghost use Rattle.osm_host.specs.Tallies.{faults_of, raised_at, faults_in, given_in, names_in, new_row, no_faults};
ghost use Rattle.osm_host.specs.declared.outside.Op.{Op};

use crate::naming::{Named, position_of};
use crate::outside::Op;
use osm_entity::{NoMemory, Text};
use std::alloc::Global;
use std::marker::Model;

/// How many calls of each kind failed on one name. Each count stops at 2^64 - 1.
#[derive(Clone, Copy, Debug)]
pub struct Faults {
    pub opens: u64,
    pub makes: u64,
    pub pulls: u64,
    pub puts: u64,
    pub keeps: u64,
}

impl Faults {
    /// No call failed.
    pub fn none() -> Faults
        ensures { result ≡ no_faults }
    {
        Faults {
            opens: 0,
            makes: 0,
            pulls: 0,
            puts: 0,
            keeps: 0,
        }
    }

    /// The count of this kind of call.
    pub fn of(&self, op: Op) -> u64
        ensures { result ≡ faults_of self.now op }
    {
        match op {
            Op::Open => self.opens,
            Op::Make => self.makes,
            Op::Pull => self.pulls,
            Op::Put => self.puts,
            Op::Keep => self.keeps,
        }
    }

    /// Raises the count of this kind of call.
    pub fn add(&mut self, op: Op, more: u64)
        ensures { (o : Op) → faults_of self.new o ≡ raised_at op o (faults_of self.old o) more }
    {
        match op {
            Op::Open => self.opens = self.opens.saturating_add(more),
            Op::Make => self.makes = self.makes.saturating_add(more),
            Op::Pull => self.pulls = self.pulls.saturating_add(more),
            Op::Put => self.puts = self.puts.saturating_add(more),
            Op::Keep => self.keeps = self.keeps.saturating_add(more),
        }
    }
}

/// The row of one name.
#[derive(Debug, Drop)]
pub struct Tally {
    pub name: Text,
    pub faults: Faults,
    /// How many bytes its closed sources gave; it stops at 2^64 - 1.
    pub gave: u64,
}

impl Tally {
    /// Raises what was given.
    fn give(&mut self, more: u64)
        ensures gave { self.new.gave ≡ raised self.old.gave more }
        ensures name { self.new.name ≡ self.old.name }
        ensures faults { self.new.faults ≡ self.old.faults }
    {
        self.gave = self.gave.saturating_add(more);
    }
}

impl Named for Tally {
    ghost name = { λ t. t.name };

    fn name(&self) -> &Text {
        &self.name
    }
}

/// The rows of a host. Contracts see them as a list.
#[derive(Debug, Drop)]
pub struct Tallies {
    rows: Vec<Tally>,
}

impl Model for Tallies {
    ghost use Rattle.std.specs.Prelude.{List};
    ghost use Rattle.osm_host.specs.declared.tallies.Tally.{Tally};

    ghost Value = { List Tally };

    ghost view = { λ t. t.rows.items };
}

/// Where the row of a name is that has one.
fn row_of(rows: &[Tally], name: &Text) -> usize
    requires { Contains (names_in rows.now) name.now }
    ensures { Some result ≡ position (λ t. bytes_eq name.now t.name) rows.now }
{
    match position_of(rows, name) {
        Some(at) => at,
        None => unreachable!(),
    }
}

/// Adds a row of zeros for this name. At `Err` the rows are as they were.
fn push_row(rows: &mut Vec<Tally>, alloc: Global, name: &Text) -> Result<(), NoMemory>
    ensures ok { OnOk result (rows.new.items ≡ rows.old.items ++ new_row name.now ∷ []) }
    ensures err { OnErr result (rows.new.items ≡ rows.old.items) }
{
    let row = Tally {
        name: name.copy(alloc)?,
        faults: Faults::none(),
        gave: 0,
    };
    match rows.push(row) {
        Ok(()) => Ok(()),
        Err(_) => Err(NoMemory),
    }
}

impl Tallies {
    /// No rows. It takes no memory.
    pub fn new(alloc: Global) -> Tallies
        ensures { result ≡ [] }
    {
        Tallies {
            rows: Vec::new(alloc),
        }
    }

    /// Whether the name was entered.
    pub fn is_known(&self, name: &Text) -> bool
        ensures found { IsTrue result → Contains (names_in self.now) name.now }
        ensures none { Contains (names_in self.now) name.now → IsTrue result }
    {
        match position_of(&self.rows, name) {
            Some(_at) => true,
            None => false,
        }
    }

    /// The count of this kind of call on this name; 0 where the name was not entered.
    pub fn count(&self, op: Op, name: &Text) -> u64
        ensures { result ≡ faults_in self.now op name.now }
    {
        match position_of(&self.rows, name) {
            Some(at) => self.rows[at].faults.of(op),
            None => 0,
        }
    }

    /// Makes a row of zeros for this name, where it has none. Only a new row takes memory.
    /// At `Err` there is no new row.
    pub fn enter(&mut self, alloc: Global, name: &Text) -> Result<(), NoMemory>
        ensures keeps { KeepsNames (names_in self.old) (names_in self.new) }
        ensures only { AddsOnly name.now (names_in self.old) (names_in self.new) }
        ensures own { OnOk result (Contains (names_in self.new) name.now) }
        ensures err { OnErr result (names_in self.new ≡ names_in self.old) }
        ensures counts { SameCounts (faults_in self.old) (faults_in self.new) }
        ensures gave { (n : List ℕ) → given_in self.new n ≡ given_in self.old n }
    {
        if self.is_known(name) {
            return Ok(());
        }
        push_row(&mut self.rows, alloc, name)
    }

    /// Raises the count of this kind of call on this name.
    pub fn add(&mut self, op: Op, name: &Text, more: u64)
        requires { Contains (names_in self.old) name.now }
        ensures counts { Adds op name.now more (faults_in self.old) (faults_in self.new) }
        ensures gave { (n : List ℕ) → given_in self.new n ≡ given_in self.old n }
        ensures known { names_in self.new ≡ names_in self.old }
    {
        let at = row_of(&self.rows, name);
        self.rows[at].faults.add(op, more);
    }

    /// Counts a call of this kind on this name that failed.
    pub fn fail(&mut self, op: Op, name: &Text)
        requires { Contains (names_in self.old) name.now }
        ensures own { Rises (faults_in self.old op name.now) (faults_in self.new op name.now) }
        ensures others { SameCountsBut op name.now (faults_in self.old) (faults_in self.new) }
        ensures gave { (n : List ℕ) → given_in self.new n ≡ given_in self.old n }
        ensures known { names_in self.new ≡ names_in self.old }
    {
        self.add(op, name, 1);
    }

    /// Raises what was given under this name.
    pub fn give(&mut self, name: &Text, more: u64)
        requires { Contains (names_in self.old) name.now }
        ensures gave { GaveOnly name.now more (given_in self.old) (given_in self.new) }
        ensures counts { SameCounts (faults_in self.old) (faults_in self.new) }
        ensures known { names_in self.new ≡ names_in self.old }
    {
        let at = row_of(&self.rows, name);
        self.rows[at].give(more);
    }
}

//! A source whose bytes lie in memory.
ghost use Rattle.std.specs.Prelude.{◌≡◌, ℕ, ◌<◌, ◌≤◌, List, drop, length, Option, Some};

use crate::memory::plan::{FailAt, Plan};
use crate::outside::{Failed, Op, Source};
use osm_entity::{Bytes, NoMemory, Text};
use std::alloc::Global;

/// A source in memory: the bytes of a file, how far they are given, and which of its pulls fail.
#[derive(Debug, Drop)]
pub struct MemorySource {
    pub(crate) name: Text,
    pub(crate) bytes: Bytes,
    /// How many of the bytes are given.
    pub(crate) place: usize,
    /// A pull gives at most this many bytes.
    pub(crate) piece: u32,
    pub(crate) plan: Plan,
    pub(crate) faults: u64,
    pub(crate) ghost placed: { place ≤ length bytes },
    pub(crate) ghost paced: { 0 < piece },
}

impl MemorySource {
    ghost use Rattle.std.specs.Prelude.{[], IfOk};

    /// A source that has given nothing yet, with copies of the name, the bytes and the calls that
    /// fail.
    pub(crate) fn new(
        alloc: Global,
        name: &Text,
        bytes: &Bytes,
        piece: u32,
        fails: &[FailAt],
    ) -> Result<MemorySource, NoMemory>
        requires { 0 < piece }
        ensures name { IfOk result (λ s. s.name ≡ name.now) }
        ensures bytes { IfOk result (λ s. s.bytes ≡ bytes.now) }
        ensures fresh { IfOk result (λ s. (s.place ≡ 0) × (s.faults ≡ 0)) }
        ensures piece { IfOk result (λ s. s.piece ≡ piece) }
        ensures plan { IfOk result (λ s. s.plan.fails.items ≡ fails.now) }
    {
        Ok(MemorySource {
            name: name.copy(alloc)?,
            bytes: Bytes::from_slice(alloc, bytes.as_slice())?,
            place: 0,
            piece,
            plan: Plan::new(alloc, fails)?,
            faults: 0,
        })
    }
}

impl Source for MemorySource {
    ghost use Rattle.std.specs.Prelude.{IfOk, IsErr, IsTrue, ◌↔◌, OnErr, Ok, min};
    ghost use Rattle.std.specs.Io.KnownBytes.{IsAtEnd};
    ghost use Rattle.osm_host.specs.Contents.{PullGives};
    ghost use Rattle.osm_host.specs.Counts.{raised, CountsFailure};
    ghost use Rattle.osm_host.specs.Memory.{left_of, rest_of, pull_size};
    ghost use Rattle.osm_host.specs.Plans.{is_planned, after_call};
    ghost use Rattle.osm_host.specs.declared.outside.Op.TheVariants.{Pull};

    ghost name = { λ s. s.name };

    ghost rest = { rest_of };

    ghost given = { λ s. s.place };

    ghost faults = { λ s. s.faults };

    /// Gives as many bytes as its piece, `buf` and what is left allow. `Failed` exactly where this
    /// pull is one that fails: all is left then, and it may be called again.
    fn pull(&mut self, buf: &mut [u8]) -> Result<usize, Failed>
        requires { 0 < length buf.old }
        ensures name { self.new.name ≡ self.old.name }
        ensures fits { IfOk result (λ n. n ≤ length buf.new) }
        ensures gives { PullGives result buf.new (rest_of self.old) (rest_of self.new) }
        ensures most { IfOk result (λ n. n ≡ pull_size (left_of self.old) buf.old self.old.piece) }
        ensures end { result ≡ Ok 0 → IsAtEnd (rest_of self.new) }
        ensures given { IfOk result (λ n. self.new.place ≡ raised self.old.place n) }
        ensures idle { OnErr result (self.new.place ≡ self.old.place) }
        ensures faults { CountsFailure result self.old.faults self.new.faults }

        ensures due { IsErr result
            ↔ IsTrue (is_planned Pull self.old.name 1 self.old.plan.fails.items) }
        ensures plan { self.new.plan.fails.items
            ≡ after_call Pull self.old.name self.old.plan.fails.items }
        ensures piece { self.new.piece ≡ self.old.piece }
    {
        if self.plan.fails(Op::Pull, &self.name) {
            self.faults = self.faults.saturating_add(1);
            return Err(Failed);
        }
        let rest = &self.bytes.as_slice()[self.place..];
        let count = rest.len().min(buf.len()).min(self.piece as usize);
        buf[..count].copy_from_slice(&rest[..count]);
        self.place += count;
        Ok(count)
    }
}

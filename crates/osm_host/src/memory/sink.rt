//! A sink that keeps its bytes in memory.
ghost use Rattle.std.specs.Prelude.{◌≡◌, ℕ, ◌/◌, ◌++◌, IfOk, List, [], length, take, Option, Some, Err};
ghost use Rattle.osm_host.specs.Counts.{CountsRefusal};
ghost use Rattle.osm_host.specs.Contents.{PutTakes};
ghost use Rattle.osm_host.specs.Memory.{HasHalf};
ghost use Rattle.osm_host.specs.Plans.{is_planned, after_call, FailsWhere};
ghost use Rattle.osm_host.specs.declared.outside.HostError.TheVariants.{Failed};
ghost use Rattle.osm_host.specs.declared.outside.Op.TheVariants.{Put};

use crate::memory::plan::{FailAt, Plan};
use crate::outside::{HostError, Op, Sink};
use osm_entity::{Bytes, NoMemory, Text};
use std::alloc::Global;

/// A sink in memory: the bytes that it took, and which of its puts fail.
#[derive(Debug, Drop)]
pub struct MemorySink {
    pub(crate) name: Text,
    pub(crate) bytes: Bytes,
    pub(crate) plan: Plan,
    pub(crate) faults: u64,
}

impl MemorySink {
    /// A sink that took nothing yet, with copies of the name and of the calls that fail.
    pub(crate) fn new(alloc: Global, name: &Text, fails: &[FailAt]) -> Result<MemorySink, NoMemory>
        ensures name { IfOk result (λ k. k.name ≡ name.now) }
        ensures fresh { IfOk result (λ k. (k.bytes ≡ []) × (k.faults ≡ 0)) }
        ensures plan { IfOk result (λ k. k.plan.fails.items ≡ fails.now) }
    {
        Ok(MemorySink {
            name: name.copy(alloc)?,
            bytes: Bytes::new(alloc),
            plan: Plan::new(alloc, fails)?,
            faults: 0,
        })
    }
}

impl Sink for MemorySink {
    ghost name = { λ k. k.name };

    ghost taken = { λ k. Some k.bytes };

    ghost faults = { λ k. k.faults };

    /// Takes the piece whole. `Failed` where this put is one that fails: it then took the first
    /// half of the piece, rounded down. After `Memory` it took nothing.
    fn put(&mut self, bytes: &[u8]) -> Result<(), HostError>
        ensures name { self.new.name ≡ self.old.name }
        ensures takes { PutTakes result bytes.now (Some self.old.bytes) (Some self.new.bytes) }
        ensures half { result ≡ Err Failed → HasHalf bytes.now self.old.bytes self.new.bytes }
        ensures faults { CountsRefusal result self.old.faults self.new.faults }

        ensures due { FailsWhere (is_planned Put self.old.name 1 self.old.plan.fails.items) result }
        ensures plan { self.new.plan.fails.items
            ≡ after_call Put self.old.name self.old.plan.fails.items }
    {
        if self.plan.fails(Op::Put, &self.name) {
            self.bytes.append(&bytes[..bytes.len() / 2])?;
            self.faults = self.faults.saturating_add(1);
            return Err(HostError::Failed);
        }
        self.bytes.append(bytes)?;
        Ok(())
    }
}

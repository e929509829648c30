//! The machines of a command.
ghost use Rattle.std.specs.Prelude.{◌≡◌, ◌++◌, ◌∷◌, [], length, MatchOption, OnErr, OnOk};

use crate::machine::Machine;
use osm_entity::NoMemory;
use osm_host::{Sink, Source};
use std::alloc::Global;
use std::marker::Model;

/// A list of machines, in the order of their tasks.
#[derive(Drop)]
pub struct Machines<S: Source + Drop, K: Sink + Drop> {
    machines: Vec<Machine<S, K>>,
}

impl<S: Source + Drop, K: Sink + Drop> Model for Machines<S, K> {
    ghost use Rattle.std.specs.Prelude.{List};
    ghost use Rattle.osm_machine.specs.declared.kind.MachineKind.{MachineKind};

    ghost Value = { List (MachineKind S K) };

    ghost view = { λ m. m.machines.items };
}

impl<S: Source + Drop, K: Sink + Drop> Machines<S, K> {
    /// The empty list. It takes no memory.
    pub fn new(alloc: Global) -> Self
        ensures { result ≡ [] }
    {
        Machines {
            machines: Vec::new(alloc),
        }
    }

    /// Adds a machine at the back. At `Err` the list is as it was.
    pub fn push(&mut self, machine: Machine<S, K>) -> Result<(), NoMemory>
        ensures ok { OnOk result (self.new ≡ self.old ++ machine ∷ []) }
        ensures err { OnErr result (self.new ≡ self.old) }
    {
        match self.machines.push(machine) {
            Ok(()) => Ok(()),
            Err(_) => Err(NoMemory),
        }
    }

    /// How many there are.
    pub fn len(&self) -> usize
        ensures { result ≡ length self.now }
    {
        self.machines.len()
    }

    pub fn as_slice(&self) -> &[Machine<S, K>]
        ensures { result.now ≡ self.now }
    {
        self.machines.as_slice()
    }

    /// Takes the last machine off.
    pub fn pop(&mut self) -> Option<Machine<S, K>>
        ensures { MatchOption result ((self.old ≡ []) × (self.new ≡ []))
            (λ last. self.old ≡ self.new ++ last ∷ []) }
    {
        self.machines.pop()
    }

    /// The machines as a vector.
    pub fn into_vec(self) -> Vec<Machine<S, K>>
        ensures { result.items ≡ self }
    {
        self.machines
    }

    /// The machines of a vector.
    pub fn from_vec(machines: Vec<Machine<S, K>>) -> Self
        ensures { result ≡ machines.items }
    {
        Machines { machines }
    }
}

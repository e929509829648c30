//! The machine of a task, of any kind.
ghost use Rattle.std.specs.Prelude.{◌≡◌, false, None, IfOk, OnErr, OnOk};
ghost use Rattle.std.specs.Option.{option_map};
ghost use Rattle.osm_entity.specs.Calls.{Gives, Pulls, StopsInGive, StopsInPull, StopsInTake, Takes};
ghost use Rattle.osm_entity.specs.Machines.{IsSameTask};
ghost use Rattle.osm_entity.specs.declared.stream.Want.TheVariants.{Give, Pull, Take};
ghost use Rattle.osm_machine.specs.Devices.{source_seen};
ghost use Rattle.osm_machine.specs.MachineDevices.{bytes_counted, has_come, device_names, sink_of, source_of};
ghost use Rattle.osm_machine.specs.MachineKinds.{machines};
ghost use Rattle.osm_machine.specs.Sinks.{sink_seen};

use crate::kind::MachineKind;
use osm_entity::{Message, NoMemory, Verdict, Want};
use osm_host::{Sink, Source};
use std::marker::Model;

/// What a machine leaves.
pub struct Parts<S, K> {
    /// The source of a reader.
    pub source: Option<S>,
    /// The sink of a writer.
    pub sink: Option<K>,
    pub verdict: Verdict,
    /// How many bytes the source of a reader gave, else 0; it stops at 2^64 - 1.
    pub given: u64,
    /// Whether the source of a reader answered its end.
    pub clean: bool,
}

impl<S, K> Parts<S, K> {
    // What a machine without devices leaves.
    pub(crate) fn of(verdict: Verdict) -> Parts<S, K>
        ensures { result ≡ record {
          source = None;
          sink = None;
          verdict = verdict;
          given = 0;
          clean = false;
        } }
    {
        Parts {
            source: None,
            sink: None,
            verdict,
            given: 0,
            clean: false,
        }
    }
}

/// The machine of a task: it is moved one message or one pull at a time, as it wants. After
/// `NoMemory` only `verdict` and `finish` are called.
#[derive(Drop)]
pub struct Machine<S: Source + Drop, K: Sink + Drop> {
    kind: MachineKind<S, K>,
}

impl<S: Source + Drop, K: Sink + Drop> Model for Machine<S, K> {
    ghost use Rattle.osm_machine.specs.declared.kind.MachineKind.{MachineKind};

    ghost Value = { MachineKind S K };

    ghost view = { λ m. m.kind };
}

impl<S: Source + Drop, K: Sink + Drop> Machine<S, K> {
    // A machine of this kind.
    pub(crate) fn of(kind: MachineKind<S, K>) -> Machine<S, K>
        ensures { result ≡ kind }
    {
        Machine { kind }
    }

    /// How many inputs its task has.
    pub fn inputs(&self) -> u32
        ensures { result ≡ (machines.task self.now).inputs }
    {
        self.kind.inputs()
    }

    /// How many outputs its task has.
    pub fn outputs(&self) -> u32
        ensures { result ≡ (machines.task self.now).outputs }
    {
        self.kind.outputs()
    }

    /// What it can do next. It wants a pull only where it has nothing to give.
    pub fn want(&self) -> Want
        ensures { result ≡ machines.wanted self.now }
    {
        self.kind.want()
    }

    /// Pulls its source once, where it wants that.
    pub fn pull(&mut self) -> Result<(), NoMemory>
        requires { machines.wanted self.old ≡ Pull }
        ensures pulls { OnOk result (Pulls machines self.old self.new) }
        ensures stops { OnErr result (StopsInPull machines self.old self.new) }
        ensures same { IsSameTask machines self.old self.new }
        ensures names { device_names self.new ≡ device_names self.old }
    {
        self.kind.pull()
    }

    /// Takes a message at an input, where it wants that. A writer puts what the message brings.
    pub fn accept(&mut self, port: u32, message: Message) -> Result<(), NoMemory>
        requires { machines.wanted self.old ≡ Take port }
        ensures takes { OnOk result (Takes machines port message self.old self.new) }
        ensures stops { OnErr result (StopsInTake machines port message self.old self.new) }
        ensures same { IsSameTask machines self.old self.new }
        ensures names { device_names self.new ≡ device_names self.old }
    {
        self.kind.accept(port, message)
    }

    /// Gives a message at an output, where it wants that.
    pub fn hand(&mut self, port: u32) -> Result<Message, NoMemory>
        requires { machines.wanted self.old ≡ Give port }
        ensures gives { IfOk result (λ message. Gives machines port message self.old self.new) }
        ensures stops { OnErr result (StopsInGive machines self.old self.new) }
        ensures same { IsSameTask machines self.old self.new }
        ensures names { device_names self.new ≡ device_names self.old }
    {
        self.kind.hand(port)
    }

    /// How it stands with its task: running until it has ended.
    pub fn verdict(&self) -> Verdict
        ensures { result ≡ machines.verdict self.now }
    {
        self.kind.verdict()
    }

    /// Takes it apart.
    pub fn finish(self) -> Parts<S, K>
        ensures source { option_map (source_seen S.name S.rest S.given S.faults) result.source
            ≡ source_of self }
        ensures sink { option_map (sink_seen K.name K.taken K.faults) result.sink ≡ sink_of self }
        ensures verdict { result.verdict ≡ machines.verdict self }
        ensures given { result.given ≡ bytes_counted self }
        ensures clean { result.clean ≡ has_come self }
    {
        self.kind.finish()
    }
}

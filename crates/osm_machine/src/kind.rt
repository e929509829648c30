//! The machines of all kinds of tasks, as one type. A new kind is one variant, and one arm of each
//! match.
ghost use Rattle.std.specs.Prelude.{◌≡◌, IfOk, OnErr, OnOk};
ghost use Rattle.std.specs.Option.{option_map};
ghost use Rattle.osm_entity.specs.Calls.{Gives, Pulls, StopsInGive, StopsInPull, StopsInTake, Takes};
ghost use Rattle.osm_entity.specs.Machines.{IsSameTask};
ghost use Rattle.osm_entity.specs.declared.stream.Want.TheVariants.{Give, Pull, Take};
ghost use Rattle.osm_machine.specs.Devices.{source_seen};
ghost use Rattle.osm_machine.specs.MachineDevices.{bytes_counted, has_come, device_names, sink_of, source_of};
ghost use Rattle.osm_machine.specs.MachineKinds.{machines};
ghost use Rattle.osm_machine.specs.Sinks.{sink_seen};

use crate::copying::Copying;
use crate::emptying::{Dropping, Empty};
use crate::machine::Parts;
use crate::making::Making;
use crate::reading::{Finished, Reading};
use crate::writing::Writing;
use osm_change::{Apply, Simplify};
use osm_entity::{Message, NoMemory, Verdict, Want};
use osm_filter::TagFilter;
use osm_host::{Sink, Source};
use osm_merge::{Append, Merge};
use osm_select::AreaTask;
use osm_sort::Sort;
use osm_used::{UsedNode, UsedWay};

/// The machine of a task, by its kind.
#[derive(Drop)]
pub enum MachineKind<S: Source + Drop, K: Sink + Drop> {
    /// It reads a file from a source.
    Read(Reading<S>),
    /// It makes entities from a number.
    Make(Making),
    /// It gives no item.
    Nothing(Empty),
    /// It writes a file into a sink.
    Write(Writing<K>),
    /// It drops its input.
    Drops(Dropping),
    /// It gives its input at each output: tee, buffer and spool.
    Copies(Copying),
    /// It keeps what tags choose.
    Filters(TagFilter),
    /// It drops the nodes that nothing names.
    UsesNodes(UsedNode),
    /// It drops the ways that nothing names.
    UsesWays(UsedWay),
    /// It sorts its input.
    Sorts(Sort),
    /// It merges two inputs by key.
    Merges(Merge),
    /// It gives one input behind the other.
    Appends(Append),
    /// It lays changes over a base.
    Applies(Apply),
    /// It keeps the last change of each key.
    Simplifies(Simplify),
    /// It keeps what an area chooses: bounding-box and bounding-polygon.
    Selects(AreaTask),
}

impl<S: Source + Drop, K: Sink + Drop> MachineKind<S, K> {
    /// How many inputs its task has.
    pub fn inputs(&self) -> u32
        ensures { result ≡ (machines.task self.now).inputs }
    {
        match self {
            MachineKind::Read(_) | MachineKind::Make(_) | MachineKind::Nothing(_) => 0,
            MachineKind::Write(_)
            | MachineKind::Drops(_)
            | MachineKind::Copies(_)
            | MachineKind::Filters(_)
            | MachineKind::UsesNodes(_)
            | MachineKind::UsesWays(_)
            | MachineKind::Sorts(_)
            | MachineKind::Simplifies(_)
            | MachineKind::Selects(_) => 1,
            MachineKind::Merges(_) | MachineKind::Appends(_) | MachineKind::Applies(_) => 2,
        }
    }

    /// How many outputs its task has.
    pub fn outputs(&self) -> u32
        ensures { result ≡ (machines.task self.now).outputs }
    {
        match self {
            MachineKind::Write(_) | MachineKind::Drops(_) => 0,
            MachineKind::Read(_)
            | MachineKind::Make(_)
            | MachineKind::Nothing(_)
            | MachineKind::Filters(_)
            | MachineKind::UsesNodes(_)
            | MachineKind::UsesWays(_)
            | MachineKind::Sorts(_)
            | MachineKind::Merges(_)
            | MachineKind::Appends(_)
            | MachineKind::Applies(_)
            | MachineKind::Simplifies(_)
            | MachineKind::Selects(_) => 1,
            MachineKind::Copies(m) => m.outputs(),
        }
    }

    pub fn want(&self) -> Want
        ensures { result ≡ machines.wanted self.now }
    {
        match self {
            MachineKind::Read(m) => m.want(),
            MachineKind::Make(m) => m.want(),
            MachineKind::Nothing(m) => m.want(),
            MachineKind::Write(m) => m.want(),
            MachineKind::Drops(m) => m.want(),
            MachineKind::Copies(m) => m.want(),
            MachineKind::Filters(m) => m.want(),
            MachineKind::UsesNodes(m) => m.want(),
            MachineKind::UsesWays(m) => m.want(),
            MachineKind::Sorts(m) => m.want(),
            MachineKind::Merges(m) => m.want(),
            MachineKind::Appends(m) => m.want(),
            MachineKind::Applies(m) => m.want(),
            MachineKind::Simplifies(m) => m.want(),
            MachineKind::Selects(m) => m.want(),
        }
    }

    pub fn pull(&mut self) -> Result<(), NoMemory>
        requires { machines.wanted self.old ≡ Pull }
        ensures pulls { OnOk result (Pulls machines self.old self.new) }
        ensures stops { OnErr result (StopsInPull machines self.old self.new) }
        ensures same { IsSameTask machines self.old self.new }
        ensures names { device_names self.new ≡ device_names self.old }
    {
        match self {
            MachineKind::Read(m) => m.pull(),
            MachineKind::Make(_)
            | MachineKind::Nothing(_)
            | MachineKind::Write(_)
            | MachineKind::Drops(_)
            | MachineKind::Copies(_)
            | MachineKind::Filters(_)
            | MachineKind::UsesNodes(_)
            | MachineKind::UsesWays(_)
            | MachineKind::Sorts(_)
            | MachineKind::Merges(_)
            | MachineKind::Appends(_)
            | MachineKind::Applies(_)
            | MachineKind::Simplifies(_)
            | MachineKind::Selects(_) => unreachable!(),
        }
    }

    pub fn accept(&mut self, port: u32, message: Message) -> Result<(), NoMemory>
        requires { machines.wanted self.old ≡ Take port }
        ensures takes { OnOk result (Takes machines port message self.old self.new) }
        ensures stops { OnErr result (StopsInTake machines port message self.old self.new) }
        ensures same { IsSameTask machines self.old self.new }
        ensures names { device_names self.new ≡ device_names self.old }
    {
        match self {
            MachineKind::Write(m) => m.accept(port, message),
            MachineKind::Drops(m) => {
                m.accept(port, message);
                Ok(())
            }
            MachineKind::Copies(m) => {
                m.accept(port, message);
                Ok(())
            }
            MachineKind::Filters(m) => m.accept(port, message),
            MachineKind::UsesNodes(m) => m.accept(port, message),
            MachineKind::UsesWays(m) => m.accept(port, message),
            MachineKind::Sorts(m) => m.accept(port, message),
            MachineKind::Merges(m) => m.accept(port, message),
            MachineKind::Appends(m) => m.accept(port, message),
            MachineKind::Applies(m) => m.accept(port, message),
            MachineKind::Simplifies(m) => m.accept(port, message),
            MachineKind::Selects(m) => m.accept(port, message),
            MachineKind::Read(_) | MachineKind::Make(_) | MachineKind::Nothing(_) => unreachable!(),
        }
    }

    pub fn hand(&mut self, port: u32) -> Result<Message, NoMemory>
        requires { machines.wanted self.old ≡ Give port }
        ensures gives { IfOk result (λ message. Gives machines port message self.old self.new) }
        ensures stops { OnErr result (StopsInGive machines self.old self.new) }
        ensures same { IsSameTask machines self.old self.new }
        ensures names { device_names self.new ≡ device_names self.old }
    {
        match self {
            MachineKind::Read(m) => m.hand(port),
            MachineKind::Make(m) => m.hand(port),
            MachineKind::Nothing(m) => Ok(m.hand(port)),
            MachineKind::Copies(m) => m.hand(port),
            MachineKind::Filters(m) => Ok(m.hand(port)),
            MachineKind::UsesNodes(m) => Ok(m.hand(port)),
            MachineKind::UsesWays(m) => Ok(m.hand(port)),
            MachineKind::Sorts(m) => Ok(m.hand(port)),
            MachineKind::Merges(m) => Ok(m.hand(port)),
            MachineKind::Appends(m) => Ok(m.hand(port)),
            MachineKind::Applies(m) => Ok(m.hand(port)),
            MachineKind::Simplifies(m) => Ok(m.hand(port)),
            MachineKind::Selects(m) => Ok(m.hand(port)),
            MachineKind::Write(_) | MachineKind::Drops(_) => unreachable!(),
        }
    }

    pub fn verdict(&self) -> Verdict
        ensures { result ≡ machines.verdict self.now }
    {
        match self {
            MachineKind::Read(m) => m.verdict(),
            MachineKind::Make(m) => m.verdict(),
            MachineKind::Nothing(m) => m.verdict(),
            MachineKind::Write(m) => m.verdict(),
            MachineKind::Drops(m) => m.verdict(),
            MachineKind::Copies(m) => m.verdict(),
            MachineKind::Filters(m) => m.verdict(),
            MachineKind::UsesNodes(m) => m.verdict(),
            MachineKind::UsesWays(m) => m.verdict(),
            MachineKind::Sorts(m) => m.verdict(),
            MachineKind::Merges(m) => m.verdict(),
            MachineKind::Appends(m) => m.verdict(),
            MachineKind::Applies(m) => m.verdict(),
            MachineKind::Simplifies(m) => m.verdict(),
            MachineKind::Selects(m) => m.verdict(),
        }
    }

    pub fn finish(self) -> Parts<S, K>
        ensures source { option_map (source_seen S.name S.rest S.given S.faults) result.source
            ≡ source_of self }
        ensures sink { option_map (sink_seen K.name K.taken K.faults) result.sink ≡ sink_of self }
        ensures verdict { result.verdict ≡ machines.verdict self }
        ensures given { result.given ≡ bytes_counted self }
        ensures clean { result.clean ≡ has_come self }
    {
        let verdict = self.verdict();
        match self {
            MachineKind::Read(m) => {
                let Finished {
                    source,
                    given,
                    clean,
                } = m.finish();
                Parts {
                    source: Some(source),
                    sink: None,
                    verdict,
                    given,
                    clean,
                }
            }
            MachineKind::Write(m) => Parts {
                source: None,
                sink: Some(m.finish()),
                verdict,
                given: 0,
                clean: false,
            },
            MachineKind::Make(_m) => Parts::of(verdict),
            MachineKind::Nothing(_m) => Parts::of(verdict),
            MachineKind::Drops(_m) => Parts::of(verdict),
            MachineKind::Copies(_m) => Parts::of(verdict),
            MachineKind::Filters(_m) => Parts::of(verdict),
            MachineKind::UsesNodes(_m) => Parts::of(verdict),
            MachineKind::UsesWays(_m) => Parts::of(verdict),
            MachineKind::Sorts(_m) => Parts::of(verdict),
            MachineKind::Merges(_m) => Parts::of(verdict),
            MachineKind::Appends(_m) => Parts::of(verdict),
            MachineKind::Applies(_m) => Parts::of(verdict),
            MachineKind::Simplifies(_m) => Parts::of(verdict),
            MachineKind::Selects(_m) => Parts::of(verdict),
        }
    }
}

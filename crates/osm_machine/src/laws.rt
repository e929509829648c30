//! Laws of the machines of all kinds of tasks.
ghost use Rattle.std.specs.Prelude.{◌≡◌, ◌≤◌, true, Option};
ghost use Rattle.osm_area.specs.declared.area.Area.{Area};
ghost use Rattle.osm_entity.specs.Machines.{AreLawful, Given};
ghost use Rattle.osm_entity.specs.declared.stream.Want.TheVariants.{Pull};
ghost use Rattle.osm_machine.specs.MachineDevices.{AreDevicesTold, has_source};
ghost use Rattle.osm_machine.specs.MachineKinds.{machines};
ghost use Rattle.osm_machine.specs.TaskMeanings.{kind_meaning, reading_limit};
ghost use Rattle.osm_machine.specs.declared.kind.MachineKind.{MachineKind};
ghost use Rattle.osm_tasks.specs.declared.kind.TaskKind.{TaskKind};

use osm_host::{Sink, Source};

/// The machine of every kind of task is lawful: what it gave is before what its task means of what
/// it took, it wants only what it may, it runs until it has ended, and then it gave, wrote and says
/// what is meant.
pub fn machines_are_lawful<S: Source, K: Sink>()
    ensures { AreLawful (machines {S = S} {K = K}) }
{}

/// What a machine's devices tell since it was made, in every state of it: a reader's source gave the
/// bytes that came, where their end came nothing is left, and the count of its faults rose exactly
/// where a pull failed; that of a writer's sink rose exactly where a put failed. A machine blames a
/// device only then, and a writer that has ended always does.
pub fn machines_tell_of_their_devices<S: Source, K: Sink>()
    ensures { (m : MachineKind S K) (given : Given (MachineKind S K)) →
        machines.devices m given → AreDevicesTold m given }
{}

/// A machine wants a pull only where it has a source.
pub fn pulling_machines_have_a_source<S: Source, K: Sink>()
    ensures { (m : MachineKind S K) → machines.wanted m ≡ Pull → has_source m ≡ true }
{}

/// The task of each kind reads at most 2^40 bytes of its source.
pub fn tasks_read_few_bytes()
    ensures { (kind : TaskKind) (area : Option Area) → (kind_meaning kind area).limit ≤ reading_limit }
{}

//! Laws of the commands of all graphs, whatever their tasks are, and of the runs of their machines.
ghost use Rattle.std.specs.Prelude.{Bool, List, is_some, ℕ};
ghost use Rattle.osm_graph.specs.Graphs.{GraphValue, IsGraph};
ghost use Rattle.osm_machine.specs.MachineDevices.{device_names};
ghost use Rattle.osm_machine.specs.MachineKinds.{machines};
ghost use Rattle.osm_machine.specs.declared.kind.MachineKind.{MachineKind};
ghost use Rattle.osm_net.specs.Runs.{AreCountedRun, AreNewMachines, AreRun, KeepNames};
ghost use Rattle.osm_run.specs.Commands.{Areas, AreTasksKept, command_of_graph, command_with};
ghost use Rattle.osm_run.specs.Course.{Course};
ghost use Rattle.osm_run.specs.Lawful.{IsLawful};
ghost use Rattle.osm_run.specs.Went.{AreDevicesFor, AreMachinesOf, AreStepsOf, DeviceSeen, HaveRun, with_keeps};

use osm_host::{Sink, Source};

/// The command of every graph of tasks is lawful: where the end of each reader's file came and no
/// task finds its input wrong, all tasks end whole; and what comes after a wrong place of a file
/// changes nothing of what any task means.
pub fn commands_are_lawful()
    ensures { (g : GraphValue) → IsGraph g → AreTasksKept g.tasks → IsLawful (command_of_graph g) }
{}

/// The machines of a graph's tasks are what a network runs. A run of them has a course of the
/// graph's command with their areas, whichever keeps fail after it: each device tells of it, each entry is that of
/// its machine, and unless memory ran out the first fault is that of the machines' verdicts. On one
/// thread it takes two steps for each message, and no more besides than the readers' pulls.
pub fn machines_run_their_command<S: Source, K: Sink>()
    ensures tasks { (g : GraphValue) (areas : Areas) (devices : List DeviceSeen)
        (made : List (MachineKind S K)) → IsGraph g → AreTasksKept g.tasks
        → AreMachinesOf g.tasks areas devices made
        → AreNewMachines machines g.pipes made }
    ensures run { (g : GraphValue) (areas : Areas) (opened : List DeviceSeen)
        (before after : List (MachineKind S K)) (memory : Bool) → IsGraph g
        → AreDevicesFor g.tasks opened → AreMachinesOf g.tasks areas opened before
        → AreRun machines g.pipes before after memory → KeepNames device_names before after
        → (c : Course) × ((keeps : ℕ → Bool) → HaveRun g areas opened after memory (with_keeps keeps c)) }
    ensures counted { (g : GraphValue) (areas : Areas) (opened : List DeviceSeen)
        (before after : List (MachineKind S K)) (memory : Bool) (steps : ℕ) → IsGraph g
        → AreDevicesFor g.tasks opened → AreMachinesOf g.tasks areas opened before
        → AreCountedRun machines (λ m. is_some (device_names m).source) g.pipes before after memory
        steps → KeepNames device_names before after
        → (c : Course) × ((keeps : ℕ → Bool) → HaveRun g areas opened after memory (with_keeps keeps c)
        × AreStepsOf (command_with g areas) (with_keeps keeps c) memory steps) }
{}

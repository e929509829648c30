//! What comes after the machines of a command ran: its files are closed, and its status is given.
ghost use Rattle.std.specs.Prelude.{◌≡◌, ◌≤◌, ◌++◌, ◌||◌, true, false, ℕ, List, [], length, flat_map};
ghost use Rattle.std.specs.List.{enumerate_from};
ghost use Rattle.osm_graph.specs.Graphs.{most_joined_tasks};
ghost use Rattle.osm_host.specs.Moments.{Moment, moment};
ghost use Rattle.osm_host.specs.declared.outside.Op.{Op};
ghost use Rattle.osm_machine.specs.Devices.{source_seen};
ghost use Rattle.osm_machine.specs.Sinks.{sink_seen};
ghost use Rattle.osm_machine.specs.declared.kind.MachineKind.{MachineKind};
ghost use Rattle.osm_report.specs.Lines.{fault_text};
ghost use Rattle.osm_report.specs.declared.fault.Fault.{Fault};
ghost use Rattle.osm_report.specs.declared.fault.Fault.TheVariants.{Memory};
ghost use Rattle.osm_run.specs.Codes.{code_of};
ghost use Rattle.osm_run.specs.Commands.{Areas, command_of_graph, command_with, plan_of};
ghost use Rattle.osm_run.specs.Course.{entries, first_fault};
ghost use Rattle.osm_run.specs.Leaving.{AreRanMachines};
ghost use Rattle.osm_run.specs.Opened.{AreOpened, course_at_rest, devices_seen};
ghost use Rattle.osm_run.specs.Outcome.{IsSaid};
ghost use Rattle.osm_run.specs.Prepared.{HaveFinished};
ghost use Rattle.osm_run.specs.Went.{DeviceSeen, verdict_faults};
ghost use Rattle.osm_run.specs.WordsRun.{IsCountedRun};

use crate::closing::{Kept, close_devices};
use crate::machines::{Left, finish_machines, first_of, tell_ends};
use crate::status::{Ends, Status};
use osm_entity::Verdict;
use osm_graph::Graph;
use osm_host::Host;
use osm_machine::Machine;
use osm_net::Finished;
use osm_report::{Fault, line};

/// Takes the machines of a command apart once they ran, closes its files, and gives its status.
pub fn conclude<H: Host>(
    graph: &Graph,
    finished: Finished<Machine<H::In, H::Out>>,
    mut left: Left<H::In, H::Out>,
    ends: Ends,
    host: &mut H,
) -> Status
    requires { (before : Moment) × (steps : ℕ) × HaveFinished graph.now before
        (moment H.files H.said H.mute H.count H.gave H.known host.old) left ends
        finished.machines.items finished.memory steps }
    ensures run { (before : Moment) (steps : ℕ) → HaveFinished graph.now before
        (moment H.files H.said H.mute H.count H.gave H.known host.old) left ends
        finished.machines.items finished.memory steps → IsCountedRun (command_of_graph graph.now)
        before (moment H.files H.said H.mute H.count H.gave H.known host.new) result
        steps }
    ensures code { result.code ≡ code_of result.fault }
    ensures said { H.said host.new ≡ H.said host.old }
    ensures mute { H.mute host.new ≡ H.mute host.old }
{
    graph.kept();
    let Finished { machines, memory } = finished;
    finish_machines(machines, &mut left);
    close_run(graph, left, memory, ends, host)
}

// Closes the files of a command whose machines ran, and gives its status.
fn close_run<H: Host>(
    graph: &Graph,
    left: Left<H::In, H::Out>,
    memory: bool,
    mut ends: Ends,
    host: &mut H,
) -> Status
    requires opened { (before : Moment) × (areas : Areas) × (opened : List DeviceSeen) ×
        (steps : ℕ) × (machines : List (MachineKind H.In H.Out)) × AreOpened (plan_of graph.now.tasks) before
        (moment H.files H.said H.mute H.count H.gave H.known host.old) opened ×
        AreRanMachines graph.now areas opened
        (devices_seen (source_seen H.In.name H.In.rest H.In.given H.In.faults)
        (sink_seen H.Out.name H.Out.taken H.Out.faults) left.devices.items)
        left.verdicts.items left.ends.items memory steps machines }
    requires ends { ends ≡ entries (plan_of graph.now.tasks) (course_at_rest []) }
    ensures run { (before : Moment) (areas : Areas) (opened : List DeviceSeen) (steps : ℕ)
        (machines : List (MachineKind H.In H.Out)) → AreOpened (plan_of graph.now.tasks) before
        (moment H.files H.said H.mute H.count H.gave H.known host.old) opened →
        AreRanMachines graph.now areas opened
        (devices_seen (source_seen H.In.name H.In.rest H.In.given H.In.faults)
        (sink_seen H.Out.name H.Out.taken H.Out.faults) left.devices.items)
        left.verdicts.items left.ends.items memory steps machines →
        IsCountedRun (command_with graph.now areas) before
        (moment H.files H.said H.mute H.count H.gave H.known host.new) result steps }
    ensures code { result.code ≡ code_of result.fault }
    ensures said { H.said host.new ≡ H.said host.old }
    ensures mute { H.mute host.new ≡ H.mute host.old }
{
    graph.kept();
    let told = left.ends.as_slice();
    tell_ends(&mut ends, told);
    let all = graph.tasks();
    let tasks = all.as_slice();
    let kept = close_devices(host, tasks, left.devices);
    let verdicts = left.verdicts.as_slice();
    let fault = fault_of_run(memory, verdicts, kept);
    Status::of(fault, ends)
}

// The fault of a run: out of memory before all, then that of the first faulty task, then that of
// the first failed keep.
fn fault_of_run(memory: bool, verdicts: &[Verdict], kept: Kept) -> Fault
    requires { length verdicts.now ≤ most_joined_tasks }
    ensures memory { (memory || kept.memory) ≡ true → result ≡ Memory }
    ensures fault { (memory || kept.memory) ≡ false → (more : List Fault) →
        kept.fault ≡ first_fault more →
        result ≡ first_fault (flat_map verdict_faults (enumerate_from 0 verdicts.now) ++ more) }
{
    if memory || kept.memory {
        Fault::Memory
    } else {
        first_of(verdicts, kept.fault)
    }
}

/// Says the line of a fault, in one call; nothing where there is none.
pub fn say_fault<H: Host>(host: &mut H, fault: &Fault)
    ensures said { IsSaid (fault_text fault.now)
        (moment H.files H.said H.mute H.count H.gave H.known host.old)
        (moment H.files H.said H.mute H.count H.gave H.known host.new) }
    ensures files { H.files host.new ≡ H.files host.old }
    ensures counts { (op : Op) (n : List ℕ) → H.count host.new op n ≡ H.count host.old op n }
    ensures gave { (n : List ℕ) → H.gave host.new n ≡ H.gave host.old n }
    ensures known { H.known host.new ≡ H.known host.old }
{
    match fault {
        Fault::Clean => {}
        _ => {
            let _ = host.say(line(fault).as_slice());
        }
    }
}

//! What comes before the machines of a command run: its graph, areas, devices and machines.
ghost use Rattle.std.specs.Prelude.{◌≡◌, ◌≤◌, length, IfErr, IfOk};
ghost use Rattle.osm_host.specs.Moments.{moment};
ghost use Rattle.osm_machine.specs.Devices.{source_seen};
ghost use Rattle.osm_machine.specs.Sinks.{sink_seen};
ghost use Rattle.osm_run.specs.Asked.{graph_asked};
ghost use Rattle.osm_run.specs.Codes.{code_of};
ghost use Rattle.osm_run.specs.Commands.{area_at};
ghost use Rattle.osm_run.specs.Leaving.{AreAreasFor, AreFresh, HasNothing, HasRoomFor};
ghost use Rattle.osm_run.specs.Opened.{devices_seen};
ghost use Rattle.osm_run.specs.Prepared.{AreReady, IsPrepared};
ghost use Rattle.osm_run.specs.Went.{AreDevicesFor, AreMachinesOf};
ghost use Rattle.osm_run.specs.WordsRun.{IsRefusedOrCounted, RanNoTask};

use crate::areas::read_areas;
use crate::asking::graph_to_run;
use crate::devices::Device;
use crate::machines::{Left, make_machines};
use crate::opening::{Opened, open_devices};
use crate::status::{Ends, Status};
use osm_area::Area;
use osm_entity::{NoMemory, Text};
use osm_graph::Graph;
use osm_host::{Host, Sink, Source};
use osm_machine::Machine;
use osm_report::Fault;
use osm_tasks::Task;
use std::alloc::Global;

/// A graph whose tasks are ready to run.
#[derive(Drop)]
pub struct Prepared<S: Source + Drop, K: Sink + Drop> {
    pub graph: Graph,
    pub ready: Ready<S, K>,
}

/// The machines of tasks before they run.
#[derive(Drop)]
pub struct Ready<S: Source + Drop, K: Sink + Drop> {
    /// One for each task, in command order.
    pub machines: Vec<Machine<S, K>>,
    /// Room for what they leave.
    pub left: Left<S, K>,
    /// The entries of readers before any task ran.
    pub ends: Ends,
}

/// The graph that words ask for, ready to run. At `Err` the run is over, before any task ran, and
/// has that status.
pub fn prepare<H: Host>(
    alloc: Global,
    words: &[Text],
    host: &mut H,
) -> Result<Prepared<H::In, H::Out>, Status>
    ensures ready { IfOk result (IsPrepared words.now
        (moment H.files H.said H.mute H.count H.gave H.known host.old)
        (moment H.files H.said H.mute H.count H.gave H.known host.new)) }
    ensures over { IfErr result (λ status. IsRefusedOrCounted (graph_asked words.now)
        (moment H.files H.said H.mute H.count H.gave H.known host.old)
        (moment H.files H.said H.mute H.count H.gave H.known host.new) status 0) }
    ensures code { IfErr result (λ status. status.code ≡ code_of status.fault) }
    ensures said { H.said host.new ≡ H.said host.old }
    ensures mute { H.mute host.new ≡ H.mute host.old }
{
    let graph = graph_to_run(alloc, words)?;
    graph.kept();
    let all = graph.tasks();
    let tasks = all.as_slice();
    let ready = prepare_tasks(alloc, tasks, host)?;
    Ok(Prepared { graph, ready })
}

// Tasks, ready to run: their polygon files are read, then their other files are opened, then their
// machines are made.
fn prepare_tasks<H: Host>(
    alloc: Global,
    tasks: &[Task],
    host: &mut H,
) -> Result<Ready<H::In, H::Out>, Status>
    requires { length tasks.now ≤ 256 }
    ensures ready { IfOk result (λ ready. AreReady tasks.now
        (moment H.files H.said H.mute H.count H.gave H.known host.old)
        (moment H.files H.said H.mute H.count H.gave H.known host.new)
        ready.machines.items ready.left ready.ends) }
    ensures over { IfErr result (RanNoTask tasks.now
        (moment H.files H.said H.mute H.count H.gave H.known host.old)
        (moment H.files H.said H.mute H.count H.gave H.known host.new)) }
    ensures code { IfErr result (λ status. status.code ≡ code_of status.fault) }
    ensures said { H.said host.new ≡ H.said host.old }
    ensures mute { H.mute host.new ≡ H.mute host.old }
{
    let areas = read_areas(alloc, tasks, host)?;
    let opened = open_devices(alloc, tasks, host)?;
    let Opened { devices, ends } = opened;
    match make_all(alloc, tasks, areas, devices) {
        Ok((machines, left)) => Ok(Ready {
            machines,
            left,
            ends,
        }),
        Err(NoMemory) => Err(Status::of(Fault::Memory, ends)),
    }
}

// The machines of tasks, and room for what they leave.
fn make_all<S: Source + Drop, K: Sink + Drop>(
    alloc: Global,
    tasks: &[Task],
    areas: Vec<Option<Area>>,
    devices: Vec<Device<S, K>>,
) -> Result<(Vec<Machine<S, K>>, Left<S, K>), NoMemory>
    requires areas { AreAreasFor tasks.now areas.items }
    requires devices { AreDevicesFor tasks.now (devices_seen
        (source_seen S.name S.rest S.given S.faults) (sink_seen K.name K.taken K.faults)
        devices.items) }
    requires fresh { AreFresh (devices_seen (source_seen S.name S.rest S.given S.faults)
        (sink_seen K.name K.taken K.faults) devices.items) }
    ensures made { IfOk result (λ both. AreMachinesOf tasks.now (area_at areas.items) (devices_seen
        (source_seen S.name S.rest S.given S.faults) (sink_seen K.name K.taken K.faults)
        devices.items) both.0.items) }
    ensures room { IfOk result (λ both. HasRoomFor 0 (length tasks.now) both.1) }
    ensures nothing { IfOk result (λ both. HasNothing both.1) }
{
    let left = Left::with_room(alloc, tasks.len())?;
    let machines = make_machines(alloc, tasks, areas, devices)?;
    Ok((machines, left))
}

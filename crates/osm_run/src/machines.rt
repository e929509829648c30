//! The machines of tasks: made of their devices, and taken apart after their run.
ghost use Rattle.std.specs.Prelude.{◌≡◌, ◌≤◌, ◌<◌, ◌+◌, ◌++◌, ◌∷◌, [], ℕ, List, None, length, flat_map, slice_set, ⊤, IfOk};
ghost use Rattle.std.specs.List.{enumerate_from};
ghost use Rattle.std.specs.Option.{option_to_list};
ghost use Rattle.osm_graph.specs.Graphs.{most_joined_tasks};
ghost use Rattle.osm_machine.specs.Devices.{source_seen};
ghost use Rattle.osm_machine.specs.MachineKinds.{machines};
ghost use Rattle.osm_machine.specs.Sinks.{sink_seen};
ghost use Rattle.osm_machine.specs.TaskMeanings.{IsGivenWhere, IsMachineOf, reads_area};
ghost use Rattle.osm_report.specs.declared.fault.Fault.{Fault};
ghost use Rattle.osm_area.specs.declared.area.Area.{Area};
ghost use Rattle.osm_run.specs.Commands.{area_at, kind_files};
ghost use Rattle.osm_run.specs.Course.{first_fault};
ghost use Rattle.osm_run.specs.Leaving.{AreAreasFor, AreFresh, AreLeft, HasNothing, HasRoomFor, IsFresh};
ghost use Rattle.osm_run.specs.Opened.{device_seen, devices_seen};
ghost use Rattle.osm_run.specs.Went.{AreDevicesFor, AreMachinesOf, IsDeviceFor, device_of, machine_end, sink_in, source_in, verdict_faults};

use crate::devices::Device;
use crate::status::{Ends, SourceEnd};
use osm_area::Area;
use osm_entity::{NoMemory, Verdict};
use osm_host::{Sink, Source};
use osm_machine::{Machine, Parts, make};
use osm_report::{DeviceCall, Fault};
use osm_tasks::Task;
use std::alloc::Global;

/// What machines leave: the device and the verdict of each, and an entry for each that reads.
#[derive(Drop)]
pub struct Left<S, K> {
    pub devices: Vec<Device<S, K>>,
    pub verdicts: Vec<Verdict>,
    pub ends: Vec<SourceEnd>,
}

impl<S: Source + Drop, K: Sink + Drop> Left<S, K> {
    /// Room for what machines of this number leave.
    pub fn with_room(alloc: Global, count: usize) -> Result<Self, NoMemory>
        ensures room { IfOk result (λ left. HasRoomFor 0 count left) }
        ensures nothing { IfOk result HasNothing }
    {
        let Ok(devices) = Vec::with_capacity(alloc, count) else {
            return Err(NoMemory);
        };
        let Ok(verdicts) = Vec::with_capacity(alloc, count) else {
            return Err(NoMemory);
        };
        let Ok(ends) = Vec::with_capacity(alloc, count) else {
            return Err(NoMemory);
        };
        Ok(Left {
            devices,
            verdicts,
            ends,
        })
    }

    // Adds what a machine leaves.
    fn add(&mut self, task: u32, machine: Machine<S, K>)
        requires { (count : ℕ) × (task < count) × HasRoomFor task count self.old }
        ensures device { devices_seen (source_seen S.name S.rest S.given S.faults)
            (sink_seen K.name K.taken K.faults) self.new.devices.items
            ≡ devices_seen (source_seen S.name S.rest S.given S.faults)
            (sink_seen K.name K.taken K.faults) self.old.devices.items ++ device_of machine ∷ [] }
        ensures verdict { self.new.verdicts.items
            ≡ self.old.verdicts.items ++ machines.verdict machine ∷ [] }
        ensures end { self.new.ends.items ≡ self.old.ends.items ++ machine_end (task, machine) }
        ensures room { (count : ℕ) → HasRoomFor task count self.old →
            HasRoomFor (task + 1) count self.new }
    {
        let Parts {
            source,
            sink,
            verdict,
            given,
            clean,
        } = machine.finish();
        let _ = self.verdicts.push(verdict);
        match source {
            Some(source) => {
                let _ = self.devices.push(Device::Reads(source));
                let _ = self.ends.push(SourceEnd { task, given, clean });
            }
            None => {
                let device = match sink {
                    Some(sink) => Device::Writes(sink),
                    None => Device::Nothing,
                };
                let _ = self.devices.push(device);
            }
        }
    }
}

/// The machine of each task, with its area and its device. `NoMemory` drops them.
pub fn make_machines<S: Source + Drop, K: Sink + Drop>(
    alloc: Global,
    tasks: &[Task],
    mut areas: Vec<Option<Area>>,
    devices: Vec<Device<S, K>>,
) -> Result<Vec<Machine<S, K>>, NoMemory>
    requires areas { AreAreasFor tasks.now areas.items }
    requires devices { AreDevicesFor tasks.now (devices_seen
        (source_seen S.name S.rest S.given S.faults) (sink_seen K.name K.taken K.faults)
        devices.items) }
    requires fresh { AreFresh (devices_seen (source_seen S.name S.rest S.given S.faults)
        (sink_seen K.name K.taken K.faults) devices.items) }
    ensures { IfOk result (λ machines. AreMachinesOf tasks.now (area_at areas.items) (devices_seen
        (source_seen S.name S.rest S.given S.faults) (sink_seen K.name K.taken K.faults)
        devices.items) machines.items) }
{
    let mut machines = Vec::new(alloc);
    let mut at = 0;
    for device in devices {
        let area = take_area(&mut areas, at);
        let machine = make_machine(alloc, &tasks[at], area, device)?;
        if machines.push(machine).is_err() {
            return Err(NoMemory);
        }
        at += 1;
    }
    Ok(machines)
}

// Takes an area out, and leaves none in its place.
fn take_area(areas: &mut Vec<Option<Area>>, at: usize) -> Option<Area>
    requires { at < length areas.old.items }
    ensures value { result ≡ area_at areas.old.items at }
    ensures after { areas.new.items ≡ slice_set areas.old.items at None }
{
    areas[at].take()
}

// The machine of a task with this area and this device.
fn make_machine<S: Source + Drop, K: Sink + Drop>(
    alloc: Global,
    task: &Task,
    area: Option<Area>,
    device: Device<S, K>,
) -> Result<Machine<S, K>, NoMemory>
    requires area { IsGivenWhere (reads_area task.now.kind) area (λ _. ⊤) }
    requires device { IsDeviceFor (kind_files task.now.kind) (device_seen
        (source_seen S.name S.rest S.given S.faults) (sink_seen K.name K.taken K.faults) device) }
    requires fresh { IsFresh (device_seen (source_seen S.name S.rest S.given S.faults)
        (sink_seen K.name K.taken K.faults) device) }
    ensures { IfOk result (IsMachineOf task.now.kind area
        (source_in (device_seen (source_seen S.name S.rest S.given S.faults)
        (sink_seen K.name K.taken K.faults) device))
        (sink_in (device_seen (source_seen S.name S.rest S.given S.faults)
        (sink_seen K.name K.taken K.faults) device))) }
{
    match device {
        Device::Nothing => make(alloc, task, area, None, None),
        Device::Reads(source) => make(alloc, task, area, Some(source), None),
        Device::Writes(sink) => make(alloc, task, area, None, Some(sink)),
    }
}

/// Takes each machine apart. It takes no memory.
pub fn finish_machines<S: Source + Drop, K: Sink + Drop>(
    machines: Vec<Machine<S, K>>,
    left: &mut Left<S, K>,
)
    requires few { length machines.items ≤ most_joined_tasks }
    requires room { HasRoomFor 0 (length machines.items) left.old }
    requires nothing { HasNothing left.old }
    ensures { AreLeft machines.items (devices_seen (source_seen S.name S.rest S.given S.faults)
        (sink_seen K.name K.taken K.faults) left.new.devices.items) left.new.verdicts.items
        left.new.ends.items }
{
    let mut task = 0;
    for machine in machines {
        left.add(task, machine);
        task += 1;
    }
}

/// The fault of the first faulty task by the verdicts of all, or what is left where none is.
pub fn first_of(verdicts: &[Verdict], otherwise: Fault) -> Fault
    requires { length verdicts.now ≤ most_joined_tasks }
    ensures { (more : List Fault) → otherwise ≡ first_fault more →
        result ≡ first_fault (flat_map verdict_faults (enumerate_from 0 verdicts.now) ++ more) }
{
    for (task, verdict) in verdicts.iter().enumerate() {
        if let Some(fault) = fault_of(task as u32, *verdict) {
            return fault;
        }
    }
    otherwise
}

// The fault of a task by its verdict.
fn fault_of(task: u32, verdict: Verdict) -> Option<Fault>
    ensures { option_to_list result ≡ verdict_faults (task, verdict) }
{
    match verdict {
        Verdict::Input { cause, spot } => Some(Fault::Input { task, cause, spot }),
        Verdict::TooLong => Some(Fault::TooLong { task }),
        Verdict::Read => Some(Fault::Device {
            task,
            call: DeviceCall::Read,
        }),
        Verdict::Write => Some(Fault::Device {
            task,
            call: DeviceCall::Write,
        }),
        Verdict::Running | Verdict::Clean | Verdict::Passed | Verdict::Memory => None,
    }
}

/// Puts new entries in place of others. It takes no memory.
pub fn tell_ends(ends: &mut Ends, told: &[SourceEnd])
    requires { length ends.old ≡ length told.now }
    ensures { ends.new ≡ told.now }
{
    for (at, end) in told.iter().enumerate() {
        ends.set(at, *end);
    }
}

//! Opens the files of the tasks of a command: all sources in command order, then all sinks.
ghost use Rattle.std.specs.Prelude.{◌≡◌, ◌≤◌, [], length, replicate, IfOk, IfErr, OnOk};
ghost use Rattle.std.specs.List.{AllByRecursion};
ghost use Rattle.osm_host.specs.Moments.{Moment, moment};
ghost use Rattle.osm_host.specs.declared.outside.Op.TheVariants.{Open, Make};
ghost use Rattle.osm_machine.specs.Devices.{SourceSeen, source_seen};
ghost use Rattle.osm_machine.specs.Sinks.{SinkSeen, sink_seen};
ghost use Rattle.osm_run.specs.Codes.{code_of};
ghost use Rattle.osm_run.specs.Command.{Command};
ghost use Rattle.osm_run.specs.Commands.{plan_of};
ghost use Rattle.osm_run.specs.Course.{entries};
ghost use Rattle.osm_run.specs.Opened.{AreOpened, IsIdleRun, ReadsOrWrites, SinkIsOpen, SourceIsOpen, StoppedAtSink, StoppedAtSource, WasNotOpened, WereOpened, course_at_rest, devices_seen, refusal_fault};
ghost use Rattle.osm_run.specs.Went.{NoDevice};

use crate::closing::close_sources;
use crate::devices::{Device, set_device, sink_name, source_name};
use crate::status::{Ends, SourceEnd, Status};
use osm_entity::{NoMemory, Text};
use osm_host::{Host, HostError, Sink, Source};
use osm_report::{DeviceCall, Fault};
use osm_tasks::Task;
use std::alloc::Global;

/// The devices of tasks as they were opened, and the entries of readers before any task ran.
pub struct Opened<S, K> {
    /// One for each task, in command order.
    pub devices: Vec<Device<S, K>>,
    pub ends: Ends,
}

/// Opens the files that all tasks have open while they run: the sources in command order,
/// then the sinks, which makes their files empty. At `Err` the run has that status: the sources
/// that were opened are closed, and the sinks are dropped without a keep.
pub fn open_devices<H: Host>(
    alloc: Global,
    tasks: &[Task],
    host: &mut H,
) -> Result<Opened<H::In, H::Out>, Status>
    requires few { length tasks.now ≤ 256 }
    requires files { AllByRecursion ReadsOrWrites (plan_of tasks.now) }

    ensures opened { IfOk result (λ opened. AreOpened (plan_of tasks.now)
        (moment H.files H.said H.mute H.count H.gave H.known host.old)
        (moment H.files H.said H.mute H.count H.gave H.known host.new)
        (devices_seen (source_seen H.In.name H.In.rest H.In.given H.In.faults)
        (sink_seen H.Out.name H.Out.taken H.Out.faults) opened.devices.items)) }
    ensures ends { IfOk result (λ opened.
        opened.ends ≡ entries (plan_of tasks.now) (course_at_rest [])) }

    ensures stopped { IfErr result (λ status. (k : Command) → k.plan ≡ plan_of tasks.now →
        IsIdleRun k
        (moment H.files H.said H.mute H.count H.gave H.known host.old)
        (moment H.files H.said H.mute H.count H.gave H.known host.new) status) }
    ensures code { IfErr result (λ status. status.code ≡ code_of status.fault) }

    ensures said { H.said host.new ≡ H.said host.old }
    ensures mute { H.mute host.new ≡ H.mute host.old }
{
    let (mut devices, ends) = match room_for(alloc, tasks) {
        Ok(room) => room,
        Err(NoMemory) => return Err(Status::of(Fault::Memory, Ends::new(alloc))),
    };
    match open_all(alloc, tasks, host, devices.as_mut_slice(), ends) {
        Ok(ends) => Ok(Opened { devices, ends }),
        Err(status) => Err(status),
    }
}

// Opens the files of all tasks into their places, and gives the entries back.
fn open_all<H: Host>(
    alloc: Global,
    tasks: &[Task],
    host: &mut H,
    devices: &mut [Device<H::In, H::Out>],
    ends: Ends,
) -> Result<Ends, Status>
    requires few { length tasks.now ≤ 256 }
    requires files { AllByRecursion ReadsOrWrites (plan_of tasks.now) }
    requires closed { devices_seen (source_seen H.In.name H.In.rest H.In.given H.In.faults)
        (sink_seen H.Out.name H.Out.taken H.Out.faults) devices.old
        ≡ replicate (length tasks.now) NoDevice }
    requires rest { ends ≡ entries (plan_of tasks.now) (course_at_rest []) }
    ensures opened { OnOk result (AreOpened (plan_of tasks.now)
        (moment H.files H.said H.mute H.count H.gave H.known host.old)
        (moment H.files H.said H.mute H.count H.gave H.known host.new)
        (devices_seen (source_seen H.In.name H.In.rest H.In.given H.In.faults)
        (sink_seen H.Out.name H.Out.taken H.Out.faults) devices.new)) }
    ensures ends { IfOk result (λ same. same ≡ ends) }
    ensures stopped { IfErr result (λ status. (k : Command) → k.plan ≡ plan_of tasks.now →
        IsIdleRun k
        (moment H.files H.said H.mute H.count H.gave H.known host.old)
        (moment H.files H.said H.mute H.count H.gave H.known host.new) status) }
    ensures code { IfErr result (λ status. status.code ≡ code_of status.fault) }
    ensures said { H.said host.new ≡ H.said host.old }
    ensures mute { H.mute host.new ≡ H.mute host.old }
{
    if let Err(fault) = open_sources(host, tasks, devices) {
        close_sources(host, tasks, devices);
        return Err(Status::of(fault, Ends::new(alloc)));
    }
    if let Err(fault) = open_sinks(host, tasks, devices) {
        close_sources(host, tasks, devices);
        return Err(Status::of(fault, ends));
    }
    Ok(ends)
}

// Room for a device of each task, none of which is open yet, and the entries of readers.
fn room_for<S: Source + Drop, K: Sink + Drop>(
    alloc: Global,
    tasks: &[Task],
) -> Result<(Vec<Device<S, K>>, Ends), NoMemory>
    requires few { length tasks.now ≤ 256 }
    requires files { AllByRecursion ReadsOrWrites (plan_of tasks.now) }
    ensures devices { IfOk result (λ room. (source_as : S → SourceSeen) (sink_as : K → SinkSeen) →
        devices_seen source_as sink_as room.0.items ≡ replicate (length tasks.now) NoDevice) }
    ensures ends { IfOk result (λ room.
        room.1 ≡ entries (plan_of tasks.now) (course_at_rest [])) }
{
    let mut devices = Vec::new(alloc);
    let mut ends = Ends::new(alloc);
    for at in 0..tasks.len() {
        if devices.push(Device::Nothing).is_err() {
            return Err(NoMemory);
        }
        let task = &tasks[at];
        if let Some(_name) = source_name(&task.kind) {
            ends.push(SourceEnd::at_rest(at as u32))?;
        }
    }
    Ok((devices, ends))
}

// Opens the sources of all tasks, in command order, up to the first that can't be opened.
fn open_sources<H: Host>(
    host: &mut H,
    tasks: &[Task],
    devices: &mut [Device<H::In, H::Out>],
) -> Result<(), Fault>
    requires few { length tasks.now ≤ 256 }
    requires files { AllByRecursion ReadsOrWrites (plan_of tasks.now) }
    requires closed { WereOpened (plan_of tasks.now) 0 0
        (moment H.files H.said H.mute H.count H.gave H.known host.old)
        (moment H.files H.said H.mute H.count H.gave H.known host.old)
        (devices_seen (source_seen H.In.name H.In.rest H.In.given H.In.faults)
        (sink_seen H.Out.name H.Out.taken H.Out.faults) devices.old) }
    ensures ok { OnOk result (WereOpened (plan_of tasks.now) (length tasks.now) 0
        (moment H.files H.said H.mute H.count H.gave H.known host.old)
        (moment H.files H.said H.mute H.count H.gave H.known host.new)
        (devices_seen (source_seen H.In.name H.In.rest H.In.given H.In.faults)
        (sink_seen H.Out.name H.Out.taken H.Out.faults) devices.new)) }
    ensures err { IfErr result (StoppedAtSource (plan_of tasks.now)
        (moment H.files H.said H.mute H.count H.gave H.known host.old)
        (moment H.files H.said H.mute H.count H.gave H.known host.new)
        (devices_seen (source_seen H.In.name H.In.rest H.In.given H.In.faults)
        (sink_seen H.Out.name H.Out.taken H.Out.faults) devices.new)) }
    ensures said { H.said host.new ≡ H.said host.old }
    ensures mute { H.mute host.new ≡ H.mute host.old }
{
    for at in 0..tasks.len() {
        let task = &tasks[at];
        if let Some(name) = source_name(&task.kind) {
            let source = open_source(at as u32, name, host)?;
            set_device(devices, at, Device::Reads(source));
        }
    }
    Ok(())
}

// Opens the sinks of all tasks, in command order, up to the first that can't be opened.
fn open_sinks<H: Host>(
    host: &mut H,
    tasks: &[Task],
    devices: &mut [Device<H::In, H::Out>],
) -> Result<(), Fault>
    requires few { length tasks.now ≤ 256 }
    requires count { length devices.old ≡ length tasks.now }
    requires files { AllByRecursion ReadsOrWrites (plan_of tasks.now) }
    ensures ok { (before : Moment) → WereOpened (plan_of tasks.now) (length tasks.now) 0 before
        (moment H.files H.said H.mute H.count H.gave H.known host.old)
        (devices_seen (source_seen H.In.name H.In.rest H.In.given H.In.faults)
        (sink_seen H.Out.name H.Out.taken H.Out.faults) devices.old) →
        OnOk result (WereOpened (plan_of tasks.now) (length tasks.now)
        (length tasks.now) before
        (moment H.files H.said H.mute H.count H.gave H.known host.new)
        (devices_seen (source_seen H.In.name H.In.rest H.In.given H.In.faults)
        (sink_seen H.Out.name H.Out.taken H.Out.faults) devices.new)) }
    ensures err { (before : Moment) → WereOpened (plan_of tasks.now) (length tasks.now) 0 before
        (moment H.files H.said H.mute H.count H.gave H.known host.old)
        (devices_seen (source_seen H.In.name H.In.rest H.In.given H.In.faults)
        (sink_seen H.Out.name H.Out.taken H.Out.faults) devices.old) →
        IfErr result (StoppedAtSink (plan_of tasks.now) before
        (moment H.files H.said H.mute H.count H.gave H.known host.new)
        (devices_seen (source_seen H.In.name H.In.rest H.In.given H.In.faults)
        (sink_seen H.Out.name H.Out.taken H.Out.faults) devices.new)) }
    ensures said { H.said host.new ≡ H.said host.old }
    ensures mute { H.mute host.new ≡ H.mute host.old }
{
    for at in 0..tasks.len() {
        let task = &tasks[at];
        if let Some(name) = sink_name(&task.kind) {
            let sink = open_sink(at as u32, name, host)?;
            set_device(devices, at, Device::Writes(sink));
        }
    }
    Ok(())
}

// Opens the source of this task.
pub(crate) fn open_source<H: Host>(task: u32, name: &Text, host: &mut H) -> Result<H::In, Fault>
    ensures ok { IfOk result (λ source. SourceIsOpen name.now
        (moment H.files H.said H.mute H.count H.gave H.known host.old)
        (moment H.files H.said H.mute H.count H.gave H.known host.new)
        (source_seen H.In.name H.In.rest H.In.given H.In.faults source)) }
    ensures err { IfErr result (WasNotOpened Open task name.now
        (moment H.files H.said H.mute H.count H.gave H.known host.old)
        (moment H.files H.said H.mute H.count H.gave H.known host.new)) }
    ensures said { H.said host.new ≡ H.said host.old }
    ensures mute { H.mute host.new ≡ H.mute host.old }
{
    match host.open_source(name) {
        Ok(source) => Ok(source),
        Err(refusal) => Err(refusal_fault(task, refusal)),
    }
}

// Opens the sink of this task.
fn open_sink<H: Host>(task: u32, name: &Text, host: &mut H) -> Result<H::Out, Fault>
    ensures ok { IfOk result (λ sink. SinkIsOpen name.now
        (moment H.files H.said H.mute H.count H.gave H.known host.old)
        (moment H.files H.said H.mute H.count H.gave H.known host.new)
        (sink_seen H.Out.name H.Out.taken H.Out.faults sink)) }
    ensures err { IfErr result (WasNotOpened Make task name.now
        (moment H.files H.said H.mute H.count H.gave H.known host.old)
        (moment H.files H.said H.mute H.count H.gave H.known host.new)) }
    ensures said { H.said host.new ≡ H.said host.old }
    ensures mute { H.mute host.new ≡ H.mute host.old }
{
    match host.open_sink(name) {
        Ok(sink) => Ok(sink),
        Err(refusal) => Err(refusal_fault(task, refusal)),
    }
}

// The fault of a task whose file was not opened.
fn refusal_fault(task: u32, refusal: HostError) -> Fault
    ensures { result ≡ refusal_fault task refusal }
{
    match refusal {
        HostError::Failed => Fault::Device {
            task,
            call: DeviceCall::Open,
        },
        HostError::Memory => Fault::Memory,
    }
}

//! Closes the devices of the tasks of a command: all sources in command order, then all sinks.
ghost use Rattle.std.specs.Prelude.{◌≡◌, ◌≤◌, ◌<◌, ◌∷◌, [], Bool, List, ℕ, length};
ghost use Rattle.std.specs.List.{AllByRecursion};
ghost use Rattle.osm_entity.specs.Meaning.{Meaning};
ghost use Rattle.osm_host.specs.Moments.{Moment, moment};
ghost use Rattle.osm_machine.specs.Devices.{source_seen};
ghost use Rattle.osm_machine.specs.Sinks.{sink_seen};
ghost use Rattle.osm_report.specs.declared.fault.DeviceCall.TheVariants.{Keep};
ghost use Rattle.osm_report.specs.declared.fault.Fault.TheVariants.{Device as FaultOfDevice};
ghost use Rattle.osm_run.specs.Closed.{AreClosed, AreSinksApart, CanClose, CanCloseAll, CanKeepAll, DevicesTell, IsClosedSource, IsKeptSink, SinksWereKept, WasKept, WereClosed, keep_answer, first_of, kept_with, without_source};
ghost use Rattle.osm_run.specs.Commands.{plan_of};
ghost use Rattle.osm_run.specs.Course.{Course};
ghost use Rattle.osm_run.specs.Opened.{AreOpened, ReadsOrWrites, device_seen, devices_seen};
ghost use Rattle.osm_run.specs.Plan.{Sink, Source};
ghost use Rattle.osm_run.specs.Went.{DeviceSeen, device_at};

use crate::devices::{Device, sink_name, source_name, take_device};
use osm_entity::Text;
use osm_host::{Host, HostError};
use osm_report::{DeviceCall, Fault};
use osm_tasks::Task;

/// How the keeps of all sinks were answered.
#[derive(Debug, Drop)]
pub struct Kept {
    /// That of the first keep that failed, in command order; `Clean` where none did.
    pub fault: Fault,
    /// Whether a keep was out of memory.
    pub memory: bool,
}

/// Closes the sources and keeps the sinks of all tasks, each in command order; a keep that fails
/// doesn't stop the later ones. What the devices tell of a run is then its course.
pub fn close_devices<H: Host>(
    host: &mut H,
    tasks: &[Task],
    mut devices: Vec<Device<H::In, H::Out>>,
) -> Kept
    requires few { length tasks.now ≤ 256 }
    requires held { CanCloseAll (plan_of tasks.now) (H.known host.old)
        (devices_seen (source_seen H.In.name H.In.rest H.In.given H.In.faults)
        (sink_seen H.Out.name H.Out.taken H.Out.faults) devices.items) }
    requires apart { AreSinksApart (plan_of tasks.now) }
    ensures closed { (before : Moment) (opened : List DeviceSeen) (c : Course) (m : Meaning)
        (memory : Bool) → AreOpened (plan_of tasks.now) before
        (moment H.files H.said H.mute H.count H.gave H.known host.old) opened →
        DevicesTell (plan_of tasks.now) c m memory opened
        (devices_seen (source_seen H.In.name H.In.rest H.In.given H.In.faults)
        (sink_seen H.Out.name H.Out.taken H.Out.faults) devices.items) →
        AreClosed (plan_of tasks.now) c m memory before
        (moment H.files H.said H.mute H.count H.gave H.known host.new) result }
    ensures said { H.said host.new ≡ H.said host.old }
    ensures mute { H.mute host.new ≡ H.mute host.old }
{
    close_all(host, tasks, devices.as_mut_slice())
}

// The same for devices in their places, which they leave.
fn close_all<H: Host>(host: &mut H, tasks: &[Task], devices: &mut [Device<H::In, H::Out>]) -> Kept
    requires few { length tasks.now ≤ 256 }
    requires held { CanCloseAll (plan_of tasks.now) (H.known host.old)
        (devices_seen (source_seen H.In.name H.In.rest H.In.given H.In.faults)
        (sink_seen H.Out.name H.Out.taken H.Out.faults) devices.old) }
    requires apart { AreSinksApart (plan_of tasks.now) }
    ensures closed { (before : Moment) (opened : List DeviceSeen) (c : Course) (m : Meaning)
        (memory : Bool) → AreOpened (plan_of tasks.now) before
        (moment H.files H.said H.mute H.count H.gave H.known host.old) opened →
        DevicesTell (plan_of tasks.now) c m memory opened
        (devices_seen (source_seen H.In.name H.In.rest H.In.given H.In.faults)
        (sink_seen H.Out.name H.Out.taken H.Out.faults) devices.old) →
        AreClosed (plan_of tasks.now) c m memory before
        (moment H.files H.said H.mute H.count H.gave H.known host.new) result }
    ensures said { H.said host.new ≡ H.said host.old }
    ensures mute { H.mute host.new ≡ H.mute host.old }
{
    close_sources(host, tasks, devices);
    keep_sinks(host, tasks, devices)
}

/// Closes the sources of all tasks, in command order, and leaves the sinks.
pub fn close_sources<H: Host>(host: &mut H, tasks: &[Task], devices: &mut [Device<H::In, H::Out>])
    requires { CanCloseAll (plan_of tasks.now) (H.known host.old)
        (devices_seen (source_seen H.In.name H.In.rest H.In.given H.In.faults)
        (sink_seen H.Out.name H.Out.taken H.Out.faults) devices.old) }
    ensures devices { (t : ℕ) → t < length tasks.now → device_at
        (devices_seen (source_seen H.In.name H.In.rest H.In.given H.In.faults)
        (sink_seen H.Out.name H.Out.taken H.Out.faults) devices.new) t ≡ without_source (device_at
        (devices_seen (source_seen H.In.name H.In.rest H.In.given H.In.faults)
        (sink_seen H.Out.name H.Out.taken H.Out.faults) devices.old) t) }
    ensures closed { WereClosed (plan_of tasks.now) (length tasks.now) 0
        (moment H.files H.said H.mute H.count H.gave H.known host.old)
        (moment H.files H.said H.mute H.count H.gave H.known host.new)
        (devices_seen (source_seen H.In.name H.In.rest H.In.given H.In.faults)
        (sink_seen H.Out.name H.Out.taken H.Out.faults) devices.old) (λ t. WasKept) }
    ensures said { H.said host.new ≡ H.said host.old }
    ensures mute { H.mute host.new ≡ H.mute host.old }
{
    for at in 0..tasks.len() {
        let task = &tasks[at];
        if let Some(name) = source_name(&task.kind) {
            let device = take_device(devices, at);
            close_source(name, host, device);
        }
    }
}

// Keeps the sinks of all tasks, in command order. A keep that fails doesn't stop the later ones.
fn keep_sinks<H: Host>(host: &mut H, tasks: &[Task], devices: &mut [Device<H::In, H::Out>]) -> Kept
    requires few { length tasks.now ≤ 256 }
    requires count { length devices.old ≡ length tasks.now }
    requires files { AllByRecursion ReadsOrWrites (plan_of tasks.now) }
    requires held { CanKeepAll (plan_of tasks.now) (H.known host.old)
        (devices_seen (source_seen H.In.name H.In.rest H.In.given H.In.faults)
        (sink_seen H.Out.name H.Out.taken H.Out.faults) devices.old) }
    requires apart { AreSinksApart (plan_of tasks.now) }
    ensures kept { SinksWereKept (plan_of tasks.now) (length tasks.now)
        (moment H.files H.said H.mute H.count H.gave H.known host.old)
        (moment H.files H.said H.mute H.count H.gave H.known host.new)
        (devices_seen (source_seen H.In.name H.In.rest H.In.given H.In.faults)
        (sink_seen H.Out.name H.Out.taken H.Out.faults) devices.old) result }
    ensures said { H.said host.new ≡ H.said host.old }
    ensures mute { H.mute host.new ≡ H.mute host.old }
{
    let mut kept = Kept {
        fault: Fault::Clean,
        memory: false,
    };
    for at in 0..tasks.len() {
        let task = &tasks[at];
        if let Some(name) = sink_name(&task.kind) {
            let device = take_device(devices, at);
            let outcome = keep_sink(name, host, device);
            kept = kept.after(at as u32, outcome);
        }
    }
    kept
}

// Closes a device, where it is a source.
fn close_source<H: Host>(name: &Text, host: &mut H, device: Device<H::In, H::Out>)
    requires { CanClose (H.known host.old) (Source name.now ∷ [])
        (device_seen (source_seen H.In.name H.In.rest H.In.given H.In.faults)
        (sink_seen H.Out.name H.Out.taken H.Out.faults) device) }
    ensures closed { IsClosedSource name.now
        (device_seen (source_seen H.In.name H.In.rest H.In.given H.In.faults)
        (sink_seen H.Out.name H.Out.taken H.Out.faults) device)
        (moment H.files H.said H.mute H.count H.gave H.known host.old)
        (moment H.files H.said H.mute H.count H.gave H.known host.new) }
    ensures said { H.said host.new ≡ H.said host.old }
    ensures mute { H.mute host.new ≡ H.mute host.old }
{
    match device {
        Device::Reads(source) => host.close_source(name, source),
        _ => {}
    }
}

// Keeps a device, where it is a sink.
fn keep_sink<H: Host>(
    name: &Text,
    host: &mut H,
    device: Device<H::In, H::Out>,
) -> Result<(), HostError>
    requires { CanClose (H.known host.old) (Sink name.now ∷ [])
        (device_seen (source_seen H.In.name H.In.rest H.In.given H.In.faults)
        (sink_seen H.Out.name H.Out.taken H.Out.faults) device) }
    ensures kept { IsKeptSink name.now
        (device_seen (source_seen H.In.name H.In.rest H.In.given H.In.faults)
        (sink_seen H.Out.name H.Out.taken H.Out.faults) device) (keep_answer result)
        (moment H.files H.said H.mute H.count H.gave H.known host.old)
        (moment H.files H.said H.mute H.count H.gave H.known host.new) }
    ensures said { H.said host.new ≡ H.said host.old }
    ensures mute { H.mute host.new ≡ H.mute host.old }
{
    match device {
        Device::Writes(sink) => host.keep(name, sink),
        _ => Ok(()),
    }
}

impl Kept {
    // With the answer to the keep of this task's sink.
    fn after(self, task: u32, outcome: Result<(), HostError>) -> Kept
        ensures { result ≡ kept_with task (keep_answer outcome) self }
    {
        match outcome {
            Ok(()) => self,
            Err(HostError::Failed) => Kept {
                fault: first_of(self.fault, task),
                memory: self.memory,
            },
            Err(HostError::Memory) => Kept {
                fault: self.fault,
                memory: true,
            },
        }
    }
}

// This fault, where it is one, else that of the failed keep of this task's sink.
fn first_of(fault: Fault, task: u32) -> Fault
    ensures { result ≡ first_of fault (FaultOfDevice task Keep) }
{
    match fault {
        Fault::Clean => Fault::Device {
            task,
            call: DeviceCall::Keep,
        },
        fault => fault,
    }
}

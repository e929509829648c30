//! A task's thread: it waits at its gate, works, and comes home.
ghost use Rattle.std.specs.Prelude.{◌≡◌, ◌∷◌, []};
ghost use Rattle.osm_entity.specs.declared.stream.Message.{Message as Said};
ghost use Rattle.osm_pipe.specs.Pipes.{half};
ghost use Rattle.osm_threads.specs.Homes.{IsHome, IsReadyJob, opens_gate};

use crate::ports::TaskPorts;
use crate::task::work;
use osm_entity::{End, Message};
use osm_net::TaskMachine;
use osm_pipe::{Taken, Taker};
use std::snapshot::Snapshot;
use std::sync::Wait;
use std::thread::Promise;

/// What a thread is started with.
#[derive(Drop)]
pub struct Job<M> {
    pub machine: M,
    pub ports: TaskPorts,
    pub gate: Taker,
}

/// What a thread brings home. It is whole where the machine has ended.
#[derive(Drop)]
pub struct Home<M> {
    pub machine: M,
    pub ports: TaskPorts,
    pub gate: Taken,
    pub whole: bool,
}

/// A thread brings home what its job came to.
#[derive(Drop)]
pub struct ComesHome<M>(pub Snapshot<Job<M>>);

impl<M: TaskMachine> Promise<Home<M>> for ComesHome<M> {
    ghost kept_by = { λ p home. IsHome M.of M.names p.0.value home };
}

/// Waits for what the gate is told: whether it lets the task work.
fn is_opened<R: Wait>(rt: &R, gate: &mut Taker) -> bool
    requires { gate.old.list ≡ [] }
    ensures { (heard : Said) × (gate.new ≡ half gate.old.pipe (heard ∷ []))
        × (result ≡ opens_gate heard) }
{
    match gate.take(rt) {
        Message::Item(_) => false,
        Message::End(End::Done) => true,
        Message::End(End::Broken) => false,
    }
}

/// Waits at the gate, and then works or goes home as it came.
pub fn run_task<M: TaskMachine, R: Wait>(rt: &R, job: Job<M>) -> Home<M>
    requires { IsReadyJob M.of job }
    ensures { IsHome M.of M.names job result }
{
    let Job {
        mut machine,
        mut ports,
        mut gate,
    } = job;
    if is_opened(rt, &mut gate) {
        let whole = work(rt, &mut machine, &mut ports);
        return Home {
            machine,
            ports,
            gate: gate.finish(),
            whole,
        };
    }
    Home {
        machine,
        ports,
        gate: gate.finish(),
        whole: false,
    }
}

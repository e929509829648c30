//! The gates of all threads, and what the threads are started with.
ghost use Rattle.std.specs.Prelude.{◌≡◌, ◌<◌, ◌≤◌, ◌+◌, ◌++◌, ◌∷◌, [], All, IfOk, vec_capacity, vec_len};
ghost use Rattle.osm_threads.specs.Running.{machines_started, ports_started};
ghost use Rattle.osm_threads.specs.Starts.{HasNewGate, IsNewGate};

use crate::homing::Job;
use crate::joining::room;
use crate::ports::TaskPorts;
use crate::starts::Start;
use osm_entity::NoMemory;
use osm_pipe::{Giver, Taker, bounded};
use std::alloc::Global;
use std::sync::Wait;

/// A gate: a pipe of one message, over which a thread is told whether to work.
#[derive(Drop)]
pub struct Gate {
    pub giver: Giver,
    pub taker: Taker,
}

/// New gates.
pub fn new_gates<R: Wait>(rt: &R, alloc: Global, count: usize) -> Result<Vec<Gate>, NoMemory>
    ensures new { IfOk result (λ gates. All IsNewGate gates.items) }
    ensures count { IfOk result (λ gates. vec_len gates ≡ count) }
{
    let mut gates = room(alloc, count)?;
    for number in 0..count {
        let _number = number;
        let (giver, taker) = bounded(rt, alloc, 1)?;
        gates.push_reserved(Gate { giver, taker });
    }
    Ok(gates)
}

/// Takes the last ports from the others.
fn last_ports(tasks: &mut Vec<TaskPorts>) -> TaskPorts
    requires { 0 < vec_len tasks.old }
    ensures ports { tasks.old.items ≡ tasks.new.items ++ result ∷ [] }
    ensures room { vec_capacity tasks.new ≡ vec_capacity tasks.old }
{
    match tasks.pop() {
        Some(ports) => ports,
        None => unreachable!(),
    }
}

/// Takes the last gate from the others.
fn last_gate(gates: &mut Vec<Gate>) -> Gate
    requires new { All IsNewGate gates.old.items }
    requires some { 0 < vec_len gates.old }
    ensures gate { IsNewGate result }
    ensures rest { All IsNewGate gates.new.items }
    ensures count { vec_len gates.old ≡ vec_len gates.new + 1 }
{
    match gates.pop() {
        Some(gate) => gate,
        None => unreachable!(),
    }
}

/// Makes the starts of all machines, each over its ports and behind a gate. The lists of machines and
/// of ports are emptied, and keep their room.
#[tactic(auto, using(crate::proofs::GateLemmas::machines_more, crate::proofs::GateLemmas::ports_more, crate::proofs::GateLemmas::new_more))]
pub fn line_up<M>(
    machines: &mut Vec<M>,
    tasks: &mut Vec<TaskPorts>,
    gates: &mut Vec<Gate>,
    starts: &mut Vec<Start<M>>,
)
    requires tasks { vec_len tasks.old ≡ vec_len machines.old }
    requires gates { vec_len gates.old ≡ vec_len machines.old }
    requires new { All IsNewGate gates.old.items }
    requires none { starts.old.items ≡ [] }
    requires room { vec_len machines.old ≤ vec_capacity starts.old }
    ensures machines { machines_started starts.new.items ≡ machines.old.items }
    ensures ports { ports_started starts.new.items ≡ tasks.old.items }
    ensures new { All HasNewGate starts.new.items }
    ensures no_machine { machines.new.items ≡ [] }
    ensures machine_room { vec_capacity machines.new ≡ vec_capacity machines.old }
    ensures no_ports { tasks.new.items ≡ [] }
    ensures ports_room { vec_capacity tasks.new ≡ vec_capacity tasks.old }
    ensures room { vec_capacity starts.new ≡ vec_capacity starts.old }
{
    match machines.pop() {
        None => {}
        Some(machine) => {
            let ports = last_ports(tasks);
            let gate = last_gate(gates);
            line_up(machines, tasks, gates, starts);
            let job = Job {
                machine,
                ports,
                gate: gate.taker,
            };
            starts.push_reserved(Start {
                job,
                gate: gate.giver,
            });
        }
    }
}

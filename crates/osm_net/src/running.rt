//! A run of a graph's tasks on one thread.
ghost use Rattle.std.specs.Prelude.{◌≤◌, ◌-◌, length};
ghost use Rattle.osm_graph.specs.Graphs.{most_joined_tasks, most_pipes};
ghost use Rattle.osm_net.specs.Nets.{CanHold, HasNoBareCircle};
ghost use Rattle.osm_net.specs.Runs.{AreCountedRun, AreNewMachines, KeepNames};

use crate::machine::TaskMachine;
use crate::net::Net;
use osm_entity::{NoMemory, Steps};
use osm_graph::Pipe;
use std::alloc::Global;
use std::sync::ledger::Ledger;

/// The machines of a graph's tasks once they ran.
#[derive(Drop)]
pub struct Finished<M> {
    /// In the order of their tasks.
    pub machines: Vec<M>,
    /// Whether the run was out of memory; else all have ended.
    pub memory: bool,
}

/// Runs the tasks of a graph until all have ended, or one is out of memory. A step is a message
/// taken, a message given, or a pull.
pub fn run_tasks_alone<M: TaskMachine, L: Ledger>(
    alloc: Global,
    pipes: &[Pipe],
    machines: Vec<M>,
    steps: &mut Steps<L>,
) -> Finished<M>
    requires tasks { AreNewMachines M.of pipes.now machines.items }
    requires holds { CanHold pipes.now }
    requires few_pipes { length pipes.now ≤ most_pipes }
    requires few_tasks { length machines.items ≤ most_joined_tasks }
    requires circle { HasNoBareCircle pipes.now }
    ensures steps { steps.old ≤ steps.new }
    ensures run { AreCountedRun M.of (λ m. M.reads (M.names m)) pipes.now machines.items
        result.machines.items result.memory (steps.new - steps.old) }
    ensures names { KeepNames M.names machines.items result.machines.items }
{
    match Net::new(alloc, pipes, machines) {
        Ok(mut net) => match net.run_alone(steps) {
            Ok(()) => Finished {
                machines: net.finish(),
                memory: false,
            },
            Err(NoMemory) => Finished {
                machines: net.finish(),
                memory: true,
            },
        },
        Err(machines) => Finished {
            machines,
            memory: true,
        },
    }
}

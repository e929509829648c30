//! The lists of a network, and one step of a task over them.
ghost use Rattle.std.specs.Prelude.{◌≡◌, ◌≢◌, ◌<◌, Ok, Some, length, IfOk, OnErr};
ghost use Rattle.osm_graph.specs.Pipes.{pipe_into, pipe_out};
ghost use Rattle.osm_net.specs.NetLists.{AreLists, net_of};
ghost use Rattle.osm_net.specs.Networks.{HasMoved, HasStopped, IsNet, IsSameNet, SaysStep, SaysStepOf, StandsForSome, machine_of, queued_in};
ghost use Rattle.osm_net.specs.declared.stepped.Stepped.TheVariants.{Moved};
ghost use Rattle.osm_entity.specs.declared.stream.Want.TheVariants.{Give, Pull, Take};

use crate::machine::TaskMachine;
use crate::queue::Queue;
use crate::stepped::Stepped;
use crate::task_pipes::TaskPipes;
use osm_entity::{NoMemory, Want};
use osm_graph::Pipe;

/// The pipes of a graph and the tables of them, the machines of its tasks and the queues of its
/// pipes.
#[derive(Drop)]
pub struct Lists<M> {
    pub pipes: Vec<Pipe>,
    pub tables: Vec<TaskPipes>,
    pub machines: Vec<M>,
    pub queues: Vec<Queue>,
}

impl<M: TaskMachine> Lists<M> {
    // Takes a message of the pipe into an input, where it holds one.
    fn take(&mut self, task: u32, pipe: usize, port: u32) -> Result<Stepped, NoMemory>
        requires net { IsNet M.of (net_of self.old) }
        requires task { task < length self.old.machines.items }
        requires wants { (d : M) →
            M.of.wanted (machine_of self.old.machines.items d task) ≡ Take port }
        requires there { pipe_into self.old.pipes.items task port ≡ Some pipe }
        ensures says { IfOk result
            (SaysStep self.old.pipes.items (queued_in self.old.queues.items) task (Take port)) }
        ensures moved { result ≡ Ok Moved
            → HasMoved M.of (λ m. M.reads (M.names m)) task (net_of self.old) (net_of self.new) }
        ensures still { IfOk result (λ s. s ≢ Moved → net_of self.new ≡ net_of self.old) }
        ensures stopped { OnErr result
            (HasStopped M.of (λ m. M.reads (M.names m)) (net_of self.old) (net_of self.new)) }
        ensures net { IsNet M.of (net_of self.new) }
        ensures tables { self.new.tables ≡ self.old.tables }
        ensures same { IsSameNet M.of M.names (net_of self.old) (net_of self.new) }
    {
        let queue = &mut self.queues[pipe];
        let Some(message) = queue.take() else {
            return Ok(Stepped::Empty { pipe: pipe as u32 });
        };
        let machine = &mut self.machines[task as usize];
        machine.accept(port, message)?;
        Ok(Stepped::Moved)
    }

    // Gives a message into the pipe out of an output, where there is room.
    fn give(&mut self, task: u32, pipe: usize, port: u32) -> Result<Stepped, NoMemory>
        requires net { IsNet M.of (net_of self.old) }
        requires task { task < length self.old.machines.items }
        requires wants { (d : M) →
            M.of.wanted (machine_of self.old.machines.items d task) ≡ Give port }
        requires there { pipe_out self.old.pipes.items task port ≡ Some pipe }
        ensures says { IfOk result
            (SaysStep self.old.pipes.items (queued_in self.old.queues.items) task (Give port)) }
        ensures moved { result ≡ Ok Moved
            → HasMoved M.of (λ m. M.reads (M.names m)) task (net_of self.old) (net_of self.new) }
        ensures still { IfOk result (λ s. s ≢ Moved → net_of self.new ≡ net_of self.old) }
        ensures stopped { OnErr result
            (HasStopped M.of (λ m. M.reads (M.names m)) (net_of self.old) (net_of self.new)) }
        ensures net { IsNet M.of (net_of self.new) }
        ensures tables { self.new.tables ≡ self.old.tables }
        ensures same { IsSameNet M.of M.names (net_of self.old) (net_of self.new) }
    {
        if self.queues[pipe].is_full() {
            return Ok(Stepped::Full { pipe: pipe as u32 });
        }
        let machine = &mut self.machines[task as usize];
        let message = machine.hand(port)?;
        let queue = &mut self.queues[pipe];
        queue.give(message)?;
        Ok(Stepped::Moved)
    }

    // Pulls a piece of the source of a task.
    fn pull(&mut self, task: u32) -> Result<Stepped, NoMemory>
        requires net { IsNet M.of (net_of self.old) }
        requires task { task < length self.old.machines.items }
        requires wants { (d : M) → M.of.wanted (machine_of self.old.machines.items d task) ≡ Pull }
        ensures says { IfOk result (λ s. s ≡ Moved) }
        ensures moved { result ≡ Ok Moved
            → HasMoved M.of (λ m. M.reads (M.names m)) task (net_of self.old) (net_of self.new) }
        ensures stopped { OnErr result
            (HasStopped M.of (λ m. M.reads (M.names m)) (net_of self.old) (net_of self.new)) }
        ensures net { IsNet M.of (net_of self.new) }
        ensures tables { self.new.tables ≡ self.old.tables }
        ensures same { IsSameNet M.of M.names (net_of self.old) (net_of self.new) }
    {
        let machine = &mut self.machines[task as usize];
        machine.pull()?;
        Ok(Stepped::Moved)
    }

    /// One step of a task.
    pub fn step(&mut self, task: u32) -> Result<Stepped, NoMemory>
        requires lists { AreLists M.of self.old }
        requires task { task < length self.old.machines.items }
        requires stands { StandsForSome M.of (net_of self.old) }
        ensures says { IfOk result (SaysStepOf M.of (net_of self.old) task) }
        ensures moved { result ≡ Ok Moved
            → HasMoved M.of (λ m. M.reads (M.names m)) task (net_of self.old) (net_of self.new) }
        ensures still { IfOk result (λ s. s ≢ Moved → net_of self.new ≡ net_of self.old) }
        ensures stopped { OnErr result
            (HasStopped M.of (λ m. M.reads (M.names m)) (net_of self.old) (net_of self.new)) }
        ensures lists { AreLists M.of self.new }
        ensures same { IsSameNet M.of M.names (net_of self.old) (net_of self.new) }
    {
        let want = self.machines[task as usize].want();
        match want {
            Want::Pull => self.pull(task),
            Want::Take(port) => match self.tables[task as usize].input(port) {
                Some(pipe) => self.take(task, pipe, port),
                None => unreachable!(),
            },
            Want::Give(port) => match self.tables[task as usize].output(port) {
                Some(pipe) => self.give(task, pipe, port),
                None => unreachable!(),
            },
            Want::Ended => Ok(Stepped::Ended),
        }
    }
}

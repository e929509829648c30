//! The network: machines, and a queue for each pipe between them.
ghost use Rattle.std.specs.Prelude.{◌≡◌, ◌≢◌, ◌<◌, ◌≤◌, ◌||◌, ℕ, Ok, false, length, map, IfErr, IfOk, OnErr, OnOk};
ghost use Rattle.osm_graph.specs.Graphs.{most_joined_tasks, most_pipes};
ghost use Rattle.osm_net.specs.Histories.{new_history};
ghost use Rattle.osm_net.specs.Nets.{CanHold, HasNoBareCircle};
ghost use Rattle.osm_net.specs.Networks.{HasMoved, HasStopped, IsNet, IsSameNet, IsStuck, NetEnded, RanOn, SaysStepOf, StandsForHistory, StandsForSome, StoppedCounted, WentOnCounted, empty_queue, machine_of};
ghost use Rattle.osm_net.specs.PortTables.{AreTables};
ghost use Rattle.osm_net.specs.Runs.{AreNewMachines};
ghost use Rattle.osm_net.specs.declared.stepped.Stepped.TheVariants.{Moved};

use crate::lists::Lists;
use crate::machine::TaskMachine;
use crate::queue::Queue;
use crate::stepped::Stepped;
use crate::task_pipes::TaskPipes;
use osm_entity::{NoMemory, Steps};
use osm_graph::Pipe;
use std::alloc::Global;
use std::marker::Model;
use std::sync::ledger::Ledger;

/// The machines of a graph's tasks and the queues of its pipes. After `NoMemory` only `finish` is
/// called.
#[derive(Drop)]
pub struct Net<M: TaskMachine> {
    lists: Lists<M>,
}

impl<M: TaskMachine> Model for Net<M> {
    ghost use Rattle.osm_net.specs.Networks.{NetValue};

    ghost Value = { NetValue M };

    ghost use Rattle.osm_net.specs.NetLists.{AreLists, net_of};

    ghost view = { λ n. net_of n.lists };

    ghost invariant = { λ n. AreLists M.of n.lists };
}

impl<M: TaskMachine> Net<M> {
    /// A network of new machines, with empty queues. Out of memory it gives the machines back.
    pub fn new(alloc: Global, pipes: &[Pipe], machines: Vec<M>) -> Result<Net<M>, Vec<M>>
        requires tasks { AreNewMachines M.of pipes.now machines.items }
        requires holds { CanHold pipes.now }
        requires few_pipes { length pipes.now ≤ most_pipes }
        requires few_tasks { length machines.items ≤ most_joined_tasks }
        ensures made { IfOk result (λ n. (n.pipes ≡ pipes.now) × (n.machines ≡ machines.items)) }
        ensures stands { IfOk result (λ n. (d : M)
            → StandsForHistory M.of n (new_history (machine_of machines.items d))) }
        ensures back { IfErr result (λ back. back.items ≡ machines.items) }
    {
        match new_lists(alloc, pipes, machines.len()) {
            Ok((pipes, tables, queues)) => Ok(Net {
                lists: Lists {
                    pipes,
                    tables,
                    machines,
                    queues,
                },
            }),
            Err(NoMemory) => Err(machines),
        }
    }

    /// One step of a task: it moves exactly where it can, and else nothing changes. At `NoMemory`
    /// the machines are behind what they stood for.
    pub fn step(&mut self, task: u32) -> Result<Stepped, NoMemory>
        requires task { task < length self.old.machines }
        requires stands { StandsForSome M.of self.old }
        ensures says { IfOk result (SaysStepOf M.of self.old task) }
        ensures moved { result ≡ Ok Moved
            → HasMoved M.of (λ m. M.reads (M.names m)) task self.old self.new }
        ensures still { IfOk result (λ s. s ≢ Moved → self.new ≡ self.old) }
        ensures stopped { OnErr result
            (HasStopped M.of (λ m. M.reads (M.names m)) self.old self.new) }
        ensures same { IsSameNet M.of M.names self.old self.new }
    {
        self.lists.step(task)
    }

    /// What every network keeps.
    pub fn kept(&self)
        ensures { IsNet M.of self.now }
    {
        let _lists = &self.lists;
    }

    // How many tasks there are.
    fn tasks(&self) -> u32
        ensures { result ≡ length self.now.machines }
    {
        self.lists.machines.len() as u32
    }

    // Steps a task until it can't move, at most 256 times, and says whether it moved.
    fn turn<L: Ledger>(&mut self, task: u32, steps: &mut Steps<L>) -> Result<bool, NoMemory>
        requires task { task < length self.old.machines }
        requires stands { StandsForSome M.of self.old }
        ensures ran { IfOk result (RanOn M.of (λ m. M.reads (M.names m)) self.old self.new
            steps.old steps.new) }
        ensures stuck { IfOk result (λ moved. moved ≡ false → IsStuck M.of self.new task) }
        ensures stopped { OnErr result (StoppedCounted M.of (λ m. M.reads (M.names m))
            self.old self.new steps.old steps.new) }
        ensures same { IsSameNet M.of M.names self.old self.new }
    {
        let mut moved = false;
        for _turn in 0..256u32 {
            let stepped = self.step(task)?;
            let Stepped::Moved = stepped else {
                return Ok(moved);
            };
            steps.tick();
            moved = true;
        }
        Ok(moved)
    }

    // A turn for each task, and whether one moved.
    fn round<L: Ledger>(&mut self, steps: &mut Steps<L>) -> Result<bool, NoMemory>
        requires stands { StandsForSome M.of self.old }
        ensures ran { IfOk result (RanOn M.of (λ m. M.reads (M.names m)) self.old self.new
            steps.old steps.new) }
        ensures stuck { IfOk result (λ moved. moved ≡ false
            → (t : ℕ) → t < length self.new.machines → IsStuck M.of self.new t) }
        ensures stopped { OnErr result (StoppedCounted M.of (λ m. M.reads (M.names m))
            self.old self.new steps.old steps.new) }
        ensures same { IsSameNet M.of M.names self.old self.new }
    {
        let mut moved = false;
        for task in 0..self.tasks() {
            let went = self.turn(task, steps)?;
            moved = either(moved, went);
        }
        Ok(moved)
    }

    /// Runs until all tasks have ended. Each step is counted; a task moves until it can't, at most
    /// 256 times, before the next one's turn.
    pub fn run_alone<L: Ledger>(&mut self, steps: &mut Steps<L>) -> Result<(), NoMemory>
        requires stands { StandsForSome M.of self.old }
        requires circle { HasNoBareCircle self.old.pipes }
        ensures ended { OnOk result (NetEnded M.of self.new) }
        ensures went { OnOk result (WentOnCounted M.of (λ m. M.reads (M.names m))
            self.old self.new steps.old steps.new) }
        ensures stopped { OnErr result (StoppedCounted M.of (λ m. M.reads (M.names m))
            self.old self.new steps.old steps.new) }
        ensures same { IsSameNet M.of M.names self.old self.new }
    {
        loop {
            let moved = self.round(steps)?;
            if !moved {
                self.kept();
                return Ok(());
            }
        }
    }

    /// The machines, in the order of their tasks.
    pub fn finish(self) -> Vec<M>
        ensures machines { result.items ≡ self.machines }
        ensures net { IsNet M.of self }
    {
        self.lists.machines
    }
}

// Whether one of two holds.
fn either(a: bool, b: bool) -> bool
    ensures { result ≡ (a || b) }
{
    a || b
}

// Copies of the pipes, with their tables and empty queues.
fn new_lists(
    alloc: Global,
    pipes: &[Pipe],
    tasks: usize,
) -> Result<(Vec<Pipe>, Vec<TaskPipes>, Vec<Queue>), NoMemory>
    requires { tasks ≤ most_joined_tasks }
    ensures pipes { IfOk result (λ made. made.0.items ≡ pipes.now) }
    ensures tables { IfOk result (λ made. AreTables pipes.now tasks made.1.items) }
    ensures queues { IfOk result (λ made. made.2.items ≡ map empty_queue pipes.now) }
{
    let copies = copy_pipes(alloc, pipes)?;
    let tables = make_tables(alloc, pipes, tasks as u32)?;
    let queues = make_queues(alloc, pipes)?;
    Ok((copies, tables, queues))
}

// A copy of the pipes.
fn copy_pipes(alloc: Global, pipes: &[Pipe]) -> Result<Vec<Pipe>, NoMemory>
    ensures { IfOk result (λ copies. copies.items ≡ pipes.now) }
{
    match Vec::from_slice(alloc, pipes) {
        Ok(copies) => Ok(copies),
        Err(_) => Err(NoMemory),
    }
}

// The tables of each task.
fn make_tables(alloc: Global, pipes: &[Pipe], tasks: u32) -> Result<Vec<TaskPipes>, NoMemory>
    ensures { IfOk result (λ tables. AreTables pipes.now tasks tables.items) }
{
    let mut tables = Vec::new(alloc);
    for task in 0..tasks {
        let table = TaskPipes::of(alloc, pipes, task)?;
        match tables.push(table) {
            Ok(()) => {}
            Err(_) => return Err(NoMemory),
        }
    }
    Ok(tables)
}

// An empty queue for each pipe.
fn make_queues(alloc: Global, pipes: &[Pipe]) -> Result<Vec<Queue>, NoMemory>
    ensures { IfOk result (λ queues. queues.items ≡ map empty_queue pipes.now) }
{
    let mut queues = Vec::new(alloc);
    for pipe in pipes {
        let queue = Queue::new(alloc, pipe.store)?;
        if queues.push(queue).is_err() {
            return Err(NoMemory);
        }
    }
    Ok(queues)
}

//! A run of all tasks, each on a thread of its own.
ghost use Rattle.std.specs.Prelude.{◌≡◌, ◌<◌, ◌≤◌, [], All, IfOk, not, true, false, length, vec_capacity, vec_len};
ghost use Rattle.std.specs.List.{AllZip};
ghost use Rattle.osm_graph.specs.Graphs.{most_joined_tasks, most_pipes};
ghost use Rattle.osm_net.specs.Nets.{CanHold, HasNoBareCircle};
ghost use Rattle.osm_net.specs.Runs.{AreNewMachines, AreRun, KeepNames};
ghost use Rattle.osm_threads.specs.Meetings.{AreApart};
ghost use Rattle.osm_threads.specs.Rows.{AreJoined, AreMade, inlets_of, outlets_of};
ghost use Rattle.osm_threads.specs.Running.{AreParts, are_whole, machines_back, machines_started, ports_back, ports_started};
ghost use Rattle.osm_threads.specs.Starts.{IsBackOf, IsNewGate, IsReadyStart};

use crate::gates::{Gate, line_up, new_gates};
use crate::joining::{bare_tasks, join_all, room};
use crate::meeting::meet_all;
use crate::ports::TaskPorts;
use crate::starts::{Back, Run, Start, start_all};
use osm_entity::{NoMemory, Steps};
use osm_graph::Pipe;
use osm_net::{Finished, TaskMachine, run_tasks_alone};
use osm_pipe::{Giver, Sent};
use std::alloc::Global;
use std::marker::Brand;
use std::snapshot::Snapshot;
use std::sync::Wait;
use std::sync::ledger::{Blank, Ledger};
use std::thread::Threads;

/// What a run takes memory for: the pipes at the ports of all tasks, the gates, and room for what is
/// started and for what is back.
#[derive(Drop)]
pub struct Parts<M> {
    pub tasks: Vec<TaskPorts>,
    pub gates: Vec<Gate>,
    pub starts: Vec<Start<M>>,
    pub givers: Vec<Giver>,
    pub words: Vec<Sent>,
    pub backs: Vec<Back<M>>,
}

/// Makes what a run of this many tasks takes memory for.
fn make_parts<M: Drop, R: Wait>(
    rt: &R,
    alloc: Global,
    pipes: &[Pipe],
    count: usize,
) -> Result<Parts<M>, NoMemory>
    requires apart { AreApart pipes.now count }
    requires hold { CanHold pipes.now }
    ensures { IfOk result (AreParts pipes.now count) }
{
    let mut tasks = bare_tasks(alloc, count)?;
    join_all(rt, alloc, pipes, &mut tasks)?;
    let gates = new_gates(rt, alloc, count)?;
    let starts = room(alloc, count)?;
    let givers = room(alloc, count)?;
    let words = room(alloc, count)?;
    let backs = room(alloc, count)?;
    Ok(Parts {
        tasks,
        gates,
        starts,
        givers,
        words,
        backs,
    })
}

/// Parts what is back into the machines and their ports: whether all have ended.
#[tactic(auto, using(crate::proofs::BackLemmas::machines_back_more, crate::proofs::BackLemmas::ports_back_more, crate::proofs::BackLemmas::whole_more))]
fn take_apart<M: Drop>(
    mut backs: Vec<Back<M>>,
    machines: &mut Vec<M>,
    tasks: &mut Vec<TaskPorts>,
) -> bool
    requires no_machine { machines.old.items ≡ [] }
    requires machine_room { vec_len backs ≤ vec_capacity machines.old }
    requires no_ports { tasks.old.items ≡ [] }
    requires ports_room { vec_len backs ≤ vec_capacity tasks.old }
    ensures machines { machines.new.items ≡ machines_back backs.items }
    ensures machine_room { vec_capacity machines.new ≡ vec_capacity machines.old }
    ensures ports { tasks.new.items ≡ ports_back backs.items }
    ensures ports_room { vec_capacity tasks.new ≡ vec_capacity tasks.old }
    ensures whole { result ≡ are_whole backs.items }
{
    match backs.pop() {
        None => true,
        Some(back) => {
            let whole = take_apart(backs, machines, tasks);
            machines.push_reserved(back.machine);
            tasks.push_reserved(back.ports);
            whole && back.whole
        }
    }
}

/// Makes the starts of all machines, ready and joined as the graph says.
fn make_starts<M: TaskMachine>(
    pipes: &[Pipe],
    machines: &mut Vec<M>,
    tasks: &mut Vec<TaskPorts>,
    gates: &mut Vec<Gate>,
    starts: &mut Vec<Start<M>>,
)
    requires machines { AreNewMachines M.of pipes.now machines.old.items }
    requires apart { AreApart pipes.now (vec_len machines.old) }
    requires tasks { vec_len tasks.old ≡ vec_len machines.old }
    requires made { AreMade pipes.now (length pipes.now) (inlets_of tasks.old.items)
        (outlets_of tasks.old.items) }
    requires gates { (vec_len gates.old ≡ vec_len machines.old) × All IsNewGate gates.old.items }
    requires none { starts.old.items ≡ [] }
    requires room { vec_len machines.old ≤ vec_capacity starts.old }
    ensures ready { All (IsReadyStart M.of) starts.new.items }
    ensures joined { AreJoined pipes.now (inlets_of (ports_started starts.new.items))
        (outlets_of (ports_started starts.new.items)) }
    ensures machines { machines_started starts.new.items ≡ machines.old.items }
    ensures count { vec_len starts.new ≡ vec_len machines.old }
    ensures no_machine { machines.new.items ≡ [] }
    ensures machine_room { vec_capacity machines.new ≡ vec_capacity machines.old }
    ensures no_ports { tasks.new.items ≡ [] }
    ensures ports_room { vec_capacity tasks.new ≡ vec_capacity tasks.old }
{
    let _pipes = pipes;
    line_up(machines, tasks, gates, starts);
}

/// Where all threads were started: joins the halves of all pipes.
fn settle<M: TaskMachine + Drop, R: Wait>(
    rt: &R,
    pipes: &[Pipe],
    finished: Finished<M>,
    tasks: Vec<TaskPorts>,
    starts: Snapshot<Vec<Start<M>>>,
    backs: Snapshot<Vec<Back<M>>>,
) -> Finished<M>
    requires some { 0 < vec_len starts.value }
    requires new { AreNewMachines M.of pipes.now (machines_started starts.value.items) }
    requires joined { AreJoined pipes.now (inlets_of (ports_started starts.value.items))
        (outlets_of (ports_started starts.value.items)) }
    requires backs { AllZip (IsBackOf M.of M.names true) starts.value.items backs.value.items }
    requires machines { finished.machines.items ≡ machines_back backs.value.items }
    requires memory { finished.memory ≡ not (are_whole backs.value.items) }
    requires tasks { tasks.items ≡ ports_back backs.value.items }
    ensures run { AreRun M.of pipes.now (machines_started starts.value.items)
        result.machines.items result.memory }
    ensures names { KeepNames M.names (machines_started starts.value.items) result.machines.items }
{
    let _starts = starts;
    let _backs = backs;
    meet_all(rt, pipes, tasks);
    finished
}

/// Counts the steps of a run on this thread, for nobody.
fn run_counted<M: TaskMachine, L: Ledger>(
    alloc: Global,
    pipes: &[Pipe],
    machines: Vec<M>,
    blank: Blank,
) -> Finished<M>
    requires name { blank.name ≡ L.name }
    requires parts { blank.parts ≡ L.parts }
    requires counts { 0 < blank.parts }
    requires tasks { AreNewMachines M.of pipes.now machines.items }
    requires holds { CanHold pipes.now }
    requires few_pipes { length pipes.now ≤ most_pipes }
    requires few_tasks { length machines.items ≤ most_joined_tasks }
    requires circle { HasNoBareCircle pipes.now }
    ensures run { AreRun M.of pipes.now machines.items result.machines.items result.memory }
    ensures names { KeepNames M.names machines.items result.machines.items }
{
    let mut steps = Steps::<L>::new(blank);
    run_tasks_alone(alloc, pipes, machines, &mut steps)
}

/// Where a thread could not be started: all machines are as they were, and run on this thread.
fn run_here<M: TaskMachine>(
    alloc: Global,
    pipes: &[Pipe],
    machines: Vec<M>,
    starts: Snapshot<Vec<Start<M>>>,
    backs: Snapshot<Vec<Back<M>>>,
) -> Finished<M>
    requires backs { AllZip (IsBackOf M.of M.names false) starts.value.items backs.value.items }
    requires machines { machines.items ≡ machines_back backs.value.items }
    requires tasks { AreNewMachines M.of pipes.now (machines_started starts.value.items) }
    requires holds { CanHold pipes.now }
    requires few_pipes { length pipes.now ≤ most_pipes }
    requires few_tasks { length (machines_started starts.value.items) ≤ most_joined_tasks }
    requires circle { HasNoBareCircle pipes.now }
    ensures run { AreRun M.of pipes.now (machines_started starts.value.items)
        result.machines.items result.memory }
    ensures names { KeepNames M.names (machines_started starts.value.items) result.machines.items }
{
    let _starts = starts;
    let _backs = backs;
    run_counted::<M, Brand>(alloc, pipes, machines, Blank::new(1))
}

/// Machines of no task have ended.
fn finish_none<M: TaskMachine>(pipes: &[Pipe], machines: Vec<M>) -> Finished<M>
    requires none { machines.items ≡ [] }
    requires tasks { AreNewMachines M.of pipes.now machines.items }
    ensures run { AreRun M.of pipes.now machines.items result.machines.items result.memory }
    ensures names { KeepNames M.names machines.items result.machines.items }
{
    let _pipes = pipes;
    Finished {
        machines,
        memory: false,
    }
}

/// Without memory for the pipes no machine moves.
fn give_up<M: TaskMachine>(pipes: &[Pipe], machines: Vec<M>) -> Finished<M>
    requires { AreNewMachines M.of pipes.now machines.items }
    ensures run { AreRun M.of pipes.now machines.items result.machines.items result.memory }
    ensures names { KeepNames M.names machines.items result.machines.items }
{
    let _pipes = pipes;
    Finished {
        machines,
        memory: true,
    }
}

/// Runs the machines over the parts that were made for them.
fn run_parts<M: TaskMachine + Send + Drop, R: Threads + Wait + Sync>(
    rt: &R,
    alloc: Global,
    pipes: &[Pipe],
    mut machines: Vec<M>,
    parts: Parts<M>,
) -> Finished<M>
    requires some { 0 < vec_len machines }
    requires machines { AreNewMachines M.of pipes.now machines.items }
    requires apart { AreApart pipes.now (vec_len machines) }
    requires holds { CanHold pipes.now }
    requires few_pipes { length pipes.now ≤ most_pipes }
    requires few_tasks { length machines.items ≤ most_joined_tasks }
    requires circle { HasNoBareCircle pipes.now }
    requires parts { AreParts pipes.now (vec_len machines) parts }
    ensures run { AreRun M.of pipes.now machines.items result.machines.items result.memory }
    ensures names { KeepNames M.names machines.items result.machines.items }
{
    let Parts {
        mut tasks,
        mut gates,
        mut starts,
        givers,
        words,
        backs,
    } = parts;
    make_starts(pipes, &mut machines, &mut tasks, &mut gates, &mut starts);
    let started = Snapshot::of(&starts);
    let Run {
        backs,
        words: _,
        all,
    } = start_all(rt, starts, givers, words, backs);
    let back = Snapshot::of(&backs);
    let whole = take_apart(backs, &mut machines, &mut tasks);
    if all {
        let finished = Finished {
            machines,
            memory: !whole,
        };
        return settle(rt, pipes, finished, tasks, started, back);
    }
    run_here(alloc, pipes, machines, started, back)
}

/// Runs the tasks of a graph, each on a thread of its own, until all have ended or are out of memory.
/// Where a thread can't be started, they run on this thread.
pub fn run_tasks<M: TaskMachine + Send + Drop, R: Threads + Wait + Sync>(
    rt: &R,
    alloc: Global,
    pipes: &[Pipe],
    machines: Vec<M>,
) -> Finished<M>
    requires tasks { AreNewMachines M.of pipes.now machines.items }
    requires holds { CanHold pipes.now }
    requires few_pipes { length pipes.now ≤ most_pipes }
    requires few_tasks { length machines.items ≤ most_joined_tasks }
    requires circle { HasNoBareCircle pipes.now }
    ensures run { AreRun M.of pipes.now machines.items result.machines.items result.memory }
    ensures names { KeepNames M.names machines.items result.machines.items }
{
    if machines.is_empty() {
        return finish_none(pipes, machines);
    }
    match make_parts(rt, alloc, pipes, machines.len()) {
        Ok(parts) => run_parts(rt, alloc, pipes, machines, parts),
        Err(_) => give_up(pipes, machines),
    }
}

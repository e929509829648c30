//! The network of a command, stepped by hand: what each step says, where pipes are empty and full.
ghost use Rattle.std.specs.Prelude.{◌≡◌, ◌≢◌, ◌<◌, ◌∷◌, [], length};
ghost use Rattle.std.specs.List.{AllPairs};
ghost use Rattle.osm_entity.specs.Machines.{IsNew};
ghost use Rattle.osm_entity.specs.declared.kind.Flow.TheVariants.{Entities};
ghost use Rattle.osm_graph.specs.declared.pipe.Store.TheVariants.{Bounded};
ghost use Rattle.osm_machine.specs.MachineKinds.{machines};
ghost use Rattle.osm_net.specs.Networks.{StandsForSome};

use osm_entity::{Bytes, Flow, NoMemory, Sequence, Text};
use osm_graph::{Graph, Pipe, Store, connect};
use osm_host::{Fails, FileHeld, Files, Host, MemoryHost, MemorySink, MemorySource};
use osm_machine::{Machine, make};
use osm_net::{Net, Stepped, TaskMachine};
use osm_tasks::{Task, TaskKind, resolve};
use osm_words::split;
use std::process::Abort;

/// A machine over devices in memory.
type Driven = Machine<MemorySource, MemorySink>;

/// A reader, a buffer of one message, and a writer that drops all.
const WORDS: [&[u8]; 5] = [b"--read-opl", b"a", b"--buffer", b"1", b"--write-null"];

/// What `a` holds: one node.
const FILE: &[u8] = b"n1 x0 y0\n";

/// More moves than the reader makes of a file of one line.
const ENOUGH: u32 = 100;

fn text<R: Abort + AllocGlobal>(rt: &R, bytes: &[u8]) -> Text {
    Text::from_bytes(rt.alloc(), bytes).expect(rt, "a text")
}

/// The graph of the words.
fn graph_of<R: Abort + AllocGlobal>(rt: &R) -> Graph {
    let mut words = Sequence::new(rt.alloc());
    for word in &WORDS {
        words.push(text(rt, word)).expect(rt, "a word");
    }
    let list = split(rt.alloc(), words.as_slice()).expect(rt, "the words of tasks");
    let tasks = resolve(rt.alloc(), &list).expect(rt, "tasks");
    connect(rt.alloc(), tasks).expect(rt, "a graph")
}

/// The one file.
fn files_of<R: Abort + AllocGlobal>(rt: &R) -> Files
    ensures { AllPairs (λ f g. f.name ≢ g.name) result }
{
    let name = text(rt, b"a");
    let bytes = Bytes::from_slice(rt.alloc(), FILE).expect(rt, "bytes");
    let mut files = Files::new(rt.alloc());
    files.push(FileHeld { name, bytes }).expect(rt, "a file");
    files
}

/// A source of the file.
fn source_of<R: Abort + AllocGlobal>(rt: &R) -> MemorySource {
    let (files, fails) = (files_of(rt), Fails::new(rt.alloc()));
    let mut host = MemoryHost::new(rt.alloc(), files, 4096, fails, false).expect(rt, "a host");
    host.open_source(&text(rt, b"a")).expect(rt, "a source")
}

/// The machine of a task. The task has these counts of inputs and outputs.
fn machine_of<R: Abort + AllocGlobal>(rt: &R, task: &Task, inputs: u32, outputs: u32) -> Driven
    ensures new { IsNew machines result }
    ensures inputs { (machines.task result).inputs ≡ inputs }
    ensures outputs { (machines.task result).outputs ≡ outputs }
{
    let machine = make_machine(rt, task);
    assert!(rt; machine.inputs() == inputs && machine.outputs() == outputs);
    machine
}

fn make_machine<R: Abort + AllocGlobal>(rt: &R, task: &Task) -> Driven
    ensures { IsNew machines result }
{
    match &task.kind {
        TaskKind::ReadOpl { .. } => {
            make(rt.alloc(), task, None, Some(source_of(rt)), None).expect(rt, "a reader")
        }
        TaskKind::Buffer { .. } | TaskKind::WriteNull => {
            make(rt.alloc(), task, None, None, None).expect(rt, "a machine")
        }
        _ => panic!(rt; "a task that the words haven't"),
    }
}

/// A pipe from the one output of a task to the one input of the next.
fn pipe_after(from: u32, to: u32, capacity: u32) -> Pipe
    ensures { result ≡ record {
      from = from;
      from_port = 0;
      to = to;
      to_port = 0;
      flow = Entities;
      store = Bounded capacity;
    } }
{
    Pipe {
        from,
        from_port: 0,
        to,
        to_port: 0,
        flow: Flow::Entities,
        store: Store::Bounded(capacity),
    }
}

fn three<R: Abort + AllocGlobal, M: Drop>(rt: &R, first: M, second: M, third: M) -> Vec<M>
    ensures { result.items ≡ first ∷ second ∷ third ∷ [] }
{
    let mut all = Vec::new(rt.alloc());
    all.push(first).expect(rt, "the first");
    all.push(second).expect(rt, "the second");
    all.push(third).expect(rt, "the third");
    all
}

/// The network of three machines in a chain. Its two pipes, which have to be those of the words,
/// hold one message before the buffer and 64 behind it.
fn chain<R: Abort + AllocGlobal, M: TaskMachine + Drop>(
    rt: &R,
    joined: &[Pipe],
    reader: M,
    buffer: M,
    writer: M,
) -> Net<M>
    requires new { IsNew M.of reader × IsNew M.of buffer × IsNew M.of writer }
    requires reads { (M.of.task reader).inputs ≡ 0 × (M.of.task reader).outputs ≡ 1 }
    requires passes { (M.of.task buffer).inputs ≡ 1 × (M.of.task buffer).outputs ≡ 1 }
    requires ends { (M.of.task writer).inputs ≡ 1 × (M.of.task writer).outputs ≡ 0 }
    ensures tasks { length result.machines ≡ 3 }
    ensures stands { StandsForSome M.of result }
{
    let pipes = [pipe_after(0, 1, 1), pipe_after(1, 2, 64)];
    assert!(rt; joined == pipes.as_slice());
    let machines = three(rt, reader, buffer, writer);
    match Net::new(rt.alloc(), &pipes, machines) {
        Ok(net) => net,
        Err(_machines) => panic!(rt; "a network"),
    }
}

/// The network of the words.
fn net_of<R: Abort + AllocGlobal>(rt: &R) -> Net<Driven>
    ensures tasks { length result.machines ≡ 3 }
    ensures stands { StandsForSome machines result }
{
    let graph = graph_of(rt);
    let [first, second, third] = graph.tasks().as_slice() else {
        panic!(rt; "three tasks");
    };
    let reader = machine_of(rt, first, 0, 1);
    let buffer = machine_of(rt, second, 1, 1);
    let writer = machine_of(rt, third, 1, 0);
    chain(rt, graph.as_pipes(), reader, buffer, writer)
}

/// One step of a task.
fn step<R: Abort, M: TaskMachine>(rt: &R, net: &mut Net<M>, task: u32) -> Stepped
    requires tasks { length net.old.machines ≡ 3 }
    requires task { task < 3 }
    requires stands { StandsForSome M.of net.old }
    ensures tasks { length net.new.machines ≡ 3 }
    ensures stands { StandsForSome M.of net.new }
{
    match net.step(task) {
        Ok(stepped) => stepped,
        Err(NoMemory) => panic!(rt; "out of memory"),
    }
}

/// Steps of a task, up to the one that doesn't move it.
fn step_on<R: Abort, M: TaskMachine>(rt: &R, net: &mut Net<M>, task: u32) -> Stepped
    requires tasks { length net.old.machines ≡ 3 }
    requires task { task < 3 }
    requires stands { StandsForSome M.of net.old }
    ensures tasks { length net.new.machines ≡ 3 }
    ensures stands { StandsForSome M.of net.new }
{
    for _move in 0..ENOUGH {
        let stepped = step(rt, net, task);
        if stepped != Stepped::Moved {
            return stepped;
        }
    }
    panic!(rt; "it moves on and on")
}

#[test]
fn steps_say_which_pipe_is_empty_and_which_is_full(rt: HostRuntime) {
    let mut net = net_of(&rt);
    assert_eq!(rt; step(&rt, &mut net, 1), Stepped::Empty { pipe: 0 });
    assert_eq!(rt; step_on(&rt, &mut net, 0), Stepped::Full { pipe: 0 });
    assert_eq!(rt; step(&rt, &mut net, 1), Stepped::Moved);
    assert_eq!(rt; step(&rt, &mut net, 0), Stepped::Moved);
    assert_eq!(rt; step(&rt, &mut net, 0), Stepped::Ended);
}

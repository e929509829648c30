//! Joins the ports of a command: readers first, then the pipes to them.
ghost use Rattle.std.specs.Prelude.{◌≡◌, ◌≢◌, ◌==◌, ◌∷◌, [], All, None, Some, Ok, Err, IfOk, IfErr, OnOk, find, slice_get};
ghost use Rattle.std.specs.List.{list_any};
ghost use Rattle.std.specs.Option.{option_copied};
ghost use Rattle.std.specs.Result.{result_err};
ghost use Rattle.osm_tasks.specs.Tasks.{IsTask};
ghost use Rattle.osm_graph.specs.Joining.{has_flow, input_fault, is_put, is_taken, joined_ports, output_fault, pipe_between, pipes_from, port_fault, ports_fault, reader_from, reader_of, readers_of};
ghost use Rattle.osm_graph.specs.Matching.{puts_named, source_place, takes_named};
ghost use Rattle.osm_graph.specs.Ports.{ports_of};
ghost use Rattle.osm_graph.specs.declared.fault.GraphError.TheVariants.{Memory};

use crate::fault::GraphError;
use crate::graph::Pipes;
use crate::matching::source_place;
use crate::number::number_of;
use crate::pipe::{Pipe, Store};
use crate::port::{Port, ports_of};
use osm_entity::{Flow, Sequence, Text};
use osm_tasks::Task;
use std::alloc::Global;

/// The most pipes of a command.
const MOST_PIPES: usize = 128;

/// An input, and the place among all ports of the output whose pipe it takes.
#[derive(Clone, Copy, Debug, Drop)]
pub(crate) struct Reader {
    pub place: usize,
    pub task: u32,
    pub port: u32,
    /// What the pipe to it holds.
    pub store: Store,
}

type Readers = Sequence<Reader>;

/// The pipes between all ports of a command.
pub(crate) fn join(alloc: Global, tasks: &[Task]) -> Result<Pipes, GraphError>
    ensures ok { IfOk result (λ pipes. joined_ports (ports_of tasks.now) ≡ Ok pipes) }
    ensures kept { OnOk result (All IsTask tasks.now) }
    ensures refused { IfErr result (λ e. e ≢ Memory → joined_ports (ports_of tasks.now) ≡ Err e) }
{
    let ports = ports_of(alloc, tasks)?;
    let readers = readers_of(alloc, ports.as_slice())?;
    pipes_of(alloc, ports.as_slice(), readers.as_slice())
}

// The readers among ports, or the first port that is refused.
fn readers_of(alloc: Global, ports: &[Port]) -> Result<Readers, GraphError>
    ensures ok { IfOk result (λ readers. readers ≡ readers_of [] ports.now) }
    ensures fine { OnOk result (ports_fault [] ports.now ≡ None) }
    ensures refused { IfErr result (λ e. e ≢ Memory → ports_fault [] ports.now ≡ Some e) }
{
    let mut readers = Readers::new(alloc);
    for (place, port) in ports.iter().enumerate() {
        let earlier = &ports[..place];
        if port.gives {
            check_output(earlier, port)?;
        } else {
            let reader = join_input(earlier, port)?;
            readers.push(reader)?;
        }
    }
    Ok(readers)
}

fn check_output(earlier: &[Port], port: &Port) -> Result<(), GraphError>
    ensures { result_err result ≡ output_fault earlier.now port.now }
{
    let task = port.task;
    let number = port.port;
    if earlier.iter().filter(|port| port.gives).count() >= MOST_PIPES {
        Err(GraphError::TooManyPipes { task, port: number })
    } else if is_put(earlier, port) {
        Err(GraphError::PipeTwice { task, port: number })
    } else {
        Ok(())
    }
}

fn is_put(earlier: &[Port], port: &Port) -> bool
    ensures { result ≡ is_put earlier.now port.now.name }
{
    match port.name {
        Some(name) => any_puts(earlier, name),
        None => false,
    }
}

fn is_taken(earlier: &[Port], port: &Port) -> bool
    ensures { result ≡ is_taken earlier.now port.now.name }
{
    match port.name {
        Some(name) => any_takes(earlier, name),
        None => false,
    }
}

fn any_puts(earlier: &[Port], name: &Text) -> bool
    ensures { result ≡ list_any (puts_named name.now) earlier.now }
{
    earlier.iter().any(|port| port.puts(name))
}

fn any_takes(earlier: &[Port], name: &Text) -> bool
    ensures { result ≡ list_any (takes_named name.now) earlier.now }
{
    earlier.iter().any(|port| port.takes(name))
}

fn has_flow(flow: Flow, port: Option<&Port>) -> bool
    ensures { result ≡ has_flow flow (option_copied port.entry) }
{
    match port {
        Some(port) => port.flow == flow,
        None => false,
    }
}

// The input as the reader of its pipe, or why it has none.
fn join_input(earlier: &[Port], port: &Port) -> Result<Reader, GraphError>
    ensures reader { IfOk result (λ reader.
        reader ∷ [] ≡ reader_from port.now (source_place earlier.now port.now.name)) }
    ensures refused { result_err result ≡ input_fault earlier.now port.now (source_place earlier.now port.now.name) }
{
    let task = port.task;
    let number = port.port;
    match source_place(earlier, port) {
        None => match port.name {
            None => Err(GraphError::NoPipe { task, port: number }),
            Some(_) => Err(GraphError::PipeUnknown { task, port: number }),
        },
        Some(place) => {
            if is_taken(earlier, port) {
                Err(GraphError::PipeTaken { task, port: number })
            } else if has_flow(port.flow, earlier.get(place)) {
                Ok(Reader {
                    place,
                    task,
                    port: number,
                    store: port.store,
                })
            } else {
                Err(GraphError::WrongType { task, port: number })
            }
        }
    }
}

// The pipes from the outputs to their readers, or the lowest that nobody reads.
fn pipes_of(alloc: Global, ports: &[Port], readers: &[Reader]) -> Result<Pipes, GraphError>
    ensures ok { IfOk result (λ pipes. pipes_from readers.now 0 0 ports.now ≡ Ok pipes) }
    ensures refused { IfErr result (λ e. e ≢ Memory → pipes_from readers.now 0 0 ports.now ≡ Err e) }
{
    let mut pipes = Pipes::new(alloc);
    for (place, port) in ports.iter().enumerate() {
        if port.gives {
            match reader_at(readers, place) {
                Some(reader) => pipes.push(pipe_between(port, reader))?,
                None => {
                    let pipe = number_of(pipes.len())?;
                    return Err(GraphError::UnusedPipes { pipe });
                }
            }
        }
    }
    Ok(pipes)
}

// The reader of the pipe that is put at a place.
fn reader_at(readers: &[Reader], place: usize) -> Option<Reader>
    ensures { result ≡ find (λ r. r.place == place) readers.now }
{
    readers.iter().copied().find(|reader| reader.place == place)
}

fn pipe_between(from: &Port, to: Reader) -> Pipe
    ensures { result ≡ pipe_between from.now to }
{
    Pipe {
        from: from.task,
        from_port: from.port,
        to: to.task,
        to_port: to.port,
        flow: from.flow,
        store: to.store,
    }
}

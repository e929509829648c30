//! The ports of the tasks of a command, in the order in which they are joined.
ghost use Rattle.std.specs.Prelude.{◌≡◌, ◌++◌, All, IfOk, IfErr, OnOk};
ghost use Rattle.osm_tasks.specs.Tasks.{IsTask};
ghost use Rattle.osm_graph.specs.Ports.{flow_at, ports_of, ports_of_task, side_ports, store_before};
ghost use Rattle.osm_graph.specs.declared.fault.GraphError.TheVariants.{Memory};

use crate::fault::GraphError;
use crate::number::number_of;
use crate::pipe::Store;
use osm_entity::{Flow, Sequence, Text};
use osm_tasks::{Task, TaskKind};
use std::alloc::Global;
use std::marker::Model;

/// An input or an output of a task.
#[derive(Drop)]
pub(crate) struct Port<'a> {
    pub task: u32,
    pub port: u32,
    /// Whether it is an output.
    pub gives: bool,
    pub flow: Flow,
    /// The name of its pipe.
    pub name: Option<&'a Text>,
    /// What a pipe into its task holds.
    pub store: Store,
}

impl<'a> Model for Port<'a> {
    ghost use Rattle.std.specs.Option.{option_copied};
    ghost use Rattle.osm_graph.specs.Ports.{PortValue};

    ghost Value = { PortValue };

    ghost view = { λ p. record {
      task = p.task;
      port = p.port;
      gives = p.gives;
      flow = p.flow;
      name = option_copied p.name;
      store = p.store;
    } };
}

/// Ports, in the order in which they are joined.
pub(crate) type Ports<'a> = Sequence<Port<'a>>;

/// The ports of all tasks: task by task, inputs before outputs.
pub(crate) fn ports_of(alloc: Global, tasks: &[Task]) -> Result<Ports<'_>, GraphError>
    ensures ok { IfOk result (λ ports. ports ≡ ports_of tasks.now) }
    ensures kept { OnOk result (All IsTask tasks.now) }
    ensures err { IfErr result (λ e. e ≡ Memory) }
{
    let mut ports = Ports::new(alloc);
    for (at, task) in tasks.iter().enumerate() {
        task.kept();
        let number = number_of(at)?;
        push_task(&mut ports, number, task)?;
    }
    Ok(ports)
}

fn push_task<'a>(ports: &mut Ports<'a>, number: u32, task: &'a Task) -> Result<(), GraphError>
    ensures ok { OnOk result (ports.new ≡ ports.old ++ ports_of_task number task.now) }
    ensures err { IfErr result (λ e. e ≡ Memory) }
{
    push_side(ports, number, &task.kind, false, task.inputs.as_slice())?;
    push_side(ports, number, &task.kind, true, task.outputs.as_slice())
}

// Adds the inputs or the outputs of a task.
fn push_side<'a>(
    ports: &mut Ports<'a>,
    task: u32,
    kind: &TaskKind,
    gives: bool,
    names: &'a [Option<Text>],
) -> Result<(), GraphError>
    ensures ok { OnOk result (ports.new ≡ ports.old ++ side_ports task kind.now gives 0 names.now) }
    ensures err { IfErr result (λ e. e ≡ Memory) }
{
    for (at, name) in names.iter().enumerate() {
        let port = Port {
            task,
            port: number_of(at)?,
            gives,
            flow: flow_at(kind, gives, at),
            name: name.as_ref(),
            store: store_before(kind),
        };
        ports.push(port)?;
    }
    Ok(())
}

fn flow_at(kind: &TaskKind, gives: bool, port: usize) -> Flow
    ensures { result ≡ flow_at kind.now gives port }
{
    let task = kind.task();
    let flow = if gives {
        task.output()
    } else {
        task.inputs().get(port).copied()
    };
    flow.unwrap_or(Flow::Entities)
}

fn store_before(kind: &TaskKind) -> Store
    ensures { result ≡ store_before kind.now }
{
    match kind {
        TaskKind::Buffer { capacity, .. } => Store::Bounded(*capacity),
        TaskKind::Spool { .. } => Store::Spool,
        _ => Store::Bounded(64),
    }
}

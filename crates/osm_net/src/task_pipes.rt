//! The pipes at the ports of a task, in tables.
ghost use Rattle.std.specs.Prelude.{◌≡◌, ◌==◌, ◌&&◌, IfOk, position, slice_get};
ghost use Rattle.osm_graph.specs.Pipes.{pipe_into, pipe_out};
ghost use Rattle.osm_net.specs.PortTables.{AgreesWith, AreTaskPipes};

use osm_entity::NoMemory;
use osm_graph::Pipe;
use std::alloc::Global;
use std::marker::Model;

/// The numbers of the pipes at a task's ports, by port.
#[derive(Debug, Drop)]
pub struct TaskPipes {
    inputs: Vec<usize>,
    outputs: Vec<usize>,
}

impl Model for TaskPipes {
    ghost use Rattle.osm_net.specs.PortTables.{TaskPipesValue};

    ghost Value = { TaskPipesValue };

    ghost view = { λ t. record { inputs = t.inputs.items; outputs = t.outputs.items } };
}

// The pipe into an input, where there is one.
fn find_into(pipes: &[Pipe], task: u32, port: u32) -> Option<usize>
    ensures { result ≡ pipe_into pipes.now task port }
{
    pipes
        .iter()
        .position(|pipe| pipe.to == task && pipe.to_port == port)
}

// The pipe out of an output, where there is one.
fn find_out(pipes: &[Pipe], task: u32, port: u32) -> Option<usize>
    ensures { result ≡ pipe_out pipes.now task port }
{
    pipes
        .iter()
        .position(|pipe| pipe.from == task && pipe.from_port == port)
}

// The pipes into a task, by port.
fn all_into(alloc: Global, pipes: &[Pipe], task: u32) -> Result<Vec<usize>, NoMemory>
    ensures { IfOk result (λ table. AgreesWith (pipe_into pipes.now task) table.items) }
{
    let mut table = Vec::new(alloc);
    for port in 0..u32::MAX {
        let Some(pipe) = find_into(pipes, task, port) else {
            return Ok(table);
        };
        if table.push(pipe).is_err() {
            return Err(NoMemory);
        }
    }
    // A table of 2^32 ports is too long.
    Err(NoMemory)
}

// The pipes out of a task, by port.
fn all_out(alloc: Global, pipes: &[Pipe], task: u32) -> Result<Vec<usize>, NoMemory>
    ensures { IfOk result (λ table. AgreesWith (pipe_out pipes.now task) table.items) }
{
    let mut table = Vec::new(alloc);
    for port in 0..u32::MAX {
        let Some(pipe) = find_out(pipes, task, port) else {
            return Ok(table);
        };
        if table.push(pipe).is_err() {
            return Err(NoMemory);
        }
    }
    // A table of 2^32 ports is too long.
    Err(NoMemory)
}

impl TaskPipes {
    /// The tables of a task.
    pub fn of(alloc: Global, pipes: &[Pipe], task: u32) -> Result<TaskPipes, NoMemory>
        ensures { IfOk result (AreTaskPipes pipes.now task) }
    {
        let inputs = all_into(alloc, pipes, task)?;
        let outputs = all_out(alloc, pipes, task)?;
        Ok(TaskPipes { inputs, outputs })
    }

    /// The pipe at an input.
    pub fn input(&self, port: u32) -> Option<usize>
        ensures { result ≡ slice_get self.now.inputs port }
    {
        self.inputs.get(port as usize).copied()
    }

    /// The pipe at an output.
    pub fn output(&self, port: u32) -> Option<usize>
        ensures { result ≡ slice_get self.now.outputs port }
    {
        self.outputs.get(port as usize).copied()
    }
}

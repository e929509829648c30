//! The graph of a command: its tasks, and the pipes between them.
ghost use Rattle.std.specs.Prelude.{◌≡◌, ◌<◌, length};
ghost use Rattle.osm_graph.specs.Graphs.{IsGraph};
ghost use Rattle.osm_graph.specs.Pipes.{pipe_of};

use crate::pipe::Pipe;
use osm_entity::Sequence;
use osm_tasks::Tasks;
use std::marker::Model;

/// Pipes, in the order in which their tasks put them.
pub type Pipes = Sequence<Pipe>;

/// The tasks of a command and the pipes between them. It keeps: each input and each output of each
/// task has exactly one pipe; a pipe leads to a later task; there are at most 128 pipes, and so at
/// most 256 tasks.
#[derive(Debug, Drop)]
pub struct Graph {
    pub(crate) tasks: Tasks,
    pub(crate) pipes: Pipes,
}

impl Model for Graph {
    ghost use Rattle.osm_graph.specs.Graphs.{GraphValue, IsGraph};

    ghost Value = { GraphValue };

    ghost view = { λ g. record { tasks = g.tasks; pipes = g.pipes } };

    ghost invariant = { λ g. IsGraph (record { tasks = g.tasks; pipes = g.pipes }) };
}

impl Graph {
    /// The pipe of this number. Pipes are counted from 0: by the task that puts them, then by its
    /// outputs.
    pub fn pipe(&self, pipe: u32) -> Pipe
        requires { pipe < length self.now.pipes }
        ensures { result ≡ pipe_of self.now.pipes pipe }
    {
        self.pipes.as_slice()[pipe as usize]
    }

    /// How many pipes there are: at most 128.
    pub fn pipes(&self) -> u32
        ensures { result ≡ length self.now.pipes }
    {
        self.pipes.len() as u32
    }

    /// All pipes, by their numbers.
    pub fn as_pipes(&self) -> &[Pipe]
        ensures { result.now ≡ self.now.pipes }
    {
        self.pipes.as_slice()
    }

    /// The tasks, in the order of the command.
    pub fn tasks(&self) -> &Tasks
        ensures { result.now ≡ self.now.tasks }
    {
        &self.tasks
    }

    /// What every graph keeps.
    pub fn kept(&self)
        ensures { IsGraph self.now }
    {
        let _tasks = &self.tasks;
    }
}

//! What ended a run, or came first among its tasks.
use osm_circle::Circle;
use osm_entity::{Cause, Spot};
use osm_graph::GraphError;
use osm_tasks::TaskError;
use osm_words::WordsError;

/// A call of a device, as a fault names it.
#[derive(Clone, Copy, Debug, PartialEq, Eq)]
pub enum DeviceCall {
    /// Opening a file, to read or to write it.
    Open,
    /// Reading from a file.
    Read,
    /// Writing to a file.
    Write,
    /// Keeping what was written.
    Keep,
    /// A call of a scratch store. No task that is built has one yet.
    Spill,
}

/// What ended a run, or came first among its tasks. Tasks are counted from 0.
#[derive(Debug, Drop, PartialEq)]
pub enum Fault {
    /// Nothing.
    Clean,
    /// The words are no list of tasks.
    Words(WordsError),
    /// A task isn't in the catalogue.
    Task(TaskError),
    /// The tasks are joined by pipes wrongly, or share a file that one of them writes.
    Graph(GraphError),
    /// Its tasks can wait for each other forever, since the pipes of this circle hold only so much.
    Buffering(Circle),
    /// The input of a task is wrong.
    Input { task: u32, cause: Cause, spot: Spot },
    /// A file gave more bytes than its limit, and those up to it are right.
    TooLong { task: u32 },
    /// A device failed.
    Device { task: u32, call: DeviceCall },
    /// Out of memory.
    Memory,
}

impl From<WordsError> for Fault {
    ghost use Rattle.std.specs.Prelude.{◌≡◌};
    ghost use Rattle.osm_report.specs.Refusals.{fault_of_words};

    ghost from_gives = { λ error fault. fault ≡ fault_of_words error };

    fn from(error: WordsError) -> Self {
        match error {
            WordsError::Memory => Fault::Memory,
            _ => Fault::Words(error),
        }
    }
}

impl From<TaskError> for Fault {
    ghost use Rattle.std.specs.Prelude.{◌≡◌};
    ghost use Rattle.osm_report.specs.Refusals.{fault_of_task};

    ghost from_gives = { λ error fault. fault ≡ fault_of_task error };

    fn from(error: TaskError) -> Self {
        match error {
            TaskError::Memory => Fault::Memory,
            _ => Fault::Task(error),
        }
    }
}

impl From<GraphError> for Fault {
    ghost use Rattle.std.specs.Prelude.{◌≡◌};
    ghost use Rattle.osm_report.specs.Refusals.{fault_of_graph};

    ghost from_gives = { λ error fault. fault ≡ fault_of_graph error };

    fn from(error: GraphError) -> Self {
        match error {
            GraphError::Memory => Fault::Memory,
            _ => Fault::Graph(error),
        }
    }
}

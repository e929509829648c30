//! Why tasks don't join into a graph.
use osm_entity::NoMemory;
use thiserror::Error;

/// Why tasks don't join into a graph. Tasks, their inputs and outputs, and pipes are counted from 0.
#[derive(Clone, Copy, Debug, PartialEq, Eq, Error)]
pub enum GraphError {
    /// An input without a name, before which no pipe without a name is open.
    #[error("no pipe")]
    NoPipe { task: u32, port: u32 },
    /// An input that takes entities, of a pipe of changes; or the other way round.
    #[error("wrong type")]
    WrongType { task: u32, port: u32 },
    /// An input that names a pipe that no earlier task puts.
    #[error("unknown pipe")]
    PipeUnknown { task: u32, port: u32 },
    /// An input that names a pipe that an earlier input takes.
    #[error("pipe already read")]
    PipeTaken { task: u32, port: u32 },
    /// An output that names a pipe as an earlier output does.
    #[error("pipe already written")]
    PipeTwice { task: u32, port: u32 },
    /// The output of the 129th pipe.
    #[error("too many pipes")]
    TooManyPipes { task: u32, port: u32 },
    /// The lowest pipe that no input takes.
    #[error("pipe never read")]
    UnusedPipes { pipe: u32 },
    /// A task that has the file of an earlier one, where one of the two writes it.
    #[error("same file")]
    SameFile { task: u32, earlier: u32 },
    /// Out of memory.
    #[error("out of memory")]
    Memory,
}

impl From<NoMemory> for GraphError {
    ghost use Rattle.std.specs.Prelude.{◌≡◌};
    ghost use Rattle.osm_graph.specs.declared.fault.GraphError.TheVariants.{Memory};

    ghost from_gives = { λ _ e. e ≡ Memory };

    fn from(_: NoMemory) -> Self {
        GraphError::Memory
    }
}

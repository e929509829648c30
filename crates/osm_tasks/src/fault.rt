//! Why a list of tasks isn't in the catalogue.
use osm_entity::NoMemory;
use thiserror::Error;

/// An option that a task can't do without.
#[derive(Clone, Copy, Debug, PartialEq, Eq)]
pub enum Needed {
    /// The name of its file.
    File,
    /// What a tag filter does.
    Mode,
    /// How many entities are made.
    Count,
}

/// Why a task isn't in the catalogue. Tasks and words are counted from 0.
#[derive(Clone, Copy, Debug, PartialEq, Eq, Error)]
pub enum TaskError {
    /// A name that no task has.
    #[error("unknown task")]
    UnknownTask { task: u32, word: u32 },
    /// An option that the task doesn't have.
    #[error("unknown option")]
    UnknownOption { task: u32, word: u32 },
    /// An option that an earlier word of the task gave.
    #[error("option repeated")]
    Repeated { task: u32, word: u32 },
    /// A value that the option doesn't allow.
    #[error("bad value")]
    BadValue { task: u32, word: u32 },
    /// No word gave an option that the task needs.
    #[error("option missing")]
    Missing { task: u32, option: Needed },
    /// A box with its left above its right, or its bottom above its top.
    #[error("empty box")]
    BadBox { task: u32 },
    /// Out of memory.
    #[error("out of memory")]
    Memory,
}

impl From<NoMemory> for TaskError {
    ghost use Rattle.std.specs.Prelude.{◌≡◌};
    ghost use Rattle.osm_tasks.specs.declared.fault.TaskError.TheVariants.{Memory};

    ghost from_gives = { λ _ e. e ≡ Memory };

    fn from(_: NoMemory) -> Self {
        TaskError::Memory
    }
}

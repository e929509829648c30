//! A command line as a list of tasks, each with the words after it, and why words are none.
use osm_entity::{NoMemory, Sequence, Text};
use thiserror::Error;

/// A word of a task, cut at its first `=`.
#[derive(Debug, Drop)]
pub struct OptionWord {
    /// The word's number among all words, from 0.
    pub word: u32,
    /// What stands before the `=`; empty where the word has none.
    pub name: Text,
    /// What stands after the `=`, or the whole word.
    pub value: Text,
}

/// The words of a task, in their order.
pub type OptionWords = Sequence<OptionWord>;

/// A task: the word that begins it, and the words after it.
#[derive(Debug, Drop)]
pub struct TaskWords {
    /// The number of the word that begins it, from 0.
    pub word: u32,
    /// What stands after the `--`.
    pub name: Text,
    pub options: OptionWords,
}

/// The tasks of a command line, in their order.
pub type TaskList = Sequence<TaskWords>;

/// Why words are no list of tasks. Words are counted from 0.
#[derive(Clone, Copy, Debug, PartialEq, Eq, Error)]
pub enum WordsError {
    /// There are no words.
    #[error("no tasks")]
    NoTasks,
    /// The first word doesn't begin with `--`.
    #[error("not a task")]
    NotATask { word: u32 },
    /// A word begins with `=`.
    #[error("empty option name")]
    EmptyName { word: u32 },
    /// A name that an earlier word of its task has.
    #[error("option repeated")]
    TwiceOption { word: u32 },
    /// A word without a name after an earlier one of its task.
    #[error("second unnamed option")]
    TwoUnnamed { word: u32 },
    /// The word that begins the 65th task.
    #[error("too many tasks")]
    TooManyTasks { word: u32 },
    /// Out of memory.
    #[error("out of memory")]
    Memory,
}

impl From<NoMemory> for WordsError {
    ghost use Rattle.std.specs.Prelude.{◌≡◌};
    ghost use Rattle.osm_words.specs.declared.list.WordsError.TheVariants.{Memory};

    ghost from_gives = { λ _ e. e ≡ Memory };

    fn from(_: NoMemory) -> Self {
        WordsError::Memory
    }
}

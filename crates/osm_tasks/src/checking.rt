//! Looks for what is wrong with the words of a task.
ghost use Rattle.std.specs.Prelude.{◌≡◌, length, []};
ghost use Rattle.std.specs.List.{find};
ghost use Rattle.osm_tasks.specs.Catalogue.{task_row};
ghost use Rattle.osm_tasks.specs.Given.{gives};
ghost use Rattle.osm_tasks.specs.Options.{option_row};
ghost use Rattle.osm_tasks.specs.Refusals.{box_fault, count_fault, given_fault, is_missing, is_tee, missing_by, missing_fault, options_refused, outputs_fault, outputs_said, pipe_fault, tells_tests, word_fault, words_fault};
ghost use Rattle.osm_tasks.specs.declared.naming.OptionName.TheVariants.{OutputCount};

use crate::fault::TaskError;
use crate::given::number;
use crate::kind::TaskKind;
use crate::naming::{OptionName, TaskName};
use crate::pipes::{is_pipe, names_port};
use osm_words::OptionWord;

impl TaskName {
    // Whether its words say how many outputs it has.
    fn is_tee(self) -> bool
        ensures { result ≡ is_tee self }
    {
        matches!(self, TaskName::Tee | TaskName::TeeChange)
    }

    // Whether it takes names that are no options as keys of tests.
    fn tells_tests(self) -> bool
        ensures { result ≡ tells_tests self }
    {
        matches!(self, TaskName::TagFilter)
    }

    /// How many outputs the task has.
    pub(crate) fn outputs(self, words: &[OptionWord]) -> usize
        ensures { result ≡ outputs_said self words.now }
    {
        if self.is_tee() {
            number(OptionName::OutputCount, words) as usize
        } else {
            match self.output() {
                Some(_) => 1,
                None => 0,
            }
        }
    }

    // The option that a word gives.
    fn option_given(self, word: &OptionWord) -> Option<OptionName>
        ensures { result ≡ find (λ option. gives option word.now) (task_row self).options }
    {
        self.options()
            .iter()
            .copied()
            .find(|option| option.is_given_by(word))
    }

    // The first option that it needs and no word gives.
    fn option_missing(self, words: &[OptionWord]) -> Option<OptionName>
        ensures { result ≡ find (is_missing words.now) (task_row self).options }
    {
        self.options()
            .iter()
            .copied()
            .find(|option| option.is_missing(words))
    }
}

impl OptionName {
    // Whether it is needed, and no word gives it.
    fn is_missing(self, words: &[OptionWord]) -> bool
        ensures { result ≡ is_missing words.now self }
    {
        self.needed().is_some() && !self.is_among(words)
    }
}

fn pipe_fault(task: u32, inputs: usize, outputs: usize, word: &OptionWord) -> Option<TaskError>
    ensures { result ≡ pipe_fault task inputs outputs word.now }
{
    let number = word.word;
    if !names_port(inputs, outputs, word) {
        Some(TaskError::UnknownOption { task, word: number })
    } else if word.value.as_slice().is_empty() {
        Some(TaskError::BadValue { task, word: number })
    } else {
        None
    }
}

fn given_fault(
    task: u32,
    name: TaskName,
    earlier: &[OptionWord],
    word: &OptionWord,
    given: Option<OptionName>,
) -> Option<TaskError>
    ensures { result ≡ given_fault task name earlier.now word.now given }
{
    let number = word.word;
    match given {
        None => {
            if name.tells_tests() && !word.name.as_slice().is_empty() {
                None
            } else {
                Some(TaskError::UnknownOption { task, word: number })
            }
        }
        Some(option) => {
            if option.is_among(earlier) {
                Some(TaskError::Repeated { task, word: number })
            } else if option.values().allows(word.value.as_slice()) {
                None
            } else {
                Some(TaskError::BadValue { task, word: number })
            }
        }
    }
}

fn word_fault(
    task: u32,
    name: TaskName,
    inputs: usize,
    outputs: usize,
    earlier: &[OptionWord],
    word: &OptionWord,
) -> Option<TaskError>
    ensures { result ≡ word_fault task name inputs outputs earlier.now word.now }
{
    if is_pipe(word) {
        pipe_fault(task, inputs, outputs, word)
    } else {
        given_fault(task, name, earlier, word, name.option_given(word))
    }
}

fn words_fault(
    task: u32,
    name: TaskName,
    inputs: usize,
    outputs: usize,
    words: &[OptionWord],
) -> Option<TaskError>
    ensures { result ≡ words_fault task name inputs outputs [] words.now }
{
    for (at, word) in words.iter().enumerate() {
        let earlier = &words[..at];
        if let Some(fault) = word_fault(task, name, inputs, outputs, earlier, word) {
            return Some(fault);
        }
    }
    None
}

fn count_fault(task: u32, name: TaskName, words: &[OptionWord]) -> Option<TaskError>
    ensures { result ≡ count_fault task name words.now }
{
    if !name.is_tee() {
        return None;
    }
    let option = OptionName::OutputCount;
    match option.first_in(words) {
        Some(word) => {
            let number = word.word;
            if option.values().allows(word.value.as_slice()) {
                None
            } else {
                Some(TaskError::BadValue { task, word: number })
            }
        }
        None => None,
    }
}

fn missing_fault(task: u32, name: TaskName, words: &[OptionWord]) -> Option<TaskError>
    ensures { result ≡ missing_fault task name words.now }
{
    match name.option_missing(words) {
        Some(option) => match option.needed() {
            Some(needed) => Some(TaskError::Missing {
                task,
                option: needed,
            }),
            None => None,
        },
        None => None,
    }
}

/// What is wrong with the words of a task: a tee's number of outputs, then the first bad word,
/// then an option that is missing.
pub(crate) fn options_fault(task: u32, name: TaskName, words: &[OptionWord]) -> Option<TaskError>
    ensures { result ≡ options_refused task name words.now }
{
    if let Some(fault) = count_fault(task, name, words) {
        return Some(fault);
    }
    let inputs = name.inputs().len();
    let outputs = name.outputs(words);
    if let Some(fault) = words_fault(task, name, inputs, outputs, words) {
        return Some(fault);
    }
    missing_fault(task, name, words)
}

/// Whether a task is a box that is empty.
pub(crate) fn box_fault(task: u32, kind: &TaskKind) -> Option<TaskError>
    ensures { result ≡ box_fault task kind.now }
{
    match kind {
        TaskKind::BoundingBox {
            left,
            right,
            top,
            bottom,
            ..
        } => {
            if *left <= *right && *bottom <= *top {
                None
            } else {
                Some(TaskError::BadBox { task })
            }
        }
        _ => None,
    }
}

//! The line of each fault.
ghost use Rattle.std.specs.Prelude.{◌≡◌, ◌≢◌, codes, true};
ghost use Rattle.osm_report.specs.Lines.{fault_text, graph_text, line_saying, no_memory, task_text, words_text};
ghost use Rattle.osm_report.specs.Places.{at_part};
ghost use Rattle.osm_report.specs.Printable.{are_words};
ghost use Rattle.osm_report.specs.declared.fault.Fault.TheVariants.{Clean};

use crate::circles::circle_line;
use crate::fault::Fault;
use crate::lines::Line;
use crate::places::{at_number, at_part, at_spot, at_task, same_file, saying};
use crate::words::{call_words, cause_words, needed_words};
use osm_graph::GraphError;
use osm_tasks::TaskError;
use osm_words::WordsError;

/// The line of a fault, which is said on standard error. It takes no memory.
pub fn line(fault: &Fault) -> Line
    requires { fault.now ≢ Clean }
    ensures { result ≡ fault_text fault.now }
{
    match fault {
        Fault::Clean => unreachable!(),
        Fault::Words(error) => words_line(*error),
        Fault::Task(error) => task_line(*error),
        Fault::Graph(error) => graph_line(*error),
        Fault::Buffering(circle) => circle_line(circle.as_slice()),
        Fault::Input { task, cause, spot } => at_spot(*task, *spot, cause_words(*cause)),
        Fault::TooLong { task } => at_task(*task, "input too long"),
        Fault::Device { task, call } => at_task(*task, call_words(*call)),
        Fault::Memory => out_of_memory(),
    }
}

// The line of words that are no list of tasks.
fn words_line(error: WordsError) -> Line
    ensures { result ≡ line_saying (words_text error) }
{
    match error {
        WordsError::NoTasks => saying("no tasks"),
        WordsError::NotATask { word } => at_number("word ", word, "not a task"),
        WordsError::EmptyName { word } => at_number("word ", word, "empty option name"),
        WordsError::TwiceOption { word } => at_number("word ", word, "option repeated"),
        WordsError::TwoUnnamed { word } => at_number("word ", word, "second unnamed option"),
        WordsError::TooManyTasks { word } => at_number("word ", word, "too many tasks"),
        WordsError::Memory => out_of_memory(),
    }
}

// The line of a task that isn't in the catalogue.
fn task_line(error: TaskError) -> Line
    ensures { result ≡ line_saying (task_text error) }
{
    match error {
        TaskError::UnknownTask { task, word } => at_word(task, word, "unknown task"),
        TaskError::UnknownOption { task, word } => at_word(task, word, "unknown option"),
        TaskError::Repeated { task, word } => at_word(task, word, "option repeated"),
        TaskError::BadValue { task, word } => at_word(task, word, "bad value"),
        TaskError::Missing { task, option } => at_task(task, needed_words(option)),
        TaskError::BadBox { task } => at_task(task, "empty box"),
        TaskError::Memory => out_of_memory(),
    }
}

// The line of tasks that their pipes don't join.
fn graph_line(error: GraphError) -> Line
    ensures { result ≡ line_saying (graph_text error) }
{
    match error {
        GraphError::NoPipe { task, port } => at_input(task, port, "no pipe"),
        GraphError::WrongType { task, port } => at_input(task, port, "wrong type"),
        GraphError::PipeUnknown { task, port } => at_input(task, port, "unknown pipe"),
        GraphError::PipeTaken { task, port } => at_input(task, port, "pipe already read"),
        GraphError::PipeTwice { task, port } => at_output(task, port, "pipe already written"),
        GraphError::TooManyPipes { task, port } => at_output(task, port, "too many pipes"),
        GraphError::UnusedPipes { pipe } => at_number("pipe ", pipe, "never read"),
        GraphError::SameFile { task, earlier } => same_file(task, earlier),
        GraphError::Memory => out_of_memory(),
    }
}

fn at_word(task: u32, word: u32, words: &str) -> Line
    requires { are_words words.now ≡ true }
    ensures { result ≡ line_saying (at_part task (codes " word ") word words.now) }
{
    at_part(task, " word ", u64::from(word), words)
}

fn at_input(task: u32, port: u32, words: &str) -> Line
    requires { are_words words.now ≡ true }
    ensures { result ≡ line_saying (at_part task (codes " input ") port words.now) }
{
    at_part(task, " input ", u64::from(port), words)
}

fn at_output(task: u32, port: u32, words: &str) -> Line
    requires { are_words words.now ≡ true }
    ensures { result ≡ line_saying (at_part task (codes " output ") port words.now) }
{
    at_part(task, " output ", u64::from(port), words)
}

// The line of a run that is out of memory.
fn out_of_memory() -> Line
    ensures { result ≡ line_saying no_memory }
{
    saying("no memory")
}

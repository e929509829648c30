//! Splits the words of a command line.
ghost use Rattle.std.specs.Prelude.{◌≡◌, ◌≢◌, ◌+◌, ◌<◌, ◌≤◌, ◌^◌, [], length, None, Some, Ok, Err, IfOk, IfErr, OnOk, true};
ghost use Rattle.osm_words.specs.Words.{begins_task, own_words, options_at, options_fault};
ghost use Rattle.osm_words.specs.Split.{split_words, task_at, task_fault, tasks_at, tasks_fault};
ghost use Rattle.osm_words.specs.declared.list.WordsError.TheVariants.{Memory};

use crate::cutting::{begins_task, fault_of, option_of, task_name};
use crate::list::{OptionWords, TaskList, TaskWords, WordsError};
use osm_entity::Text;
use std::alloc::Global;

/// The most tasks of a command.
const MOST_TASKS: usize = 64;

/// Splits words into tasks with their options, or answers the first offending word: `NoTasks`
/// where there are no words, `NotATask` where the first begins no task, `TooManyTasks` at the 65th
/// task, `EmptyName` at an option that begins with `=`, and `TwiceOption` and `TwoUnnamed` at one
/// that repeats an earlier option of its task. Any words may be out of memory.
pub fn split(alloc: Global, words: &[Text]) -> Result<TaskList, WordsError>
    ensures ok { IfOk result (λ list. split_words words.now ≡ Ok list) }
    ensures refused { IfErr result (λ e. e ≢ Memory → split_words words.now ≡ Err e) }
{
    match words {
        [first, ..] => {
            if begins_task(first) {
                split_tasks(alloc, words)
            } else {
                Err(WordsError::NotATask { word: 0 })
            }
        }
        [] => Err(WordsError::NoTasks),
    }
}

// The tasks of the words, wherever the first begins.
fn split_tasks(alloc: Global, words: &[Text]) -> Result<TaskList, WordsError>
    ensures ok { IfOk result (λ list. list ≡ tasks_at 0 words.now) }
    ensures fine { OnOk result (tasks_fault 0 0 words.now ≡ None) }
    ensures refused { IfErr result (λ e. e ≢ Memory → tasks_fault 0 0 words.now ≡ Some e) }
{
    let mut tasks = TaskList::new(alloc);
    for (at, word) in words.iter().enumerate() {
        if !begins_task(word) {
            continue;
        }
        let task = task_of(alloc, tasks.len(), at, word, &words[at + 1..])?;
        tasks.push(task)?;
    }
    Ok(tasks)
}

// The task that the word `first`, at `at`, begins after `count` tasks, with its options among the
// words that follow.
fn task_of(
    alloc: Global,
    count: usize,
    at: usize,
    first: &Text,
    words: &[Text],
) -> Result<TaskWords, WordsError>
    requires begins { begins_task first.now ≡ true }
    requires long { 2 ≤ length first.now }
    requires fits { at + 1 + length words.now < 2 ^ 64 }
    ensures ok { IfOk result (λ task. task ≡ task_at at first.now words.now) }
    ensures fine { OnOk result (task_fault count at words.now ≡ None) }
    ensures refused { IfErr result (λ e. e ≢ Memory → task_fault count at words.now ≡ Some e) }
{
    let word = number_of(at)?;
    if count == MOST_TASKS {
        return Err(WordsError::TooManyTasks { word });
    }
    let options = options_of(alloc, at + 1, words)?;
    let name = task_name(alloc, first)?;
    Ok(TaskWords {
        word,
        name,
        options,
    })
}

// The options among the words up to the next task; the first word has the number `first`.
fn options_of(alloc: Global, first: usize, words: &[Text]) -> Result<OptionWords, WordsError>
    requires { first + length words.now < 2 ^ 64 }
    ensures ok { IfOk result (λ options. options ≡ options_at first (own_words words.now)) }
    ensures fine { OnOk result (options_fault first [] (own_words words.now) ≡ None) }
    ensures refused { IfErr result (λ e.
        e ≢ Memory → options_fault first [] (own_words words.now) ≡ Some e) }
{
    let mut options = OptionWords::new(alloc);
    for (at, word) in words.iter().enumerate() {
        if begins_task(word) {
            return Ok(options);
        }
        let number = number_of(first + at)?;
        if let Some(fault) = fault_of(number, options.as_slice(), word) {
            return Err(fault);
        }
        let option = option_of(alloc, number, word)?;
        options.push(option)?;
    }
    Ok(options)
}

// A word's number. Words past the last number could not be held.
fn number_of(at: usize) -> Result<u32, WordsError>
    ensures ok { IfOk result (λ number. number ≡ at) }
    ensures err { IfErr result (λ e. e ≡ Memory) }
{
    match u32::try_from(at) {
        Ok(number) => Ok(number),
        Err(_) => Err(WordsError::Memory),
    }
}

//! Cuts one word: the name of a task off its `--`, and an option at its first `=`.
ghost use Rattle.std.specs.Prelude.{◌≡◌, ◌≤◌, true, IfOk, length, drop};
ghost use Rattle.std.specs.List.{list_any, position};
ghost use Rattle.osm_words.specs.Words.{begins_task, is_cut_sign, is_unnamed, is_option_named, option_at, option_fault};

use crate::list::{OptionWord, WordsError};
use osm_entity::{NoMemory, Text};
use std::alloc::Global;

/// Whether a word begins a task.
pub(crate) fn begins_task(word: &Text) -> bool
    ensures value { result ≡ begins_task word.now }
    ensures long { result ≡ true → 2 ≤ length word.now }
{
    matches!(word.as_slice(), [b'-', b'-', ..])
}

/// The name of the task that a word begins.
pub(crate) fn task_name(alloc: Global, word: &Text) -> Result<Text, NoMemory>
    requires begins { begins_task word.now ≡ true }
    requires long { 2 ≤ length word.now }
    ensures { IfOk result (λ name. name ≡ drop 2 word.now) }
{
    let bytes = word.as_slice();
    Text::from_utf8(alloc, &bytes[2..])
}

fn find_equals(bytes: &[u8]) -> Option<usize>
    ensures { result ≡ position is_cut_sign bytes.now }
{
    bytes.iter().position(|byte| *byte == b'=')
}

fn has_unnamed(options: &[OptionWord]) -> bool
    ensures { result ≡ list_any is_unnamed options.now }
{
    options
        .iter()
        .any(|option| option.name.as_slice().is_empty())
}

fn has_name(options: &[OptionWord], name: &[u8]) -> bool
    ensures { result ≡ list_any (is_option_named name.now) options.now }
{
    options.iter().any(|option| option.name.as_slice() == name)
}

/// What is wrong with a word after the earlier options of its task.
pub(crate) fn fault_of(number: u32, earlier: &[OptionWord], word: &Text) -> Option<WordsError>
    ensures { result ≡ option_fault number earlier.now word.now }
{
    let bytes = word.as_slice();
    match find_equals(bytes) {
        Some(0) => Some(WordsError::EmptyName { word: number }),
        Some(at) => {
            if has_name(earlier, &bytes[..at]) {
                Some(WordsError::TwiceOption { word: number })
            } else {
                None
            }
        }
        None => {
            if has_unnamed(earlier) {
                Some(WordsError::TwoUnnamed { word: number })
            } else {
                None
            }
        }
    }
}

/// The option that a word says.
pub(crate) fn option_of(alloc: Global, number: u32, word: &Text) -> Result<OptionWord, NoMemory>
    ensures { IfOk result (λ option. option ≡ option_at number word.now) }
{
    let bytes = word.as_slice();
    match find_equals(bytes) {
        Some(at) => Ok(OptionWord {
            word: number,
            name: Text::from_utf8(alloc, &bytes[..at])?,
            value: Text::from_utf8(alloc, &bytes[at + 1..])?,
        }),
        None => Ok(OptionWord {
            word: number,
            name: Text::new(alloc),
            value: word.copy(alloc)?,
        }),
    }
}

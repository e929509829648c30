//! The names of pipes among the words of a task.
ghost use Rattle.std.specs.Prelude.{◌≡◌, ◌==◌, ◌≤◌, true, nat_eq, length, drop, IfOk, Some};
ghost use Rattle.std.specs.List.{find, starts_with};
ghost use Rattle.osm_tasks.specs.Given.{is_pipe, is_port, pipe_name, pipe_names, port_after};
ghost use Rattle.osm_tasks.specs.Refusals.{is_below, names_port};

use crate::reading::read_port;
use crate::task::Names;
use osm_entity::{NoMemory, Text};
use osm_words::OptionWord;
use std::alloc::Global;

/// What stands before the number of an input.
pub(crate) const INPUT: &[u8] = b"inPipe.";

/// What stands before the number of an output.
pub(crate) const OUTPUT: &[u8] = b"outPipe.";

fn begins_with(name: &[u8], prefix: &[u8]) -> bool
    ensures value { result ≡ starts_with nat_eq name.now prefix.now }
    ensures long { result ≡ true → length prefix.now ≤ length name.now }
{
    name.starts_with(prefix)
}

/// Whether a word names a pipe, also of a port that isn't there.
pub(crate) fn is_pipe(word: &OptionWord) -> bool
    ensures { result ≡ is_pipe word.now }
{
    begins_with(word.name.as_slice(), INPUT) || begins_with(word.name.as_slice(), OUTPUT)
}

// The port whose pipe a word names.
fn port_after(prefix: &[u8], word: &OptionWord) -> Option<u32>
    ensures { result ≡ port_after prefix.now word.now }
{
    let name = word.name.as_slice();
    if begins_with(name, prefix) {
        read_port(&name[prefix.len()..])
    } else {
        None
    }
}

fn is_port(number: usize, port: Option<u32>) -> bool
    ensures { result ≡ is_port number port }
{
    match port {
        Some(port) => port as usize == number,
        None => false,
    }
}

fn is_below(count: usize, port: Option<u32>) -> bool
    ensures { result ≡ is_below count port }
{
    match port {
        Some(port) => (port as usize) < count,
        None => false,
    }
}

/// Whether the port whose pipe a word names is there.
pub(crate) fn names_port(inputs: usize, outputs: usize, word: &OptionWord) -> bool
    ensures { result ≡ names_port inputs outputs word.now }
{
    is_below(inputs, port_after(INPUT, word)) || is_below(outputs, port_after(OUTPUT, word))
}

// The name of the pipe at a port.
fn pipe_name(
    alloc: Global,
    prefix: &[u8],
    words: &[OptionWord],
    port: usize,
) -> Result<Option<Text>, NoMemory>
    ensures { IfOk result (λ name. name ≡ pipe_name prefix.now words.now port) }
{
    match words
        .iter()
        .find(|word| is_port(port, port_after(prefix, word)))
    {
        Some(word) => Ok(Some(word.value.copy(alloc)?)),
        None => Ok(None),
    }
}

/// The names of the pipes at the first `count` ports.
pub(crate) fn pipe_names(
    alloc: Global,
    prefix: &[u8],
    words: &[OptionWord],
    count: usize,
) -> Result<Names, NoMemory>
    ensures { IfOk result (λ names. names ≡ pipe_names prefix.now words.now count) }
{
    let mut names = Names::new(alloc);
    for port in 0..count {
        let name = pipe_name(alloc, prefix, words, port)?;
        names.push(name)?;
    }
    Ok(names)
}

//! Splits the words of a command line into tasks, each with its options.
//!
//! A word that begins with `--` begins a task, and the words up to the next such word are its
//! options, each cut at its first `=`. What tasks and options there are isn't looked at.
#![tactic(auto)]

mod cutting;
mod list;
mod splitting;

pub use list::{OptionWord, OptionWords, TaskList, TaskWords, WordsError};
pub use splitting::split;

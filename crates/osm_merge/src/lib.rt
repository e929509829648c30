//! Joins two inputs into one output, item by item: by their keys, or one after the other.
//!
//! `Merge` gives the rising list of all keys of both; `Append` gives one input and then the other. `Heads` is the
//! machine behind every task that goes through two sorted inputs at once; a `Chooser` says what it gives at a key.
#![tactic(auto)]

mod append;
mod choice;
mod heads;
mod laws;
mod merge;

pub use append::Append;
pub use choice::Chooser;
pub use heads::Heads;
pub use laws::{
    appends_are_lawful, appends_grow, heads_are_lawful, merges_are_lawful, merges_are_told_by_keys,
    merges_grow,
};
pub use merge::Merge;

//! Finds circles of pipes in which tasks can wait for each other.
//!
//! A task waits for room in a full pipe that it gives to, or for an item of an empty pipe that it
//! takes from. A sense is a pipe taken along, from its giver to its taker, or against it. A bare
//! circle is a list of two senses or more over different pipes, which lead from a task back to it:
//! at least one is along its pipe, and none along a spool, which is never full. In such a circle
//! all tasks can wait: where the pipes along are full and those against are empty.
#![tactic(auto)]

mod bare;
mod checking;
mod circle;
mod live;
mod walking;

pub use checking::check;
pub use circle::{Circle, Sense};

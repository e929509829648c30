//! The tests of runs, of what no clause says and no run of the program shows.
//!
//! A test function is proved like any other code, and a crate that has one is proved once more with
//! it. So each stands in a crate of its own, which has nothing else.
#![tactic(auto)]

mod counted_laws;
#[cfg(test)]
mod held;
#[cfg(test)]
mod runs;
#[cfg(test)]
mod watched;

pub use counted_laws::a_buffered_node_takes_8_to_18_steps;

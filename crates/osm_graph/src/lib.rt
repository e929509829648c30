//! Joins the tasks of a command line into a graph: which pipe leads from which output to which
//! input.
//!
//! An output puts a pipe and an input takes one: by its name, or, as brackets match, the latest
//! pipe without a name that is still open. `connect` answers the graph, or the first refusal.
#![tactic(auto)]

mod connecting;
mod fault;
mod files;
mod graph;
mod joining;
mod matching;
mod number;
mod pipe;
mod port;

pub use connecting::connect;
pub use fault::GraphError;
pub use graph::{Graph, Pipes};
pub use pipe::{Pipe, Store};

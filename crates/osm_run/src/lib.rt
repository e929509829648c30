//! Runs an Osmosis command line over a host, and answers its status.
//!
//! `run` and `run_alone` are the top calls: on a thread for each task, and on one thread. Their
//! contract is one relation between the words, the host before it, the host after it and the status:
//! the outcome of a run. That of `run_alone` counts its steps besides.
#![tactic(auto)]

mod areas;
mod asking;
mod closing;
mod command_laws;
mod concluding;
mod devices;
mod laws;
mod machines;
mod opening;
mod preparing;
mod running;
mod status;
mod words_laws;

pub use command_laws::{commands_are_lawful, machines_run_their_command};
pub use laws::{
    calm_runs_are_complete, calm_stops_are_complete, clean_runs, entries_come_with_files,
    faults_have_causes, memory_leaves_prefixes, others_stay, runs_are_no_refusals, writers_hold,
};
pub use running::{run, run_alone};
pub use status::{Ends, SourceEnd, Status};
pub use words_laws::{words_are_refused_rightly, words_run_their_command};

//! Every task of a command as one type of machine, which is moved one message or one pull at a
//! time.
//!
//! A machine is one of several parts: one reads a file, one writes one, one copies its input to its
//! outputs, and the others are the machines of the crates of tasks. What a machine means is what
//! its part means.
#![tactic(auto)]

mod copied_tests;
mod copying;
mod emptying;
mod ending;
mod kind;
mod laws;
mod machine;
mod machine_making;
mod machines;
mod making;
mod pbf_file;
mod puts;
mod reader;
mod reading;
mod reading_laws;
mod ready;
mod writer;
mod writing;

pub use laws::{
    machines_are_lawful, machines_tell_of_their_devices, pulling_machines_have_a_source,
    tasks_read_few_bytes,
};
pub use machine::{Machine, Parts};
pub use machine_making::make;
pub use machines::Machines;
pub use reading_laws::{files_have_few_items, longer_readings_go_on};

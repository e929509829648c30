//! Tells a fault of a run in one line, as it is said on standard error.
#![tactic(auto)]

mod circles;
mod fault;
mod lines;
mod places;
mod telling;
mod words;

pub use fault::{DeviceCall, Fault};
pub use lines::Line;
pub use telling::line;

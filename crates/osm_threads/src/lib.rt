//! A thread for each task, over pipes between them: what runs the machines of a graph side by side.
#![tactic(auto)]

mod gates;
mod homing;
mod joining;
mod meeting;
mod ports;
mod running;
mod starts;
mod task;

pub use running::run_tasks;

//! Looks up the tasks of a command line in the catalogue: what each is, with its options.
//!
//! The catalogue is a table of tasks (`rows`) and a table of options (`option_rows`),
//! each with its values. `resolve` goes task by task, and the first refusal counts.
#![tactic(auto)]

mod checking;
mod fault;
mod given;
mod kind;
mod making;
mod naming;
mod option_rows;
mod pipes;
mod reading;
mod resolving;
mod rows;
mod task;

pub use fault::{Needed, TaskError};
pub use kind::TaskKind;
pub use naming::TaskName;
pub use resolving::resolve;
pub use task::{Names, Task, Tasks};

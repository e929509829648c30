//! The network on one thread: queues between machines, and what their moves keep.
#![tactic(auto)]

mod laws;
mod lists;
mod machine;
mod net;
mod of_tasks;
mod queue;
mod running;
mod stepped;
mod task_pipes;

pub use laws::{
    a_graph_has_one_meaning, a_network_without_a_bare_circle_goes_on, machines_do_what_is_meant,
    moves_are_counted, moves_keep_the_network, moves_leave_less_to_do,
};
pub use machine::TaskMachine;
pub use net::Net;
pub use queue::Queue;
pub use running::{Finished, run_tasks_alone};
pub use stepped::Stepped;

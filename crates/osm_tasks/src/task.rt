//! A task of a command: what it is, and the names of its pipes.
use crate::kind::TaskKind;
use osm_entity::{Sequence, Text};
use std::marker::Model;

/// The names of pipes, one for each port; `None` where the port is joined without a name.
pub type Names = Sequence<Option<Text>>;

/// A task of a command. It keeps: each number of its kind in the range that the catalogue has for
/// it, a box that isn't empty, and one name for each input and each output.
#[derive(Debug, Drop)]
pub struct Task {
    pub kind: TaskKind,
    pub inputs: Names,
    pub outputs: Names,
}

/// The tasks of a command, in their order.
pub type Tasks = Sequence<Task>;

impl Model for Task {
    ghost use Rattle.osm_tasks.specs.Tasks.{TaskValue, IsTask};

    ghost Value = { TaskValue };

    ghost view = { λ t. record { kind = t.kind; inputs = t.inputs; outputs = t.outputs } };

    ghost invariant = { λ t.
        IsTask (record { kind = t.kind; inputs = t.inputs; outputs = t.outputs }) };
}

impl Task {
    ghost use Rattle.osm_tasks.specs.Tasks.{IsTask};

    /// What every task keeps.
    pub fn kept(&self)
        ensures { IsTask self.now }
    {
        let _kind = &self.kind;
    }
}

//! A pipe between two tasks.
use osm_entity::Flow;

/// How much of a stream a pipe holds.
#[derive(Clone, Copy, Debug, PartialEq, Eq)]
pub enum Store {
    /// At most this many messages, 1 to 65,536; an end is a message.
    Bounded(u32),
    /// All that comes.
    Spool,
}

/// A pipe from an output of a task to an input of a later task. Tasks and ports are counted from 0.
#[derive(Clone, Copy, Debug, PartialEq, Eq)]
pub struct Pipe {
    pub from: u32,
    pub from_port: u32,
    pub to: u32,
    pub to_port: u32,
    pub flow: Flow,
    pub store: Store,
}

//! Messages: how a stream goes from task to task, item by item and then its end.
use crate::item::Item;

/// How a stream ends.
#[derive(Clone, Copy, Debug, PartialEq, Eq)]
pub enum End {
    /// It is whole.
    Done,
    /// What came before it stands, and the rest is missing.
    Broken,
}

/// What passes a pipe.
#[derive(Debug, Drop)]
pub enum Message {
    Item(Item),
    End(End),
}

/// What a task can do next. Ports are counted from 0.
#[derive(Clone, Copy, Debug, PartialEq, Eq)]
pub enum Want {
    /// Pull bytes from its source.
    Pull,
    /// Take a message from this input port.
    Take(u32),
    /// Give a message to this output port.
    Give(u32),
    /// Nothing: all its ports have their ends.
    Ended,
}

//! What a step of a task says.

/// What a step of a task did.
#[derive(Clone, Copy, Debug, PartialEq, Eq)]
pub enum Stepped {
    /// One message was taken or given, or one piece was pulled.
    Moved,
    /// Nothing: the task wants to give into this pipe, which holds its capacity.
    Full { pipe: u32 },
    /// Nothing: the task wants to take from this pipe, which holds no message.
    Empty { pipe: u32 },
    /// Nothing: the task has ended.
    Ended,
}

//! Why bytes are no message.

/// What is wrong with the bytes of a message, or with a number among them.
#[derive(Clone, Copy, Debug, PartialEq, Eq)]
pub enum WireError {
    /// They end within a field.
    Short,
    /// A varint has more than ten bytes or more than 64 bits.
    Overlong,
    /// A tag begins no field, or a field that is known has another wire type than its own.
    BadWire,
    /// A tag begins or ends a group.
    Group,
}

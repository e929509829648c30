//! How far a simplify is.
use osm_entity::End;

/// How far a simplify is.
#[derive(Clone, Copy, Debug, PartialEq, Eq)]
pub(crate) enum Phase {
    /// It takes its input.
    Gathering,
    /// Its input has ended so, and it gives.
    Giving(End),
    /// It gave this end.
    Closed(End),
    /// It is out of memory.
    Stopped,
}

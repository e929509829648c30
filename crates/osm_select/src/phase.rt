//! How far a machine is that holds its items.
use osm_entity::End;

/// How far a machine is. An end is the one that came.
#[derive(Clone, Copy)]
pub(crate) enum Phase {
    /// Its input goes on.
    Gathering,
    /// Its input has ended, and it gives what is left of it.
    Giving(End),
    /// It gave its end.
    Closed(End),
    /// It is out of memory.
    Stopped,
}

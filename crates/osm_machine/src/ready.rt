//! What a machine that reads has ready.
use osm_entity::Item;

/// What a machine that reads has ready to be given.
#[derive(Drop)]
pub(crate) enum Ready {
    /// An item.
    Next(Item),
    /// Nothing before a pull.
    Nothing,
    /// The end.
    AtTheEnd,
    /// Nothing more: the end was given.
    Closed,
    /// Nothing more: it is out of memory.
    Stopped,
}

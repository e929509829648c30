//! The parts of an entity as its block says them: with the indexes of texts in their place.

/// The metadata of an entity.
#[derive(Clone, Copy, Debug)]
pub(crate) struct EntryInfo {
    pub version: i32,
    /// In units of the block's date granularity, of milliseconds.
    pub timestamp: i64,
    pub changeset: i64,
    pub uid: i32,
    /// The index of a text.
    pub user: i64,
    pub visible: bool,
}

/// A tag, by the indexes of its texts.
#[derive(Clone, Copy, Debug)]
pub(crate) struct EntryTag {
    pub key: i64,
    pub value: i64,
}

/// A member of a relation.
#[derive(Clone, Copy, Debug)]
pub(crate) struct EntryMember {
    /// 0 is a node, 1 a way and 2 a relation.
    pub kind: i32,
    pub id: i64,
    /// The index of a text.
    pub role: i64,
}

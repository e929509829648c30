//! An entity of a block with its lists as slices.
use crate::entry::{EntryInfo, EntryMember, EntryTag};

/// What is proper to the kind of an entity.
#[derive(Clone, Copy, Debug)]
pub(crate) enum BodyRef<'a> {
    /// A place, in units of the block's granularity.
    At { lat: i64, lon: i64 },
    /// Refs.
    Along(&'a [i64]),
    /// Members.
    Having(&'a [EntryMember]),
}

/// An entity.
#[derive(Clone, Copy, Debug)]
pub(crate) struct EntryRef<'a> {
    /// Its lists have the lengths that they should.
    pub even: bool,
    pub id: i64,
    pub info: EntryInfo,
    pub tags: &'a [EntryTag],
    pub body: BodyRef<'a>,
}

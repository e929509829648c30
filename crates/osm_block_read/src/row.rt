//! The entities of a block in rows, whose tags, refs and members are parts of lists that all rows
//! share. All are kept from block to block.
ghost use Rattle.std.specs.Prelude.{◌≡◌, ◌<◌, [], Some, length, slice_get};
ghost use Rattle.osm_block_read.specs.Rows.{AreRowsIn, IsBodyIn, IsRowIn, body_in, entries_of, entry_in};
ghost use Rattle.osm_block_read.specs.Seen.{body_seen, entry_seen};

use crate::entry::{EntryInfo, EntryMember, EntryTag};
use crate::entry_ref::{BodyRef, EntryRef};
use crate::span::Span;
use std::alloc::Global;

/// What is proper to the kind of an entity.
#[derive(Clone, Copy, Debug)]
pub(crate) enum RowBody {
    /// A place, in units of the block's granularity.
    At { lat: i64, lon: i64 },
    /// Refs.
    Along(Span),
    /// Members.
    Having(Span),
}

/// An entity.
#[derive(Clone, Copy, Debug)]
pub(crate) struct Row {
    /// Its lists have the lengths that they should.
    pub even: bool,
    pub id: i64,
    pub info: EntryInfo,
    pub tags: Span,
    pub body: RowBody,
}

/// The tags, refs and members of all rows.
#[derive(Debug, Drop)]
pub(crate) struct Lists {
    pub tags: Vec<EntryTag>,
    pub refs: Vec<i64>,
    pub members: Vec<EntryMember>,
}

/// The rows of a block, and their lists.
#[derive(Debug, Drop)]
pub(crate) struct Rows {
    pub rows: Vec<Row>,
    pub lists: Lists,
}

impl Rows {
    /// No rows.
    pub(crate) fn new(alloc: Global) -> Rows
        ensures within { AreRowsIn result }
        ensures entries { entries_of result ≡ [] }
    {
        Rows {
            rows: Vec::new(alloc),
            lists: Lists {
                tags: Vec::new(alloc),
                refs: Vec::new(alloc),
                members: Vec::new(alloc),
            },
        }
    }

    /// Takes all rows out.
    pub(crate) fn clear(&mut self)
        ensures within { AreRowsIn self.new }
        ensures entries { entries_of self.new ≡ [] }
    {
        self.rows.clear();
        self.lists.tags.clear();
        self.lists.refs.clear();
        self.lists.members.clear();
    }

    /// The entity of a row.
    pub(crate) fn entry(&self, at: usize) -> EntryRef<'_>
        requires within { AreRowsIn self.now }
        requires at { at < length self.now.rows.items }
        ensures { slice_get (entries_of self.now) at ≡ Some (entry_seen result) }
    {
        self.lists.entry(self.rows[at])
    }
}

impl Lists {
    // The entity of a row, whose parts lie within the lists.
    fn entry(&self, row: Row) -> EntryRef<'_>
        requires { IsRowIn self.now row }
        ensures { entry_seen result ≡ entry_in self.now row }
    {
        EntryRef {
            even: row.even,
            id: row.id,
            info: row.info,
            tags: &self.tags.as_slice()[row.tags.start..row.tags.end],
            body: self.body(row.body),
        }
    }

    fn body(&self, body: RowBody) -> BodyRef<'_>
        requires { IsBodyIn self.now body }
        ensures { body_seen result ≡ body_in self.now body }
    {
        match body {
            RowBody::At { lat, lon } => BodyRef::At { lat, lon },
            RowBody::Along(span) => BodyRef::Along(&self.refs.as_slice()[span.start..span.end]),
            RowBody::Having(span) => BodyRef::Having(
                &self.members.as_slice()[span.start..span.end],
            ),
        }
    }
}

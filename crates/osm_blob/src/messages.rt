//! Reads the messages of a frame, after the OSM PBF page: a blob header, of which field 1 is the
//! type, 2 are bytes that are skipped and 3 is the size of the blob; and a blob, of which field 1
//! is the raw content, 2 a number that isn't looked at, and 3 to 7 are compressed contents.
//!
//! Of a field that is given more than once the last entry counts. One of these fields with another
//! wire type than its own makes its message bad.
ghost use Rattle.std.specs.Prelude.{◌≡◌, Err, IfErr, IfOk, None, Ok, OnErr, OnOk};
ghost use Rattle.osm_entity.specs.declared.verdict.Cause.TheVariants.{BadWire};
ghost use Rattle.osm_wire.specs.Pieces.{Pieces, no_pieces, piece_before};
ghost use Rattle.osm_wire.specs.Messages.{FieldValue};
ghost use Rattle.osm_wire.specs.Seen.{field_seen};
ghost use Rattle.osm_blob.specs.Messages.{blob_said, header_said, what_typed};
ghost use Rattle.osm_blob.specs.MessagesSeen.{content_with, header_with};

use osm_entity::Cause;
use osm_wire::{Field, Fields, WireError, int32};

/// A raw content has fewer bytes than this.
const RAW_LIMIT: usize = 33_554_432;

/// What a blob holds.
#[derive(Clone, Copy, Debug, PartialEq, Eq)]
pub enum What {
    /// The header of a file, of the type `OSMHeader`.
    Header,
    /// A block of entities, of the type `OSMData`.
    Block,
    /// Something else, which no reader looks at.
    Other,
}

/// What a blob header says: what its blob holds, and how many bytes the blob has, which may be a
/// number that no blob can have.
#[derive(Clone, Copy, Debug)]
pub(crate) struct BlobHeader {
    pub(crate) what: What,
    pub(crate) size: i32,
}

// The last entries of a blob header's fields 1 and 3.
#[derive(Clone, Copy)]
struct HeaderEntries<'a> {
    name: Option<&'a [u8]>,
    size: Option<u64>,
}

// The last entry of a blob's field 1, and whether it has compressed content.
#[derive(Clone, Copy)]
struct BlobEntries<'a> {
    raw: Option<&'a [u8]>,
    compressed: bool,
}

/// Reads a blob header; `None` where it isn't well formed, or has no type or no size.
pub(crate) fn read_header(bytes: &[u8]) -> Option<BlobHeader>
    ensures { result ≡ header_said bytes.now }
{
    match header_entries(bytes) {
        Ok(entries) => entries.header(),
        Err(_) => None,
    }
}

/// Reads a blob: its raw content, or what is wrong with it: BadWire where it isn't well formed,
/// Compressed, BadWire where it has no content, or BlobTooLong.
pub(crate) fn read_blob(bytes: &[u8]) -> Result<&[u8], Cause>
    ensures ok { IfOk result (λ raw. blob_said bytes.now ≡ Ok raw.now) }
    ensures err { IfErr result (λ cause. blob_said bytes.now ≡ Err cause) }
{
    match blob_entries(bytes) {
        Ok(entries) => entries.content(),
        Err(_) => Err(Cause::BadWire),
    }
}

// What a blob of this type holds.
fn what_of(name: &[u8]) -> What
    ensures { result ≡ what_typed name.now }
{
    if name == b"OSMHeader".as_slice() {
        What::Header
    } else if name == b"OSMData".as_slice() {
        What::Block
    } else {
        What::Other
    }
}

// The entries of a blob header. At `Err` it isn't well formed.
#[tactic(auto, unfolding(crate::specs::Messages::header_said))]
fn header_entries(bytes: &[u8]) -> Result<HeaderEntries<'_>, WireError>
    ensures ok { IfOk result (λ entries. header_with entries no_pieces ≡ header_said bytes.now) }
    ensures err { OnErr result (header_said bytes.now ≡ None) }
{
    let mut entries = HeaderEntries {
        name: None,
        size: None,
    };
    let mut fields = Fields::new(bytes);
    while let Some(field) = fields.next() {
        entries.take(field?)?;
    }
    Ok(entries)
}

// The entries of a blob. At `Err` it isn't well formed.
#[tactic(auto, unfolding(crate::specs::Messages::blob_said))]
fn blob_entries(bytes: &[u8]) -> Result<BlobEntries<'_>, WireError>
    ensures ok { IfOk result (λ entries. content_with entries no_pieces ≡ blob_said bytes.now) }
    ensures err { OnErr result (blob_said bytes.now ≡ Err BadWire) }
{
    let mut entries = BlobEntries {
        raw: None,
        compressed: false,
    };
    let mut fields = Fields::new(bytes);
    while let Some(field) = fields.next() {
        entries.take(field?)?;
    }
    Ok(entries)
}

impl<'a> HeaderEntries<'a> {
    // Takes the next field. At `Err` the blob header isn't well formed.
    fn take(&mut self, field: Field<'a>) -> Result<(), WireError>
        ensures ok { OnOk result ((pieces : Pieces FieldValue) →
            header_with self.old (piece_before (field_seen field.entry) pieces)
            ≡ header_with self.new pieces) }
        ensures err { OnErr result ((pieces : Pieces FieldValue) →
            header_with self.old (piece_before (field_seen field.entry) pieces) ≡ None) }
    {
        match field.number {
            1 => {
                self.name = Some(field.value.bytes()?);
                Ok(())
            }
            2 => {
                field.value.bytes()?;
                Ok(())
            }
            3 => {
                self.size = Some(field.value.number()?);
                Ok(())
            }
            _ => Ok(()),
        }
    }

    // What the entries say, where no field follows.
    fn header(&self) -> Option<BlobHeader>
        ensures { result ≡ header_with self.now no_pieces }
    {
        let what = what_of(self.name?);
        let size = int32(self.size?);
        Some(BlobHeader { what, size })
    }
}

impl<'a> BlobEntries<'a> {
    // Takes the next field. At `Err` the blob isn't well formed.
    fn take(&mut self, field: Field<'a>) -> Result<(), WireError>
        ensures ok { OnOk result ((pieces : Pieces FieldValue) →
            content_with self.old (piece_before (field_seen field.entry) pieces)
            ≡ content_with self.new pieces) }
        ensures err { OnErr result ((pieces : Pieces FieldValue) →
            content_with self.old (piece_before (field_seen field.entry) pieces) ≡ Err BadWire) }
    {
        match field.number {
            1 => {
                self.raw = Some(field.value.bytes()?);
                Ok(())
            }
            2 => {
                field.value.number()?;
                Ok(())
            }
            3..=7 => {
                field.value.bytes()?;
                self.compressed = true;
                Ok(())
            }
            _ => Ok(()),
        }
    }

    // The content that the entries say, where no field follows.
    fn content(self) -> Result<&'a [u8], Cause>
        ensures ok { IfOk result (λ raw. content_with self.entry no_pieces ≡ Ok raw.now) }
        ensures err { IfErr result (λ cause. content_with self.entry no_pieces ≡ Err cause) }
    {
        if self.compressed {
            return Err(Cause::Compressed);
        }
        match self.raw {
            None => Err(Cause::BadWire),
            Some(raw) if raw.len() < RAW_LIMIT => Ok(raw),
            Some(_) => Err(Cause::BlobTooLong),
        }
    }
}

//! Writes frames, after the OSM PBF page: four bytes with the length of the blob header, the blob
//! header and the blob.
ghost use Rattle.std.specs.Prelude.{◌≡◌, ◌≢◌, ◌≤◌, ◌<◌, ◌+◌, ◌++◌, IfOk, length};
ghost use Rattle.std.specs.Int.{w32, to_be_bytes};
ghost use Rattle.osm_wire.specs.Written.{shortest_varint};
ghost use Rattle.osm_blob.specs.Messages.{raw_limit};
ghost use Rattle.osm_blob.specs.Written.{type_text, written_blob_header, written_frame};
ghost use Rattle.osm_blob.specs.declared.messages.What.TheVariants.{Other};

use crate::messages::What;
use osm_entity::{Bytes, NoMemory};
use osm_wire::{put_bytes, put_number, put_varint};
use std::alloc::Global;

/// The tag of a blob's raw content: its field 1, which holds bytes.
const RAW_TAG: u64 = 10;

/// The frame whose blob has this raw content, of fewer than 33,554,432 bytes, and holds a header or
/// a block. Its messages have their shortest spelling. At `Err` it is out of memory.
pub fn frame(alloc: Global, what: What, raw: &[u8]) -> Result<Bytes, NoMemory>
    requires written { what ≢ Other }
    requires short { length raw.now < raw_limit }
    ensures { IfOk result (λ frame. frame ≡ written_frame what raw.now) }
{
    let start = start_of_blob(alloc, raw.len())?;
    let header = blob_header(alloc, what, start.len() + raw.len())?;
    joined(alloc, header.as_slice(), start.as_slice(), raw)
}

// The length of a blob header in four bytes, the blob header, and a blob of two parts.
fn joined(alloc: Global, header: &[u8], start: &[u8], raw: &[u8]) -> Result<Bytes, NoMemory>
    requires header { length header.now ≤ 49 }
    requires start { length start.now ≤ 20 }
    requires raw { length raw.now < raw_limit }
    ensures { IfOk result (λ frame. frame
        ≡ to_be_bytes w32 (length header.now) ++ header.now ++ start.now ++ raw.now) }
{
    let size = 4 + header.len() + start.len() + raw.len();
    let mut frame = Bytes::with_room(alloc, size)?;
    frame.append(&(header.len() as u32).to_be_bytes())?;
    frame.append(header)?;
    frame.append(start)?;
    frame.append(raw)?;
    Ok(frame)
}

// What stands in a blob before its raw content of `count` bytes.
fn start_of_blob(alloc: Global, count: usize) -> Result<Bytes, NoMemory>
    ensures bytes { IfOk result (λ b. b ≡ shortest_varint 10 ++ shortest_varint count) }
    ensures short { IfOk result (λ b. length b ≤ 20) }
{
    let mut start = Bytes::with_room(alloc, 8)?;
    put_varint(&mut start, RAW_TAG)?;
    put_varint(&mut start, count as u64)?;
    Ok(start)
}

// The blob header of a blob of `size` bytes.
fn blob_header(alloc: Global, what: What, size: usize) -> Result<Bytes, NoMemory>
    ensures bytes { IfOk result (λ b. b ≡ written_blob_header what size) }
    ensures short { IfOk result (λ b. length b ≤ 49) }
{
    let mut header = Bytes::with_room(alloc, 32)?;
    put_bytes(&mut header, 1, type_of(what))?;
    put_number(&mut header, 3, size as u64)?;
    Ok(header)
}

// The type of a blob that holds this.
fn type_of(what: What) -> &'static [u8]
    ensures { result.now ≡ type_text what }
{
    match what {
        What::Header => b"OSMHeader".as_slice(),
        What::Block => b"OSMData".as_slice(),
        What::Other => b"".as_slice(),
    }
}

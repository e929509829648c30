//! The bytes of a block by what was taken of its entities.
//!
//! A PrimitiveBlock has its string table as field 1, one group as field 2, and its granularity as
//! field 17 (OSM PBF format, "OSMData fileblock").
ghost use Rattle.std.specs.Prelude.{◌≡◌, ◌++◌, map, OnOk};
ghost use Rattle.osm_wire.specs.Written.{written_field, written_message};
ghost use Rattle.osm_block_write.specs.Block.{granularity_field, is_dense};
ghost use Rattle.osm_block_write.specs.Columns.{bytes_field};
ghost use Rattle.osm_block_write.specs.Taking.{block_of_taken, group_of_taken};

use crate::dense::append_dense;
use crate::messages::Room;
use crate::options::PbfOptions;
use crate::taken::{Taken, is_dense};
use crate::texts::Table;
use osm_entity::{Bytes, Kind, NoMemory};
use osm_wire::{put_bytes, put_number};

/// Appends the block of what was taken. `room` is emptied first.
pub(crate) fn append_block(
    out: &mut Bytes,
    room: &mut Room,
    options: &PbfOptions,
    kind: Kind,
    taken: &Taken,
    tagged: bool,
) -> Result<(), NoMemory>
    ensures ok { OnOk result (out.new ≡ out.old
        ++ block_of_taken options.now kind taken.now tagged) }
{
    put_table(out, &mut room.part, &taken.texts)?;
    put_group(out, room, options, kind, taken, tagged)?;
    put_granularity(out, options.granularity)
}

// Appends the field of the string table.
fn put_table(out: &mut Bytes, room: &mut Bytes, texts: &Table) -> Result<(), NoMemory>
    ensures ok { OnOk result (out.new ≡ out.old
        ++ written_field (bytes_field 1 (written_message (map (bytes_field 1) texts.now)))) }
{
    room.truncate(0);
    for text in texts.as_slice() {
        put_bytes(room, 1, text.as_slice())?;
    }
    put_bytes(out, 1, room.as_slice())
}

// Appends the field of the group.
fn put_group(
    out: &mut Bytes,
    room: &mut Room,
    options: &PbfOptions,
    kind: Kind,
    taken: &Taken,
    tagged: bool,
) -> Result<(), NoMemory>
    ensures ok { OnOk result (out.new ≡ out.old
        ++ written_field (bytes_field 2
        (group_of_taken (is_dense options.now kind) options.now taken.now tagged))) }
{
    if !is_dense(options, kind) {
        return put_bytes(out, 2, taken.bytes.as_slice());
    }
    room.nodes.truncate(0);
    append_dense(
        &mut room.nodes,
        &mut room.message,
        &mut room.part,
        options,
        taken.rows.as_slice(),
        tagged,
        taken.bytes.as_slice(),
    )?;
    room.message.truncate(0);
    put_bytes(&mut room.message, 2, room.nodes.as_slice())?;
    put_bytes(out, 2, room.message.as_slice())
}

// Appends the field of the granularity, where it isn't the one that readers take without it.
fn put_granularity(out: &mut Bytes, granularity: u32) -> Result<(), NoMemory>
    ensures ok { OnOk result (out.new ≡ out.old
        ++ written_message (granularity_field granularity)) }
{
    if granularity == 100 {
        return Ok(());
    }
    put_number(out, 17, u64::from(granularity))
}

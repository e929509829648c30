//! Dense nodes: the numbers of all nodes of a block, column by column.
//!
//! The columns of a DenseNodes are its fields 1, 8, 9 and 10, and those of its metadata stand in a
//! DenseInfo, field 5 (OSM PBF format, "Nodes").
ghost use Rattle.std.specs.Prelude.{◌≡◌, ◌<◌, ◌^◌, ◌++◌, ◌∷◌, [], map, OnOk, OnErr};
ghost use Rattle.osm_entity.specs.Prefixes.{IsPrefix};
ghost use Rattle.osm_wire.specs.Written.{packed, written_message};
ghost use Rattle.osm_block_write.specs.Messages.{info_field, keys_vals, place_in};
ghost use Rattle.osm_block_write.specs.Numbered.{with_numbers, numbered_tag, user_number};
ghost use Rattle.osm_block_write.specs.Taking.{dense_of_rows, info_of_rows, row_of, wanted_field};

use crate::columns::{Changesets, Ids, Lats, Lons, Times, Uids, Users};
use crate::numbers::{append_tags, put_versions};
use crate::options::PbfOptions;
use crate::packing::{put_deltas, put_small_deltas};
use crate::places::{lat_of, lon_of};
use crate::taken::Row;
use crate::texts::Table;
use osm_entity::{Body, Bytes, Entity, NoMemory, Place, Tag};
use osm_wire::{put_bytes, put_varint};

/// The numbers of a node whose user has this number.
pub(crate) fn row_of_node(options: &PbfOptions, texts: &Table, entity: &Entity, user: u32) -> Row
    requires small { user < 2 ^ 31 }
    requires user { user ≡ user_number options.now texts.now entity.now.user }
    ensures { result ≡ row_of options.now (with_numbers options.now texts.now entity.now) }
{
    entity.kept();
    let place = place_of(&entity.body);
    Row {
        id: entity.id,
        lat: lat_of(options, &place),
        lon: lon_of(options, &place),
        changeset: entity.changeset as i64,
        version: entity.version,
        time: entity.time,
        uid: entity.uid as i32,
        user: user as i32,
    }
}

fn place_of(body: &Body) -> Option<Place>
    ensures { result ≡ place_in body.now }
{
    match body {
        Body::Node(place) => *place,
        Body::Way(_) => None,
        Body::Relation(_) => None,
    }
}

/// Appends the tags of a node: the numbers of each key and value, and then a 0. At `Err` some of
/// them may be appended.
pub(crate) fn append_keys_vals(out: &mut Bytes, texts: &Table, tags: &[Tag]) -> Result<(), NoMemory>
    ensures ok { OnOk result (out.new ≡ out.old
        ++ packed (keys_vals (map (numbered_tag texts.now) tags.now))) }
    ensures err { OnErr result (IsPrefix out.old out.new) }
{
    append_tags(out, texts, tags)?;
    put_varint(out, 0)
}

/// Appends the fields of dense nodes, whose tags are packed already and are written where they are
/// wanted. `info` and `room` are emptied first.
pub(crate) fn append_dense(
    out: &mut Bytes,
    info: &mut Bytes,
    room: &mut Bytes,
    options: &PbfOptions,
    rows: &[Row],
    tagged: bool,
    tags: &[u8],
) -> Result<(), NoMemory>
    ensures ok { OnOk result (out.new ≡ out.old
        ++ written_message (dense_of_rows options.now rows.now tagged tags.now)) }
{
    put_deltas(out, room, 1, &Ids, rows)?;
    put_info(out, info, room, options, rows)?;
    put_deltas(out, room, 8, &Lats, rows)?;
    put_deltas(out, room, 9, &Lons, rows)?;
    put_tags(out, tagged, tags)
}

// Appends the tags of dense nodes, where they are wanted.
fn put_tags(out: &mut Bytes, tagged: bool, tags: &[u8]) -> Result<(), NoMemory>
    ensures ok { OnOk result (out.new ≡ out.old
        ++ written_message (wanted_field tagged 10 tags.now)) }
{
    if !tagged {
        return Ok(());
    }
    put_bytes(out, 10, tags)
}

// Appends the metadata of dense nodes, where it is written.
fn put_info(
    out: &mut Bytes,
    info: &mut Bytes,
    room: &mut Bytes,
    options: &PbfOptions,
    rows: &[Row],
) -> Result<(), NoMemory>
    ensures ok { OnOk result (out.new ≡ out.old
        ++ written_message (info_field options.now 5 (info_of_rows rows.now))) }
{
    if options.omitmetadata {
        return Ok(());
    }
    info.truncate(0);
    append_info(info, room, rows)?;
    put_bytes(out, 5, info.as_slice())
}

// Appends the fields of the metadata of dense nodes.
fn append_info(out: &mut Bytes, room: &mut Bytes, rows: &[Row]) -> Result<(), NoMemory>
    ensures ok { OnOk result (out.new ≡ out.old ++ written_message (info_of_rows rows.now)) }
{
    put_versions(out, room, rows)?;
    put_deltas(out, room, 2, &Times, rows)?;
    put_deltas(out, room, 3, &Changesets, rows)?;
    put_small_deltas(out, room, 4, &Uids, rows)?;
    put_small_deltas(out, room, 5, &Users, rows)
}

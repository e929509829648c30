//! Columns of the numbers of texts and kinds, which are packed as they are.
ghost use Rattle.std.specs.Prelude.{◌≡◌, ◌++◌, map, OnOk, OnErr};
ghost use Rattle.std.specs.List.{flat_map};
ghost use Rattle.osm_entity.specs.Keys.{kind_rank};
ghost use Rattle.osm_entity.specs.Prefixes.{IsPrefix};
ghost use Rattle.osm_wire.specs.Messages.{IsFieldNumber};
ghost use Rattle.osm_wire.specs.Written.{shortest_varint, written_message};
ghost use Rattle.osm_block_write.specs.Columns.{packed_field};
ghost use Rattle.osm_block_write.specs.Numbered.{numbered_tag};
ghost use Rattle.osm_block_write.specs.Tables.{text_number};

use crate::packing::put_packed;
use crate::taken::Row;
use crate::texts::Table;
use osm_entity::{Bytes, Kind, Member, NoMemory, Tag};
use osm_wire::put_varint;

/// Appends the field of the keys of tags. `room` is emptied first.
pub(crate) fn put_keys(
    out: &mut Bytes,
    room: &mut Bytes,
    texts: &Table,
    tags: &[Tag],
) -> Result<(), NoMemory>
    ensures ok { OnOk result (out.new ≡ out.old
        ++ written_message (packed_field 2
        (map (λ t. t.key) (map (numbered_tag texts.now) tags.now)))) }
{
    room.truncate(0);
    for tag in tags {
        put_text(room, texts, tag.key.as_slice())?;
    }
    put_packed(out, 2, room.as_slice())
}

/// Appends the field of the values of tags. `room` is emptied first.
pub(crate) fn put_values(
    out: &mut Bytes,
    room: &mut Bytes,
    texts: &Table,
    tags: &[Tag],
) -> Result<(), NoMemory>
    ensures ok { OnOk result (out.new ≡ out.old
        ++ written_message (packed_field 3
        (map (λ t. t.value) (map (numbered_tag texts.now) tags.now)))) }
{
    room.truncate(0);
    for tag in tags {
        put_text(room, texts, tag.value.as_slice())?;
    }
    put_packed(out, 3, room.as_slice())
}

/// Appends the field of the roles of members. `room` is emptied first.
pub(crate) fn put_roles(
    out: &mut Bytes,
    room: &mut Bytes,
    texts: &Table,
    members: &[Member],
) -> Result<(), NoMemory>
    ensures ok { OnOk result (out.new ≡ out.old
        ++ written_message (packed_field 8
        (map (text_number texts.now) (map (λ m. m.role) members.now)))) }
{
    room.truncate(0);
    for member in members {
        put_text(room, texts, member.role.as_slice())?;
    }
    put_packed(out, 8, room.as_slice())
}

/// Appends the field of the kinds of members: 0 for a node, 1 for a way, 2 for a relation. `room`
/// is emptied first.
pub(crate) fn put_kinds(
    out: &mut Bytes,
    room: &mut Bytes,
    members: &[Member],
) -> Result<(), NoMemory>
    ensures ok { OnOk result (out.new ≡ out.old
        ++ written_message (packed_field 10 (map (λ m. kind_rank m.kind) members.now))) }
{
    room.truncate(0);
    for member in members {
        put_varint(room, kind_number(member.kind))?;
    }
    put_packed(out, 10, room.as_slice())
}

/// Appends the field of the versions of dense nodes. `room` is emptied first.
pub(crate) fn put_versions(out: &mut Bytes, room: &mut Bytes, rows: &[Row]) -> Result<(), NoMemory>
    ensures ok { OnOk result (out.new ≡ out.old
        ++ written_message (packed_field 1 (map (λ row. row.version) rows.now))) }
{
    room.truncate(0);
    for row in rows {
        put_varint(room, u64::from(row.version))?;
    }
    put_packed(out, 1, room.as_slice())
}

/// Appends the numbers of the key and the value of each tag. At `Err` some of them may be appended.
pub(crate) fn append_tags(out: &mut Bytes, texts: &Table, tags: &[Tag]) -> Result<(), NoMemory>
    ensures ok { OnOk result (out.new ≡ out.old
        ++ flat_map (λ tag. shortest_varint (text_number texts.now tag.key)
        ++ shortest_varint (text_number texts.now tag.value)) tags.now) }
    ensures err { OnErr result (IsPrefix out.old out.new) }
{
    for tag in tags {
        put_text(out, texts, tag.key.as_slice())?;
        put_text(out, texts, tag.value.as_slice())?;
    }
    Ok(())
}

fn kind_number(kind: Kind) -> u64
    ensures { result ≡ kind_rank kind }
{
    match kind {
        Kind::Node => 0,
        Kind::Way => 1,
        Kind::Relation => 2,
    }
}

// Appends the number of a text.
fn put_text(out: &mut Bytes, texts: &Table, text: &[u8]) -> Result<(), NoMemory>
    ensures ok { OnOk result (out.new ≡ out.old
        ++ shortest_varint (text_number texts.now text.now)) }
    ensures err { OnErr result (out.new ≡ out.old) }
{
    put_varint(out, texts.number_of(text) as u64)
}

//! The messages of entities that are written one by one.
//!
//! A node, a way and a relation share their fields 1 to 4: id, keys, values and metadata (OSM PBF
//! format, "Ways and relations").
ghost use Rattle.std.specs.Prelude.{◌≡◌, ◌++◌, ◌∷◌, [], OnOk, OnErr};
ghost use Rattle.std.specs.Int.{cast_unsigned, w64};
ghost use Rattle.osm_entity.specs.Entities.{EntityValue};
ghost use Rattle.osm_wire.specs.Integers.{zigzagged};
ghost use Rattle.osm_wire.specs.Written.{packed, written_field, written_message};
ghost use Rattle.osm_block_write.specs.Columns.{number_field};
ghost use Rattle.osm_block_write.specs.Messages.{body_field, described, entity_field, info_field, info_fields, lat_in, lon_in, node_fields, relation_fields, way_fields};
ghost use Rattle.osm_block_write.specs.Numbered.{with_numbers, user_number};
ghost use Rattle.osm_entity.specs.declared.parts.Body.TheVariants.{Relation as OfMembers};

use crate::columns::{MemberIds, WayRefs};
use crate::numbers::{put_keys, put_kinds, put_roles, put_values};
use crate::options::PbfOptions;
use crate::packing::put_deltas;
use crate::places::{lat_of, lon_of};
use crate::texts::Table;
use osm_entity::{Body, Bytes, Entity, Member, NoMemory, Place};
use osm_wire::{put_bytes, put_number, zigzag};

/// Room for a message in the making.
#[derive(Drop)]
pub(crate) struct Room {
    /// The message.
    pub(crate) message: Bytes,
    /// A field of it that is packed, or its metadata.
    pub(crate) part: Bytes,
    /// All dense nodes of a block.
    pub(crate) nodes: Bytes,
}

/// Appends an entity as a message of its group. Its texts are in the table, and its user has this
/// number. At `Err` nothing is appended.
pub(crate) fn append_entity(
    out: &mut Bytes,
    room: &mut Room,
    texts: &Table,
    options: &PbfOptions,
    entity: &Entity,
    user: u32,
) -> Result<(), NoMemory>
    requires { user ≡ user_number options.now texts.now entity.now.user }
    ensures ok { OnOk result (out.new ≡ out.old
        ++ written_field
        (entity_field options.now (with_numbers options.now texts.now entity.now))) }
    ensures err { OnErr result (out.new ≡ out.old) }
{
    room.message.truncate(0);
    match &entity.body {
        Body::Node(place) => {
            append_node(
                &mut room.message,
                &mut room.part,
                texts,
                options,
                entity,
                place,
                user,
            )?;
            put_bytes(out, 1, room.message.as_slice())
        }
        Body::Way(refs) => {
            append_way(
                &mut room.message,
                &mut room.part,
                texts,
                options,
                entity,
                refs.as_slice(),
                user,
            )?;
            put_bytes(out, 3, room.message.as_slice())
        }
        Body::Relation(members) => {
            append_relation(
                &mut room.message,
                &mut room.part,
                texts,
                options,
                entity,
                members.as_slice(),
                user,
            )?;
            put_bytes(out, 4, room.message.as_slice())
        }
    }
}

// Appends the fields of a node. `room` is emptied first, as below.
fn append_node(
    out: &mut Bytes,
    room: &mut Bytes,
    texts: &Table,
    options: &PbfOptions,
    entity: &Entity,
    place: &Option<Place>,
    user: u32,
) -> Result<(), NoMemory>
    requires { user ≡ user_number options.now texts.now entity.now.user }
    ensures ok { OnOk result (out.new ≡ out.old ++ written_message
        (node_fields options.now place.now (with_numbers options.now texts.now entity.now))) }
{
    put_number(out, 1, zigzag(entity.id))?;
    append_described(out, room, texts, options, entity, user)?;
    put_number(out, 8, zigzag(lat_of(options, place)))?;
    put_number(out, 9, zigzag(lon_of(options, place)))
}

// Appends the fields of a way.
fn append_way(
    out: &mut Bytes,
    room: &mut Bytes,
    texts: &Table,
    options: &PbfOptions,
    entity: &Entity,
    refs: &[i64],
    user: u32,
) -> Result<(), NoMemory>
    requires { user ≡ user_number options.now texts.now entity.now.user }
    ensures ok { OnOk result (out.new ≡ out.old ++ written_message
        (way_fields options.now refs.now (with_numbers options.now texts.now entity.now))) }
{
    put_number(out, 1, entity.id.cast_unsigned())?;
    append_described(out, room, texts, options, entity, user)?;
    put_deltas(out, room, 8, &WayRefs, refs)
}

// Appends the fields of a relation.
fn append_relation(
    out: &mut Bytes,
    room: &mut Bytes,
    texts: &Table,
    options: &PbfOptions,
    entity: &Entity,
    members: &[Member],
    user: u32,
) -> Result<(), NoMemory>
    requires user { user ≡ user_number options.now texts.now entity.now.user }
    requires body { entity.now.body ≡ OfMembers members.now }
    ensures ok { OnOk result (out.new ≡ out.old ++ written_message
        (relation_fields options.now members.now (with_numbers options.now texts.now entity.now))) }
{
    put_number(out, 1, entity.id.cast_unsigned())?;
    append_described(out, room, texts, options, entity, user)?;
    put_roles(out, room, texts, members)?;
    put_deltas(out, room, 9, &MemberIds, members)?;
    put_kinds(out, room, members)
}

// Appends what every entity has behind its id: keys, values and metadata.
fn append_described(
    out: &mut Bytes,
    room: &mut Bytes,
    texts: &Table,
    options: &PbfOptions,
    entity: &Entity,
    user: u32,
) -> Result<(), NoMemory>
    requires { user ≡ user_number options.now texts.now entity.now.user }
    ensures ok { OnOk result (out.new ≡ out.old ++ written_message
        (described options.now (with_numbers options.now texts.now entity.now))) }
{
    let tags = entity.tags.as_slice();
    put_keys(out, room, texts, tags)?;
    put_values(out, room, texts, tags)?;
    put_info(out, room, options, entity, user)
}

// Appends the metadata of an entity, where it is written.
fn put_info(
    out: &mut Bytes,
    room: &mut Bytes,
    options: &PbfOptions,
    entity: &Entity,
    user: u32,
) -> Result<(), NoMemory>
    ensures ok { OnOk result (out.new ≡ out.old
        ++ written_message (info_field options.now 4 (info_fields entity.now user))) }
{
    if options.omitmetadata {
        return Ok(());
    }
    room.truncate(0);
    append_info(room, entity, user)?;
    put_bytes(out, 4, room.as_slice())
}

// Appends the fields of metadata: version, time, changeset, uid and user.
fn append_info(out: &mut Bytes, entity: &Entity, user: u32) -> Result<(), NoMemory>
    ensures ok { OnOk result (out.new ≡ out.old ++ written_message (info_fields entity.now user)) }
{
    put_number(out, 1, u64::from(entity.version))?;
    put_number(out, 2, u64::from(entity.time))?;
    put_number(out, 3, entity.changeset)?;
    put_number(out, 4, u64::from(entity.uid))?;
    put_number(out, 5, u64::from(user))
}

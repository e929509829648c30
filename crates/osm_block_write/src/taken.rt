//! What a maker has of the entities that it took: their texts, and their numbers or their messages.
ghost use Rattle.std.specs.Prelude.{◌≡◌, ◌<◌, ◌^◌, length, take, OnOk, OnErr};
ghost use Rattle.osm_entity.specs.Prefixes.{IsPrefix};
ghost use Rattle.osm_block_write.specs.Block.{is_dense as written_densely};
ghost use Rattle.osm_block_write.specs.Taking.{with_taken};

use crate::dense::{append_keys_vals, row_of_node};
use crate::messages::{Room, append_entity};
use crate::numbering::take_texts;
use crate::options::PbfOptions;
use crate::texts::Table;
use osm_entity::{Bytes, Entity, Kind, NoMemory, Sequence};

/// The numbers of a dense node.
#[derive(Clone, Copy, Debug)]
pub(crate) struct Row {
    pub(crate) id: i64,
    /// In units of the granularity, as `lon` is.
    pub(crate) lat: i64,
    pub(crate) lon: i64,
    pub(crate) changeset: i64,
    pub(crate) version: u32,
    pub(crate) time: u32,
    pub(crate) uid: i32,
    /// The number of its user in the string table; 0 where metadata is left out.
    pub(crate) user: i32,
}

/// What is taken of entities.
#[derive(Drop)]
pub(crate) struct Taken {
    /// Their string table.
    pub(crate) texts: Table,
    /// The numbers of dense nodes.
    pub(crate) rows: Sequence<Row>,
    /// The tags of dense nodes, packed, or the messages of other entities.
    pub(crate) bytes: Bytes,
}

/// Takes an entity more. At `Err` nothing is taken.
pub(crate) fn take_entity(
    taken: &mut Taken,
    room: &mut Room,
    options: &PbfOptions,
    kind: Kind,
    entity: &Entity,
) -> Result<(), NoMemory>
    requires { length taken.old.texts < 2 ^ 31 }
    ensures ok { OnOk result (taken.new ≡ with_taken options.now kind taken.old entity.now) }
    ensures err { OnErr result (taken.new ≡ taken.old) }
{
    let texts = taken.texts.len();
    let bytes = taken.bytes.len();
    let done = append(taken, room, options, kind, entity);
    if done.is_err() {
        taken.texts.truncate(texts);
        taken.bytes.truncate(bytes);
    }
    done
}

// Takes an entity more. At `Err` some of its texts and bytes may be taken.
fn append(
    taken: &mut Taken,
    room: &mut Room,
    options: &PbfOptions,
    kind: Kind,
    entity: &Entity,
) -> Result<(), NoMemory>
    requires { length taken.old.texts < 2 ^ 31 }
    ensures ok { OnOk result (taken.new ≡ with_taken options.now kind taken.old entity.now) }
    ensures texts { OnErr result (IsPrefix taken.old.texts taken.new.texts) }
    ensures rows { OnErr result (taken.new.rows ≡ taken.old.rows) }
    ensures bytes { OnErr result (IsPrefix taken.old.bytes taken.new.bytes) }
{
    let user = take_texts(&mut taken.texts, options, entity)?;
    if is_dense(options, kind) {
        append_keys_vals(&mut taken.bytes, &taken.texts, entity.tags.as_slice())?;
        taken
            .rows
            .push(row_of_node(options, &taken.texts, entity, user))
    } else {
        append_entity(&mut taken.bytes, room, &taken.texts, options, entity, user)
    }
}

/// Whether entities of a kind are written densely.
pub(crate) fn is_dense(options: &PbfOptions, kind: Kind) -> bool
    ensures { result ≡ written_densely options.now kind }
{
    match kind {
        Kind::Node => options.usedense,
        Kind::Way | Kind::Relation => false,
    }
}

//! Which ids an item names.
ghost use Rattle.std.specs.Prelude.{◌≡◌, ◌==◌, ◌||◌, ℤ, OnOk};
ghost use Rattle.std.specs.List.{list_any};
ghost use Rattle.osm_entity.specs.Keys.{kind_rank};
ghost use Rattle.osm_used.specs.Used.{body_names, has_id, is_member};

use crate::ids::Ids;
use osm_entity::{Body, Kind, Member, NoMemory};

pub(crate) fn is_same(kind: Kind, other: Kind) -> bool
    ensures { result ≡ (kind_rank kind == kind_rank other) }
{
    kind == other
}

fn add_members(kind: Kind, members: &[Member], named: &mut Ids) -> Result<(), NoMemory>
    ensures { OnOk result ((q : ℤ) → has_id named.new q
        ≡ (has_id named.old q || list_any (is_member kind q) members.now)) }
{
    for member in members {
        named.add_if(is_same(member.kind, kind), member.id)?;
    }
    Ok(())
}

/// Adds the ids of entities of a kind that a body names.
pub(crate) fn add_named(kind: Kind, body: &Body, named: &mut Ids) -> Result<(), NoMemory>
    ensures { OnOk result ((q : ℤ) → has_id named.new q
        ≡ (has_id named.old q || body_names kind body.now q)) }
{
    match body {
        Body::Node(_) => Ok(()),
        Body::Way(refs) => named.add_all_if(is_same(Kind::Node, kind), refs.as_slice()),
        Body::Relation(members) => add_members(kind, members.as_slice(), named),
    }
}

//! What every item holds, as a file needs it to be read back.
//!
//! The types and invariants of an item say all of it, part by part; this says it of the item whole.
ghost use Rattle.std.specs.Prelude.{All, FitsSigned};
ghost use Rattle.std.specs.Int.{w64};
ghost use Rattle.osm_entity.specs.Writable.{IsBodyText, IsMemberText, IsTagText, IsWritable, Says};
ghost use Rattle.osm_entity.specs.declared.kind.Flow.{Flow};

use crate::entity::Entity;
use crate::item::Item;
use crate::parts::{Body, Member, Tag};

impl Item {
    /// Every item may be written to a file of a flow that says its act. The call changes nothing.
    pub fn held(&self)
        ensures { (flow : Flow) → Says flow self.now.act → IsWritable flow self.now }
    {
        self.kept();
        let entity: &Entity = &self.entity;
        entity.kept();
        let _id = entity.id;
        let _time = entity.time;
        let _user = entity.user.as_slice();
        hold_tags(entity.tags.as_slice());
        hold_body(&entity.body);
    }
}

fn hold_tags(tags: &[Tag])
    ensures { All IsTagText tags.now }
{
    for tag in tags {
        let _key = tag.key.as_slice();
        let _value = tag.value.as_slice();
    }
}

fn hold_body(body: &Body)
    ensures { IsBodyText body.now }
{
    match body {
        Body::Node(_) => {}
        Body::Way(refs) => hold_refs(refs.as_slice()),
        Body::Relation(members) => hold_members(members.as_slice()),
    }
}

fn hold_refs(refs: &[i64])
    ensures { All (λ id. FitsSigned w64 id) refs.now }
{
    for id in refs {
        let _id = *id;
    }
}

fn hold_members(members: &[Member])
    ensures { All IsMemberText members.now }
{
    for member in members {
        let _id = member.id;
        let _role = member.role.as_slice();
    }
}

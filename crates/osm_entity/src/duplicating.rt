//! Equal copies of entities and items.
ghost use Rattle.std.specs.Prelude.{◌≡◌, IfOk};

use crate::entity::Entity;
use crate::item::Item;
use crate::parts::{Body, Member, Members, Refs, Tag, Tags};
use crate::sequence::NoMemory;
use std::alloc::Global;

impl Item {
    /// An equal item.
    pub fn copy(&self, alloc: Global) -> Result<Item, NoMemory>
        ensures { IfOk result (λ item. item ≡ self.now) }
    {
        let act = self.act;
        let entity = copy_entity(alloc, &self.entity)?;
        Item::new(alloc, act, entity)
    }
}

fn copy_entity(alloc: Global, entity: &Entity) -> Result<Entity, NoMemory>
    ensures { IfOk result (λ e. e ≡ entity.now) }
{
    let user = entity.user.copy(alloc)?;
    let tags = copy_tags(alloc, entity.tags.as_slice())?;
    let body = copy_body(alloc, &entity.body)?;
    Ok(Entity {
        id: entity.id,
        version: entity.version,
        time: entity.time,
        changeset: entity.changeset,
        uid: entity.uid,
        user,
        tags,
        body,
    })
}

fn copy_tags(alloc: Global, tags: &[Tag]) -> Result<Tags, NoMemory>
    ensures { IfOk result (λ copy. copy ≡ tags.now) }
{
    let mut copy = Tags::with_room(alloc, tags.len())?;
    for tag in tags {
        copy.push(Tag {
            key: tag.key.copy(alloc)?,
            value: tag.value.copy(alloc)?,
        })?;
    }
    Ok(copy)
}

fn copy_body(alloc: Global, body: &Body) -> Result<Body, NoMemory>
    ensures { IfOk result (λ copy. copy ≡ body.now) }
{
    match body {
        Body::Node(place) => Ok(Body::Node(*place)),
        Body::Way(refs) => Ok(Body::Way(Refs::from_slice(alloc, refs.as_slice())?)),
        Body::Relation(members) => Ok(Body::Relation(copy_members(alloc, members.as_slice())?)),
    }
}

fn copy_members(alloc: Global, members: &[Member]) -> Result<Members, NoMemory>
    ensures { IfOk result (λ copy. copy ≡ members.now) }
{
    let mut copy = Members::with_room(alloc, members.len())?;
    for member in members {
        copy.push(Member {
            kind: member.kind,
            id: member.id,
            role: member.role.copy(alloc)?,
        })?;
    }
    Ok(copy)
}

//! Sets of ids by kind, and what they say of an item.
ghost use Rattle.std.specs.Prelude.{◌≡◌, OnOk, filter};
ghost use Rattle.std.specs.List.{list_any};
ghost use Rattle.osm_select.specs.Kept.{sets_of};
ghost use Rattle.osm_select.specs.Parts.{clipped, clipped_body, has_item, has_member, has_part, ids_of_kind};
ghost use Rattle.osm_select.specs.Passed.{nothing_kept, stays_kept, with_key_of};

use crate::ids::Ids;
use osm_entity::{Body, Entity, Item, Kind, Member, Members, NoMemory, Refs};
use std::alloc::Global;

/// Sets of ids, one for each kind.
#[derive(Drop)]
pub(crate) struct Keys {
    pub(crate) nodes: Ids,
    pub(crate) ways: Ids,
    pub(crate) relations: Ids,
}

impl Keys {
    /// Empty sets. They take no memory.
    pub(crate) fn new(alloc: Global) -> Self
        ensures { sets_of result ≡ nothing_kept }
    {
        Keys {
            nodes: Ids::new(alloc),
            ways: Ids::new(alloc),
            relations: Ids::new(alloc),
        }
    }

    /// Whether an id of a kind is in them.
    pub(crate) fn has(&self, kind: Kind, id: i64) -> bool
        ensures { result ≡ ids_of_kind (sets_of self.now) kind id }
    {
        match kind {
            Kind::Node => self.nodes.has(id),
            Kind::Way => self.ways.has(id),
            Kind::Relation => self.relations.has(id),
        }
    }

    /// Whether the id of an item is in them.
    pub(crate) fn has_item(&self, item: &Item) -> bool
        ensures { result ≡ has_item (sets_of self.now) item.now }
    {
        let key = item.key();
        self.has(key.kind, key.id)
    }

    fn has_member(&self, member: &Member) -> bool
        ensures { result ≡ has_member (sets_of self.now) member.now }
    {
        self.has(member.kind, member.id)
    }

    fn has_one_of(&self, members: &[Member]) -> bool
        ensures { result ≡ list_any (has_member (sets_of self.now)) members.now }
    {
        members.iter().any(|member| self.has_member(member))
    }

    /// Whether a ref or a member is in them.
    pub(crate) fn has_part(&self, body: &Body) -> bool
        ensures { result ≡ has_part (sets_of self.now) body.now }
    {
        match body {
            Body::Node(_) => false,
            Body::Way(refs) => self.nodes.has_any(refs.as_slice()),
            Body::Relation(members) => self.has_one_of(members.as_slice()),
        }
    }

    /// Whether a node or a way stays since its id is in them.
    pub(crate) fn stays(&self, id: i64, body: &Body) -> bool
        ensures { result ≡ stays_kept (sets_of self.now) id body.now }
    {
        match body {
            Body::Node(_) => self.nodes.has(id),
            Body::Way(_) => self.ways.has(id),
            Body::Relation(_) => false,
        }
    }

    /// Adds an id of a kind.
    pub(crate) fn add(&mut self, kind: Kind, id: i64) -> Result<(), NoMemory>
        ensures { OnOk result (sets_of self.new ≡ with_key_of kind id (sets_of self.old)) }
    {
        match kind {
            Kind::Node => self.nodes.add(id),
            Kind::Way => self.ways.add(id),
            Kind::Relation => self.relations.add(id),
        }
    }

    /// Takes the refs and members out of an item that are not in them, where `clip` says so. It
    /// takes no memory.
    pub(crate) fn clip_if(&self, clip: bool, item: &mut Item)
        ensures { item.new ≡ clipped clip (sets_of self.now) item.old }
    {
        if clip {
            self.clip_entity(&mut item.entity);
        }
    }

    fn clip_entity(&self, entity: &mut Entity)
        ensures { entity.new
            ≡ record entity.old { body = clipped_body (sets_of self.now) entity.old.body } }
    {
        self.clip_body(&mut entity.body);
    }

    fn clip_body(&self, body: &mut Body)
        ensures { body.new ≡ clipped_body (sets_of self.now) body.old }
    {
        match body {
            Body::Node(_) => {}
            Body::Way(refs) => self.clip_refs(refs),
            Body::Relation(members) => self.clip_members(members),
        }
    }

    fn clip_refs(&self, refs: &mut Refs)
        ensures { refs.new ≡ filter (sets_of self.now).nodes refs.old }
    {
        refs.retain(|id| self.nodes.has(*id));
    }

    fn clip_members(&self, members: &mut Members)
        ensures { members.new ≡ filter (has_member (sets_of self.now)) members.old }
    {
        members.retain(|member| self.has_member(member));
    }
}

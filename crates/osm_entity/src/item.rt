//! An item of a stream: an entity, and what is done with it.
ghost use Rattle.std.specs.Prelude.{◌≡◌, IfOk};

use crate::entity::Entity;
use crate::kind::{Key, Kind};
use crate::parts::Body;
use crate::sequence::{NoMemory, Sequence};
use std::alloc::Global;
use std::marker::Model;

/// What a stream says of an entity.
#[derive(Clone, Copy, Debug, PartialEq, Eq)]
pub enum Act {
    /// It is there: an entity stream says this alone.
    Keep,
    /// It is new.
    Create,
    /// It takes the place of an earlier version.
    Modify,
    /// It is gone.
    Delete,
}

/// One item of a stream. It keeps: a node has a place unless it is deleted, a created entity has
/// version 1, and a modified one has another version.
#[derive(Debug, Drop)]
pub struct Item {
    pub act: Act,
    /// In a box, so that an item is moved from task to task as two words.
    pub entity: Box<Entity>,
}

/// Items in the order of their stream.
pub type Items = Sequence<Item>;

impl Model for Item {
    ghost use Rattle.osm_entity.specs.Items.{ItemValue, IsItem};

    ghost Value = { ItemValue };

    ghost view = { λ i. record { act = i.act; entity = i.entity.value } };

    ghost invariant = { λ i. IsItem (record { act = i.act; entity = i.entity.value }) };
}

impl Item {
    ghost use Rattle.osm_entity.specs.Items.{IsItem, key_of};

    /// An item of an entity. `NoMemory` where the entity has no room.
    pub fn new(alloc: Global, act: Act, entity: Entity) -> Result<Item, NoMemory>
        requires { IsItem (record { act = act; entity = entity }) }
        ensures { IfOk result (λ item. item ≡ record { act = act; entity = entity }) }
    {
        match Box::new(alloc, entity) {
            Ok(entity) => Ok(Item { act, entity }),
            Err(_) => Err(NoMemory),
        }
    }

    /// What every item keeps.
    pub fn kept(&self)
        ensures { IsItem self.now }
    {
        let _act = &self.act;
    }

    /// The key of its entity.
    pub fn key(&self) -> Key
        ensures { result ≡ key_of self.now }
    {
        let entity = &self.entity;
        let kind = match &entity.body {
            Body::Node(_) => Kind::Node,
            Body::Way(_) => Kind::Way,
            Body::Relation(_) => Kind::Relation,
        };
        Key {
            kind,
            id: entity.id,
        }
    }
}

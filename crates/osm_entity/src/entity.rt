//! An entity: a node, a way or a relation with its metadata.
use crate::parts::{Body, Tags};
use crate::text::Text;
use std::marker::Model;

/// A node, a way or a relation. It keeps: version and uid at most 2^31 - 1, changeset at most
/// 2^63 - 1, no empty tag key, a place within 180 and 90 degrees, and a weight of at most
/// 2,097,152.
#[derive(Debug, Drop)]
pub struct Entity {
    pub id: i64,
    pub version: u32,
    /// Seconds since 1970-01-01T00:00:00Z; 0 where it isn't known.
    pub time: u32,
    pub changeset: u64,
    pub uid: u32,
    pub user: Text,
    pub tags: Tags,
    pub body: Body,
}

impl Model for Entity {
    ghost use Rattle.osm_entity.specs.Entities.{EntityValue, IsEntity};

    ghost Value = { EntityValue };

    ghost use Rattle.osm_entity.specs.Seen.{entity_seen};

    ghost view = { entity_seen };

    ghost invariant = { λ e. IsEntity (entity_seen e) };
}

impl Entity {
    ghost use Rattle.osm_entity.specs.Entities.{IsEntity};

    /// What every entity keeps.
    pub fn kept(&self)
        ensures { IsEntity self.now }
    {
        let _version = &self.version;
    }
}

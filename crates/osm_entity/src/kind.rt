//! Kinds of entities, kinds of streams, and keys.
//!
//! Keys are ordered by kind (nodes, ways, relations) and then by signed id, as sorted files are.

/// What an entity is.
#[derive(Clone, Copy, Debug, PartialEq, Eq, PartialOrd, Ord)]
pub enum Kind {
    /// A point.
    Node,
    /// A list of nodes.
    Way,
    /// A list of members with roles.
    Relation,
}

/// What a stream holds.
#[derive(Clone, Copy, Debug, PartialEq, Eq)]
pub enum Flow {
    /// The entities of an extract.
    Entities,
    /// Changes of entities.
    Changes,
}

/// What names an entity: no two of one extract share it.
#[derive(Clone, Copy, Debug, PartialEq, Eq, PartialOrd, Ord)]
pub struct Key {
    pub kind: Kind,
    pub id: i64,
}

impl Key {
    ghost use Rattle.std.specs.Prelude.{◌≡◌};
    ghost use Rattle.osm_entity.specs.Keys.{is_key_before};

    /// Whether it stands before the other in a sorted file: by kind, and among one kind by signed
    /// id.
    pub fn is_before(&self, other: &Key) -> bool
        ensures { result ≡ is_key_before self.now other.now }
    {
        self < other
    }
}

//! The parts of an entity: tags, places, members, and what is proper to each kind.
use crate::kind::Kind;
use crate::sequence::Sequence;
use crate::text::Text;

/// A key and its value.
#[derive(Debug, Drop)]
pub struct Tag {
    /// Not empty in an entity.
    pub key: Text,
    pub value: Text,
}

/// A point, in nanodegrees: 1,000,000,000 to a degree. An entity keeps it within 180 and 90
/// degrees.
#[derive(Clone, Copy, Debug, PartialEq, Eq)]
pub struct Place {
    /// East of Greenwich.
    pub lon: i64,
    /// North of the equator.
    pub lat: i64,
}

/// A part that an entity plays in a relation.
#[derive(Debug, Drop)]
pub struct Member {
    pub kind: Kind,
    pub id: i64,
    pub role: Text,
}

/// Tags in the order in which they were written.
pub type Tags = Sequence<Tag>;

/// Ids of the nodes of a way, in its order.
pub type Refs = Sequence<i64>;

/// Members of a relation, in its order.
pub type Members = Sequence<Member>;

/// What is proper to each kind.
#[derive(Debug, Drop)]
pub enum Body {
    /// Its place; none where a delete says none.
    Node(Option<Place>),
    Way(Refs),
    Relation(Members),
}

//! Options of tasks that more than one crate speaks of: how merges resolve, what an area keeps, and
//! which tags a filter looks for.
use crate::sequence::Sequence;
use crate::text::Text;

/// Which of two entities of one key a merge gives.
#[derive(Clone, Copy, Debug, PartialEq, Eq)]
pub enum Resolution {
    /// The one with the higher version.
    Version,
    /// The one with the later time.
    Timestamp,
    /// The one of the last input.
    LastSource,
}

/// What an area keeps beside the nodes inside, and what has one of them.
#[derive(Clone, Copy, Debug, PartialEq, Eq)]
pub struct AreaOptions {
    /// Whether the nodes of a way that is kept are kept too, wherever they are.
    pub complete_ways: bool,
    /// Whether a relation is kept for a relation that is kept, wherever that one stands in the
    /// stream.
    pub cascading_relations: bool,
    /// Whether refs and members that aren't kept are taken out.
    pub clip: bool,
}

/// Texts, in the order of the words that gave them.
pub type Texts = Sequence<Text>;

/// A key, and values of which one is wanted.
#[derive(Debug, Drop)]
pub struct TagTest {
    pub key: Text,
    /// None where every value will do.
    pub values: Option<Texts>,
}

/// Tests of tags, in the order of the words that gave them.
pub type TagTests = Sequence<TagTest>;

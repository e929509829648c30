//! What an entity weighs.
//!
//! The weight bounds how much room an entity takes, in memory and in a file, before it is written.
ghost use Rattle.std.specs.Prelude.{◌≡◌, ◌≤◌, ◌+◌, ◌*◌, length, sum_by};
ghost use Rattle.osm_entity.specs.Entities.{body_weight, greatest_weight, member_weight, tag_weight, weight_of};

use crate::entity::Entity;
use crate::parts::{Body, Member, Tag};

/// The most that an entity weighs.
pub const GREATEST_WEIGHT: u64 = 2_097_152;

/// What an entity weighs: 128, all its text bytes, and 32 for each tag, ref and member. It is at
/// most `GREATEST_WEIGHT`.
pub fn weight(entity: &Entity) -> u64
    ensures value { result ≡ weight_of entity.now }
    ensures most { result ≤ greatest_weight }
{
    let user = entity.user.as_slice().len() as u64;
    128 + user + weight_of_tags(entity.tags.as_slice()) + weight_of_body(&entity.body)
}

fn weight_of_tags(tags: &[Tag]) -> u64
    requires { sum_by tag_weight tags.now ≤ greatest_weight }
    ensures { result ≡ sum_by tag_weight tags.now }
{
    let mut total = 0u64;
    for tag in tags {
        total += 32 + tag.key.as_slice().len() as u64 + tag.value.as_slice().len() as u64;
    }
    total
}

fn weight_of_body(body: &Body) -> u64
    requires { body_weight body.now ≤ greatest_weight }
    ensures { result ≡ body_weight body.now }
{
    match body {
        Body::Node(_) => 0,
        Body::Way(refs) => 32 * refs.len() as u64,
        Body::Relation(members) => weight_of_members(members.as_slice()),
    }
}

fn weight_of_members(members: &[Member]) -> u64
    requires { sum_by member_weight members.now ≤ greatest_weight }
    ensures { result ≡ sum_by member_weight members.now }
{
    let mut total = 0u64;
    for member in members {
        total += 32 + member.role.as_slice().len() as u64;
    }
    total
}

//! Makes items out of numbers (docs/FORMATS.md, "Made entities").
ghost use Rattle.std.specs.Prelude.{◌≡◌, ◌≢◌, ◌+◌, ◌*◌, ◌<◌, ◌≤◌, ◌∷◌, [], All, IfOk, IsTrue, map, nat_abs, sum_by};
ghost use Rattle.std.specs.List.{range_with_len};
ghost use Rattle.osm_entity.specs.Entities.{body_fits, body_weight, degree, tag_weight};
ghost use Rattle.osm_entity.specs.Items.{has_place};
ghost use Rattle.osm_made.specs.Generator.{made_degrees, made_id, made_item, made_node, made_number, made_relation, made_tags, made_way, nodes_among, relations_among, ways_among};

use osm_entity::{
    Act, Body, Entity, Item, Kind, Member, Members, NoMemory, Place, Refs, Tag, Tags, Text,
};
use std::alloc::Global;

/// 2010-01-01T00:00:00Z.
const TIME: u32 = 1_262_304_000;

// The number of which part `part` of entity `n` of its kind is made.
fn number(seed: u32, n: u32, part: u32) -> u32
    requires { part < 4 }
    ensures { result ≡ made_number seed n part }
{
    let sum = u64::from(seed) + u64::from(n) * 2_654_435_761 + u64::from(part) * 40_503;
    (sum % 4_294_967_296) as u32
}

// A longitude in nanodegrees.
fn longitude(number: u32) -> i64
    ensures value { result ≡ made_degrees 180 number }
    ensures size { nat_abs result ≤ 180 * degree }
{
    i64::from(number % 3_600_000_001) * 100 - 180_000_000_000
}

// A latitude in nanodegrees.
fn latitude(number: u32) -> i64
    ensures value { result ≡ made_degrees 90 number }
    ensures size { nat_abs result ≤ 90 * degree }
{
    i64::from(number % 1_800_000_001) * 100 - 90_000_000_000
}

// The id of one of the first `most` entities of a kind.
fn id_of(most: u32, number: u32) -> i64
    requires { 0 < most }
    ensures { result ≡ made_id most number }
{
    1 + i64::from(number % most)
}

fn nodes_of(count: u32) -> u32
    ensures { result ≡ nodes_among count }
{
    count - count / 10 - count / 100
}

// An item of this id, with the metadata that all have.
fn item(alloc: Global, id: u32, tags: Tags, body: Body) -> Result<Item, NoMemory>
    requires named { All (λ tag. tag.key ≢ []) tags }
    requires light { sum_by tag_weight tags + body_weight body ≤ 1000 }
    requires fits { IsTrue (body_fits body) }
    requires placed { IsTrue (has_place body) }
    ensures { IfOk result (λ item. item ≡ made_item id tags body) }
{
    let entity = Entity {
        id: i64::from(id),
        version: 1,
        time: TIME,
        changeset: 1,
        uid: 0,
        user: Text::new(alloc),
        tags,
        body,
    };
    Item::new(alloc, Act::Keep, entity)
}

/// Makes node `n`.
pub(crate) fn make_node(alloc: Global, seed: u32, n: u32) -> Result<Item, NoMemory>
    ensures { IfOk result (λ item. item ≡ made_node seed n) }
{
    let place = Place {
        lon: longitude(number(seed, n, 0)),
        lat: latitude(number(seed, n, 1)),
    };
    item(alloc, n, Tags::new(alloc), Body::Node(Some(place)))
}

// The tags of way `n`.
fn tags_of(alloc: Global, n: u32) -> Result<Tags, NoMemory>
    ensures value { IfOk result (λ tags. tags ≡ made_tags n) }
{
    if n % 2 != 0 {
        return Ok(Tags::new(alloc));
    }
    let mut tags = Tags::with_room(alloc, 1)?;
    tags.push(Tag {
        key: Text::from_utf8(alloc, "highway".as_bytes())?,
        value: Text::from_utf8(alloc, "residential".as_bytes())?,
    })?;
    Ok(tags)
}

/// Makes way `n` among `count` entities.
pub(crate) fn make_way(alloc: Global, count: u32, seed: u32, n: u32) -> Result<Item, NoMemory>
    requires { 10 ≤ count }
    ensures { IfOk result (λ item. item ≡ made_way count seed n) }
{
    let nodes = nodes_of(count);
    let refs = Refs::from_slice(
        alloc,
        &[
            id_of(nodes, number(seed, n, 0)),
            id_of(nodes, number(seed, n, 1)),
            id_of(nodes, number(seed, n, 2)),
            id_of(nodes, number(seed, n, 3)),
        ],
    )?;
    item(alloc, n, tags_of(alloc, n)?, Body::Way(refs))
}

/// Makes relation `n` among `count` entities.
pub(crate) fn make_relation(alloc: Global, count: u32, seed: u32, n: u32) -> Result<Item, NoMemory>
    requires { 10 ≤ count }
    ensures { IfOk result (λ item. item ≡ made_relation count seed n) }
{
    let mut members = Members::with_room(alloc, 2)?;
    members.push(Member {
        kind: Kind::Way,
        id: id_of(count / 10, number(seed, n, 0)),
        role: Text::from_utf8(alloc, "part".as_bytes())?,
    })?;
    members.push(Member {
        kind: Kind::Node,
        id: id_of(nodes_of(count), number(seed, n, 1)),
        role: Text::new(alloc),
    })?;
    item(alloc, n, Tags::new(alloc), Body::Relation(members))
}

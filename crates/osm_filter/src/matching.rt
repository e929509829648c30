//! Whether the tags of an entity match what a filter looks for. Nothing here takes memory.
ghost use Rattle.std.specs.Prelude.{◌≡◌, ◌==◌, bytes_eq};
ghost use Rattle.std.specs.List.{list_any};
ghost use Rattle.osm_entity.specs.Items.{kind_of};
ghost use Rattle.osm_entity.specs.Keys.{kind_rank};
ghost use Rattle.osm_filter.specs.Filters.{is_value_wanted, passes_test, tags_match};

use osm_entity::{Body, Kind, Tag, TagTest, Text, Texts};

fn is_same(text: &Text, other: &Text) -> bool
    ensures { result ≡ bytes_eq text.now other.now }
{
    text.is(other)
}

fn is_listed(values: &[Text], value: &Text) -> bool
    ensures { result ≡ list_any (bytes_eq value.now) values.now }
{
    values.iter().any(|listed| is_same(value, listed))
}

fn is_wanted(values: &Option<Texts>, value: &Text) -> bool
    ensures { result ≡ is_value_wanted values.now value.now }
{
    match values {
        None => true,
        Some(values) => is_listed(values.as_slice(), value),
    }
}

fn has_bytes(text: &Text, bytes: &[u8]) -> bool
    ensures { result ≡ bytes_eq text.now bytes.now }
{
    text.as_slice() == bytes
}

// The test's key is taken apart once for all tags: most of them have another one.
fn has_passing_tag(test: &TagTest, tags: &[Tag]) -> bool
    ensures { result ≡ list_any (passes_test test.now) tags.now }
{
    let key = test.key.as_slice();
    tags.iter().any(|tag| has_bytes(&tag.key, key) && is_wanted(&test.values, &tag.value))
}

fn pass_some(tests: &[TagTest], tags: &[Tag]) -> bool
    ensures { result ≡ list_any (λ test. list_any (passes_test test) tags.now) tests.now }
{
    tests.iter().any(|test| has_passing_tag(test, tags))
}

/// Whether one of the tags passes one of the tests, or there is no test.
pub(crate) fn is_match(tests: &[TagTest], tags: &[Tag]) -> bool
    ensures { result ≡ tags_match tests.now tags.now }
{
    tests.is_empty() || pass_some(tests, tags)
}

/// Whether an entity with this body is of a kind.
pub(crate) fn is_of(kind: Kind, body: &Body) -> bool
    ensures { result ≡ (kind_rank (kind_of body.now) == kind_rank kind) }
{
    match body {
        Body::Node(_) => kind == Kind::Node,
        Body::Way(_) => kind == Kind::Way,
        Body::Relation(_) => kind == Kind::Relation,
    }
}

//! Which of the items that are held are given.
ghost use Rattle.std.specs.Prelude.{◌≡◌, ◌<◌, ◌∷◌, [], length, IfNone, IfSome};
ghost use Rattle.std.specs.List.{filter, take_while};
ghost use Rattle.osm_used.specs.Used.{has_id, is_not_of, items_left, stays_if};

use crate::ids::Ids;
use crate::naming::is_same;
use osm_entity::{End, Entity, Held, Item, Kind};

fn is_not_of(kind: Kind, item: &Item) -> bool
    ensures { result ≡ is_not_of kind item.now }
{
    !is_same(item.key().kind, kind)
}

fn stays(kind: Kind, named: &Ids, item: &Item) -> bool
    ensures { result ≡ stays_if kind (has_id named.now) item.now }
{
    let entity: &Entity = &item.entity;
    is_not_of(kind, item) || named.has(entity.id)
}

/// The next item that isn't of a kind, or is named. Those before it are dropped.
fn next_used(kind: Kind, kept: &mut Held, named: &Ids) -> Option<Item>
    ensures none { IfNone result (filter (stays_if kind (has_id named.now)) kept.old ≡ []) }
    ensures some { IfSome result (λ item. filter (stays_if kind (has_id named.now)) kept.old
        ≡ item ∷ filter (stays_if kind (has_id named.now)) kept.new) }
    ensures shorter { IfSome result (λ _. length kept.new < length kept.old) }
{
    while let Some(item) = kept.take_first() {
        if stays(kind, named, &item) {
            return Some(item);
        }
    }
    None
}

/// The next item before the first of a kind.
fn next_before(kind: Kind, kept: &mut Held) -> Option<Item>
    ensures none { IfNone result (take_while (is_not_of kind) kept.old ≡ []) }
    ensures some { IfSome result (λ item. take_while (is_not_of kind) kept.old
        ≡ item ∷ take_while (is_not_of kind) kept.new) }
    ensures shorter { IfSome result (λ _. length kept.new < length kept.old) }
{
    let item = kept.take_first()?;
    if is_not_of(kind, &item) {
        Some(item)
    } else {
        None
    }
}

/// The next item that is left to give of those held, where their input ended so.
pub(crate) fn next(kind: Kind, end: End, kept: &mut Held, named: &Ids) -> Option<Item>
    ensures none { IfNone result (items_left kind (has_id named.now) kept.old end ≡ []) }
    ensures some { IfSome result (λ item. items_left kind (has_id named.now) kept.old end
        ≡ item ∷ items_left kind (has_id named.now) kept.new end) }
    ensures shorter { IfSome result (λ _. length kept.new < length kept.old) }
{
    match end {
        End::Done => next_used(kind, kept, named),
        End::Broken => next_before(kind, kept),
    }
}

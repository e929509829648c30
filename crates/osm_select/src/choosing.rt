//! Which of the items that are held are given, and by which ids they are clipped.
ghost use Rattle.std.specs.Prelude.{◌≡◌, ◌<◌, ◌∷◌, [], filter, length, IfNone, IfOk, IfSome, OnOk, true, cond};
ghost use Rattle.osm_entity.specs.Items.{kind_of};
ghost use Rattle.osm_select.specs.Held.{held_sets, items_chosen};
ghost use Rattle.osm_select.specs.Holding.{choice_gives};
ghost use Rattle.osm_select.specs.Kept.{sets_of};
ghost use Rattle.osm_select.specs.Parts.{has_item, keys_of};
ghost use Rattle.osm_select.specs.Passed.{with_key_of};

use crate::keys::Keys;
use crate::sets::kept_ids;
use osm_area::Area;
use osm_entity::{Held, Item, Key, NoMemory};
use std::alloc::Global;

/// Which of the items that are held are given.
#[derive(Drop)]
pub(crate) struct Choice {
    /// Their ids.
    pub(crate) kept: Keys,
    /// The ids by which they are clipped: those of the items that are given.
    pub(crate) output: Keys,
}

fn add_if(keys: &mut Keys, test: bool, key: Key) -> Result<(), NoMemory>
    ensures { OnOk result (sets_of keys.new
        ≡ cond test (with_key_of key.kind key.id (sets_of keys.old)) (sets_of keys.old)) }
{
    if test {
        keys.add(key.kind, key.id)
    } else {
        Ok(())
    }
}

fn add_kept(keys: &mut Keys, kept: &Keys, item: &Item) -> Result<(), NoMemory>
    ensures { OnOk result (sets_of keys.new ≡ cond (has_item (sets_of kept.now) item.now)
        (with_key_of (kind_of item.now.entity.body) item.now.entity.id (sets_of keys.old))
        (sets_of keys.old)) }
{
    add_if(keys, kept.has_item(item), item.key())
}

/// The ids of those items that are kept.
fn output_ids(alloc: Global, kept: &Keys, items: &Held) -> Result<Keys, NoMemory>
    ensures { IfOk result (λ keys.
        sets_of keys ≡ keys_of (filter (has_item (sets_of kept.now)) items.now)) }
{
    let mut keys = Keys::new(alloc);
    for place in 0..items.len() {
        add_kept(&mut keys, kept, items.get(place))?;
    }
    Ok(keys)
}

fn output_if(alloc: Global, clip: bool, kept: &Keys, items: &Held) -> Result<Keys, NoMemory>
    ensures { IfOk result (λ keys. clip ≡ true →
        sets_of keys ≡ keys_of (filter (has_item (sets_of kept.now)) items.now)) }
{
    if clip {
        output_ids(alloc, kept, items)
    } else {
        Ok(Keys::new(alloc))
    }
}

impl Choice {
    /// No items.
    pub(crate) fn none(alloc: Global) -> Self {
        Choice {
            kept: Keys::new(alloc),
            output: Keys::new(alloc),
        }
    }

    /// Those that a holding task gives of the items of a stream that is whole.
    pub(crate) fn of(
        alloc: Global,
        area: &Area,
        complete: bool,
        clip: bool,
        items: &Held,
    ) -> Result<Self, NoMemory>
        ensures { IfOk result (λ choice. choice_gives clip choice items.now
            ≡ items_chosen clip (held_sets area.now complete items.now) items.now) }
    {
        let kept = kept_ids(alloc, area, complete, items)?;
        let output = output_if(alloc, clip, &kept, items)?;
        Ok(Choice { kept, output })
    }

    fn next_kept(&self, items: &mut Held) -> Option<Item>
        ensures none { IfNone result (filter (has_item (sets_of self.now.kept)) items.old ≡ []) }
        ensures some { IfSome result (λ item. filter (has_item (sets_of self.now.kept)) items.old
            ≡ item ∷ filter (has_item (sets_of self.now.kept)) items.new) }
        ensures shorter { IfSome result (λ _. length items.new < length items.old) }
    {
        while let Some(item) = items.take_first() {
            if self.kept.has_item(&item) {
                return Some(item);
            }
        }
        None
    }

    /// The next item that is given. Those before it are dropped.
    pub(crate) fn next(&self, clip: bool, items: &mut Held) -> Option<Item>
        ensures none { IfNone result (choice_gives clip self.now items.old ≡ []) }
        ensures some { IfSome result (λ item. choice_gives clip self.now items.old
            ≡ item ∷ choice_gives clip self.now items.new) }
        ensures shorter { IfSome result (λ _. length items.new < length items.old) }
    {
        let mut item = self.next_kept(items)?;
        self.output.clip_if(clip, &mut item);
        Some(item)
    }
}

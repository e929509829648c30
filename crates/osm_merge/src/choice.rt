//! What is given at a key, of the items that two inputs have there.
ghost use Rattle.std.specs.Prelude.{◌≡◌};
ghost use Rattle.osm_merge.specs.Choices.{prefers_first, chosen_by, chosen_by_is_choice};
ghost use Rattle.osm_merge.specs.Rules.{Choice, IsChoice};

use osm_entity::{Entity, Item, Resolution};

/// What a task of two sorted inputs gives at a key: nothing where neither input has an item there,
/// and else nothing or an item of that key.
pub trait Chooser {
    ghost chosen: { Self → Choice };

    /// What is given at the key of these items, of input 0 and of input 1. It takes no memory.
    fn choose(&self, first: Option<Item>, second: Option<Item>) -> Option<Item>
        ensures { result ≡ chosen self.now first second };

    ghost good: { (c : Self) → IsChoice (chosen c) };
}

fn is_preferred(resolution: Resolution, first: &Item, second: &Item) -> bool
    ensures { result ≡ prefers_first resolution first.now second.now }
{
    let first: &Entity = &first.entity;
    let second: &Entity = &second.entity;
    match resolution {
        Resolution::Version => {
            second.version < first.version
                || (first.version == second.version && second.time < first.time)
        }
        Resolution::Timestamp => {
            second.time < first.time
                || (first.time == second.time && second.version < first.version)
        }
        Resolution::LastSource => false,
    }
}

impl Chooser for Resolution {
    ghost chosen = { chosen_by };

    fn choose(&self, first: Option<Item>, second: Option<Item>) -> Option<Item> {
        let Some(y) = second else { return first };
        let Some(x) = first else { return Some(y) };
        if is_preferred(*self, &x, &y) {
            Some(x)
        } else {
            Some(y)
        }
    }

    ghost good = { chosen_by_is_choice };
}

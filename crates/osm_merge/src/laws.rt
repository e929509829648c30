//! Laws of merges and appends, whatever their inputs.
ghost use Rattle.std.specs.Prelude.{◌≡◌, ◌&&◌, List, true, None, if◌then◌else◌};
ghost use Rattle.osm_entity.specs.Growth.{IsMonotoneInBoth};
ghost use Rattle.osm_entity.specs.Items.{ItemValue};
ghost use Rattle.osm_entity.specs.Machines.{AreLawful};
ghost use Rattle.osm_entity.specs.Streams.{Stream};
ghost use Rattle.osm_entity.specs.declared.kind.Key.{Key};
ghost use Rattle.osm_merge.specs.Append.{appending, appended};
ghost use Rattle.osm_merge.specs.Heads.{heads_of};
ghost use Rattle.osm_merge.specs.Merging.{merging};
ghost use Rattle.osm_merge.specs.Rules.{Choice, IsChoice, item_at, is_rising_from, merged, reaches, rising_front};
ghost use Rattle.osm_merge.specs.TwoInputs.{meanings_of_two};

use crate::choice::Chooser;

/// What a merge gives is told by its keys: they rise, and at each key stands what is chosen there
/// where both inputs are known, and nothing elsewhere. There is one such list.
pub fn merges_are_told_by_keys()
    ensures rises { (choose : Choice) → IsChoice choose → (s t : Stream)
        → is_rising_from None (merged choose s t).items ≡ true }
    ensures at { (choose : Choice) → IsChoice choose → (s t : Stream) (key : Key)
        → item_at key (merged choose s t).items ≡ (if reaches s key && reaches t key
        then choose (item_at key (rising_front s)) (item_at key (rising_front t)) else None) }
    ensures one { (xs ys : List ItemValue)
        → is_rising_from None xs ≡ true → is_rising_from None ys ≡ true
        → ((key : Key) → item_at key xs ≡ item_at key ys) → xs ≡ ys }
{}

/// Of inputs that are before others a merge gives what is before.
pub fn merges_grow()
    ensures { (choose : Choice) → IsChoice choose → IsMonotoneInBoth (merged choose) }
{}

/// Of inputs that are before others an append gives what is before.
pub fn appends_grow()
    ensures { IsMonotoneInBoth appended }
{}

/// Machines of two heads keep the contract of machines, whatever they choose.
pub fn heads_are_lawful<C: Chooser>()
    ensures { AreLawful (meanings_of_two (heads_of C.chosen)) }
{}

/// Merges keep the contract of machines.
pub fn merges_are_lawful()
    ensures { AreLawful (meanings_of_two merging) }
{}

/// Appends keep the contract of machines.
pub fn appends_are_lawful()
    ensures { AreLawful (meanings_of_two appending) }
{}

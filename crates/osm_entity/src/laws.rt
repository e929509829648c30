//! Laws of streams, of keys, and of items sorted by key.
ghost use Rattle.std.specs.Prelude.{◌≡◌, ◌≢◌, ◌⊎◌, true, false, Some};
ghost use Rattle.std.specs.Prelude.{IsSortedByKey, List};
ghost use Rattle.std.specs.List.Sorted.{IsStableByKey};
ghost use Rattle.osm_entity.specs.Items.{ItemValue, key_of};
ghost use Rattle.osm_entity.specs.Keys.{is_key_before, key_order};
ghost use Rattle.osm_entity.specs.Sorting.{sorted_by_key};
ghost use Rattle.osm_entity.specs.Streams.{Stream, IsBefore};
ghost use Rattle.osm_entity.specs.declared.kind.Key.{Key};
ghost use Rattle.osm_entity.specs.contracts.kind.KeyOrd.TheImpl as compared;
ghost use Rattle.osm_entity.specs.contracts.kind.KeyPartialOrd.TheImpl as partly;

/// To be before another stream is an order: each stream is before itself, a stream that is before
/// one that is before a third is before that, and two streams that are before each other are one.
pub fn before_is_an_order()
    ensures itself { (a : Stream) → IsBefore a a }
    ensures onward { (a b c : Stream) → IsBefore a b → IsBefore b c → IsBefore a c }
    ensures both { (a b : Stream) → IsBefore a b → IsBefore b a → a ≡ b }
{}

/// The order of sorted files is strict and total, and `cmp` and `<` on keys go by it: of two keys
/// either exactly one is before the other, or they are equal.
pub fn keys_have_one_order()
    ensures told { (a b : Key) → (is_key_before a b ≡ true)
        ⊎ ((a ≡ b) ⊎ (is_key_before b a ≡ true)) }
    ensures differ { (a b : Key) → is_key_before a b ≡ true → a ≢ b }
    ensures once { (a b : Key) → is_key_before a b ≡ true → is_key_before b a ≡ false }
    ensures onward { (a b c : Key) → is_key_before a b ≡ true → is_key_before b c ≡ true
        → is_key_before a c ≡ true }

    ensures cmp { (a b : Key) → compared.ghosts.cmp a b ≡ key_order a b }
    ensures partial_cmp { (a b : Key) → partly.ghosts.partial_cmp a b ≡ Some (key_order a b) }
{}

/// Sorted items rise by key, items of one key stand in their old order, and no other list is so.
pub fn sorting_is_stable()
    ensures rising { (items : List ItemValue) → IsSortedByKey key_of key_order (sorted_by_key items) }
    ensures stable { (items : List ItemValue) →
        IsStableByKey key_of key_order items (sorted_by_key items) }
    ensures only { (items sorted : List ItemValue) → IsSortedByKey key_of key_order sorted
        → IsStableByKey key_of key_order items sorted → sorted ≡ sorted_by_key items }
{}

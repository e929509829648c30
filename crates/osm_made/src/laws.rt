//! Laws of what is made, and of summaries.
ghost use Rattle.std.specs.Prelude.{◌≡◌, ◌++◌, ◌∷◌, [], Some, neg_ℤ, pos, ◌<◌, ◌*◌, ◌+◌, ◌/◌, ℕ, codes, length};
ghost use Rattle.osm_entity.specs.Prefixes.{IsPrefix};
ghost use Rattle.osm_entity.specs.Streams.{Stream, IsBefore};
ghost use Rattle.osm_entity.specs.declared.parts.Body.TheVariants.{Node};
ghost use Rattle.osm_made.specs.Generator.{made_item, made_list, nodes_among, relations_among, ways_among};
ghost use Rattle.osm_made.specs.Maker.{MadeValue, count_to_come, items_to_come};
ghost use Rattle.osm_made.specs.Summaries.{capped, summary_of, summary_text, summed_over};

/// There are as many items as were asked for, and as many to come as weren't given yet.
pub fn made_items_are_counted()
    ensures all { (count seed : ℕ) → length (made_list count seed) ≡ count }
    ensures left { (m : MadeValue) → length (items_to_come m) ≡ count_to_come m }
{}

/// The one item that is made of seed 0 is a node at 85.4435761 degrees east and 4.5523737 south.
pub fn one_made_item_is_a_node()
    ensures { made_list 1 0 ≡ made_item 1 [] (Node (Some (record {
      lon = pos 85443576100;
      lat = neg_ℤ (pos 4552373700);
    }))) ∷ [] }
{}

/// What is made sums up to the same, whatever the seed: a tag for each second way, four refs
/// for each way, two members for each relation.
pub fn made_items_are_summed()
    ensures { (count seed : ℕ) → summed_over (made_list count seed) ≡ record {
      nodes = capped (nodes_among count);
      ways = capped (ways_among count);
      relations = capped (relations_among count);
      tags = capped (ways_among count / 2);
      refs = capped (4 * ways_among count);
      members = capped (2 * relations_among count);
      weight = capped (128 * count + 50 * (ways_among count / 2)
          + 128 * ways_among count + 68 * relations_among count);
    } }
{}

/// The summary of a million made items, whatever the seed.
pub fn a_million_made_items_sum_up()
    ensures { (seed : ℕ) → summary_of (made_list 1000000 seed)
        ≡ codes "nodes 890000\n"
        ++ codes "ways 100000\n"
        ++ codes "relations 10000\n"
        ++ codes "tags 50000\n"
        ++ codes "refs 400000\n"
        ++ codes "members 20000\n"
        ++ codes "weight 143980000\n" }
{}

/// The summary of a stream comes at once, when it has ended: of a stream that is before another,
/// it is a prefix of the other's.
pub fn summaries_come_at_once()
    ensures { (s t : Stream) → IsBefore s t → IsPrefix (summary_text s) (summary_text t) }
{}

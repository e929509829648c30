//! Laws of the area tasks: their rules in other words, and that their machine keeps its rule.
ghost use Rattle.std.specs.Prelude.{◌≡◌, ◌∷◌, [], List, false, pos, true};
ghost use Rattle.osm_area.specs.declared.area.Area.{Area};
ghost use Rattle.osm_entity.specs.Growth.{Grows, IsMonotone};
ghost use Rattle.osm_entity.specs.Items.{ItemValue};
ghost use Rattle.osm_entity.specs.Machines.{AreLawful};
ghost use Rattle.osm_entity.specs.OneInput.{GivesAtEnd, GivesAtOnce, KeepsItsRule, meanings_of};
ghost use Rattle.osm_entity.specs.declared.kind.Kind.TheVariants.{Way as OfWay, Relation as OfRelation};
ghost use Rattle.osm_entity.specs.declared.options.AreaOptions.{AreaOptions};
ghost use Rattle.osm_select.specs.Example.{example_box, example_node, example_relation, example_stream, example_way};
ghost use Rattle.osm_select.specs.Held.{IsLeast, least_relations};
ghost use Rattle.osm_select.specs.Judged.{ClipsByOutput, JudgesEach};
ghost use Rattle.osm_select.specs.Kinds.{IsLongestPrefix, kinds_prefix};
ghost use Rattle.osm_select.specs.Selected.{area_selected};
ghost use Rattle.osm_select.specs.Selecting.{selecting};

/// The items that count are the longest prefix of the input in which no kind goes back.
pub fn kinds_prefix_is_longest()
    ensures { (items : List ItemValue) → IsLongestPrefix items (kinds_prefix 0 items) }
{}

/// Where items are passed on, each is kept by the items up to and with it, and clipped by all that
/// is kept.
pub fn passed_items_are_judged_by_all_before()
    ensures judged { (area : Area) → JudgesEach area }
    ensures clipped { (area : Area) → ClipsByOutput area }
{}

/// Where items are held, the relations that are kept are the least set that holds those that touch
/// the area and each relation with a member in the set.
pub fn relations_are_least()
    ensures { (area : Area) (items : List ItemValue) →
        IsLeast area items (least_relations area items) }
{}

/// More items, and then the end, only add behind what an area task gives; so of a stream that is
/// before another it gives what is before.
pub fn area_streams_grow()
    ensures grows { (area : Area) (options : AreaOptions) → Grows (area_selected area options) }
    ensures monotone { (area : Area) (options : AreaOptions) →
        IsMonotone (area_selected area options) }
{}

/// What an area task gave is before its rule of what it took, and at its end all of it. One that
/// passes its items on takes more only where it gave all that its rule fixes, one that holds them
/// gives only once its input has ended; and so both are lawful machines.
pub fn area_tasks_keep_their_rule()
    ensures keeps { KeepsItsRule selecting }
    ensures at_once { GivesAtOnce selecting }
    ensures at_end { GivesAtEnd selecting }
    ensures lawful { AreLawful (meanings_of selecting) }
{}

/// Of seven items the rules keep what `docs/COMMANDS.md` says: what is touched, a relation that
/// names a later one where relations cascade, the nodes of a way that is completed, and a way
/// without the ref that isn't kept where it is clipped.
pub fn a_small_stream_is_cut()
    ensures plain { (area_selected example_box
        (record { complete_ways = false; cascading_relations = false; clip = false })
        example_stream).items
        ≡ example_node (pos 1) (pos 1) ∷ example_way (pos 1) (pos 1 ∷ pos 2 ∷ [])
        ∷ example_relation (pos 2) OfWay (pos 1) ∷ [] }
    ensures cascading { (area_selected example_box
        (record { complete_ways = false; cascading_relations = true; clip = false })
        example_stream).items
        ≡ example_node (pos 1) (pos 1) ∷ example_way (pos 1) (pos 1 ∷ pos 2 ∷ [])
        ∷ example_relation (pos 1) OfRelation (pos 2) ∷ example_relation (pos 2) OfWay (pos 1)
        ∷ [] }
    ensures completed { (area_selected example_box
        (record { complete_ways = true; cascading_relations = false; clip = false })
        example_stream).items
        ≡ example_node (pos 1) (pos 1) ∷ example_node (pos 2) (pos 2)
        ∷ example_way (pos 1) (pos 1 ∷ pos 2 ∷ []) ∷ example_relation (pos 1) OfRelation (pos 2)
        ∷ example_relation (pos 2) OfWay (pos 1) ∷ [] }
    ensures clipped { (area_selected example_box
        (record { complete_ways = false; cascading_relations = false; clip = true })
        example_stream).items
        ≡ example_node (pos 1) (pos 1) ∷ example_way (pos 1) (pos 1 ∷ [])
        ∷ example_relation (pos 2) OfWay (pos 1) ∷ [] }
{}

//! Laws of applies and simplifies: their rules, and that their machines keep them.
ghost use Rattle.std.specs.Prelude.{◌≡◌, List, reverse};
ghost use Rattle.osm_change.specs.Applying.{applying};
ghost use Rattle.osm_change.specs.Changes.{laid_over};
ghost use Rattle.osm_change.specs.Simplified.{last_of_each, stream_simplified};
ghost use Rattle.osm_change.specs.Simplifying.{simplifying};
ghost use Rattle.osm_entity.specs.Growth.{Grows, IsMonotone, IsMonotoneInBoth};
ghost use Rattle.osm_entity.specs.Items.{ItemValue};
ghost use Rattle.osm_entity.specs.Machines.{AreLawful};
ghost use Rattle.osm_entity.specs.OneInput.{GivesAtEnd, KeepsItsRule, meanings_of};
ghost use Rattle.osm_entity.specs.declared.kind.Key.{Key};
ghost use Rattle.osm_merge.specs.Rules.{IsChoice, item_at, merged};
ghost use Rattle.osm_merge.specs.TwoInputs.{meanings_of_two};

/// Laying changes over a base is a choice, so an apply is told by its keys as a merge is, and of
/// inputs that are before others it gives what is before.
pub fn applies_grow()
    ensures choice { IsChoice laid_over }
    ensures monotone { IsMonotoneInBoth (merged laid_over) }
{}

/// Applies keep the contract of machines.
pub fn applies_are_lawful()
    ensures { AreLawful (meanings_of_two applying) }
{}

/// At each key a simplify keeps the last item that its input has there.
pub fn simplifies_keep_the_last()
    ensures { (items : List ItemValue) (key : Key)
        → item_at key (last_of_each items) ≡ item_at key (reverse items) }
{}

/// More items, and then the end, only add behind what a simplify gives; so of a stream that is
/// before another it gives what is before.
pub fn simplifies_grow()
    ensures grows { Grows stream_simplified }
    ensures monotone { IsMonotone stream_simplified }
{}

/// What a simplify gave is before its rule of what it took, and at its end all of it. It gives only
/// once its input has ended, and so it is a lawful machine.
pub fn simplifies_keep_their_rule()
    ensures keeps { KeepsItsRule simplifying }
    ensures at_end { GivesAtEnd simplifying }
    ensures lawful { AreLawful (meanings_of simplifying) }
{}

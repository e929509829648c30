//! Laws of sorts: their rule, and that their machine keeps it.
ghost use Rattle.osm_entity.specs.Growth.{Grows, IsMonotone};
ghost use Rattle.osm_entity.specs.Machines.{AreLawful};
ghost use Rattle.osm_entity.specs.OneInput.{GivesAtEnd, KeepsItsRule, meanings_of};
ghost use Rattle.osm_sort.specs.SortMachine.{sorting};
ghost use Rattle.osm_sort.specs.Sorted.{stream_sorted};

/// More items, and then the end, only add behind what a sort gives; so of a stream that is before
/// another it gives what is before.
pub fn sorts_grow()
    ensures grows { Grows stream_sorted }
    ensures monotone { IsMonotone stream_sorted }
{}

/// What a sort gave is before its rule of what it took, and at its end all of it. It gives only
/// once its input has ended, and so it is a lawful machine.
pub fn sorts_keep_their_rule()
    ensures keeps { KeepsItsRule sorting }
    ensures at_end { GivesAtEnd sorting }
    ensures lawful { AreLawful (meanings_of sorting) }
{}

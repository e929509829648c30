//! Laws of tag filters: their rule, and that their machine keeps it.
ghost use Rattle.osm_entity.specs.Growth.{Grows, IsMonotone};
ghost use Rattle.osm_entity.specs.Machines.{AreLawful};
ghost use Rattle.osm_entity.specs.OneInput.{GivesAtOnce, KeepsItsRule, meanings_of};
ghost use Rattle.osm_filter.specs.Filters.{FilterOptions, filtered};
ghost use Rattle.osm_filter.specs.Filtering.{filtering};

/// More items, and then the end, only add behind what a filter gives; so of a stream that is before
/// another it gives what is before.
pub fn filters_grow()
    ensures grows { (options : FilterOptions) → Grows (filtered options) }
    ensures monotone { (options : FilterOptions) → IsMonotone (filtered options) }
{}

/// What a filter gave is before its rule of what it took, and at its end all of it. It takes more
/// only where it gave all that its rule fixes, and so it is a lawful machine.
pub fn filters_keep_their_rule()
    ensures keeps { KeepsItsRule filtering }
    ensures at_once { GivesAtOnce filtering }
    ensures lawful { AreLawful (meanings_of filtering) }
{}

//! Laws of used-node and used-way: their rule, and that their machine keeps it.
ghost use Rattle.osm_entity.specs.Growth.{Grows, IsMonotone};
ghost use Rattle.osm_entity.specs.Machines.{AreLawful};
ghost use Rattle.osm_entity.specs.OneInput.{GivesAtEnd, KeepsItsRule, meanings_of};
ghost use Rattle.osm_entity.specs.declared.kind.Kind.{Kind};
ghost use Rattle.osm_used.specs.Used.{used_only};
ghost use Rattle.osm_used.specs.Using.{keeping_used};

/// More items, and then the end, only add behind what is left of a stream; so of a stream that is
/// before another it gives what is before.
pub fn used_streams_grow()
    ensures grows { (kind : Kind) → Grows (used_only kind) }
    ensures monotone { (kind : Kind) → IsMonotone (used_only kind) }
{}

/// What such a machine gave is before its rule of what it took, and at its end all of it. It gives
/// only once its input has ended, and so it is a lawful machine.
pub fn used_machines_keep_their_rule()
    ensures keeps { KeepsItsRule keeping_used }
    ensures at_end { GivesAtEnd keeping_used }
    ensures lawful { AreLawful (meanings_of keeping_used) }
{}

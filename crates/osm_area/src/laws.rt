//! Laws over rings and sections, in words that the code doesn't have.
ghost use Rattle.std.specs.Prelude.{◌≡◌, ◌++◌, ◌∷◌, [], ℤ, List, reverse, true, if◌then◌else◌};
ghost use Rattle.std.specs.List.{list_all};
ghost use Rattle.osm_entity.specs.declared.parts.Place.{Place};
ghost use Rattle.osm_area.specs.Areas.{holds, sections_hold};
ghost use Rattle.osm_area.specs.Rings.{is_in_ring};
ghost use Rattle.osm_area.specs.declared.area.Area.TheVariants.{Box};
ghost use Rattle.osm_area.specs.declared.area.Section.{Section};

/// A section behind others decides where its ring holds the place, and leaves it to them elsewhere.
pub fn later_sections_decide()
    ensures { (sections : List Section) (section : Section) (place : Place) →
        sections_hold (sections ++ section ∷ []) place
        ≡ (if is_in_ring section.ring place then section.add else sections_hold sections place) }
{}

/// A ring that begins at another of its places holds the same places.
pub fn rings_have_no_first()
    ensures { (before after : List Place) (place : Place) →
        is_in_ring (before ++ after) place ≡ is_in_ring (after ++ before) place }
{}

/// A ring that is gone round the other way holds the same places.
pub fn rings_have_no_sense()
    ensures { (ring : List Place) (place : Place) →
        is_in_ring (reverse ring) place ≡ is_in_ring ring place }
{}

/// A box that holds the places of a ring holds all that lies inside of the ring.
pub fn boxes_hold_their_rings()
    ensures { (left right top bottom : ℤ) (ring : List Place) (place : Place) →
        list_all (holds (Box left right top bottom)) ring ≡ true →
        is_in_ring ring place ≡ true → holds (Box left right top bottom) place ≡ true }
{}

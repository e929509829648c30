//! Areas: a box, or sections that add and subtract rings.
ghost use Rattle.std.specs.Prelude.{◌≡◌, ◌&&◌};
ghost use Rattle.osm_area.specs.Areas.{holds, sections_hold};
ghost use Rattle.osm_area.specs.Edges.{lies_between};

use crate::bounds::is_between;
use crate::ring::Ring;
use osm_entity::{Place, Sequence};

/// A ring that adds what lies inside of it to an area, or subtracts it.
#[derive(Debug, Drop)]
pub struct Section {
    pub add: bool,
    pub ring: Ring,
}

/// Sections of an area. Where rings overlap, the last of them decides.
pub type Sections = Sequence<Section>;

/// Where places lie. A box is bounded in nanodegrees, and holds its edges.
#[derive(Debug, Drop)]
pub enum Area {
    Box {
        left: i64,
        right: i64,
        top: i64,
        bottom: i64,
    },
    Rings(Sections),
}

fn box_holds(left: &i64, right: &i64, top: &i64, bottom: &i64, place: &Place) -> bool
    ensures { result ≡ (
        lies_between left.now place.now.lon right.now
        && lies_between bottom.now place.now.lat top.now) }
{
    is_between(left, &place.lon, right) && is_between(bottom, &place.lat, top)
}

fn any_holds(sections: &[Section], place: &Place) -> bool
    ensures { result ≡ sections_hold sections.now place.now }
{
    let mut inside = false;
    for section in sections {
        if section.ring.holds(place) {
            inside = section.add;
        }
    }
    inside
}

impl Area {
    /// Whether a place lies in the area. It takes no memory.
    pub fn contains(&self, place: &Place) -> bool
        ensures { result ≡ holds self.now place.now }
    {
        match self {
            Area::Box {
                left,
                right,
                top,
                bottom,
            } => box_holds(left, right, top, bottom, place),
            Area::Rings(sections) => any_holds(sections.as_slice(), place),
        }
    }
}

//! Rings. Contracts see a ring as the list of its places.
ghost use Rattle.std.specs.Prelude.{◌≡◌, IfOk, IsTrue};
ghost use Rattle.std.specs.List.{list_all};
ghost use Rattle.osm_area.specs.Bounds.{groups_fit};
ghost use Rattle.osm_area.specs.Edges.{is_ring_place};
ghost use Rattle.osm_area.specs.Rings.{is_in_ring};

use crate::bounds::{Bounds, are_round, bounds_of};
use crate::edge::edge_counts;
use crate::group::{Group, groups_count_odd, groups_of};
use osm_entity::{NoMemory, Place, Sequence};
use std::alloc::Global;
use std::marker::Model;

/// The largest longitude and latitude of a place of a ring, in nanodegrees: 1,000 degrees.
pub const RING_LIMIT: u64 = 1_000_000_000_000;

/// Places that are joined in their order, and the last with the first.
#[derive(Debug, Drop)]
pub struct Ring {
    corners: Sequence<Place>,
    bounds: Bounds,
    groups: Sequence<Group>,
}

/// Whether an odd number of the edges of a ring count for a place.
fn closed_counts_odd(corners: &[Place], groups: &[Group], place: &Place) -> bool
    requires places { IsTrue (list_all is_ring_place corners.now) }
    requires fits { IsTrue (groups_fit groups.now corners.now) }
    ensures { result ≡ is_in_ring corners.now place.now }
{
    let [first, ..] = corners else {
        return false;
    };
    let last = &corners[corners.len() - 1];
    edge_counts(last, first, place) != groups_count_odd(corners, groups, place)
}

impl Model for Ring {
    ghost use Rattle.std.specs.Prelude.{List, IsTrue, ◌&&◌};
    ghost use Rattle.std.specs.List.{list_all};
    ghost use Rattle.osm_entity.specs.declared.parts.Place.{Place};
    ghost use Rattle.osm_area.specs.Bounds.{bounds_hold, groups_fit};
    ghost use Rattle.osm_area.specs.Edges.{is_ring_place};

    ghost Value = { List Place };

    ghost view = { λ r. r.corners };

    ghost invariant = { λ r.
        IsTrue (
        list_all is_ring_place r.corners
        && list_all (bounds_hold r.bounds) r.corners
        && groups_fit r.groups r.corners) };
}

impl Ring {
    /// The ring of these places, each of at most 1,000 degrees in size.
    pub fn new(alloc: Global, corners: Sequence<Place>) -> Result<Ring, NoMemory>
        requires { IsTrue (list_all is_ring_place corners) }
        ensures { IfOk result (λ ring. ring ≡ corners) }
    {
        let bounds = bounds_of(corners.as_slice());
        let groups = groups_of(alloc, corners.as_slice())?;
        Ok(Ring {
            corners,
            bounds,
            groups,
        })
    }

    /// Whether a place lies inside. It takes no memory.
    pub fn holds(&self, place: &Place) -> bool
        ensures { result ≡ is_in_ring self.now place.now }
    {
        let corners = self.corners.as_slice();
        let groups = self.groups.as_slice();
        if !are_round(&self.bounds, place) {
            return false;
        }
        closed_counts_odd(corners, groups, place)
    }
}

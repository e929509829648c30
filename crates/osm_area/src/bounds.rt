//! Bounds round places. Edges within bounds need not be looked at for most places: none of them
//! counts for a place that isn't west of the bounds' right side, or isn't at their height, and for
//! one west of all of them the ends of the path tell how many do.
ghost use Rattle.std.specs.Prelude.{◌≡◌, ◌≤ℤ◌, true, Bool};
ghost use Rattle.std.specs.List.{list_all};
ghost use Rattle.osm_entity.specs.declared.parts.Place.{Place};
ghost use Rattle.osm_area.specs.Bounds.{bounds_hold, bounds_lie_east, bounds_reach};
ghost use Rattle.osm_area.specs.Edges.{lies_between};

use osm_entity::Place;

/// The least and the greatest longitude and latitude of some places.
#[derive(Clone, Copy, Debug)]
pub(crate) struct Bounds {
    left: i64,
    right: i64,
    top: i64,
    bottom: i64,
}

fn lower(one: &i64, other: &i64) -> i64
    ensures one { result ≤ℤ one.now }
    ensures other { result ≤ℤ other.now }
{
    if *one < *other { *one } else { *other }
}

fn higher(one: &i64, other: &i64) -> i64
    ensures one { one.now ≤ℤ result }
    ensures other { other.now ≤ℤ result }
{
    if *one < *other { *other } else { *one }
}

/// The bounds with one place more.
fn widened(bounds: &Bounds, place: &Place) -> Bounds
    ensures place { bounds_hold result place.now ≡ true }
    ensures others { (q : Place) →
        bounds_hold bounds.now q ≡ true → bounds_hold result q ≡ true }
{
    Bounds {
        left: lower(&bounds.left, &place.lon),
        right: higher(&bounds.right, &place.lon),
        top: higher(&bounds.top, &place.lat),
        bottom: lower(&bounds.bottom, &place.lat),
    }
}

/// The bounds of the places of a path.
pub(crate) fn bounds_of(path: &[Place]) -> Bounds
    ensures { list_all (bounds_hold result) path.now ≡ true }
{
    let mut bounds = Bounds {
        left: i64::MAX,
        right: i64::MIN,
        top: i64::MIN,
        bottom: i64::MAX,
    };
    for place in path {
        bounds = widened(&bounds, place);
    }
    bounds
}

pub(crate) fn is_between(low: &i64, value: &i64, high: &i64) -> bool
    ensures { result ≡ lies_between low.now value.now high.now }
{
    *low <= *value && *value <= *high
}

/// Whether a place lies within the bounds.
pub(crate) fn are_round(bounds: &Bounds, place: &Place) -> bool
    ensures { result ≡ bounds_hold bounds.now place.now }
{
    is_between(&bounds.left, &place.lon, &bounds.right)
        && is_between(&bounds.bottom, &place.lat, &bounds.top)
}

/// Whether an edge within the bounds can count for a place.
pub(crate) fn reach(bounds: &Bounds, place: &Place) -> bool
    ensures { result ≡ bounds_reach bounds.now place.now }
{
    bounds.bottom <= place.lat && place.lat < bounds.top && place.lon < bounds.right
}

/// Whether all places within the bounds lie east of a place.
pub(crate) fn lie_east(bounds: &Bounds, place: &Place) -> bool
    ensures { result ≡ bounds_lie_east bounds.now place.now }
{
    place.lon < bounds.left
}

//! Edges of a ring, and how many of them count for a place: those that pass its latitude further
//! east. From its lower end to its upper end an edge passes each latitude but the last, so that
//! two edges that meet at a corner never pass its latitude both or neither where one goes on.
ghost use Rattle.std.specs.Prelude.{◌≡◌, ◌<◌, ◌≤◌, ◌*◌, ◌^◌, ◌-ℤ◌, ◌*ℤ◌, true, int_le, IsTrue, unsigned_abs};
ghost use Rattle.std.specs.List.{count_by, list_all};
ghost use Rattle.osm_area.specs.Edges.{counts, counts_upward, is_odd, is_ring_place, is_west, lies_east, passes_upward, steps};

use osm_entity::Place;

/// How far `to` is above `from`.
fn offset(from: &i64, to: &i64) -> i128
    ensures value { result ≡ to.now -ℤ from.now }
    ensures size { unsigned_abs result < 2 ^ 64 }
{
    i128::from(*to) - i128::from(*from)
}

/// How far the end of an edge is above its beginning.
fn extent(from: &i64, to: &i64) -> i128
    requires from { unsigned_abs from.now ≤ 10 ^ 12 }
    requires to { unsigned_abs to.now ≤ 10 ^ 12 }
    ensures value { result ≡ to.now -ℤ from.now }
    ensures size { unsigned_abs result ≤ 2 * 10 ^ 12 }
{
    i128::from(*to) - i128::from(*from)
}

/// The product of an offset and an extent.
fn product(offset: i128, extent: i128) -> i128
    requires offset { unsigned_abs offset < 2 ^ 64 }
    requires extent { unsigned_abs extent ≤ 2 * 10 ^ 12 }
    ensures { result ≡ offset *ℤ extent }
{
    offset * extent
}

/// Whether a place lies west of the edge from `low` up to `high`, at its own latitude.
fn is_west_of(place: &Place, low: &Place, high: &Place) -> bool
    requires low { IsTrue (is_ring_place low.now) }
    requires high { IsTrue (is_ring_place high.now) }
    ensures { result ≡ is_west low.now high.now place.now }
{
    let east = product(offset(&low.lon, &place.lon), extent(&low.lat, &high.lat));
    let run = product(offset(&low.lat, &place.lat), extent(&low.lon, &high.lon));
    east < run
}

/// Whether the edge from `low` up to `high` counts for a place.
fn counts_up(low: &Place, high: &Place, place: &Place) -> bool
    requires low { IsTrue (is_ring_place low.now) }
    requires high { IsTrue (is_ring_place high.now) }
    ensures { result ≡ counts_upward low.now high.now place.now }
{
    low.lat <= place.lat && place.lat < high.lat && is_west_of(place, low, high)
}

/// Whether the edge between two places counts for a place.
pub(crate) fn edge_counts(from: &Place, to: &Place, place: &Place) -> bool
    requires from { IsTrue (is_ring_place from.now) }
    requires to { IsTrue (is_ring_place to.now) }
    ensures { result ≡ counts place.now (from.now, to.now) }
{
    counts_up(from, to, place) || counts_up(to, from, place)
}

/// Whether an odd number of the edges along a path count for a place.
pub(crate) fn path_counts_odd(path: &[Place], place: &Place) -> bool
    requires { IsTrue (list_all is_ring_place path.now) }
    ensures { result ≡ is_odd (count_by (counts place.now) (steps path.now)) }
{
    let mut odd = false;
    for at in 1..path.len() {
        if edge_counts(&path[at - 1], &path[at], place) {
            odd = !odd;
        }
    }
    odd
}

fn is_no_higher(corner: &Place, place: &Place) -> bool
    ensures { result ≡ int_le corner.now.lat place.now.lat }
{
    corner.lat <= place.lat
}

/// The same where all places of the path lie east of the place: then an edge counts exactly where
/// its ends lie on different sides of the place's latitude, and so do the ends of the path.
pub(crate) fn eastern_counts_odd(path: &[Place], place: &Place) -> bool
    requires { list_all (lies_east place.now) path.now ≡ true }
    ensures { result ≡ is_odd (count_by (counts place.now) (steps path.now)) }
{
    let [first, ..] = path else {
        return false;
    };
    let last = &path[path.len() - 1];
    is_no_higher(first, place) != is_no_higher(last, place)
}

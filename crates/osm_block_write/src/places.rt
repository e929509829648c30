//! Places by units of the granularity.
ghost use Rattle.std.specs.Prelude.{◌≡◌};
ghost use Rattle.osm_block_write.specs.Messages.{in_units, lat_in, lon_in};

use crate::options::PbfOptions;
use osm_entity::Place;

/// The longitude that is written of a place; 0 where there is none.
pub(crate) fn lon_of(options: &PbfOptions, place: &Option<Place>) -> i64
    ensures { result ≡ lon_in options.now place.now }
{
    match place {
        Some(place) => units_of(options, place.lon),
        None => 0,
    }
}

/// The latitude that is written of a place; 0 where there is none.
pub(crate) fn lat_of(options: &PbfOptions, place: &Option<Place>) -> i64
    ensures { result ≡ lat_in options.now place.now }
{
    match place {
        Some(place) => units_of(options, place.lat),
        None => 0,
    }
}

fn units_of(options: &PbfOptions, nanodegrees: i64) -> i64
    ensures { result ≡ in_units options.now nanodegrees }
{
    // A division by a constant is several times as fast.
    if options.granularity == 100 {
        return nanodegrees / 100;
    }
    nanodegrees / i64::from(options.granularity)
}

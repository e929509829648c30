//! What no clause says: that the definitions mean what the format's text says, by files and places
//! whose answers were found by hand.
use crate::rings::RINGS;
use osm_area::Area;
use osm_entity::Place;
use osm_poly::{PolyError, read_poly};
use std::alloc::Global;
use std::test::Fail;

const HOLE: &[u8] = b"city\n1\n 0.000000E+00 0.000000E+00\n 1.0 0\n 1 1\n 0 1\nEND\n!2\n\
    2.0E-01 2.0E-01\n 4E-1 0.2\n 0.4 0.4\n 0.2 0.4\nEND\nEND\n";

const FILLED: &[u8] = b"a\nx\n0 0\n4 0\n4 4\n0 4\nEND\n!y\n1 1\n3 1\n3 3\n1 3\nEND\n\
    z\n2 2\n3 2\n3 3\n2 3\nEND\nEND";

const ORDER: &[u8] = b"a\n!y\n1 1\n3 1\n3 3\n1 3\nEND\nx\n0 0\n4 0\n4 4\n0 4\nEND\nEND\nrest\n1";

const STEPS: &[u8] = b"a\nx\n0 0\n2 0\n2 1\n1 1\n1 2\n0 2\nEND\nEND\n";

#[test]
fn files_say_what_the_tables_say(rt: HostRuntime) -> Result<(), Fail> {
    let alloc = rt.alloc();
    let places = [
        (HOLE, 5, 5, true),
        (HOLE, 3, 3, false),
        (HOLE, -10, 5, false),
        (HOLE, 20, 5, false),
        (HOLE, 0, 0, true),
        (HOLE, 0, 5, true),
        (HOLE, 5, 0, true),
        (HOLE, 10, 5, false),
        (HOLE, 5, 10, false),
        (HOLE, 10, 10, false),
        (HOLE, 2, 2, false),
        (HOLE, 4, 3, true),
        (HOLE, 3, 4, true),
        (FILLED, 5, 5, true),
        (FILLED, 15, 15, false),
        (FILLED, 25, 25, true),
        (ORDER, 15, 15, true),
        (STEPS, 5, 10, true),
        (STEPS, 15, 10, false),
        (STEPS, 15, 5, true),
        (b"\nEND\nx".as_slice(), 0, 0, false),
        (b"a\nx\nEND\nEND\n".as_slice(), 0, 0, false),
        (b"a\nx\n1 1\nEND\nEND\n".as_slice(), 10, 10, false),
        (b"a\nx\n0 0\n1 1\nEND\nEND\n".as_slice(), 2, 5, false),
        (
            b"a\r\nx\r\n0 0\r\n2 0\r\n\r\n2 2\r\n0 2\r\nEND\r\nEND\r\n".as_slice(),
            10,
            10,
            true,
        ),
        (
            b"\ta\n\tx\n\t0\t0\n2\t \t0\n2 2\n0 2\n END \nEND\t".as_slice(),
            10,
            10,
            true,
        ),
        (
            b"a\nx\n-1000 -1e3\n1000 -1000\n1000.0000000009 1000\n-1000 1000\nEND\nEND".as_slice(),
            0,
            0,
            true,
        ),
    ];
    for (file, east, north, inside) in places {
        let held = holds(alloc, file, east, north);
        assert_eq!(rt; held, Some(inside));
    }
    let files = [
        (b"".as_slice(), 1),
        (b" \r".as_slice(), 1),
        (b"a".as_slice(), 2),
        (b"END\n".as_slice(), 2),
        (b"a\n\n".as_slice(), 3),
        (b"a\nx\n0 0\n ".as_slice(), 4),
        (b"a\nx\n0 0\nEND\n".as_slice(), 5),
        (b"a\nx\n0\nEND\nEND\n".as_slice(), 3),
        (b"a\nx\n0 0 0\nEND\nEND\n".as_slice(), 3),
        (b"a\nx\n1 \r2\nEND\nEND".as_slice(), 3),
        (b"a\nx\n1,2\nEND\nEND".as_slice(), 3),
        (b"a\nx\n0 0\x0c\nEND\nEND".as_slice(), 3),
        (b"a\nx\n0 0\nend\nEND".as_slice(), 4),
        (b"a\nx\n0 0\nEND 1\n".as_slice(), 4),
        (b"a\nx\n\n0 0\n1000.000000001 0\nEND\n".as_slice(), 5),
    ];
    for (file, line) in files {
        assert_eq!(rt; bad_line(alloc, file), Some(line));
    }
    let corners = [
        (-1, -3, true),
        (2, 4, true),
        (3, 0, false),
        (-2, 0, false),
        (0, 5, false),
        (0, -4, false),
    ];
    let area = Area::Box {
        left: -1,
        right: 2,
        top: 4,
        bottom: -3,
    };
    for (lon, lat, inside) in corners {
        assert_eq!(rt; area.contains(&Place { lon, lat }), inside);
    }
    for (unit, file, places) in &RINGS {
        assert!(rt; all_hold(alloc, *unit, file, places));
    }
    Ok(())
}

/// Whether each of the places is where its mark says.
fn all_hold(alloc: Global, unit: i64, file: &[u8], places: &[u8]) -> bool {
    let Ok(area) = read_poly(alloc, file) else {
        return false;
    };
    for place in places.chunks_exact(3) {
        let [east, north, mark] = place else {
            return false;
        };
        let lon = nano(unit, *east);
        let lat = nano(unit, *north);
        if area.contains(&Place { lon, lat }) != (*mark == b'+') {
            return false;
        }
    }
    true
}

/// A letter of a place in nanodegrees.
fn nano(unit: i64, letter: u8) -> i64 {
    unit.wrapping_mul(i64::from(letter) - i64::from(b'm'))
}

/// Whether the area of a file holds a place, in tenths of degrees.
fn holds(alloc: Global, file: &[u8], east: i8, north: i8) -> Option<bool> {
    let place = Place {
        lon: i64::from(east) * 100_000_000,
        lat: i64::from(north) * 100_000_000,
    };
    match read_poly(alloc, file) {
        Ok(area) => Some(area.contains(&place)),
        Err(_) => None,
    }
}

fn bad_line(alloc: Global, file: &[u8]) -> Option<u64> {
    match read_poly(alloc, file) {
        Err(PolyError::Bad(line)) => Some(line),
        _ => None,
    }
}

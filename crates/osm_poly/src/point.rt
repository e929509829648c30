//! Points: a longitude, spaces or tabs, and a latitude.
ghost use Rattle.std.specs.Prelude.{◌≡◌, ◌≤◌, ◌+◌, ◌^◌, length, drop, unsigned_abs, IfSome, IsTrue};
ghost use Rattle.std.specs.List.{position, position_or_len};
ghost use Rattle.osm_area.specs.Edges.{is_ring_place};
ghost use Rattle.osm_poly.specs.Points.{from_text, is_gap, is_text, poly_degrees, poly_place};

use osm_area::RING_LIMIT;
use osm_entity::Place;
use osm_text::read_nano;

fn find_gap(line: &[u8]) -> Option<usize>
    ensures { result ≡ position is_gap line.now }
{
    line.iter().position(|byte| *byte == b' ' || *byte == b'\t')
}

fn find_text(line: &[u8]) -> Option<usize>
    ensures { result ≡ position is_text line.now }
{
    line.iter()
        .position(|byte| !(*byte == b' ' || *byte == b'\t'))
}

fn position_of_gap(line: &[u8]) -> usize
    ensures value { result ≡ position_or_len is_gap line.now }
    ensures within { result ≤ length line.now }
{
    find_gap(line).unwrap_or(line.len())
}

fn position_of_text(line: &[u8]) -> usize
    ensures value { result ≡ position_or_len is_text line.now }
    ensures within { result ≤ length line.now }
{
    find_text(line).unwrap_or(line.len())
}

/// The bytes after a position; none after the last.
fn after_position(line: &[u8], at: usize) -> &[u8]
    requires { at ≤ length line.now }
    ensures { result.now ≡ drop (at + 1) line.now }
{
    if at == line.len() {
        return &line[at..];
    }
    &line[at + 1..]
}

/// The bytes from the first on that is no space or tab.
fn skip_gap(line: &[u8]) -> &[u8]
    ensures { result.now ≡ from_text line.now }
{
    &line[position_of_text(line)..]
}

/// Degrees of at most 1,000 in size, as nanodegrees.
fn read_degrees(text: &[u8]) -> Option<i64>
    ensures value { result ≡ poly_degrees text.now }
    ensures size { IfSome result (λ degrees. unsigned_abs degrees ≤ 10 ^ 12) }
{
    let degrees = read_nano(text).ok()?;
    if degrees.unsigned_abs() > RING_LIMIT {
        return None;
    }
    Some(degrees)
}

/// The place that a line says; `None` where it says anything else.
pub(crate) fn read_place(line: &[u8]) -> Option<Place>
    ensures value { result ≡ poly_place line.now }
    ensures size { IfSome result (λ place. IsTrue (is_ring_place place)) }
{
    let at = position_of_gap(line);
    let lon = read_degrees(&line[..at])?;
    let lat = read_degrees(skip_gap(after_position(line, at)))?;
    Some(Place { lon, lat })
}

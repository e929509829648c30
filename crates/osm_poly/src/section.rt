//! Sections: a name, points, and `END`.
ghost use Rattle.std.specs.Prelude.{◌≡◌, ◌<◌, ◌≤◌, ◌+◌, ◌-◌, ◌^◌, ◌++◌, ◌∷◌, [], length, drop, IfOk, IfErr, IsTrue, OnOk, Ok, Some};
ghost use Rattle.std.specs.List.{list_all};
ghost use Rattle.std.specs.Option.{option_map};
ghost use Rattle.osm_area.specs.Edges.{is_ring_place};
ghost use Rattle.osm_poly.specs.Points.{poly_place};
ghost use Rattle.osm_poly.specs.Sections.{adds, is_end, parts_from, poly_sections, ring_part};
ghost use Rattle.osm_poly.specs.Lines.{poly_lines};
ghost use Rattle.osm_poly.specs.Seen.{IsBlamed, IsNoPoint};
ghost use Rattle.osm_poly.specs.declared.poly.PolyError.TheVariants.{Memory};

use crate::line::next_line;
use crate::point::read_place;
use crate::poly::PolyError;
use osm_area::{Ring, Section, Sections};
use osm_entity::{Place, Sequence};
use std::alloc::Global;

fn ends(line: &[u8]) -> bool
    ensures { result ≡ is_end line.now }
{
    line == b"END".as_slice()
}

fn is_added(name: &[u8]) -> bool
    ensures { result ≡ adds name.now }
{
    name.is_empty() || name[0] != b'!'
}

/// Adds the point of a line to a ring.
fn add_point(corners: &mut Sequence<Place>, line: &[u8], number: u64) -> Result<(), PolyError>
    requires { IsTrue (list_all is_ring_place corners.old) }
    ensures ok { OnOk result (
        option_map (λ place. corners.old ++ place ∷ []) (poly_place line.now) ≡ Some corners.new) }
    ensures ring { OnOk result (IsTrue (list_all is_ring_place corners.new)) }
    ensures bad { IfErr result (λ error. IsNoPoint error number (poly_place line.now)) }
{
    let Some(place) = read_place(line) else {
        return Err(PolyError::Bad(number));
    };
    match corners.push(place) {
        Ok(()) => Ok(()),
        Err(_) => Err(PolyError::Memory),
    }
}

/// Reads the points up to `END`: the bytes after it, and the number of their first line.
fn read_points<'a>(
    corners: &mut Sequence<Place>,
    bytes: &'a [u8],
    first: u64,
) -> Result<(&'a [u8], u64), PolyError>
    requires empty { corners.old ≡ [] }
    requires fits { first + length bytes.now < 2 ^ 64 - 1 }
    ensures ok { OnOk result (
        ring_part (first + length (poly_lines bytes.now)) (parts_from first bytes.now)
        ≡ Ok corners.new) }
    ensures ring { OnOk result (IsTrue (list_all is_ring_place corners.new)) }
    ensures rest { IfOk result (λ p.
        drop 1 (parts_from first bytes.now) ≡ parts_from p.1 p.0.now) }
    ensures same { IfOk result (λ p.
        first + length (poly_lines bytes.now) ≡ p.1 + length (poly_lines p.0.now)) }
    ensures fits { IfOk result (λ p. p.1 + length p.0.now ≤ first + length bytes.now) }
    ensures shorter { IfOk result (λ p. length p.0.now < length bytes.now) }
    ensures bad { IfErr result (λ error. IsBlamed error
        (ring_part (first + length (poly_lines bytes.now)) (parts_from first bytes.now))) }
{
    let mut rest = bytes;
    let mut at = first;
    loop {
        let (line, more, number) = match next_line(rest, at) {
            Ok(step) => step,
            Err(end) => return Err(PolyError::Bad(end)),
        };
        if ends(line) {
            return Ok((more, number + 1));
        }
        add_point(corners, line, number)?;
        rest = more;
        at = number + 1;
    }
}

/// Adds the section of a ring.
fn add_section(
    alloc: Global,
    sections: &mut Sections,
    add: bool,
    corners: Sequence<Place>,
) -> Result<(), PolyError>
    requires { IsTrue (list_all is_ring_place corners) }
    ensures ok { OnOk result (
        sections.new ≡ sections.old ++ record { add = add; ring = corners } ∷ []) }
    ensures memory { IfErr result (λ error. error ≡ Memory) }
{
    let Ok(ring) = Ring::new(alloc, corners) else {
        return Err(PolyError::Memory);
    };
    match sections.push(Section { add, ring }) {
        Ok(()) => Ok(()),
        Err(_) => Err(PolyError::Memory),
    }
}

/// Reads sections up to the `END` that stands where a name is due.
pub(crate) fn read_sections(alloc: Global, bytes: &[u8], first: u64) -> Result<Sections, PolyError>
    requires { first + length bytes.now < 2 ^ 64 - 1 }
    ensures ok { IfOk result (λ sections.
        poly_sections (first + length (poly_lines bytes.now)) (parts_from first bytes.now)
        ≡ Ok sections) }
    ensures bad { IfErr result (λ error. IsBlamed error
        (poly_sections (first + length (poly_lines bytes.now)) (parts_from first bytes.now))) }
{
    let mut sections = Sequence::new(alloc);
    let mut rest = bytes;
    let mut at = first;
    loop {
        let (name, more, number) = match next_line(rest, at) {
            Ok(step) => step,
            Err(last) => return Err(PolyError::Bad(last)),
        };
        if ends(name) {
            return Ok(sections);
        }
        let mut corners = Sequence::new(alloc);
        let (after, next) = read_points(&mut corners, more, number + 1)?;
        add_section(alloc, &mut sections, is_added(name), corners)?;
        rest = after;
        at = next;
    }
}

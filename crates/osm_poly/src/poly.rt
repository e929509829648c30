//! Reads a polygon file whole.
ghost use Rattle.std.specs.Prelude.{◌≡◌, IfOk, IfErr, Ok};
ghost use Rattle.osm_poly.specs.Poly.{poly};
ghost use Rattle.osm_poly.specs.Seen.{IsBlamed};

use crate::line::after_name;
use crate::section::read_sections;
use osm_area::Area;
use std::alloc::Global;
use thiserror::Error;

/// Why a polygon file gives no area.
#[derive(Clone, Copy, Debug, PartialEq, Eq, Error)]
pub enum PolyError {
    /// The first line that is wrong, counted from 1. Where the file ends too early, it is the
    /// number of its lines and one more.
    #[error("bad line {0}")]
    Bad(u64),
    #[error("out of memory")]
    Memory,
}

/// The area of a polygon file. `Bad` exactly where the file is wrong, with its first wrong line.
pub fn read_poly(alloc: Global, bytes: &[u8]) -> Result<Area, PolyError>
    ensures ok { IfOk result (λ area. poly bytes.now ≡ Ok area) }
    ensures bad { IfErr result (λ error. IsBlamed error (poly bytes.now)) }
{
    let rest = match after_name(bytes) {
        Ok(rest) => rest,
        Err(end) => return Err(PolyError::Bad(end)),
    };
    let sections = read_sections(alloc, rest, 2)?;
    Ok(Area::Rings(sections))
}

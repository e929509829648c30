//! Tells which places lie in an area: a box, or rings that add and subtract.
#![tactic(auto)]

mod area;
mod bounds;
mod edge;
mod group;
mod laws;
mod ring;

pub use area::{Area, Section, Sections};
pub use laws::{
    boxes_hold_their_rings, later_sections_decide, rings_have_no_first, rings_have_no_sense,
};
pub use ring::{RING_LIMIT, Ring};

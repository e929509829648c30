//! Reads polygon files: the rings of an area as lines of text.
#![tactic(auto)]

mod line;
mod point;
mod poly;
mod section;

pub use poly::{PolyError, read_poly};

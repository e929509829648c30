//! Cuts a raw PBF file into frames, however its bytes come, and writes frames.
//!
//! A frame is the length of a blob header, the blob header and a blob, as the OSM PBF page has
//! them. The raw content of a blob is handed on; this crate doesn't look into it.
#![tactic(auto)]

mod framing;
mod laws;
mod messages;
mod reading;
mod writing;

pub use laws::{frames_go_on, leading_frames_stay, written_frames_read_back};
pub use messages::What;
pub use reading::{BlobError, BlobReader, Frame};
pub use writing::frame;

//! Reads raw PBF files from sources piece by piece, and writes the items of entity streams into
//! sinks, as raw PBF files.
//!
//! A reader holds the piece that it pulled last, the bytes of a frame that is unfinished, and the
//! block in hand. Its items are those of the whole file, however the source cuts it. A writer holds
//! what the block of its open run needs. It puts a frame in one put, whenever a run is closed.
#![tactic(auto)]

mod frame_left;
mod pulled;
mod reading;
mod reading_laws;
mod writing;
mod writing_laws;

pub use reading::PbfReader;
pub use reading_laws::{
    bad_frames_settle, pbf_prefixes_come_before, pbf_readers_blame_their_sources_rightly,
    pbf_readers_come_before_their_files, pbf_readers_give_the_items_of_their_files,
};
pub use writing::PbfWriter;
pub use writing_laws::{pbf_files_grow, pbf_files_read_back};

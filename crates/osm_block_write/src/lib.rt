//! Blocks of PBF files, as they are written: the header block, and the block of a run of entities.
//!
//! A run is one kind of entity, up to a number and a weight. Its block holds each text once, and
//! its entities by the numbers of their texts.
#![tactic(auto)]

mod block;
mod columns;
mod dense;
mod heading;
mod laws;
mod maker;
mod messages;
mod numbering;
mod numbers;
mod options;
mod packing;
mod places;
mod taken;
mod texts;
mod varints;

pub use heading::header;
pub use laws::{runs_are_one_list, tables_name_their_texts};
pub use maker::{AddError, BlockMaker};
pub use options::PbfOptions;

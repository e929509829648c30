//! Blocks of PBF files, read: a block is checked whole into texts and numbers, and its entities are
//! then handed out one by one. Each text is made once for its block, and copied for its entities.
#![tactic(auto)]

mod codes;
mod content;
mod dense;
mod dense_codes;
mod dense_tags;
mod entry;
mod entry_ref;
mod error;
mod header;
mod info_codes;
mod judging;
mod lists;
mod making;
mod message;
mod piece;
mod plain;
mod plan;
mod row;
mod setting;
mod span;
mod table;
mod usual;
mod way_codes;

pub use error::BlockError;
pub use header::read_header;
pub use piece::Piece;
pub use plan::{Plan, check_block};

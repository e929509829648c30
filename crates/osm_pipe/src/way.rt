//! The two kinds of pipes.
use crate::channels::{BoundedGiver, BoundedTaker};
use crate::spools::{SpoolGiver, SpoolTaker};

/// The giving half of a bounded pipe or of a spool.
#[derive(Drop)]
pub enum GiverWay {
    Bounded(BoundedGiver),
    Spool(SpoolGiver),
}

/// The taking half of a bounded pipe or of a spool.
#[derive(Drop)]
pub enum TakerWay {
    Bounded(BoundedTaker),
    Spool(SpoolTaker),
}

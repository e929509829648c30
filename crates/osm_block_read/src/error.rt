//! Why a block gives no items.
ghost use Rattle.std.specs.Prelude.{◌≡◌};
ghost use Rattle.osm_block_read.specs.declared.error.BlockError.TheVariants.{Memory};

use osm_entity::{Cause, NoMemory};
use std::alloc::{AllocError, AllocFailed};
use thiserror::Error;

/// What is wrong with a block, or that it found no memory.
#[derive(Clone, Copy, Debug, PartialEq, Eq, Error)]
pub enum BlockError {
    /// The first thing that is wrong with it.
    #[error("bad block")]
    Bad(Cause),
    /// Out of memory.
    #[error("out of memory")]
    Memory,
}

impl From<AllocError> for BlockError {
    ghost from_gives = { λ _ e. e ≡ Memory };

    fn from(_: AllocError) -> Self {
        BlockError::Memory
    }
}

impl<T: Drop> From<AllocFailed<T>> for BlockError {
    ghost from_gives = { λ _ e. e ≡ Memory };

    fn from(_: AllocFailed<T>) -> Self {
        BlockError::Memory
    }
}

impl From<NoMemory> for BlockError {
    ghost from_gives = { λ _ e. e ≡ Memory };

    fn from(_: NoMemory) -> Self {
        BlockError::Memory
    }
}

/// A message that isn't well formed.
pub(crate) const BAD_WIRE: BlockError = BlockError::Bad(Cause::BadWire);

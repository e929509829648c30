//! A sink whose bytes a test can look at: a machine hands its sink back, and no file is made.
ghost use Rattle.std.specs.Prelude.{◌≡◌, []};

use osm_entity::Bytes;
use osm_host::{HostError, Sink};
use std::alloc::Global;

/// Keeps what it took. One of its puts may fail; it then takes the first half of the piece.
#[derive(Drop)]
pub(crate) struct Keeping {
    pub(crate) bytes: Bytes,
    /// The number of the put that fails, counted from the next one; at 0 none does.
    failing: u64,
    faults: u64,
}

impl Keeping {
    /// A sink that took nothing yet.
    pub(crate) fn new(alloc: Global, failing: u64) -> Keeping
        ensures { result.bytes ≡ [] }
    {
        Keeping {
            bytes: Bytes::new(alloc),
            failing,
            faults: 0,
        }
    }
}

impl Sink for Keeping {
    ghost use Rattle.std.specs.Prelude.{[], Some};

    ghost name = { λ k. [] };

    ghost taken = { λ k. Some k.bytes };

    ghost faults = { λ k. k.faults };

    fn put(&mut self, bytes: &[u8]) -> Result<(), HostError> {
        let fails = self.failing == 1;
        self.failing = self.failing.saturating_sub(1);
        if fails {
            self.bytes.append(&bytes[..bytes.len() / 2])?;
            self.faults = self.faults.saturating_add(1);
            return Err(HostError::Failed);
        }
        self.bytes.append(bytes)?;
        Ok(())
    }
}

//! What the last pull of a source gave.
ghost use Rattle.std.specs.Prelude.{◌≡◌, ◌≤◌, [], min, vec_len, IfOk, OnErr, Ok};
ghost use Rattle.std.specs.Io.KnownBytes.{IsAtEnd};
ghost use Rattle.osm_host.specs.Counts.{CountsFailure, raised};
ghost use Rattle.osm_host.specs.Pulls.{piece_size};
ghost use Rattle.osm_pbf.specs.Pulled.{FilledPiece};

use osm_entity::NoMemory;
use osm_host::{Failed, PIECE_SIZE, Source};
use std::alloc::Global;
use std::marker::Model;

/// The bytes of the last pull.
#[derive(Drop)]
pub(crate) struct Pulled {
    buffer: Vec<u8>,
    /// The bytes stop before this place.
    stop: usize,
}

impl Model for Pulled {
    ghost use Rattle.std.specs.Prelude.{ℕ, List};

    ghost Value = { List ℕ };

    ghost use Rattle.osm_pbf.specs.Pulled.{IsPulledPiece, pulled_seen};

    ghost view = { pulled_seen };

    ghost invariant = { IsPulledPiece };
}

// Room for what one pull gives.
fn new_buffer(alloc: Global) -> Result<Vec<u8>, NoMemory>
    ensures { IfOk result (λ v. vec_len v ≡ PIECE_SIZE) }
{
    match vec![in alloc; 0u8; PIECE_SIZE] {
        Ok(buffer) => Ok(buffer),
        Err(_) => Err(NoMemory),
    }
}

// The lesser of the two.
fn at_most(count: usize, room: u64) -> usize
    ensures { result ≡ min room count }
{
    if count as u64 > room {
        room as usize
    } else {
        count
    }
}

impl Pulled {
    /// No bytes.
    pub(crate) fn new(alloc: Global) -> Result<Pulled, NoMemory>
        ensures { IfOk result (λ p. p ≡ []) }
    {
        Ok(Pulled {
            buffer: new_buffer(alloc)?,
            stop: 0,
        })
    }

    /// The bytes.
    pub(crate) fn as_slice(&self) -> &[u8]
        ensures { result.now ≡ self.now }
    {
        &self.buffer[..self.stop]
    }

    /// Drops the bytes.
    pub(crate) fn clear(&mut self)
        ensures { self.new ≡ [] }
    {
        self.stop = 0;
    }

    /// Pulls once in the place of the bytes before, and keeps of what comes as much as there is
    /// room for.
    pub(crate) fn pull<S: Source>(&mut self, source: &mut S, room: u64) -> Result<usize, Failed>
        ensures name { S.name source.new ≡ S.name source.old }
        ensures filled { IfOk result
            (λ count. FilledPiece S.rest source.old source.new room count self.new) }
        ensures small { IfOk result (λ count. count ≤ piece_size) }
        ensures err { OnErr result (self.new ≡ []) }
        ensures left { OnErr result (S.rest source.new ≡ S.rest source.old) }
        ensures end { result ≡ Ok 0 → IsAtEnd (S.rest source.new) }
        ensures given { IfOk result (λ n. S.given source.new ≡ raised (S.given source.old) n) }
        ensures idle { OnErr result (S.given source.new ≡ S.given source.old) }
        ensures faults { CountsFailure result (S.faults source.old) (S.faults source.new) }
    {
        self.stop = 0;
        let count = source.pull(self.buffer.as_mut_slice())?;
        self.stop = at_most(count, room);
        Ok(count)
    }
}

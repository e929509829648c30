//! A file that is written.
ghost use Rattle.std.specs.Prelude.{◌≡◌, [], true, false, None, OnOk, OnErr, IfOk, IsErrOf};
ghost use Rattle.std.specs.Io.KnownBytes.{Appends};
ghost use Rattle.osm_host.specs.Contents.{PutTakes};
ghost use Rattle.osm_host.specs.Counts.{CountsRefusal};
ghost use Rattle.osm_host.specs.declared.outside.HostError.TheVariants.{Memory};
ghost use Rattle.osm_host_std.specs.Gathered.{held, write_failed, GathersPrefix};

use crate::gatherer::Gatherer;
use crate::openings::{Identity, Opened};
use osm_entity::Text;
use osm_host::{Failed, HostError, Sink};
use std::io::Write;

/// An opened file to write to. What it holds is not told.
///
/// Its bytes are gathered, so a put that answers `Ok` says that the piece was taken, and a failure
/// of the device shows at a later put or at the end. After a failure nothing more is written: the
/// file then holds a prefix of what was put, and lacks what was gathered. A write that a signal
/// interrupts is tried again, and counts as failed after 1,000 interruptions in a row; so does a
/// write that takes none of its bytes.
#[derive(Drop)]
pub struct FileSink<F> {
    name: Text,
    // By which it is told from other files in the clauses of a host.
    identity: Option<Identity>,
    gatherer: Gatherer<F>,
    faults: u64,
}

impl<F> FileSink<F> {
    /// A sink over a file that was just opened, and over room to gather in.
    pub(crate) fn new(name: Text, opened: Opened<F>, room: Vec<u8>) -> FileSink<F>
        requires { room.items ≡ [] }
        ensures name { result.name ≡ name }
        ensures identity { result.identity ≡ opened.identity }
        ensures sound { write_failed result.gatherer ≡ false }
        ensures fresh { result.faults ≡ 0 }
    {
        FileSink {
            name,
            identity: opened.identity(),
            gatherer: Gatherer::new(opened.into_file(), room),
            faults: 0,
        }
    }

    /// How many of its puts failed; it stops at 2^64 - 1.
    pub(crate) fn faults(&self) -> u64
        ensures { result ≡ self.now.faults }
    {
        self.faults
    }
}

impl<F: Write> FileSink<F> {
    /// Writes what is gathered, and gives the file. `Err` where that fails, and, with nothing more
    /// written, where a put failed.
    pub(crate) fn finish(self) -> Result<F, Failed>
    where
        F: Drop,
        ensures sound { OnOk result (write_failed self.gatherer ≡ false) }
        ensures ok { IfOk result (λ file.
            Appends (held F.contents self.gatherer) (F.contents file) []) }
    {
        if self.gatherer.has_failed() {
            return Err(Failed);
        }
        self.gatherer.finish()
    }
}

impl<F: Write> Sink for FileSink<F> {
    ghost name = { λ k. k.name };

    ghost taken = { λ k. None };

    ghost faults = { λ k. k.faults };

    /// Takes the piece, and no memory. `Failed` where a write fails, and at each put after that;
    /// each is counted.
    fn put(&mut self, bytes: &[u8]) -> Result<(), HostError>
        ensures name { self.new.name ≡ self.old.name }
        ensures takes { PutTakes result bytes.now None None }
        ensures faults { CountsRefusal result self.old.faults self.new.faults }
        ensures no_memory { IsErrOf result Memory → ⊥ }
        ensures held { OnOk result
            (Appends (held F.contents self.old.gatherer) (held F.contents self.new.gatherer)
            bytes.now) }

        // A put that fails leaves a prefix. After it each is refused, and nothing is written.
        ensures prefix { OnErr result
            (GathersPrefix F.contents self.old.gatherer self.new.gatherer bytes.now) }
        ensures failed { OnErr result (write_failed self.new.gatherer ≡ true) }
        ensures refused { write_failed self.old.gatherer ≡ true → IsErrOf result HostError.Failed }
        ensures idle { write_failed self.old.gatherer ≡ true →
            self.new.gatherer ≡ self.old.gatherer }
    {
        if self.gatherer.has_failed() || self.gatherer.take(bytes).is_err() {
            self.faults = self.faults.saturating_add(1);
            return Err(HostError::Failed);
        }
        Ok(())
    }
}

//! A writer that gathers what it is given, and writes it in large pieces.
ghost use Rattle.std.specs.Prelude.{◌≡◌, [], true, false, OnOk, OnErr, IfOk};
ghost use Rattle.std.specs.Io.KnownBytes.{Appends};
ghost use Rattle.osm_host_std.specs.Gathered.{held, write_failed, GathersPrefix};
ghost use Rattle.osm_host_std.specs.Written.{AppendsPrefix};

use crate::output::Output;
use osm_entity::NoMemory;
use osm_host::Failed;
use std::alloc::Global;
use std::io::Write;

// How many bytes are gathered at most, before they are written.
const ROOM: usize = 65536;

/// A file, and the bytes that it has yet to take.
#[derive(Drop)]
pub(crate) struct Gatherer<F> {
    output: Output<F>,
    gathered: Vec<u8>,
}

/// The room that a sink of a real file gathers in: 64 KiB.
pub(crate) fn room(alloc: Global) -> Result<Vec<u8>, NoMemory>
    ensures { IfOk result (λ v. v.items ≡ []) }
{
    match Vec::with_capacity(alloc, ROOM) {
        Ok(room) => Ok(room),
        Err(_) => Err(NoMemory),
    }
}

impl<F> Gatherer<F> {
    /// Nothing is gathered yet, and it will be in this room.
    pub(crate) fn new(file: F, room: Vec<u8>) -> Gatherer<F>
        requires { room.items ≡ [] }
        ensures file { result.output.file ≡ file }
        ensures none { result.gathered.items ≡ [] }
        ensures sound { write_failed result ≡ false }
    {
        Gatherer {
            output: Output::new(file),
            gathered: room,
        }
    }

    /// Whether a write failed. Nothing can be taken after that.
    pub(crate) fn has_failed(&self) -> bool
        ensures { result ≡ write_failed self.now }
    {
        self.output.has_failed()
    }
}

impl<F: Write> Gatherer<F> {
    /// Takes the bytes. Where there is no room for them, it first writes what was gathered; more
    /// bytes than the whole room has are written at once. At `Err` a write failed, and the file
    /// took a prefix of what was gathered and of these.
    #[tactic(auto, using(crate::proofs::WrittenLemmas::prefix_of_more))]
    pub(crate) fn take(&mut self, bytes: &[u8]) -> Result<(), Failed>
        requires sound { write_failed self.old ≡ false }
        ensures ok { OnOk result
            (Appends (held F.contents self.old) (held F.contents self.new) bytes.now) }
        ensures err { OnErr result (GathersPrefix F.contents self.old self.new bytes.now) }
        ensures sound { OnOk result (write_failed self.new ≡ false) }
        ensures failed { OnErr result (write_failed self.new ≡ true) }
    {
        if bytes.len() > self.gathered.capacity() - self.gathered.len() {
            self.write_out()?;
            if bytes.len() > self.gathered.capacity() {
                return self.output.write(bytes);
            }
        }
        match self.gathered.extend_from_slice(bytes) {
            Ok(()) => Ok(()),
            Err(_) => unreachable!(),
        }
    }

    // Writes what was gathered.
    fn write_out(&mut self) -> Result<(), Failed>
        requires sound { write_failed self.old ≡ false }
        ensures none { OnOk result (self.new.gathered.items ≡ []) }
        ensures ok { OnOk result
            (Appends (held F.contents self.old) (F.contents self.new.output.file) []) }
        ensures err { OnErr result (AppendsPrefix (F.contents self.old.output.file)
            (F.contents self.new.output.file) self.old.gathered.items) }
        ensures sound { OnOk result (write_failed self.new ≡ false) }
        ensures failed { OnErr result (write_failed self.new ≡ true) }
    {
        self.output.write(self.gathered.as_slice())?;
        self.gathered.clear();
        Ok(())
    }

    /// Writes what was gathered, and gives the file. At `Err` a write failed.
    pub(crate) fn finish(mut self) -> Result<F, Failed>
    where
        F: Drop,
        requires sound { write_failed self ≡ false }
        ensures ok { IfOk result (λ file. Appends (held F.contents self) (F.contents file) []) }
    {
        self.write_out()?;
        Ok(self.output.into_file())
    }
}

//! A file that is read.
ghost use Rattle.std.specs.Prelude.{◌≡◌, ◌<◌, ◌≤◌, length, take, None, IfOk, OnErr, Ok};
ghost use Rattle.std.specs.Io.KnownBytes.{Consumes, IsAtEnd};
ghost use Rattle.osm_host.specs.Contents.{PullGives};
ghost use Rattle.osm_host.specs.Counts.{raised, CountsFailure};

use crate::openings::{Identity, Opened};
use crate::transfers::read_some;
use osm_entity::Text;
use osm_host::{Failed, Source};
use std::io::Read;

/// An opened file to read from. Its bytes are not told. After `Failed` a pull may be tried again.
#[derive(Drop)]
pub struct FileSource<F> {
    name: Text,
    // By which it is told from other files in the clauses of a host.
    identity: Option<Identity>,
    file: F,
    given: u64,
    faults: u64,
}

impl<F> FileSource<F> {
    /// A source over a file that was just opened.
    pub(crate) fn new(name: Text, opened: Opened<F>) -> FileSource<F>
        ensures name { result.name ≡ name }
        ensures identity { result.identity ≡ opened.identity }
        ensures given { result.given ≡ 0 }
        ensures fresh { result.faults ≡ 0 }
    {
        FileSource {
            name,
            identity: opened.identity(),
            file: opened.into_file(),
            given: 0,
            faults: 0,
        }
    }

    /// How many bytes it gave; it stops at 2^64 - 1.
    pub(crate) fn given(&self) -> u64
        ensures { result ≡ self.now.given }
    {
        self.given
    }

    /// How many of its pulls failed; it stops at 2^64 - 1.
    pub(crate) fn faults(&self) -> u64
        ensures { result ≡ self.now.faults }
    {
        self.faults
    }
}

impl<F: Read> Source for FileSource<F> {
    ghost name = { λ s. s.name };

    ghost rest = { λ s. None };

    ghost given = { λ s. s.given };

    ghost faults = { λ s. s.faults };

    /// One read of the file. A read that a signal interrupts is tried again, and counts as failed
    /// after 1,000 interruptions in a row. After `Failed` nothing was given, and the fault is
    /// counted.
    fn pull(&mut self, buf: &mut [u8]) -> Result<usize, Failed>
        requires { 0 < length buf.old }
        ensures name { self.new.name ≡ self.old.name }
        ensures fits { IfOk result (λ n. n ≤ length buf.new) }
        ensures gives { PullGives result buf.new None None }
        ensures end { result ≡ Ok 0 → IsAtEnd None }
        ensures given { IfOk result (λ n. self.new.given ≡ raised self.old.given n) }
        ensures idle { OnErr result (self.new.given ≡ self.old.given) }
        ensures faults { CountsFailure result self.old.faults self.new.faults }
        ensures read { IfOk result (λ n.
            Consumes (F.remaining self.old.file) (F.remaining self.new.file) (take n buf.new)) }
        ensures read_end { result ≡ Ok 0 → IsAtEnd (F.remaining self.new.file) }
    {
        match read_some(&mut self.file, buf) {
            Ok(count) => {
                self.given = self.given.saturating_add(count as u64);
                Ok(count)
            }
            Err(_) => {
                self.faults = self.faults.saturating_add(1);
                Err(Failed)
            }
        }
    }
}

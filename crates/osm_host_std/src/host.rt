//! The host over real files. It tells no contents, since what a disk gives and holds only the disk
//! knows. A name is a path by its UTF-8 bytes.
ghost use Rattle.std.specs.Prelude.{◌≡◌, ℕ, List, [], false, None, Contains, IfOk, OnOk, OnErr};
ghost use Rattle.std.specs.Str.{IsUtf8};
ghost use Rattle.osm_host.specs.Counts.{Adds, CountsFailure, CountsOfCall, GaveOnly, KeepCounts};
ghost use Rattle.osm_host.specs.Names.{KnownByCall};
ghost use Rattle.osm_host.specs.declared.outside.Op.TheVariants.{Open, Make, Pull};
ghost use Rattle.osm_host_std.specs.Gathered.{IsWrittenOut, write_failed};
ghost use Rattle.osm_host_std.specs.Opened.{AddsSource, AddsSink, SameOpenings};

use crate::gatherer;
use crate::openings::Openings;
use crate::sink::FileSink;
use crate::source::FileSource;
use osm_entity::Text;
use osm_host::{Failed, Host, HostError, Op, Tallies};
use std::io::Eprint;
use std::rt::Files;

/// Files of the system by their names, with counts of what failed on each. After any error it may
/// be used again.
///
/// A regular file that was opened is not opened to be written, and one that was opened to be
/// written is not opened again, under any of its names. What is no regular file may be.
#[derive(Drop)]
pub struct StdHost<R> {
    rt: R,
    tallies: Tallies,
    openings: Openings,
    mute: u64,
}

impl<R: AllocGlobal> StdHost<R> {
    ghost use Rattle.osm_host.specs.declared.outside.Op.{Op};
    ghost use Rattle.osm_host_std.specs.Untold.{untold_moment};

    /// A host for which nothing was opened yet. It takes no memory.
    pub fn new(rt: R) -> StdHost<R>
        ensures mute { (untold_moment result).mute ≡ 0 }
        ensures counts { (o : Op) (n : List ℕ) → (untold_moment result).count o n ≡ 0 }
        ensures gave { (n : List ℕ) → (untold_moment result).gave n ≡ 0 }
        ensures known { (untold_moment result).known ≡ [] }
        ensures read { result.openings.read.items ≡ [] }
        ensures written { result.openings.written.items ≡ [] }
    {
        let tallies = Tallies::new(rt.alloc());
        let openings = Openings::new(rt.alloc());
        StdHost {
            rt,
            tallies,
            openings,
            mute: 0,
        }
    }
}

impl<R: Files + Eprint + AllocGlobal + Drop> Host for StdHost<R>
where
    R::File: Send,
{
    ghost use Rattle.osm_host.specs.Tallies.{faults_in, given_in, names_in};

    type In = FileSource<R::File>;

    type Out = FileSink<R::File>;

    ghost files = { λ h. None };

    ghost said = { λ h. None };

    ghost mute = { λ h. h.mute };

    ghost count = { λ h. faults_in h.tallies };

    ghost gave = { λ h. given_in h.tallies };

    ghost known = { λ h. names_in h.tallies };

    /// Opens the file to be read. `Failed` where the system doesn't open it, and where it is a file
    /// that was opened to be written; the name is then known, and the fault counted. After `Memory`
    /// no file was opened.
    fn open_source(&mut self, name: &Text) -> Result<FileSource<R::File>, HostError>
        ensures name { IfOk result (λ s. s.name ≡ name.now) }
        ensures given { IfOk result (λ s. s.given ≡ 0) }
        ensures fresh { IfOk result (λ s. s.faults ≡ 0) }

        ensures mute { self.new.mute ≡ self.old.mute }
        ensures counts { CountsOfCall Open name.now
            (faults_in self.old.tallies) (faults_in self.new.tallies) result }
        ensures gave { (n : List ℕ) →
            given_in self.new.tallies n ≡ given_in self.old.tallies n }
        ensures known { KnownByCall name.now
            (names_in self.old.tallies) (names_in self.new.tallies) result }

        // Which file was opened.
        ensures opened { IfOk result (λ s.
            AddsSource self.old.openings self.new.openings s.identity) }
        ensures unopened { OnErr result (SameOpenings self.old.openings self.new.openings) }
    {
        self.tallies.enter(self.rt.alloc(), name)?;
        let own_name = name.copy(self.rt.alloc())?;
        self.openings.reserve()?;
        match self.openings.open_source(&self.rt, path_of(name)) {
            Ok(opened) => Ok(FileSource::new(own_name, opened)),
            Err(_) => {
                self.tallies.fail(Op::Open, name);
                Err(HostError::Failed)
            }
        }
    }

    /// Closes the file.
    fn close_source(&mut self, name: &Text, source: FileSource<R::File>)
        requires known { Contains (names_in self.old.tallies) name.now }
        requires name { source.name ≡ name.now }

        ensures mute { self.new.mute ≡ self.old.mute }
        ensures counts { Adds Pull name.now source.faults
            (faults_in self.old.tallies) (faults_in self.new.tallies) }
        ensures gave { GaveOnly name.now source.given
            (given_in self.old.tallies) (given_in self.new.tallies) }
        ensures known { names_in self.new.tallies ≡ names_in self.old.tallies }

        // It stays among the files that were opened.
        ensures openings { SameOpenings self.old.openings self.new.openings }
    {
        self.tallies.add(Op::Pull, name, source.faults());
        self.tallies.give(name, source.given());
    }

    /// Makes the file, or empties it, and opens it to be written. `Failed` where the system doesn't
    /// make, open or empty it, and where it is a file that was opened before, which then stays as
    /// it was; the name is then known, and the fault counted. What is no regular file, as a pipe or
    /// a terminal, is not emptied and never refused for that. All memory that the sink takes is
    /// taken before the file is touched, so after `Memory` it is as it was.
    fn open_sink(&mut self, name: &Text) -> Result<FileSink<R::File>, HostError>
        ensures name { IfOk result (λ k. k.name ≡ name.now) }
        ensures fresh { IfOk result (λ k. k.faults ≡ 0) }

        ensures mute { self.new.mute ≡ self.old.mute }
        ensures counts { CountsOfCall Make name.now
            (faults_in self.old.tallies) (faults_in self.new.tallies) result }
        ensures gave { (n : List ℕ) →
            given_in self.new.tallies n ≡ given_in self.old.tallies n }
        ensures known { KnownByCall name.now
            (names_in self.old.tallies) (names_in self.new.tallies) result }

        // Which file was opened, and that it can be written.
        ensures sound { IfOk result (λ k. write_failed k.gatherer ≡ false) }
        ensures opened { IfOk result (λ k.
            AddsSink self.old.openings self.new.openings k.identity) }
        ensures unopened { OnErr result (SameOpenings self.old.openings self.new.openings) }
    {
        self.tallies.enter(self.rt.alloc(), name)?;
        let own_name = name.copy(self.rt.alloc())?;
        let room = gatherer::room(self.rt.alloc())?;
        self.openings.reserve()?;
        match self.openings.open_sink(&self.rt, path_of(name)) {
            Ok(opened) => Ok(FileSink::new(own_name, opened, room)),
            Err(_) => {
                self.tallies.fail(Op::Make, name);
                Err(HostError::Failed)
            }
        }
    }

    /// Writes out what the sink gathered, and closes the file. `Failed` where that write fails, and
    /// also where a put of the sink failed: its file then lacks bytes that were taken. It takes no
    /// memory, and the file is closed after each answer.
    fn keep(&mut self, name: &Text, sink: FileSink<R::File>) -> Result<(), HostError>
        requires known { Contains (names_in self.old.tallies) name.now }
        requires name { sink.name ≡ name.now }

        ensures mute { self.new.mute ≡ self.old.mute }
        ensures counts { KeepCounts name.now sink.faults
            (faults_in self.old.tallies) (faults_in self.new.tallies) result }
        ensures gave { (n : List ℕ) →
            given_in self.new.tallies n ≡ given_in self.old.tallies n }
        ensures known { names_in self.new.tallies ≡ names_in self.old.tallies }

        // All that the sink took was handed to its file.
        ensures finished { OnOk result (IsWrittenOut R.File.contents sink.gatherer) }
        ensures openings { SameOpenings self.old.openings self.new.openings }
    {
        self.tallies.add(Op::Put, name, sink.faults());
        match sink.finish() {
            Ok(_file) => Ok(()),
            Err(_) => {
                self.tallies.fail(Op::Keep, name);
                Err(HostError::Failed)
            }
        }
    }

    /// Writes the bytes to standard error. `Failed` where they are no text, and nothing is written
    /// then; and where the system doesn't take them, of which a prefix may stand there.
    fn say(&mut self, bytes: &[u8]) -> Result<(), Failed>
        ensures text { OnOk result (IsUtf8 bytes.now) }
        ensures mute { CountsFailure result self.old.mute self.new.mute }
        ensures tallies { self.new.tallies ≡ self.old.tallies }
        ensures openings { SameOpenings self.old.openings self.new.openings }
    {
        match say_text(&self.rt, bytes) {
            Ok(()) => Ok(()),
            Err(_) => {
                self.mute = self.mute.saturating_add(1);
                Err(Failed)
            }
        }
    }
}

// A name as a path of the system.
fn path_of(name: &Text) -> &str
    ensures { result.now ≡ name.now }
{
    match std::str::from_utf8(name.as_slice()) {
        Ok(path) => path,
        Err(_) => unreachable!(),
    }
}

// Writes a text to standard error.
fn say_text<R: Eprint>(rt: &R, bytes: &[u8]) -> Result<(), Failed>
    ensures { OnOk result (IsUtf8 bytes.now) }
{
    match std::str::from_utf8(bytes) {
        Ok(text) => match rt.eprint(text) {
            Ok(()) => Ok(()),
            Err(_) => Err(Failed),
        },
        Err(_) => Err(Failed),
    }
}

//! A host whose source and sinks see each other: it tells whether a run moves its items along while
//! it reads.
ghost use Rattle.std.specs.Prelude.{◌≡◌, ◌<◌, ◌≤◌, ℕ, List, length, IfOk, OnErr, Ok, None, Contains};
ghost use Rattle.std.specs.Io.KnownBytes.{IsAtEnd};
ghost use Rattle.osm_host.specs.Contents.{PullGives, PutTakes};
ghost use Rattle.osm_host.specs.Counts.{raised, CountsFailure, CountsRefusal};

use osm_entity::{NoMemory, Text};
use osm_host::{Failed, Host, HostError, Op, Sink, Source, Tallies};
use std::alloc::Global;
use std::sync::Arc;
use std::sync::atomic::{AtomicU64, Ordering};

/// A line of a file that is read.
const LINE: &[u8] = b"n1 x1.5 y2\n";

/// What the source and the sinks of a run see of each other.
#[derive(Drop)]
struct Seen {
    /// How many pulls were begun.
    pulls: AtomicU64,
    /// How many sinks have taken a byte.
    sinks: AtomicU64,
    /// How many bytes all sinks took.
    bytes: AtomicU64,
}

/// What the devices of a host do, and what they wait for.
#[derive(Clone, Copy)]
pub(crate) struct Watch {
    /// How many lines the file has.
    pub(crate) lines: u64,
    /// The number of the pull that fails unless sinks have taken a byte, counted from 1.
    pub(crate) pull: u64,
    /// How many sinks it looks for.
    pub(crate) sinks: u64,
    /// The first put of a sink fails unless this pull was begun.
    pub(crate) begun: u64,
    /// How often each of them looks.
    pub(crate) looks: u32,
}

/// Whether a count is as great as this, at one of some looks.
fn sees(count: &AtomicU64, least: u64, looks: u32) -> bool {
    for _look in 0..looks {
        if count.load(Ordering::SeqCst) >= least {
            return true;
        }
    }
    false
}

/// A source that gives a line at each pull. It tells no bytes.
#[derive(Drop)]
pub(crate) struct LineSource {
    name: Text,
    seen: Arc<Seen, Global>,
    watch: Watch,
    given: u64,
    faults: u64,
}

impl Source for LineSource {
    ghost name = { λ s. s.name };

    ghost rest = { λ s. None };

    ghost given = { λ s. s.given };

    ghost faults = { λ s. s.faults };

    /// Gives a line, or as much of it as there is room for. `Failed` where it doesn't see what it
    /// looks for.
    fn pull(&mut self, buf: &mut [u8]) -> Result<usize, Failed>
        requires { 0 < length buf.old }
        ensures name { self.new.name ≡ self.old.name }
        ensures fits { IfOk result (λ n. n ≤ length buf.new) }
        ensures gives { PullGives result buf.new None None }
        ensures end { result ≡ Ok 0 → IsAtEnd None }
        ensures given { IfOk result (λ n. self.new.given ≡ raised self.old.given n) }
        ensures idle { OnErr result (self.new.given ≡ self.old.given) }
        ensures faults { CountsFailure result self.old.faults self.new.faults }
    {
        let pull = self
            .seen
            .pulls
            .fetch_add(1, Ordering::SeqCst)
            .saturating_add(1);
        if pull == self.watch.pull && !sees(&self.seen.sinks, self.watch.sinks, self.watch.looks) {
            self.faults = self.faults.saturating_add(1);
            return Err(Failed);
        }
        if pull > self.watch.lines {
            return Ok(0);
        }
        let count = LINE.len().min(buf.len());
        buf[..count].copy_from_slice(&LINE[..count]);
        self.given = self.given.saturating_add(count as u64);
        Ok(count)
    }
}

/// A sink that counts its bytes. It tells none.
#[derive(Drop)]
pub(crate) struct CountingSink {
    name: Text,
    seen: Arc<Seen, Global>,
    watch: Watch,
    has_begun: bool,
    faults: u64,
}

impl Sink for CountingSink {
    ghost name = { λ k. k.name };

    ghost taken = { λ k. None };

    ghost faults = { λ k. k.faults };

    /// Takes the piece. `Failed` where the first doesn't see what it looks for.
    fn put(&mut self, bytes: &[u8]) -> Result<(), HostError>
        ensures name { self.new.name ≡ self.old.name }
        ensures takes { PutTakes result bytes.now None None }
        ensures faults { CountsRefusal result self.old.faults self.new.faults }
    {
        self.seen
            .bytes
            .fetch_add(bytes.len() as u64, Ordering::SeqCst);
        if !self.has_begun && !bytes.is_empty() {
            self.has_begun = true;
            self.seen.sinks.fetch_add(1, Ordering::SeqCst);
            if !sees(&self.seen.pulls, self.watch.begun, self.watch.looks) {
                self.faults = self.faults.saturating_add(1);
                return Err(HostError::Failed);
            }
        }
        Ok(())
    }
}

/// A host that opens each name, and tells nothing but its counts.
#[derive(Drop)]
pub(crate) struct WatchedHost {
    alloc: Global,
    seen: Arc<Seen, Global>,
    watch: Watch,
    tallies: Tallies,
}

/// One more handle of what is seen.
fn share(seen: &Arc<Seen, Global>) -> Result<Arc<Seen, Global>, NoMemory> {
    match Arc::try_clone(seen) {
        Ok(seen) => Ok(seen),
        Err(_) => Err(NoMemory),
    }
}

impl WatchedHost {
    /// A host of which nothing was opened.
    pub(crate) fn new(alloc: Global, watch: Watch) -> Result<WatchedHost, NoMemory> {
        let seen = Seen {
            pulls: AtomicU64::new(0),
            sinks: AtomicU64::new(0),
            bytes: AtomicU64::new(0),
        };
        let Ok(seen) = Arc::new(alloc, seen) else {
            return Err(NoMemory);
        };
        let tallies = Tallies::new(alloc);
        Ok(WatchedHost {
            alloc,
            seen,
            watch,
            tallies,
        })
    }

    /// How many bytes its sinks took.
    pub(crate) fn bytes(&self) -> u64 {
        self.seen.bytes.load(Ordering::SeqCst)
    }
}

impl Host for WatchedHost {
    ghost use Rattle.osm_host.specs.Counts.{Adds, CountsOfCall, GaveOnly, KeepCounts};
    ghost use Rattle.osm_host.specs.Names.{KnownByCall};
    ghost use Rattle.osm_host.specs.Tallies.{faults_in, given_in, names_in};
    ghost use Rattle.osm_host.specs.declared.outside.Op.TheVariants.{Open, Make, Pull};

    type In = LineSource;

    type Out = CountingSink;

    ghost files = { λ h. None };

    ghost said = { λ h. None };

    ghost mute = { λ h. 0 };

    ghost count = { λ h. faults_in h.tallies };

    ghost gave = { λ h. given_in h.tallies };

    ghost known = { λ h. names_in h.tallies };

    fn open_source(&mut self, name: &Text) -> Result<LineSource, HostError>
        ensures name { IfOk result (λ s. s.name ≡ name.now) }
        ensures given { IfOk result (λ s. s.given ≡ 0) }
        ensures fresh { IfOk result (λ s. s.faults ≡ 0) }
        ensures counts { CountsOfCall Open name.now
            (faults_in self.old.tallies) (faults_in self.new.tallies) result }
        ensures gave { (n : List ℕ) →
            given_in self.new.tallies n ≡ given_in self.old.tallies n }
        ensures known { KnownByCall name.now
            (names_in self.old.tallies) (names_in self.new.tallies) result }
    {
        self.tallies.enter(self.alloc, name)?;
        Ok(LineSource {
            name: name.copy(self.alloc)?,
            seen: share(&self.seen)?,
            watch: self.watch,
            given: 0,
            faults: 0,
        })
    }

    fn close_source(&mut self, name: &Text, source: LineSource)
        requires known { Contains (names_in self.old.tallies) name.now }
        requires name { source.name ≡ name.now }
        ensures counts { Adds Pull name.now source.faults
            (faults_in self.old.tallies) (faults_in self.new.tallies) }
        ensures gave { GaveOnly name.now source.given
            (given_in self.old.tallies) (given_in self.new.tallies) }
        ensures known { names_in self.new.tallies ≡ names_in self.old.tallies }
    {
        self.tallies.add(Op::Pull, name, source.faults);
        self.tallies.give(name, source.given);
    }

    fn open_sink(&mut self, name: &Text) -> Result<CountingSink, HostError>
        ensures name { IfOk result (λ k. k.name ≡ name.now) }
        ensures fresh { IfOk result (λ k. k.faults ≡ 0) }
        ensures counts { CountsOfCall Make name.now
            (faults_in self.old.tallies) (faults_in self.new.tallies) result }
        ensures gave { (n : List ℕ) →
            given_in self.new.tallies n ≡ given_in self.old.tallies n }
        ensures known { KnownByCall name.now
            (names_in self.old.tallies) (names_in self.new.tallies) result }
    {
        self.tallies.enter(self.alloc, name)?;
        Ok(CountingSink {
            name: name.copy(self.alloc)?,
            seen: share(&self.seen)?,
            watch: self.watch,
            has_begun: false,
            faults: 0,
        })
    }

    fn keep(&mut self, name: &Text, sink: CountingSink) -> Result<(), HostError>
        requires known { Contains (names_in self.old.tallies) name.now }
        requires name { sink.name ≡ name.now }
        ensures counts { KeepCounts name.now sink.faults
            (faults_in self.old.tallies) (faults_in self.new.tallies) result }
        ensures gave { (n : List ℕ) →
            given_in self.new.tallies n ≡ given_in self.old.tallies n }
        ensures known { names_in self.new.tallies ≡ names_in self.old.tallies }
    {
        self.tallies.add(Op::Put, name, sink.faults);
        Ok(())
    }

    /// Says nothing.
    fn say(&mut self, _bytes: &[u8]) -> Result<(), Failed>
        ensures mute { CountsFailure result 0 0 }
        ensures tallies { self.new.tallies ≡ self.old.tallies }
    {
        Ok(())
    }
}

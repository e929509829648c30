//! Reads the items of an OPL file, pull by pull.
ghost use Rattle.std.specs.Prelude.{◌≡◌, ◌≢◌, ◌+◌, ◌≤◌, ◌<◌, ◌∷◌, [], length, true, false, IfOk, IfNone, IfSome, OnOk, OnErr, IsOk, IsTrue, ◌↔◌};
ghost use Rattle.osm_entity.specs.declared.verdict.Verdict.TheVariants.{Running};
ghost use Rattle.osm_host.specs.Feeds.{reached_end, verdict_after};
ghost use Rattle.osm_host.specs.Pulls.{PulledOnce, piece_size, source_value};
ghost use Rattle.osm_host.specs.declared.feed.Feed.TheVariants.{Open, Failed};
ghost use Rattle.osm_opl_line.specs.Line.{Bad, longest_line};
ghost use Rattle.osm_opl_line.specs.Reading.{is_line};
ghost use Rattle.osm_opl.specs.Reader.{CanPull, IsReader, SameSource, WantsPull, fed};
ghost use Rattle.osm_opl.specs.Passing.{FindsIn, SameRest, passed, unread_past};
ghost use Rattle.osm_opl.specs.Standing.{GaveItems, Stands};
ghost use Rattle.osm_opl.specs.Unread.{IsUnread, unread_bytes, left_past};

use crate::unread::{Found, Unread};
use osm_entity::{Cause, Flow, Item, NoMemory, Spot, Verdict};
use osm_host::{Feed, HostError, Source};
use osm_opl_line::{LineRead, read_line};
use std::alloc::Global;
use std::marker::Model;

/// Reads an OPL file from a source, which is passed to each pull. Where `pull` is called only after
/// `next` answered `None`, it holds one piece of 64 KiB, and at most 16,777,216 bytes of a line
/// that began in earlier pieces. A pull before that keeps what is left, and so adds a piece.
#[derive(Drop)]
pub struct OplReader {
    alloc: Global,
    flow: Flow,
    /// How many bytes it reads; what comes past them is dropped.
    limit: u64,
    /// How many bytes its source gave; it stops at 2^64 - 1.
    given: u64,
    feed: Feed,
    /// How many lines were read.
    lines: u64,
    unread: Unread,
    verdict: Verdict,
}

impl Model for OplReader {
    ghost use Rattle.osm_opl.specs.Reader.{ReaderValue, IsReader};

    ghost Value = { ReaderValue };

    ghost use Rattle.osm_opl.specs.ReaderSeen.{reader_seen};

    ghost view = { reader_seen };

    ghost invariant = { λ r. IsReader (reader_seen r) };
}

impl OplReader {
    /// A reader of a file of this flow, of which it reads `limit` bytes at most.
    pub fn new(alloc: Global, flow: Flow, limit: u64) -> Result<OplReader, NoMemory>
        ensures stands { IfOk result (λ r. Stands r [] false []) }
        ensures wants { IfOk result (λ r. WantsPull r) }
        ensures made { IfOk result (λ r. (r.flow ≡ flow) × (r.limit ≡ limit)) }
    {
        Ok(OplReader {
            alloc,
            flow,
            limit,
            given: 0,
            feed: Feed::Open,
            lines: 0,
            unread: Unread::new(alloc)?,
            verdict: Verdict::Running,
        })
    }

    /// What every reader keeps.
    pub fn kept(&self)
        ensures reader { IsReader self.now }
        ensures holds { IsUnread self.now.unread }
    {
        self.unread.kept();
    }

    /// How it stands with the reader. Other than running it is final.
    pub fn verdict(&self) -> Verdict
        ensures { result ≡ self.now.verdict }
    {
        self.verdict
    }

    /// How many bytes the source gave; it stops at 2^64 - 1.
    pub fn given(&self) -> u64
        ensures { result ≡ self.now.given }
    {
        self.given
    }

    /// Whether the source answered its end.
    pub fn reached_end(&self) -> bool
        ensures { result ≡ reached_end self.now.feed }
    {
        self.feed.reached_end()
    }

    /// Pulls once. It may be called while the verdict is running, and no earlier pull failed, ended
    /// or passed the limit; items that weren't taken yet are kept. The source's failure, its end or
    /// its excess becomes the verdict once the items before it have been given. After a failed pull
    /// no byte came. It takes memory only where bytes are left of the pull before; at `NoMemory`
    /// the reader and the source are as they were.
    pub fn pull<S: Source>(&mut self, source: &mut S) -> Result<(), NoMemory>
        requires { CanPull self.old }
        // What came, and what the reader stands for then.
        ensures pulled { OnOk result (PulledOnce fed Stands
            (source_value S.rest S.given S.faults source.old)
            (source_value S.rest S.given S.faults source.new) self.old self.new) }
        ensures more { OnOk result (self.new.feed ≡ Open → self.old.given < self.new.given) }
        ensures failed { OnOk result (self.new.feed ≡ Failed → self.new.given ≡ self.old.given) }

        // What it holds then.
        ensures holds { OnOk result (length (unread_bytes self.new.unread)
            ≤ length (unread_bytes self.old.unread) + piece_size) }
        ensures short { OnOk result (WantsPull self.old →
            length (unread_bytes self.new.unread) ≤ longest_line + piece_size) }

        // What else stays, and what is refused.
        ensures name { S.name source.new ≡ S.name source.old }
        ensures same { (self.new.flow ≡ self.old.flow) × (self.new.limit ≡ self.old.limit)
            × (self.new.verdict ≡ self.old.verdict) }
        ensures ok { self.old.unread.piece ≡ [] → IsOk result }
        ensures err { OnErr result ((self.new ≡ self.old) × (source.new ≡ source.old)) }
    {
        let room = self.limit - self.given;
        match self.unread.pull(source, room) {
            Ok(count) => {
                self.feed = Feed::after(count, room);
                self.given = self.given.saturating_add(count as u64);
            }
            Err(HostError::Failed) => self.feed = Feed::Failed,
            Err(HostError::Memory) => return Err(NoMemory),
        }
        Ok(())
    }

    /// The next item. `None` where the whole lines that are left give no further item before their
    /// end or before the first bad one; then `verdict` says which. At `Err` it gave nothing, its
    /// verdict is what it was, and the call may be made again.
    // In a caller that reads other formats too, what stands here would slow these down.
    #[inline(never)]
    pub fn next(&mut self) -> Result<Option<Item>, NoMemory>
        ensures some { IfOk result (λ found. IfSome found
            (λ item. GaveItems self.old self.new (item ∷ []))) }
        ensures falls { IfOk result (λ found. IfSome found
            (λ _. length (unread_bytes self.new.unread) < length (unread_bytes self.old.unread))) }
        ensures none { IfOk result (λ found. IfNone found (GaveItems self.old self.new [])) }
        ensures runs { IfOk result (λ found. IfSome found (λ _. self.new.verdict ≡ Running)) }
        ensures stops { IfOk result (λ found. IfNone found
            (self.new.verdict ≡ Running → WantsPull self.new)) }
        ensures err { OnErr result (GaveItems self.old self.new []) }
        ensures stays { OnErr result (self.new.verdict ≡ self.old.verdict) }
        ensures same { SameSource self.old self.new }
    {
        while self.is_running() {
            match self.find_line()? {
                Found::Line { count, past } => {
                    match read_line(self.alloc, self.unread.line(count), self.flow)? {
                        LineRead::Item(item) => {
                            self.pass(past);
                            return Ok(Some(item));
                        }
                        LineRead::Skipped => self.pass(past),
                        LineRead::Bad(cause) => self.fail(past, cause),
                    }
                }
                Found::TooLong(past) => self.fail(past, Cause::LineTooLong),
                Found::Unfinished => {
                    self.settle();
                    return Ok(None);
                }
            }
        }
        Ok(None)
    }

    // Whether no verdict was reached.
    fn is_running(&self) -> bool
        ensures runs { IsTrue result ↔ self.now.verdict ≡ Running }
        ensures reader { IsReader self.now }
    {
        matches!(self.verdict, Verdict::Running)
    }

    // Finds the next line, where there is one. Nothing is read.
    fn find_line(&mut self) -> Result<Found, NoMemory>
        ensures found { IfOk result (λ found. FindsIn self.old self.new found) }
        ensures err { OnErr result (SameRest self.old self.new) }
    {
        match self.unread.find_line()? {
            Found::Line { count, past } => Ok(Found::Line { count, past }),
            Found::TooLong(past) => Ok(Found::TooLong(past)),
            Found::Unfinished => {
                if self.has_last() {
                    return Ok(Found::Line { count: 0, past: 0 });
                }
                Ok(Found::Unfinished)
            }
        }
    }

    // Whether what is left is the last line of the source.
    fn has_last(&self) -> bool
        ensures ended { IsTrue result → reached_end self.now.feed ≡ true }
        ensures some { IsTrue result → unread_bytes self.now.unread ≢ [] }
        ensures none { result ≡ false → self.now.unread.piece ≡ [] → IsUnread self.now.unread →
            is_line (reached_end self.now.feed) self.now.unread.held ≡ false }
    {
        self.feed.reached_end() && !self.unread.is_empty()
    }

    // Passes over a line, which is counted.
    fn pass(&mut self, past: usize)
        requires within { past ≤ length self.old.unread.piece }
        requires limited { self.old.lines + length (unread_bytes (left_past self.old.unread past))
            < self.old.limit }
        requires counted { self.old.lines + length (unread_bytes (left_past self.old.unread past))
            < self.old.given }
        ensures { self.new ≡ record (unread_past self.old past) { lines = self.old.lines + 1 } }
    {
        self.unread.pass_over(past);
        self.lines += 1;
    }

    // Passes over a bad line, which ends the reading.
    fn fail(&mut self, past: usize, cause: Cause)
        requires within { past ≤ length self.old.unread.piece }
        requires limited { self.old.lines + length (unread_bytes (left_past self.old.unread past))
            < self.old.limit }
        requires counted { self.old.lines + length (unread_bytes (left_past self.old.unread past))
            < self.old.given }
        ensures { self.new ≡ passed (Bad cause) (unread_past self.old past) }
    {
        self.unread.pass_over(past);
        let spot = Spot::Line(self.lines + 1);
        self.verdict = Verdict::Input { cause, spot };
    }

    // Reaches the verdict of a reader without a line left.
    fn settle(&mut self)
        ensures { self.new ≡ record self.old { verdict = verdict_after self.old.feed } }
    {
        self.verdict = self.feed.verdict();
    }
}

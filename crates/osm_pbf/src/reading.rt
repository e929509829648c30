//! Reads the items of a raw PBF file, pull by pull.
ghost use Rattle.std.specs.Prelude.{◌≡◌, ℕ, ◌+◌, ◌≤◌, ◌<◌, ◌∷◌, [], length, false, true, Ok, Some, IfOk, IfNone, IfSome, OnOk, OnErr, IsOk, IsTrue, ◌↔◌};
ghost use Rattle.osm_entity.specs.declared.verdict.Verdict.TheVariants.{Input, Running};
ghost use Rattle.osm_host.specs.Feeds.{reached_end};
ghost use Rattle.osm_host.specs.Pulls.{PulledOnce, piece_size, source_value};
ghost use Rattle.osm_host.specs.declared.feed.Feed.TheVariants.{Ended, Failed, Open};
ghost use Rattle.osm_pbf.specs.Reader.{CanPullPbf, HoldsNoItem, IsPbfReader, SamePbfSource, WantsPbf, pbf_fed, pbf_unread};
ghost use Rattle.osm_pbf.specs.Standing.{GavePbfItems, StandsForPbf, pbf_items_left};
ghost use Rattle.osm_pbf.specs.Steps.{AnswersItem, AnswersStep, pbf_ending_left, pbf_handed, pbf_passed, pbf_refused, pbf_verdict_left};

use crate::frame_left::FrameLeft;
use crate::pulled::Pulled;
use osm_blob::{BlobError, BlobReader, Frame, What};
use osm_block_read::BlockError;
use osm_entity::{Cause, Item, NoMemory, Spot, Verdict};
use osm_host::{Feed, Source};
use std::alloc::Global;
use std::marker::Model;

/// Reads a raw PBF file from a source, which is passed to each pull. Where `pull` is called only
/// after `next` answered `None`, it holds one piece of 64 KiB, fewer than 33,620,995 bytes of a
/// frame that is unfinished, and one block with its plan.
#[derive(Drop)]
pub struct PbfReader {
    /// How many bytes it reads; what comes past them is dropped.
    limit: u64,
    /// How many bytes its source gave; it stops at 2^64 - 1.
    given: u64,
    feed: Feed,
    /// Whether a header came.
    came: bool,
    /// Where the frame in hand is.
    spot: Spot,
    /// What it says yet.
    left: FrameLeft,
    blobs: BlobReader,
    /// What was pulled last and isn't with `blobs` yet.
    piece: Pulled,
    verdict: Verdict,
}

impl Model for PbfReader {
    ghost use Rattle.osm_pbf.specs.Reader.{IsPbfReader, PbfReaderValue};

    ghost Value = { PbfReaderValue };

    ghost use Rattle.osm_pbf.specs.ReaderSeen.{pbf_reader_seen};

    ghost view = { pbf_reader_seen };

    ghost invariant = { λ r. IsPbfReader (pbf_reader_seen r) };
}

impl PbfReader {
    /// A reader of a file of which it reads `limit` bytes at most.
    pub fn new(alloc: Global, limit: u64) -> Result<PbfReader, NoMemory>
        ensures stands { IfOk result (λ r. StandsForPbf r [] false []) }
        ensures wants { IfOk result (λ r. WantsPbf r) }
        ensures made { IfOk result (λ r. r.limit ≡ limit) }
    {
        Ok(PbfReader {
            limit,
            given: 0,
            feed: Feed::Open,
            came: false,
            spot: Spot::Blob { number: 0, byte: 0 },
            left: FrameLeft::none(alloc),
            blobs: BlobReader::new(alloc)?,
            piece: Pulled::new(alloc)?,
            verdict: Verdict::Running,
        })
    }

    /// What every reader keeps.
    pub fn kept(&self)
        ensures { IsPbfReader self.now }
    {
        let _limit = &self.limit;
    }

    /// How it stands with the reader. Other than running it is final.
    pub fn verdict(&self) -> Verdict
        ensures { result ≡ self.now.verdict }
    {
        self.verdict
    }

    /// How many bytes the source gave; it stops at 2^64 - 1.
    pub fn given(&self) -> u64
        ensures { result ≡ self.now.given }
    {
        self.given
    }

    /// Whether the source answered its end.
    pub fn reached_end(&self) -> bool
        ensures { result ≡ reached_end self.now.feed }
    {
        self.feed.reached_end()
    }

    /// Pulls once. It may be called while the verdict is running, and no earlier pull failed, ended
    /// or passed the limit; items that weren't taken yet are kept. The source's failure, its end or
    /// its excess becomes the verdict once the items before it have been given. After a failed pull
    /// no byte came. It takes memory only where bytes are left of the pull before; at `NoMemory`
    /// the reader and the source are as they were.
    pub fn pull<S: Source>(&mut self, source: &mut S) -> Result<(), NoMemory>
        requires { CanPullPbf self.old }
        // What came, and what the reader stands for then.
        ensures pulled { OnOk result (PulledOnce pbf_fed StandsForPbf
            (source_value S.rest S.given S.faults source.old)
            (source_value S.rest S.given S.faults source.new) self.old self.new) }
        ensures more { OnOk result (self.new.feed ≡ Open → self.old.given < self.new.given) }
        ensures failed { OnOk result (self.new.feed ≡ Failed → self.new.given ≡ self.old.given) }

        // What it holds then.
        ensures holds { OnOk result (length (pbf_unread self.new)
            ≤ length (pbf_unread self.old) + piece_size) }
        ensures short { OnOk result (WantsPbf self.old →
            length (pbf_unread self.new) < 33620995 + piece_size) }

        // What else stays, and what is refused.
        ensures name { S.name source.new ≡ S.name source.old }
        ensures same { (self.new.limit ≡ self.old.limit)
            × (self.new.verdict ≡ self.old.verdict) }
        ensures ok { self.old.piece ≡ [] → IsOk result }
        ensures err { OnErr result ((self.new ≡ self.old) × (source.new ≡ source.old)) }
    {
        self.hand_over()?;
        let room = self.limit - self.given;
        match self.piece.pull(source, room) {
            Ok(count) => {
                self.feed = Feed::after(count, room);
                self.given = self.given.saturating_add(count as u64);
            }
            Err(_) => self.feed = Feed::Failed,
        }
        Ok(())
    }

    /// The next item. `None` where the whole blobs that are left give no further item before their
    /// end or before the first bad one; then `verdict` says which. A bad blob gives none of its
    /// items. At `Err` it gave nothing, its verdict is what it was, and the call may be made again.
    pub fn next(&mut self) -> Result<Option<Item>, NoMemory>
        ensures some { IfOk result (λ found. IfSome found
            (λ item. GavePbfItems self.old self.new (item ∷ []))) }
        ensures falls { IfOk result (λ found. IfSome found
            (λ item. pbf_items_left self.old ≡ item ∷ pbf_items_left self.new)) }
        ensures none { IfOk result (λ found. IfNone found (GavePbfItems self.old self.new [])) }
        ensures runs { IfOk result (λ found. IfSome found (λ _. self.new.verdict ≡ Running)) }
        ensures stops { IfOk result (λ found. IfNone found
            (self.new.verdict ≡ Running → WantsPbf self.new)) }
        ensures err { OnErr result (GavePbfItems self.old self.new []) }
        ensures stays { OnErr result (self.new.verdict ≡ self.old.verdict) }
        ensures same { SamePbfSource self.old self.new }
    {
        if self.is_running() {
            match self.take_checked() {
                Ok(None) => {}
                Ok(Some(item)) => return Ok(Some(item)),
                Err(error) => return Err(error),
            }
        }
        self.next_step_by_step()
    }

    // The same, by a loop over the frames. Most items come before it, from the block in hand: what
    // stands here would only slow them down there.
    #[inline(never)]
    fn next_step_by_step(&mut self) -> Result<Option<Item>, NoMemory>
        ensures some { IfOk result (λ found. IfSome found
            (λ item. GavePbfItems self.old self.new (item ∷ []))) }
        ensures falls { IfOk result (λ found. IfSome found
            (λ item. pbf_items_left self.old ≡ item ∷ pbf_items_left self.new)) }
        ensures none { IfOk result (λ found. IfNone found (GavePbfItems self.old self.new [])) }
        ensures runs { IfOk result (λ found. IfSome found (λ _. self.new.verdict ≡ Running)) }
        ensures stops { IfOk result (λ found. IfNone found
            (self.new.verdict ≡ Running → WantsPbf self.new)) }
        ensures err { OnErr result (GavePbfItems self.old self.new []) }
        ensures stays { OnErr result (self.new.verdict ≡ self.old.verdict) }
        ensures same { SamePbfSource self.old self.new }
    {
        while self.is_running() {
            match self.take_item() {
                Ok(Some(item)) => return Ok(Some(item)),
                Ok(None) => {
                    if !self.take_frame()? {
                        self.settle();
                        return Ok(None);
                    }
                }
                Err(BlockError::Bad(cause)) => {
                    self.blame(cause);
                    return Ok(None);
                }
                Err(BlockError::Memory) => return Err(NoMemory),
            }
        }
        Ok(None)
    }

    // Whether no verdict was reached.
    fn is_running(&self) -> bool
        ensures { IsTrue result ↔ self.now.verdict ≡ Running }
    {
        matches!(self.verdict, Verdict::Running)
    }

    // Takes the next item of the block in hand, where that was checked and has one.
    #[inline(always)]
    fn take_checked(&mut self) -> Result<Option<Item>, NoMemory>
        ensures same { self.new ≡ record self.old { said = self.new.said } }
        ensures some { IfOk result (λ found. IfSome found
            (λ item. AnswersItem self.old.said self.new.said (Ok (Some item)))) }
        ensures none { IfOk result (λ found. IfNone found (self.new ≡ self.old)) }
        ensures err { OnErr result (self.new ≡ self.old) }
    {
        self.left.next_checked()
    }

    // Takes the next item of the frame in hand.
    fn take_item(&mut self) -> Result<Option<Item>, BlockError>
        ensures same { self.new ≡ record self.old { said = self.new.said } }
        ensures answers { AnswersItem self.old.said self.new.said result }
    {
        self.left.next()
    }

    // Takes the next frame in hand, or hands the piece over. `false` where there is neither.
    fn take_frame(&mut self) -> Result<bool, NoMemory>
        requires { self.old.said ≡ Ok [] }
        ensures { AnswersStep self.old self.new result }
    {
        match self.blobs.next() {
            Ok(Some(frame)) => {
                self.pass(frame);
                Ok(true)
            }
            Ok(None) => self.hand_over(),
            Err(BlobError::Bad(cause)) => {
                self.refuse(cause);
                Ok(true)
            }
            Err(BlobError::Memory) => Err(NoMemory),
        }
    }

    // Hands the piece over to be cut into frames. `false` where it is empty.
    fn hand_over(&mut self) -> Result<bool, NoMemory>
        ensures ok { OnOk result (self.new ≡ pbf_handed self.old) }
        ensures none { result ≡ Ok false → self.old.piece ≡ [] }
        ensures some { result ≡ Ok true → 0 < length self.old.piece }
        ensures err { OnErr result (self.new ≡ self.old) }
        ensures fine { self.old.piece ≡ [] → IsOk result }
    {
        if self.piece.as_slice().len() == 0 {
            return Ok(false);
        }
        self.blobs.feed(self.piece.as_slice())?;
        self.piece.clear();
        Ok(true)
    }

    // Takes a frame in hand.
    fn pass(&mut self, frame: Frame)
        ensures { self.new ≡ pbf_passed frame self.old }
    {
        let came = self.came;
        if let What::Header = frame.what {
            self.came = true;
        }
        self.spot = Spot::Blob {
            number: frame.number,
            byte: frame.byte,
        };
        self.left.take(came, frame);
    }

    // Has the next frame in hand, which is bad. A block before any header is bad for that, whatever
    // its blob says.
    fn refuse(&mut self, cause: Cause)
        ensures { self.new ≡ pbf_refused cause self.old }
    {
        let cause = match self.blobs.blamed() {
            Some(What::Block) if !self.came => Cause::NoHeader,
            _ => cause,
        };
        let (number, byte) = self.blobs.at();
        self.spot = Spot::Blob { number, byte };
        self.left.refuse(cause);
    }

    // Ends the reading at the frame in hand, which is bad.
    fn blame(&mut self, cause: Cause)
        ensures { self.new ≡ record self.old { verdict = Input cause self.old.spot } }
    {
        let spot = self.spot;
        self.verdict = Verdict::Input { cause, spot };
    }

    // Reaches the verdict of a reader that holds no further item.
    fn settle(&mut self)
        requires { HoldsNoItem self.old }
        ensures { self.new ≡ record self.old {
          verdict = pbf_verdict_left self.old.feed (pbf_ending_left self.old);
        } }
    {
        self.verdict = match self.feed {
            Feed::Ended => self.last_verdict(),
            feed => feed.verdict(),
        };
    }

    // The verdict at the end of the source.
    fn last_verdict(&self) -> Verdict
        requires { HoldsNoItem self.now }
        ensures { result ≡ pbf_verdict_left Ended (pbf_ending_left self.now) }
    {
        let (number, byte) = self.blobs.at();
        let spot = Spot::Blob { number, byte };
        match self.blobs.finish() {
            Some(cause) => Verdict::Input { cause, spot },
            None if self.came => Verdict::Clean,
            None => Verdict::Input {
                cause: Cause::NoHeader,
                spot,
            },
        }
    }
}

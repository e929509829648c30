//! Cuts the bytes of a file into frames, however they come.
//!
//! The buffer holds what was fed and not given yet. What was given stays at its beginning until more is
//! fed; then the rest moves there. No room is made for bytes that didn't come.
ghost use Rattle.std.specs.Prelude.{◌≡◌, ◌≤◌, ◌<◌, ◌+◌, ◌-◌, ◌^◌, ◌++◌, [], List, ℕ, length, drop, vec_len, IfOk, OnOk, OnErr};
ghost use Rattle.osm_blob.specs.Blobs.{AnswersNext, IsBlobs, StandsAfterNext, StandsForFrames, blobs_fed, blobs_passed, end_fault, no_blobs};
ghost use Rattle.osm_blob.specs.Leading.{Short, leading_frame};
ghost use Rattle.osm_blob.specs.LeadingSeen.{first_frame_seen};
ghost use Rattle.osm_blob.specs.declared.reading.Frame.{Frame};

use crate::framing::{FirstFrame, first_frame};
use crate::messages::What;
use osm_entity::{Bytes, Cause, NoMemory};
use std::alloc::Global;
use std::marker::Model;

/// A whole and good frame.
#[derive(Debug, Drop)]
pub struct Frame {
    /// Frames are counted from 0.
    pub number: u64,
    /// How many bytes of the file stand before the frame.
    pub byte: u64,
    /// What its blob holds.
    pub what: What,
    /// The raw content of its blob; empty where the blob holds something else, and wasn't read.
    pub raw: Bytes,
}

/// Why a reader of blobs gives no answer on the next frame.
#[derive(Clone, Copy, Debug, PartialEq, Eq)]
pub enum BlobError {
    /// The next frame is bad: HeaderTooLong, BlobTooLong, Compressed or BadWire.
    Bad(Cause),
    /// Out of memory.
    Memory,
}

impl From<NoMemory> for BlobError {
    ghost use Rattle.osm_blob.specs.declared.reading.BlobError.TheVariants.{Memory};

    ghost from_gives = { λ _ e. e ≡ Memory };

    fn from(_error: NoMemory) -> BlobError {
        BlobError::Memory
    }
}

/// Cuts the bytes of a file into frames. Where `feed` is called only after `next` answered `None`,
/// it holds the piece that was fed last, and fewer than 33,620,995 bytes before it, whatever
/// lengths the file says.
#[derive(Drop)]
pub struct BlobReader {
    alloc: Global,
    /// What was fed, without frames that were given before the last `feed`.
    buffer: Vec<u8>,
    /// The part of the buffer that wasn't given yet begins here.
    start: usize,
    /// The number of the next frame.
    number: u64,
    /// How many bytes of the file stand before the next frame.
    byte: u64,
    blamed: Option<What>,
}

impl Model for BlobReader {
    ghost use Rattle.osm_blob.specs.Blobs.{BlobsValue};

    ghost Value = { BlobsValue };

    ghost use Rattle.osm_blob.specs.BlobsSeen.{IsStarted, blobs_seen};

    ghost view = { blobs_seen };

    ghost invariant = { IsStarted };
}

// Takes the first `count` bytes out of a buffer.
fn remove_first(buffer: &mut Vec<u8>, count: usize)
    requires { count ≤ vec_len buffer.old }
    ensures items { buffer.new.items ≡ drop count buffer.old.items }
    ensures len { vec_len buffer.new ≡ vec_len buffer.old - count }
{
    let len = buffer.len();
    buffer.as_mut_slice().copy_within(count..len, 0);
    buffer.truncate(len - count);
}

impl BlobReader {
    /// A reader that was fed nothing. It takes no memory.
    pub fn new(alloc: Global) -> Result<BlobReader, NoMemory>
        ensures new { IfOk result (λ b. b ≡ no_blobs) }
        ensures stands { IfOk result (λ b. StandsForFrames b [] []) }
    {
        Ok(BlobReader {
            alloc,
            buffer: Vec::new(alloc),
            start: 0,
            number: 0,
            byte: 0,
            blamed: None,
        })
    }

    /// What every reader keeps.
    pub fn kept(&self)
        ensures { IsBlobs self.now }
    {
        let _start = &self.start;
    }

    /// Adds bytes of the file at the back. The file up to them has fewer than 2^64 bytes. At `Err`
    /// nothing was added.
    pub fn feed(&mut self, bytes: &[u8]) -> Result<(), NoMemory>
        requires { self.old.next.byte + length self.old.unread + length bytes.now < 2 ^ 64 }
        ensures ok { OnOk result (self.new ≡ blobs_fed bytes.now self.old) }
        ensures err { OnErr result (self.new ≡ self.old) }
        ensures stands { OnOk result ((all : List ℕ) (frames : List Frame) →
            StandsForFrames self.old all frames →
            StandsForFrames self.new (all ++ bytes.now) frames) }
    {
        self.move_to_start();
        self.append(bytes)
    }

    // Moves what wasn't given to the beginning of the buffer.
    fn move_to_start(&mut self)
        ensures { self.new ≡ self.old }
    {
        if self.start != 0 {
            let start = self.start;
            remove_first(&mut self.buffer, start);
            self.start = 0;
        }
    }

    // Adds bytes at the back of the buffer.
    fn append(&mut self, bytes: &[u8]) -> Result<(), NoMemory>
        requires { self.old.next.byte + length self.old.unread + length bytes.now < 2 ^ 64 }
        ensures ok { OnOk result (self.new ≡ blobs_fed bytes.now self.old) }
        ensures err { OnErr result (self.new ≡ self.old) }
    {
        match self.buffer.extend_from_slice(bytes) {
            Ok(()) => Ok(()),
            Err(_) => Err(NoMemory),
        }
    }

    /// The next frame. `None` exactly where the bytes that were fed hold no further whole frame,
    /// and no bad one. After `Bad` it answers the same again, whatever is fed yet; at `Memory` the
    /// reader is as it was, and the call may be made again.
    pub fn next(&mut self) -> Result<Option<Frame>, BlobError>
        ensures answers { AnswersNext self.old self.new result }
        ensures stands { (bytes : List ℕ) (frames : List Frame) →
            StandsForFrames self.old bytes frames →
            StandsAfterNext self.new result bytes frames }
    {
        match self.leading() {
            FirstFrame::Short => {
                self.blame(None);
                Ok(None)
            }
            FirstFrame::Faulty { cause, blamed } => {
                self.blame(blamed);
                Err(BlobError::Bad(cause))
            }
            FirstFrame::Whole { what, raw, size } => {
                let raw = Bytes::from_slice(self.alloc, raw)?;
                let (number, byte) = self.at();
                self.pass(size);
                Ok(Some(Frame {
                    number,
                    byte,
                    what,
                    raw,
                }))
            }
        }
    }

    // What the bytes that weren't given begin with.
    fn leading(&self) -> FirstFrame<'_>
        ensures leading { first_frame_seen result ≡ leading_frame self.now.unread }
        ensures kept { IsBlobs self.now }
    {
        first_frame(&self.buffer[self.start..])
    }

    // Blames the frame that holds this for what its blob says, or no frame.
    fn blame(&mut self, blamed: Option<What>)
        ensures { self.new ≡ record self.old { blamed = blamed } }
    {
        self.blamed = blamed;
    }

    // Passes over a frame of `size` bytes.
    fn pass(&mut self, size: usize)
        requires some { 4 ≤ size }
        requires fits { size ≤ length self.old.unread }
        ensures { self.new ≡ blobs_passed size self.old }
    {
        self.start += size;
        self.number += 1;
        self.byte += size as u64;
        self.blamed = None;
    }

    /// What is wrong with a file that ends here: ShortFile exactly where bytes of an unfinished
    /// frame are left. It may be asked where `next` answered `None`, and nothing was fed since.
    pub fn finish(&self) -> Option<Cause>
        requires { leading_frame self.now.unread ≡ Short }
        ensures { result ≡ end_fault self.now.unread }
    {
        if self.start == self.buffer.len() {
            None
        } else {
            Some(Cause::ShortFile)
        }
    }

    /// The number of the next frame, and how many bytes of the file stand before it.
    pub fn at(&self) -> (u64, u64)
        ensures { result ≡ (self.now.next.number, self.now.next.byte) }
    {
        (self.number, self.byte)
    }

    /// What the frame holds that the last `next` refused for what its blob says. `None` exactly
    /// where the last `next` answered otherwise, or refused a frame before it looked at the blob.
    pub fn blamed(&self) -> Option<What>
        ensures { result ≡ self.now.blamed }
    {
        self.blamed
    }
}

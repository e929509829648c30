//! Verdicts of tasks: what went wrong, and where.
ghost use Rattle.std.specs.Prelude.{◌≡◌};
ghost use Rattle.osm_entity.specs.Meaning.{finish_after};
ghost use Rattle.osm_entity.specs.Tasks.{verdict_as};

use crate::stream::End;

/// What is wrong with an input.
#[derive(Clone, Copy, Debug, PartialEq, Eq)]
pub enum Cause {
    /// A text that is not UTF-8.
    BadText,
    /// A field that the format doesn't have there, or content that it doesn't allow.
    BadField,
    /// A field whose letter came before.
    TwiceField,
    /// A number that is none, or that its field can't hold.
    BadNumber,
    /// A `%` that begins no escape.
    BadEscape,
    /// A time that doesn't exist or can't be held.
    BadTime,
    /// A place past 180 or 90 degrees.
    BadCoordinate,
    /// A node without a place.
    NoPlace,
    /// A deleted entity where none may be.
    Deleted,
    /// An entity past the greatest weight, 2,097,152.
    TooHeavy,
    /// A line of more than 16,777,216 bytes.
    LineTooLong,
    /// A file that stops within a frame.
    ShortFile,
    /// A blob header of 65,536 bytes or more.
    HeaderTooLong,
    /// A blob past its limit.
    BlobTooLong,
    /// A blob that is compressed.
    Compressed,
    /// A message that isn't well formed.
    BadWire,
    /// Data without a header before it.
    NoHeader,
    /// A required feature that isn't known.
    BadFeature,
    /// An index past its table.
    BadIndex,
    /// Lists of one entity or block that differ in length.
    BadLengths,
    /// An item that stands out of order.
    Unordered,
    /// A polygon file that isn't well formed.
    BadPoly,
}

/// Where an input is wrong.
#[derive(Clone, Copy, Debug, PartialEq, Eq)]
pub enum Spot {
    /// A line of a text, counted from 1.
    Line(u64),
    /// A blob, counted from 0, and the place in its file of its first byte.
    Blob { number: u64, byte: u64 },
    /// An item that came in at a port, counted from 1; ports are counted from 0.
    Item { port: u32, number: u64 },
}

/// How it stands with a task.
#[derive(Clone, Copy, Debug, PartialEq, Eq)]
pub enum Verdict {
    /// It hasn't ended.
    Running,
    /// It ended, and all its inputs were whole.
    Clean,
    /// It ended, and an input of it was broken by an earlier task.
    Passed,
    /// It ended, and its own input is wrong.
    Input { cause: Cause, spot: Spot },
    /// Its source gave more bytes than its limit.
    TooLong,
    /// Its source failed.
    Read,
    /// Its sink failed.
    Write,
    /// It is out of memory.
    Memory,
}

impl Verdict {
    /// How a task ended that did its work, and whose output ended so: its own fault is none.
    pub fn after(end: End) -> Verdict
        ensures { result ≡ verdict_as 0 0 (finish_after end) }
    {
        match end {
            End::Done => Verdict::Clean,
            End::Broken => Verdict::Passed,
        }
    }
}

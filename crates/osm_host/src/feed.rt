//! How it stands with the source of a reader, in any format.
ghost use Rattle.std.specs.Prelude.{◌≡◌};
ghost use Rattle.osm_host.specs.Feeds.{feed_after, reached_end, verdict_after};

use osm_entity::Verdict;

/// How many bytes a reader asks of its source in one pull.
pub const PIECE_SIZE: usize = 65_536;

/// How it stands with the source of a reader.
#[derive(Clone, Copy, Debug, PartialEq, Eq)]
pub enum Feed {
    /// More may come.
    Open,
    /// It gave no byte: all its bytes came.
    Ended,
    /// Its pull failed.
    Failed,
    /// It gave more bytes than the limit.
    TooLong,
}

impl Feed {
    /// How it stands with a source that gave `count` bytes, where there was room for `room`.
    pub fn after(count: usize, room: u64) -> Feed
        ensures { result ≡ feed_after count room }
    {
        if count == 0 {
            Feed::Ended
        } else if count as u64 > room {
            Feed::TooLong
        } else {
            Feed::Open
        }
    }

    /// Whether the end of the source came.
    pub fn reached_end(self) -> bool
        ensures { result ≡ reached_end self }
    {
        matches!(self, Feed::Ended)
    }

    /// The verdict of a reader with nothing left to read, none of which was wrong.
    pub fn verdict(self) -> Verdict
        ensures { result ≡ verdict_after self }
    {
        match self {
            Feed::Open => Verdict::Running,
            Feed::Ended => Verdict::Clean,
            Feed::Failed => Verdict::Read,
            Feed::TooLong => Verdict::TooLong,
        }
    }
}

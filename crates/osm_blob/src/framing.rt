//! The frame at the beginning of some bytes, after the OSM PBF page.
//!
//! A frame is four bytes, the big-endian length of its blob header; the blob header, which says
//! what its blob holds and how many bytes it has; and the blob. Each fault is told as soon as the
//! bytes that show it are there, and a length is believed only as far as its bytes came.
ghost use Rattle.std.specs.Prelude.{◌≡◌, ◌≤◌, Some, length};
ghost use Rattle.osm_blob.specs.Leading.{frame_by_header, frame_by_what, leading_frame};
ghost use Rattle.osm_blob.specs.LeadingSeen.{first_frame_seen};
ghost use Rattle.osm_blob.specs.Messages.{blob_size};

use crate::messages::{BlobHeader, What, read_blob, read_header};
use osm_entity::Cause;

/// A blob header has fewer bytes than this.
const HEADER_LIMIT: usize = 65_536;

/// The most bytes of a blob.
const LARGEST_BLOB: i32 = 33_555_456;

/// What some bytes begin with.
#[derive(Clone, Copy)]
pub(crate) enum FirstFrame<'a> {
    /// They are too few to tell.
    Short,
    /// A whole and good frame of `size` bytes, and the raw content of its blob; none where the blob
    /// holds something else.
    Whole {
        what: What,
        raw: &'a [u8],
        size: usize,
    },
    /// A bad frame. What its blob holds is told where it is bad for what the blob says.
    Faulty {
        cause: Cause,
        blamed: Option<What>,
    },
}

/// The frame at the beginning of some bytes.
pub(crate) fn first_frame(bytes: &[u8]) -> FirstFrame<'_>
    ensures { first_frame_seen result ≡ leading_frame bytes.now }
{
    if bytes.len() < 4 {
        return FirstFrame::Short;
    }
    let length = u32::from_be_bytes([bytes[0], bytes[1], bytes[2], bytes[3]]) as usize;
    if length >= HEADER_LIMIT {
        return faulty(Cause::HeaderTooLong);
    }
    let start = 4 + length;
    if bytes.len() < start {
        return FirstFrame::Short;
    }
    match read_header(&bytes[4..start]) {
        Some(header) => framed(bytes, start, header),
        None => faulty(Cause::BadWire),
    }
}

// A frame that is bad before its blob is looked at.
fn faulty<'a>(cause: Cause) -> FirstFrame<'a>
    ensures { first_frame_seen result ≡ first_frame_seen (FirstFrame.Faulty cause None) }
{
    FirstFrame::Faulty {
        cause,
        blamed: None,
    }
}

// A frame whose blob header ends before `start`.
fn framed<'a>(bytes: &'a [u8], start: usize, header: BlobHeader) -> FirstFrame<'a>
    requires { start ≤ length bytes.now }
    ensures { first_frame_seen result ≡ frame_by_header bytes.now start (Some header) }
{
    match size_of(header) {
        Some(size) => {
            if bytes.len() - start < size {
                return FirstFrame::Short;
            }
            contained(header.what, &bytes[start..start + size], start + size)
        }
        None => faulty(Cause::BlobTooLong),
    }
}

// The size that a blob header says, where a blob may have it.
fn size_of(header: BlobHeader) -> Option<usize>
    ensures { result ≡ blob_size header.size }
{
    if header.size < 0 || header.size > LARGEST_BLOB {
        None
    } else {
        Some(header.size as usize)
    }
}

// A whole frame of `size` bytes with this blob.
fn contained<'a>(what: What, blob: &'a [u8], size: usize) -> FirstFrame<'a>
    ensures { first_frame_seen result ≡ frame_by_what what size blob.now }
{
    match what {
        What::Header | What::Block => match read_blob(blob) {
            Ok(raw) => FirstFrame::Whole { what, raw, size },
            Err(cause) => FirstFrame::Faulty {
                cause,
                blamed: Some(what),
            },
        },
        What::Other => FirstFrame::Whole {
            what,
            raw: &[],
            size,
        },
    }
}

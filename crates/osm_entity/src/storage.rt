//! Where a text has its bytes: in the text itself while they are few, else in a block of memory.
//!
//! Keys, values, roles and user names are nearly always short, and to take and give back a block
//! costs more than all else that is done with them.
ghost use Rattle.std.specs.Prelude.{◌≡◌, ◌≤◌, [], length, take, IfOk, IfSome};
ghost use Rattle.osm_entity.specs.Storage.{text_room, stored_bytes, FitsRoom};

use crate::sequence::NoMemory;
use std::alloc::Global;

/// How many bytes fit into a text: with their number and the tag of the variant they fill three
/// words, as much as a `String` takes.
const ROOM: usize = 22;

/// The bytes of a text.
#[derive(Drop)]
pub(crate) enum Storage {
    /// The first `len` of these.
    Short { len: u8, bytes: [u8; ROOM] },
    /// In a box, since a `Vec` alone is three words, and the tag would make a fourth.
    Long(Box<Vec<u8>>),
}

impl Storage {
    /// No bytes.
    pub(crate) fn empty() -> Self
        ensures value { stored_bytes result ≡ [] }
        ensures fits { FitsRoom result }
    {
        Storage::Short {
            len: 0,
            bytes: [0; ROOM],
        }
    }

    /// A copy of these bytes. Up to 22 take no memory.
    pub(crate) fn from_slice(alloc: Global, bytes: &[u8]) -> Result<Self, NoMemory>
        ensures value { IfOk result (λ s. stored_bytes s ≡ bytes.now) }
        ensures fits { IfOk result FitsRoom }
    {
        if bytes.len() <= ROOM {
            Ok(Storage::short(bytes))
        } else {
            Storage::long(alloc, bytes)
        }
    }

    /// A copy of the first `len` of these bytes. Up to 22 take no memory.
    ///
    /// Where at least 22 bytes are there all of them are copied, also those past `len`: to copy a
    /// fixed number takes no call, and the processor doesn't wait for its own stores.
    pub(crate) fn from_start(alloc: Global, bytes: &[u8], len: usize) -> Result<Self, NoMemory>
        requires { len ≤ length bytes.now }
        ensures value { IfOk result (λ s. stored_bytes s ≡ take len bytes.now) }
        ensures fits { IfOk result FitsRoom }
    {
        if len > ROOM {
            return Storage::long(alloc, &bytes[..len]);
        }
        match bytes.first_chunk::<ROOM>() {
            Some(room) => Ok(Storage::first_of(room, len)),
            None => Ok(Storage::short(&bytes[..len])),
        }
    }

    fn first_of(room: &[u8; ROOM], len: usize) -> Self
        requires { len ≤ text_room }
        ensures value { stored_bytes result ≡ take len room.now }
        ensures fits { FitsRoom result }
    {
        Storage::Short {
            len: len as u8,
            bytes: *room,
        }
    }

    fn short(bytes: &[u8]) -> Self
        requires { length bytes.now ≤ text_room }
        ensures value { stored_bytes result ≡ bytes.now }
        ensures fits { FitsRoom result }
    {
        let mut room = [0; ROOM];
        room[..bytes.len()].copy_from_slice(bytes);
        Storage::Short {
            len: bytes.len() as u8,
            bytes: room,
        }
    }

    fn long(alloc: Global, bytes: &[u8]) -> Result<Self, NoMemory>
        ensures value { IfOk result (λ s. stored_bytes s ≡ bytes.now) }
        ensures fits { IfOk result FitsRoom }
    {
        let Ok(bytes) = Vec::from_slice(alloc, bytes) else {
            return Err(NoMemory);
        };
        match Box::new(alloc, bytes) {
            Ok(bytes) => Ok(Storage::Long(bytes)),
            Err(_) => Err(NoMemory),
        }
    }

    /// The bytes.
    pub(crate) fn as_slice(&self) -> &[u8]
        requires { FitsRoom self.now }
        ensures { result.now ≡ stored_bytes self.now }
    {
        match self {
            Storage::Short { len, bytes } => &bytes[..*len as usize],
            Storage::Long(bytes) => bytes.as_slice(),
        }
    }

    /// Storage with the same bytes, where they are few. `None` where they take memory.
    #[inline(always)]
    pub(crate) fn copy_short(&self) -> Option<Self>
        requires { FitsRoom self.now }
        ensures value { IfSome result (λ s. stored_bytes s ≡ stored_bytes self.now) }
        ensures fits { IfSome result FitsRoom }
    {
        match self {
            Storage::Short { len, bytes } => Some(Storage::Short {
                len: *len,
                bytes: *bytes,
            }),
            Storage::Long(_) => None,
        }
    }

    /// Storage with the same bytes.
    pub(crate) fn copy(&self, alloc: Global) -> Result<Self, NoMemory>
        requires { FitsRoom self.now }
        ensures value { IfOk result (λ s. stored_bytes s ≡ stored_bytes self.now) }
        ensures fits { IfOk result FitsRoom }
    {
        match self.copy_short() {
            Some(short) => Ok(short),
            None => Storage::long(alloc, self.as_slice()),
        }
    }
}

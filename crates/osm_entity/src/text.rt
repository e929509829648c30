//! Text: UTF-8 bytes, as file names, keys, values, roles and users have them.
ghost use Rattle.std.specs.Prelude.{◌≡◌, ◌≤◌, ◌↔◌, [], length, take, IfOk, IfSome, OnOk, IsErrOf, IsTrue};
ghost use Rattle.std.specs.Str.{IsUtf8};
ghost use Rattle.osm_entity.specs.declared.text.TextError.TheVariants.{BadText};

use crate::sequence::NoMemory;
use crate::storage::Storage;
use std::alloc::Global;
use std::fmt;
use std::marker::Model;
use thiserror::Error;

/// Why bytes became no text.
#[derive(Clone, Copy, Debug, PartialEq, Eq, Error)]
pub enum TextError {
    /// The bytes are not UTF-8.
    #[error("bad text")]
    BadText,
    /// Out of memory.
    #[error("out of memory")]
    Memory,
}

/// A text. Contracts see it as the list of its UTF-8 bytes. Up to 22 of them are held in the text
/// itself; more take memory.
#[derive(Drop)]
pub struct Text {
    storage: Storage,
}

impl Model for Text {
    ghost use Rattle.std.specs.Prelude.{List, ℕ};
    ghost use Rattle.osm_entity.specs.Storage.{stored_bytes, IsStoredText};

    ghost Value = { List ℕ };

    ghost view = { λ t. stored_bytes t.storage };

    ghost invariant = { λ t. IsStoredText t.storage };
}

impl Text {
    /// The empty text. It takes no memory.
    pub fn new(_: Global) -> Self
        ensures { result ≡ [] }
    {
        Text {
            storage: Storage::empty(),
        }
    }

    /// The text of these bytes. `BadText` exactly where they are not UTF-8, else only `Memory`.
    pub fn from_bytes(alloc: Global, bytes: &[u8]) -> Result<Self, TextError>
        ensures value { IfOk result (λ t. t ≡ bytes.now) }
        ensures utf8 { OnOk result (IsUtf8 bytes.now) }
        ensures refused { IsErrOf result TextError.BadText → (IsUtf8 bytes.now → ⊥) }
    {
        match std::str::from_utf8(bytes) {
            Ok(text) => match Storage::from_slice(alloc, text.as_bytes()) {
                Ok(storage) => Ok(Text { storage }),
                Err(_) => Err(TextError::Memory),
            },
            Err(_) => Err(TextError::BadText),
        }
    }

    /// The text of these bytes, which are known to be UTF-8: they are not looked at again.
    pub fn from_utf8(alloc: Global, bytes: &[u8]) -> Result<Self, NoMemory>
        requires { IsUtf8 bytes.now }
        ensures { IfOk result (λ t. t ≡ bytes.now) }
    {
        let storage = Storage::from_slice(alloc, bytes)?;
        Ok(Text { storage })
    }

    /// The text of the first `len` of these bytes, which are known to be UTF-8: they are not looked
    /// at again. Made so it takes less time where at least 22 bytes are there.
    pub fn from_start(alloc: Global, bytes: &[u8], len: usize) -> Result<Self, NoMemory>
        requires within { len ≤ length bytes.now }
        requires utf8 { IsUtf8 (take len bytes.now) }
        ensures { IfOk result (λ t. t ≡ take len bytes.now) }
    {
        let storage = Storage::from_start(alloc, bytes, len)?;
        Ok(Text { storage })
    }

    /// Its bytes.
    pub fn as_slice(&self) -> &[u8]
        ensures value { result.now ≡ self.now }
        ensures utf8 { IsUtf8 self.now }
    {
        self.storage.as_slice()
    }

    /// An equal text.
    pub fn copy(&self, alloc: Global) -> Result<Self, NoMemory>
        ensures { IfOk result (λ t. t ≡ self.now) }
    {
        let storage = self.storage.copy(alloc)?;
        Ok(Text { storage })
    }

    /// An equal text, where it takes no memory: up to 22 bytes do. `None` where it takes some.
    #[inline(always)]
    pub fn copy_short(&self) -> Option<Self>
        ensures { IfSome result (λ t. t ≡ self.now) }
    {
        let storage = self.storage.copy_short()?;
        Some(Text { storage })
    }

    /// Whether the two have the same bytes.
    pub fn is(&self, other: &Text) -> bool
        ensures { IsTrue result ↔ (self.now ≡ other.now) }
    {
        self.as_slice() == other.as_slice()
    }
}

/// Shows the text between quotes.
impl fmt::Debug for Text {
    fn fmt<W: fmt::Write>(&self, f: &mut fmt::Formatter<W>) -> fmt::Result {
        match std::str::from_utf8(self.as_slice()) {
            Ok(text) => fmt::Debug::fmt(text, f),
            Err(_) => Ok(()),
        }
    }
}

//! The metadata of an entity that has a message of its own, read field by field.
ghost use Rattle.std.specs.Prelude.{◌≡◌, ◌∷◌, [], List, None, Some, IfNone, IfSome};
ghost use Rattle.osm_wire.specs.Entries.{scalar};
ghost use Rattle.osm_wire.specs.Messages.{FieldValue};
ghost use Rattle.osm_wire.specs.Seen.{field_seen};
ghost use Rattle.osm_block_read.specs.InfoCodes.{info_behind, no_codes};

use crate::entry::EntryInfo;
use osm_wire::{Field, int32, int64, uint32};

/// What the fields of metadata say so far, as codes.
#[derive(Clone, Copy, Debug)]
pub(crate) struct InfoCodes {
    version: u64,
    timestamp: u64,
    changeset: u64,
    uid: u64,
    user: u64,
    visible: u64,
}

impl InfoCodes {
    /// The codes of metadata none of whose fields is given.
    pub(crate) fn new() -> InfoCodes
        ensures { result ≡ no_codes }
    {
        InfoCodes {
            version: u32::MAX as u64,
            timestamp: 0,
            changeset: 0,
            uid: 0,
            user: 0,
            visible: 1,
        }
    }

    /// The codes after one more field. `None` where it should be a number and is none.
    #[inline(always)]
    pub(crate) fn after(self, field: &Field<'_>) -> Option<InfoCodes>
        ensures some { IfSome result (λ codes. (fields : List FieldValue) →
            info_behind self (field_seen field.now ∷ fields) ≡ info_behind codes fields) }
        ensures none { IfNone result ((fields : List FieldValue) →
            info_behind self (field_seen field.now ∷ fields) ≡ None) }
    {
        let version = code_after(self.version, 1, field)?;
        let timestamp = code_after(self.timestamp, 2, field)?;
        let changeset = code_after(self.changeset, 3, field)?;
        let uid = code_after(self.uid, 4, field)?;
        let user = code_after(self.user, 5, field)?;
        let visible = code_after(self.visible, 6, field)?;
        Some(InfoCodes {
            version,
            timestamp,
            changeset,
            uid,
            user,
            visible,
        })
    }

    /// The metadata.
    pub(crate) fn info(self) -> EntryInfo
        ensures { info_behind self [] ≡ Some result }
    {
        EntryInfo {
            version: int32(self.version),
            timestamp: int64(self.timestamp),
            changeset: int64(self.changeset),
            uid: int32(self.uid),
            user: uint32(self.user) as i64,
            visible: self.visible != 0,
        }
    }
}

// The code of the field of a number after one more field. `None` where that is of the number and
// holds none.
#[inline(always)]
fn code_after(code: u64, number: u32, field: &Field<'_>) -> Option<u64>
    ensures some { IfSome result (λ n. (fields : List FieldValue) →
        scalar code number (field_seen field.now ∷ fields) ≡ scalar n number fields) }
    ensures none { IfNone result ((fields : List FieldValue) →
        scalar code number (field_seen field.now ∷ fields) ≡ None) }
{
    if field.number != number {
        return Some(code);
    }
    match field.value.number() {
        Ok(given) => Some(given),
        Err(_) => None,
    }
}

//! The message of a way, read field by field.
ghost use Rattle.std.specs.Prelude.{◌≡◌, ◌∷◌, List, None, Some, IfErr, IfNone, IfOk, IfSome, OnOk};
ghost use Rattle.std.specs.Option.{option_map};
ghost use Rattle.osm_wire.specs.Entries.{number_given, repeated};
ghost use Rattle.osm_wire.specs.Messages.{FieldValue};
ghost use Rattle.osm_wire.specs.Seen.{field_seen};
ghost use Rattle.osm_block_read.specs.Told.{BadWireWhere, behind};
ghost use Rattle.osm_block_read.specs.WayCodes.{single_behind, way_behind, way_said};

use crate::codes::{Codes, take_codes};
use crate::error::{BAD_WIRE, BlockError};
use osm_wire::{Field, Fields};

/// What the message of a way says beside its lists.
#[derive(Clone, Copy, Debug)]
pub(crate) struct WayRead<'a> {
    /// The code of its id.
    pub id: u64,
    /// Its message of metadata, where it has one.
    pub described: Option<&'a [u8]>,
}

impl Codes {
    /// Reads the message of a way. The codes of its refs, keys and values take the place of what
    /// `ids`, `keys` and `values` held.
    pub(crate) fn read_way<'a>(&mut self, message: &'a [u8]) -> Result<WayRead<'a>, BlockError>
        ensures ok { IfOk result (λ way. way_said message.now ≡ Some (record {
          id = way.id;
          refs = self.new.ids.items;
          keys = self.new.keys.items;
          values = self.new.values.items;
          described = option_map (λ s. s.now) way.described;
        })) }
        ensures bad { IfErr result (BadWireWhere (way_said message.now ≡ None)) }
    {
        self.ids.clear();
        self.keys.clear();
        self.values.clear();
        let mut id = None;
        let mut described = None;
        let mut fields = Fields::new(message);
        while let Some(next) = fields.next() {
            match next {
                Ok(field) => (id, described) = self.take_field(id, described, &field)?,
                Err(_) => return Err(BAD_WIRE),
            }
        }
        match id {
            Some(id) => Ok(WayRead { id, described }),
            None => Err(BAD_WIRE),
        }
    }

    // Takes one more field of a way, before which these were its id and its message of metadata.
    #[inline(always)]
    fn take_field<'a>(
        &mut self,
        id: Option<u64>,
        described: Option<&'a [u8]>,
        field: &Field<'a>,
    ) -> Result<(Option<u64>, Option<&'a [u8]>), BlockError>
        ensures ok { IfOk result (λ now. (fields : List FieldValue) →
            way_behind id self.old.ids.items self.old.keys.items self.old.values.items
            (option_map (λ s. s.now) described.entry) (field_seen field.now ∷ fields)
            ≡ way_behind now.0 self.new.ids.items self.new.keys.items self.new.values.items
            (option_map (λ s. s.now) now.1) fields) }
        ensures bad { IfErr result (BadWireWhere ((fields : List FieldValue) →
            way_behind id self.old.ids.items self.old.keys.items self.old.values.items
            (option_map (λ s. s.now) described.entry) (field_seen field.now ∷ fields) ≡ None)) }
    {
        let id = number_after(id, 1, field).ok_or(BAD_WIRE)?;
        let described = bytes_after(described, 4, field).ok_or(BAD_WIRE)?;
        codes_after(&mut self.keys, 2, field)?;
        codes_after(&mut self.values, 3, field)?;
        codes_after(&mut self.ids, 8, field)?;
        Ok((id, described))
    }
}

// The number of the last entry of a field after one more field. `None` where that is of the number
// and holds none.
#[inline(always)]
fn number_after(given: Option<u64>, number: u32, field: &Field<'_>) -> Option<Option<u64>>
    ensures some { IfSome result (λ now. (fields : List FieldValue) →
        number_given given number (field_seen field.now ∷ fields) ≡ number_given now number fields) }
    ensures none { IfNone result ((fields : List FieldValue) →
        number_given given number (field_seen field.now ∷ fields) ≡ None) }
{
    if field.number != number {
        return Some(given);
    }
    match field.value.number() {
        Ok(code) => Some(Some(code)),
        Err(_) => None,
    }
}

// The bytes of the one entry of a field after one more field. `None` where that is a second, or one
// that isn't bytes.
#[inline(always)]
fn bytes_after<'a>(
    given: Option<&'a [u8]>,
    number: u32,
    field: &Field<'a>,
) -> Option<Option<&'a [u8]>>
    ensures some { IfSome result (λ now. (fields : List FieldValue) →
        single_behind (option_map (λ s. s.now) given.entry) number (field_seen field.now ∷ fields)
        ≡ single_behind (option_map (λ s. s.now) now) number fields) }
    ensures none { IfNone result ((fields : List FieldValue) →
        single_behind (option_map (λ s. s.now) given.entry) number (field_seen field.now ∷ fields)
        ≡ None) }
{
    if field.number != number {
        return Some(given);
    }
    match given {
        Some(_) => None,
        None => match field.value.bytes() {
            Ok(bytes) => Some(Some(bytes)),
            Err(_) => None,
        },
    }
}

// Adds the numbers of one more field, where it is of the number.
#[inline(always)]
fn codes_after(codes: &mut Vec<u64>, number: u32, field: &Field<'_>) -> Result<(), BlockError>
    ensures ok { OnOk result ((fields : List FieldValue) →
        behind codes.old.items (repeated number (field_seen field.now ∷ fields))
        ≡ behind codes.new.items (repeated number fields)) }
    ensures bad { IfErr result (BadWireWhere ((fields : List FieldValue) →
        repeated number (field_seen field.now ∷ fields) ≡ None)) }
{
    if field.number != number {
        return Ok(());
    }
    take_codes(codes, field.value)
}

//! The fields of a message, and what they hold as a number or as bytes.
ghost use Rattle.std.specs.Prelude.{◌≡◌, None, Some, IfErr, IfOk};
ghost use Rattle.osm_wire.specs.Entries.{as_bytes, as_number};
ghost use Rattle.osm_wire.specs.Seen.{payload_seen};
ghost use Rattle.osm_wire.specs.declared.error.WireError.TheVariants.{BadWire};

use crate::error::WireError;

/// What a field holds, by its wire type.
#[derive(Clone, Copy, Debug)]
pub enum Value<'a> {
    /// Wire type 0: a number.
    Varint(u64),
    /// Wire type 1: eight bytes.
    Fixed64(&'a [u8]),
    /// Wire type 2: bytes, a text, a message or packed numbers.
    Bytes(&'a [u8]),
    /// Wire type 5: four bytes.
    Fixed32(&'a [u8]),
}

/// A field: its number, from 1 to 2^29 - 1, and what it holds, as a slice of the message.
#[derive(Clone, Copy, Debug)]
pub struct Field<'a> {
    /// The number that says which field it is.
    pub number: u32,
    /// What it holds.
    pub value: Value<'a>,
}

impl<'a> Value<'a> {
    /// The number that it holds. `BadWire` where it has another wire type.
    #[inline(always)]
    pub fn number(self) -> Result<u64, WireError>
        ensures ok { IfOk result (λ n. as_number (payload_seen self.entry) ≡ Some n) }
        ensures err { IfErr result (λ e.
            (e ≡ BadWire) × (as_number (payload_seen self.entry) ≡ None)) }
    {
        match self {
            Value::Varint(number) => Ok(number),
            _ => Err(WireError::BadWire),
        }
    }

    /// The bytes that it holds. `BadWire` where it has another wire type.
    #[inline(always)]
    pub fn bytes(self) -> Result<&'a [u8], WireError>
        ensures ok { IfOk result (λ b. as_bytes (payload_seen self.entry) ≡ Some b.now) }
        ensures err { IfErr result (λ e.
            (e ≡ BadWire) × (as_bytes (payload_seen self.entry) ≡ None)) }
    {
        match self {
            Value::Bytes(content) => Ok(content),
            _ => Err(WireError::BadWire),
        }
    }
}

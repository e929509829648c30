//! Cuts a message into its fields, which are slices of it. A message is a sequence of fields, and a
//! field is a tag, which is its number times 8 plus its wire type, and then a payload.
ghost use Rattle.std.specs.Prelude.{◌≡◌, ◌≢◌, ◌<◌, ◌≤◌, ◌++◌, [], ℕ, List, take, IfErr, IfNone, IfOk, IfSome, length};
ghost use Rattle.osm_wire.specs.Pieces.{piece_before, refused_pieces};
ghost use Rattle.osm_wire.specs.Messages.{SpellsField, good_front, leading_field, leading_payload};
ghost use Rattle.osm_wire.specs.Seen.{field_cut, field_seen, payload_cut};
ghost use Rattle.osm_wire.specs.declared.error.WireError.TheVariants.{Short};

use crate::error::WireError;
use crate::field::{Field, Value};
use crate::varints::first_varint;
use std::marker::Model;

/// The fields of a message that are still to come. Contracts see the bytes that they stand in.
#[derive(Debug, Drop)]
pub struct Fields<'a> {
    rest: &'a [u8],
}

impl<'a> Model for Fields<'a> {
    ghost use Rattle.std.specs.Prelude.{ℕ, List};

    ghost Value = { List ℕ };

    ghost view = { λ f. f.rest.now };
}

impl<'a> Fields<'a> {
    /// The fields of a message.
    pub fn new(message: &'a [u8]) -> Fields<'a>
        ensures { result ≡ message.now }
    {
        Fields { rest: message }
    }

    /// The bytes that come after the field that `next` gave last.
    pub fn rest(&self) -> &'a [u8]
        ensures { result.now ≡ self.now }
    {
        self.rest
    }

    /// The next field. `None` at the end of the message, and after an error. `Short` where the
    /// message ends within a field, `Overlong` where one of its varints is too long, `BadWire` where
    /// its number is 0, its tag has more than 32 bits or its wire type is 6 or 7, and `Group` where
    /// that is 3 or 4.
    #[inline(always)]
    pub fn next(&mut self) -> Option<Result<Field<'a>, WireError>>
        ensures field { IfSome result (λ r. IfOk r (λ f.
            good_front self.old ≡ piece_before (field_seen f) (good_front self.new))) }
        ensures range { IfSome result (λ r. IfOk r (λ f.
            (bytes : List ℕ) × (self.old ≡ bytes ++ self.new) × SpellsField bytes (field_seen f))) }
        ensures error { IfSome result (λ r. IfErr r (λ e.
            (good_front self.old ≡ refused_pieces e) × (self.new ≡ []))) }
        ensures end { IfNone result ((self.old ≡ []) × (self.new ≡ [])) }
        ensures shorter { IfSome result (λ _. length self.new < length self.old) }
    {
        if self.rest.is_empty() {
            return None;
        }
        match first_field(self.rest) {
            Ok((field, size)) => {
                self.rest = &self.rest[size..];
                Some(Ok(field))
            }
            Err(error) => {
                self.rest = &[];
                Some(Err(error))
            }
        }
    }
}

// The field at the beginning, and how many bytes it takes.
#[tactic(auto, unfolding(crate::specs::Messages::leading_field))]
#[inline(always)]
fn first_field(bytes: &[u8]) -> Result<(Field<'_>, usize), WireError>
    ensures value { field_cut result ≡ leading_field bytes.now }
    ensures within { IfOk result (λ p. (0 < p.1) × (p.1 ≤ length bytes.now)) }
{
    let (tag, size) = first_varint(bytes)?;
    if tag < 8 || tag >= 1 << 32 || tag % 8 >= 6 {
        return Err(WireError::BadWire);
    }
    let kind = tag % 8;
    if kind == 3 || kind == 4 {
        return Err(WireError::Group);
    }
    let (value, more) = first_payload(kind, &bytes[size..])?;
    let number = (tag / 8) as u32;
    Ok((Field { number, value }, size + more))
}

// The payload of a wire type at the beginning, and how many bytes it takes.
#[inline(always)]
fn first_payload(kind: u64, bytes: &[u8]) -> Result<(Value<'_>, usize), WireError>
    ensures value { payload_cut result ≡ leading_payload kind bytes.now }
    ensures within { IfOk result (λ p. p.1 ≤ length bytes.now) }
{
    match kind {
        0 => {
            let (number, size) = first_varint(bytes)?;
            Ok((Value::Varint(number), size))
        }
        1 => {
            let eight = first_bytes(bytes, 8)?;
            Ok((Value::Fixed64(eight), 8))
        }
        2 => {
            let (count, size) = first_varint(bytes)?;
            let rest = &bytes[size..];
            if (rest.len() as u64) < count {
                return Err(WireError::Short);
            }
            let count = count as usize;
            Ok((Value::Bytes(&rest[..count]), size + count))
        }
        _ => {
            let four = first_bytes(bytes, 4)?;
            Ok((Value::Fixed32(four), 4))
        }
    }
}

// The first `size` bytes.
fn first_bytes(bytes: &[u8], size: usize) -> Result<&[u8], WireError>
    ensures ok { IfOk result (λ s. (s.now ≡ take size bytes.now) × (size ≤ length bytes.now)) }
    ensures err { IfErr result (λ e. (e ≡ Short) × (length bytes.now < size)) }
{
    if bytes.len() < size {
        return Err(WireError::Short);
    }
    Ok(&bytes[..size])
}

//! Repeated numbers, packed or not, read into lists that are kept from block to block.
ghost use Rattle.std.specs.Prelude.{◌≡◌, ◌+ℤ◌, None, Some, OnOk, IfErr, slice_index_or};
ghost use Rattle.std.specs.Int.{int_wrap, w32, w64};
ghost use Rattle.osm_wire.specs.Entries.{as_numbers, repeated, whole_pieces};
ghost use Rattle.osm_wire.specs.Integers.{sint32, unzigzagged};
ghost use Rattle.osm_wire.specs.Messages.{packed_pieces};
ghost use Rattle.osm_wire.specs.Seen.{payload_seen};
ghost use Rattle.osm_block_read.specs.Told.{BadWireWhere, behind};

use crate::error::{BAD_WIRE, BlockError};
use crate::message::Message;
use osm_wire::{Value, sint32, unzigzag, varint};
use std::alloc::Global;

/// The codes of an entity that has a message of its own.
#[derive(Debug, Drop)]
pub(crate) struct Codes {
    pub keys: Vec<u64>,
    pub values: Vec<u64>,
    /// Of refs or members.
    pub ids: Vec<u64>,
    pub roles: Vec<u64>,
    pub kinds: Vec<u64>,
}

impl Codes {
    /// No codes.
    pub(crate) fn new(alloc: Global) -> Codes {
        Codes {
            keys: Vec::new(alloc),
            values: Vec::new(alloc),
            ids: Vec::new(alloc),
            roles: Vec::new(alloc),
            kinds: Vec::new(alloc),
        }
    }
}

/// Reads all numbers of a field into `codes`, in the place of what they held.
pub(crate) fn read_codes(
    codes: &mut Vec<u64>,
    message: &Message<'_>,
    number: u32,
) -> Result<(), BlockError>
    ensures ok { OnOk result (repeated number message.now ≡ Some codes.new.items) }
    ensures bad { IfErr result (BadWireWhere (repeated number message.now ≡ None)) }
{
    codes.clear();
    let mut fields = message.fields();
    while let Some(Ok(field)) = fields.next() {
        if field.number != number {
            continue;
        }
        take_codes(codes, field.value)?;
    }
    Ok(())
}

/// Adds the numbers of an entry: one, or some packed.
pub(crate) fn take_codes(codes: &mut Vec<u64>, value: Value<'_>) -> Result<(), BlockError>
    ensures ok { OnOk result (
        behind codes.old.items (as_numbers (payload_seen value.entry)) ≡ Some codes.new.items) }
    ensures bad { IfErr result (BadWireWhere (as_numbers (payload_seen value.entry) ≡ None)) }
{
    match value {
        Value::Varint(code) => {
            codes.push(code)?;
            Ok(())
        }
        Value::Bytes(packed) => take_packed(codes, packed),
        _ => Err(BAD_WIRE),
    }
}

// Adds the numbers that are packed in these bytes.
fn take_packed(codes: &mut Vec<u64>, packed: &[u8]) -> Result<(), BlockError>
    ensures ok { OnOk result (
        behind codes.old.items (whole_pieces (packed_pieces packed.now)) ≡ Some codes.new.items) }
    ensures bad { IfErr result (BadWireWhere (whole_pieces (packed_pieces packed.now) ≡ None)) }
{
    let mut at = 0;
    while at < packed.len() {
        let Ok((code, size)) = varint(packed, at) else {
            return Err(BAD_WIRE);
        };
        codes.push(code)?;
        at += size;
    }
    Ok(())
}

/// The sum of differences up to a place, from the one before it. A code past the end is 0.
#[inline(always)]
pub(crate) fn next_sum(sum: i64, codes: &[u64], at: usize) -> i64
    ensures { result ≡ int_wrap w64 (sum +ℤ unzigzagged (slice_index_or codes.now at 0)) }
{
    sum.wrapping_add(unzigzag(code_at(codes, at)))
}

/// The same of numbers of 32 bits.
#[inline(always)]
pub(crate) fn next_sum32(sum: i32, codes: &[u64], at: usize) -> i32
    ensures { result ≡ int_wrap w32 (sum +ℤ sint32 (slice_index_or codes.now at 0)) }
{
    sum.wrapping_add(sint32(code_at(codes, at)))
}

/// The code at a place, and 0 past the end.
#[inline(always)]
pub(crate) fn code_at(codes: &[u64], at: usize) -> u64
    ensures { result ≡ slice_index_or codes.now at 0 }
{
    match codes.get(at) {
        Some(code) => *code,
        None => 0,
    }
}

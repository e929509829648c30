//! Fields of packed numbers.
//!
//! A field that holds no number isn't written.
ghost use Rattle.std.specs.Prelude.{◌≡◌, ◌++◌, ℕ, List, map, OnOk};
ghost use Rattle.std.specs.Int.{w32, w64};
ghost use Rattle.osm_wire.specs.Messages.{IsFieldNumber};
ghost use Rattle.osm_wire.specs.Written.{packed, written_message};
ghost use Rattle.osm_block_write.specs.Columns.{delta_field, packed_field};

use crate::columns::{Column, SmallColumn, append_deltas, append_small_deltas};
use osm_entity::{Bytes, NoMemory};
use osm_wire::put_bytes;

/// Appends the field of some packed numbers, or nothing where there are none.
pub(crate) fn put_packed(out: &mut Bytes, number: u32, numbers: &[u8]) -> Result<(), NoMemory>
    requires { IsFieldNumber number }
    ensures ok { (ns : List ℕ) → numbers.now ≡ packed ns →
        OnOk result (out.new ≡ out.old ++ written_message (packed_field number ns)) }
{
    if numbers.is_empty() {
        return Ok(());
    }
    put_bytes(out, number, numbers)
}

/// Appends the field of a column of numbers of 64 bits. `room` is emptied first.
pub(crate) fn put_deltas<T, C: Column<T>>(
    out: &mut Bytes,
    room: &mut Bytes,
    number: u32,
    column: &C,
    items: &[T],
) -> Result<(), NoMemory>
    requires { IsFieldNumber number }
    ensures ok { OnOk result (out.new ≡ out.old
        ++ written_message (delta_field w64 number (map (C.number_in column.now) items.now))) }
{
    room.truncate(0);
    append_deltas(room, column, items)?;
    put_packed(out, number, room.as_slice())
}

/// Appends the field of a column of numbers of 32 bits. `room` is emptied first.
pub(crate) fn put_small_deltas<T, C: SmallColumn<T>>(
    out: &mut Bytes,
    room: &mut Bytes,
    number: u32,
    column: &C,
    items: &[T],
) -> Result<(), NoMemory>
    requires { IsFieldNumber number }
    ensures ok { OnOk result (out.new ≡ out.old
        ++ written_message (delta_field w32 number (map (C.number_in column.now) items.now))) }
{
    room.truncate(0);
    append_small_deltas(room, column, items)?;
    put_packed(out, number, room.as_slice())
}

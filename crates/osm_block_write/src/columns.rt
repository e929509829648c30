//! Columns of signed numbers: the ids and places of nodes, the refs of ways, and so on.
//!
//! A column is written delta coded: each number as its difference from the one before it, by zigzag
//! (OSM PBF format, "Dense nodes").
ghost use Rattle.std.specs.Prelude.{◌≡◌, ◌++◌, ℤ, pos, map, OnOk};
ghost use Rattle.std.specs.Int.{w32, w64};
ghost use Rattle.osm_wire.specs.Integers.{zigzagged};
ghost use Rattle.osm_wire.specs.Written.{packed};
ghost use Rattle.osm_block_write.specs.Columns.{deltas};

use crate::taken::Row;
use crate::varints::append_varint;
use osm_entity::{Bytes, Member, NoMemory};
use osm_wire::zigzag;

/// A column of numbers of 64 bits, one of each `T`.
pub(crate) trait Column<T> {
    ghost number_in: { Self → T → ℤ };

    fn number(&self, item: &T) -> i64
        ensures { result ≡ number_in self.now item.now };
}

/// A column of numbers of 32 bits, one of each `T`.
pub(crate) trait SmallColumn<T> {
    ghost number_in: { Self → T → ℤ };

    fn number(&self, item: &T) -> i32
        ensures { result ≡ number_in self.now item.now };
}

/// The ids of dense nodes.
pub(crate) struct Ids;

impl Column<Row> for Ids {
    ghost number_in = { λ _ row. row.id };

    fn number(&self, row: &Row) -> i64 {
        row.id
    }
}

/// The latitudes of dense nodes.
pub(crate) struct Lats;

impl Column<Row> for Lats {
    ghost number_in = { λ _ row. row.lat };

    fn number(&self, row: &Row) -> i64 {
        row.lat
    }
}

/// The longitudes of dense nodes.
pub(crate) struct Lons;

impl Column<Row> for Lons {
    ghost number_in = { λ _ row. row.lon };

    fn number(&self, row: &Row) -> i64 {
        row.lon
    }
}

/// The times of dense nodes.
pub(crate) struct Times;

impl Column<Row> for Times {
    ghost number_in = { λ _ row. pos row.time };

    fn number(&self, row: &Row) -> i64 {
        i64::from(row.time)
    }
}

/// The changesets of dense nodes.
pub(crate) struct Changesets;

impl Column<Row> for Changesets {
    ghost number_in = { λ _ row. row.changeset };

    fn number(&self, row: &Row) -> i64 {
        row.changeset
    }
}

/// The uids of dense nodes.
pub(crate) struct Uids;

impl SmallColumn<Row> for Uids {
    ghost number_in = { λ _ row. row.uid };

    fn number(&self, row: &Row) -> i32 {
        row.uid
    }
}

/// The users of dense nodes, by their numbers.
pub(crate) struct Users;

impl SmallColumn<Row> for Users {
    ghost number_in = { λ _ row. row.user };

    fn number(&self, row: &Row) -> i32 {
        row.user
    }
}

/// The refs of a way.
pub(crate) struct WayRefs;

impl Column<i64> for WayRefs {
    ghost number_in = { λ _ id. id };

    fn number(&self, id: &i64) -> i64 {
        *id
    }
}

/// The ids of the members of a relation.
pub(crate) struct MemberIds;

impl Column<Member> for MemberIds {
    ghost number_in = { λ _ member. member.id };

    fn number(&self, member: &Member) -> i64 {
        member.id
    }
}

/// Appends a column of numbers of 64 bits, delta coded.
pub(crate) fn append_deltas<T, C: Column<T>>(
    out: &mut Bytes,
    column: &C,
    items: &[T],
) -> Result<(), NoMemory>
    ensures ok { OnOk result (out.new ≡ out.old
        ++ packed (map zigzagged (deltas w64 (map (C.number_in column.now) items.now)))) }
{
    let mut before = 0;
    for item in items {
        let number = column.number(item);
        append_varint(out, zigzag(number.wrapping_sub(before)))?;
        before = number;
    }
    Ok(())
}

/// Appends a column of numbers of 32 bits, delta coded.
pub(crate) fn append_small_deltas<T, C: SmallColumn<T>>(
    out: &mut Bytes,
    column: &C,
    items: &[T],
) -> Result<(), NoMemory>
    ensures ok { OnOk result (out.new ≡ out.old
        ++ packed (map zigzagged (deltas w32 (map (C.number_in column.now) items.now)))) }
{
    let mut before = 0;
    for item in items {
        let number = column.number(item);
        append_varint(out, zigzag(i64::from(number.wrapping_sub(before))))?;
        before = number;
    }
    Ok(())
}

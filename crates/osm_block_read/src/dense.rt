//! Adds dense nodes to the rows of their block.
ghost use Rattle.std.specs.Prelude.{◌≡◌, length, map, All, IfOk, OnOk, true};
ghost use Rattle.std.specs.List.{range_with_len};
ghost use Rattle.osm_block_read.specs.Dense.{dense_entries, dense_entry_at};
ghost use Rattle.osm_block_read.specs.DenseCodes.{IsDenseAdded, are_codes_even, dense_of, dense_row};
ghost use Rattle.osm_block_read.specs.Rows.{AreRowsIn, IsAdded};
ghost use Rattle.osm_block_read.specs.Spans.{IsSpanIn, part_in};

use crate::dense_codes::{DenseCodes, DenseSums};
use crate::entry::EntryInfo;
use crate::row::{Row, RowBody, Rows};
use crate::span::{Span, span_at};
use std::alloc::AllocError;

impl Rows {
    /// Adds dense nodes. It is false where the lengths of their lists don't fit.
    pub(crate) fn add_dense(
        &mut self,
        spans: &mut Vec<Span>,
        codes: &DenseCodes,
    ) -> Result<bool, AllocError>
        requires { AreRowsIn self.old }
        ensures { IfOk result (IsDenseAdded self.old self.new (dense_entries (dense_of codes.now))) }
    {
        if !codes.are_even() {
            return Ok(false);
        }
        let count = codes.ids.len();
        let fits = self
            .lists
            .add_dense_tags(spans, codes.keys_vals.as_slice(), count)?;
        if !fits {
            return Ok(false);
        }
        self.add_nodes(spans.as_slice(), codes)?;
        Ok(true)
    }

    // Adds the nodes, whose tags have these spans.
    fn add_nodes(&mut self, spans: &[Span], codes: &DenseCodes) -> Result<(), AllocError>
        requires rows { AreRowsIn self.old }
        requires even { are_codes_even codes.now ≡ true }
        requires count { length spans.now ≡ length codes.now.ids.items }
        requires spans { All (IsSpanIn (length self.old.lists.tags.items)) spans.now }
        ensures { OnOk result (IsAdded self.old self.new (map
            (dense_entry_at (dense_of codes.now) (map (part_in self.old.lists.tags.items) spans.now))
            (range_with_len 0 (length codes.now.ids.items)))) }
    {
        let mut sums = DenseSums::new();
        for at in 0..spans.len() {
            sums.add(codes, at);
            let info = codes.info_at(&sums, at);
            self.rows.push(dense_row(&sums, info, span_at(spans, at)))?;
        }
        Ok(())
    }
}

// The row of a dense node, from the sums up to it.
#[inline(always)]
fn dense_row(sums: &DenseSums, info: EntryInfo, tags: Span) -> Row
    ensures { result ≡ dense_row sums.now info tags }
{
    Row {
        even: true,
        id: sums.id,
        info,
        tags,
        body: RowBody::At {
            lat: sums.lat,
            lon: sums.lon,
        },
    }
}

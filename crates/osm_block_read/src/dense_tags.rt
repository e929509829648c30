//! The tags of dense nodes: one list of indexes has pairs of key and value for each node, and ends
//! each with a 0 where a key is due.
ghost use Rattle.std.specs.Prelude.{◌≡◌, ◌<◌, [], length, map, pos, replicate, slice_index_or, IfOk, OnOk};
ghost use Rattle.osm_wire.specs.Integers.{int32};
ghost use Rattle.osm_block_read.specs.Dense.{tags_of_all};
ghost use Rattle.osm_block_read.specs.DenseTags.{AreNodeTags, AreSpansOf, AreTagsAdded};

use crate::entry::EntryTag;
use crate::row::Lists;
use crate::span::Span;
use osm_wire::int32;
use std::alloc::AllocError;

impl Lists {
    /// Adds the tags of `count` nodes, and puts the span of each node's into `spans`. It is false
    /// where the indexes are those of another number of nodes, or stop within a node.
    pub(crate) fn add_dense_tags(
        &mut self,
        spans: &mut Vec<Span>,
        codes: &[u64],
        count: usize,
    ) -> Result<bool, AllocError>
        ensures added { IfOk result (AreTagsAdded self.old.tags.items self.new.tags.items
            spans.new.items (tags_of_all count (map int32 codes.now))) }
        ensures refs { self.new.refs ≡ self.old.refs }
        ensures members { self.new.members ≡ self.old.members }
    {
        if codes.is_empty() {
            self.no_tags(spans, count)?;
            return Ok(true);
        }
        spans.clear();
        let mut at = 0;
        while at < codes.len() {
            let start = self.tags.len();
            let Some(next) = self.add_node_tags(codes, at)? else {
                return Ok(false);
            };
            let end = self.tags.len();
            spans.push(Span { start, end })?;
            at = next;
        }
        Ok(spans.len() == count)
    }

    // Puts the empty span of each of `count` nodes without tags into `spans`.
    fn no_tags(&self, spans: &mut Vec<Span>, count: usize) -> Result<(), AllocError>
        ensures { OnOk result (AreSpansOf self.now.tags.items self.now.tags.items
            spans.new.items (replicate count [])) }
    {
        spans.clear();
        let end = self.tags.len();
        for _node in 0..count {
            spans.push(Span { start: end, end })?;
        }
        Ok(())
    }

    // Adds the tags of the node whose indexes begin at a place, and gives the place after them.
    // `None` where the list stops before the node's end.
    fn add_node_tags(&mut self, codes: &[u64], from: usize) -> Result<Option<usize>, AllocError>
        requires { from < length codes.now }
        ensures added { IfOk result (AreNodeTags
            self.old.tags.items self.new.tags.items (map int32 codes.now) from) }
        ensures refs { self.new.refs ≡ self.old.refs }
        ensures members { self.new.members ≡ self.old.members }
    {
        let mut at = from;
        while at < codes.len() {
            let key = index_at(codes, at);
            if key == 0 {
                return Ok(Some(at + 1));
            }
            if at + 1 == codes.len() {
                return Ok(None);
            }
            let value = index_at(codes, at + 1);
            self.tags.push(EntryTag { key, value })?;
            at += 2;
        }
        Ok(None)
    }
}

// The index at a place.
#[inline(always)]
fn index_at(codes: &[u64], at: usize) -> i64
    requires { at < length codes.now }
    ensures { result ≡ slice_index_or (map int32 codes.now) at (pos 0) }
{
    int32(codes[at]) as i64
}

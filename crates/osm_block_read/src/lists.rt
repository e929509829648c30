//! Adds tags, refs and members to the lists of rows, from their codes.
ghost use Rattle.std.specs.Prelude.{◌≡◌, map, slice_index_or, IfOk};
ghost use Rattle.std.specs.Int.{w64};
ghost use Rattle.osm_wire.specs.Integers.{int32, unzigzagged};
ghost use Rattle.osm_block_read.specs.Numbers.{summed};
ghost use Rattle.osm_block_read.specs.ListCodes.{member_of_codes, tag_of_codes};
ghost use Rattle.osm_block_read.specs.Plain.{entry_members, entry_tags};
ghost use Rattle.osm_block_read.specs.Spans.{IsPartAdded};

use crate::codes::{code_at, next_sum};
use crate::entry::{EntryMember, EntryTag};
use crate::row::Lists;
use crate::span::Span;
use osm_wire::{int32, uint32};
use std::alloc::AllocError;

impl Lists {
    /// Adds tags of a key and a value each, as far as both lists go.
    pub(crate) fn add_tags(&mut self, keys: &[u64], values: &[u64]) -> Result<Span, AllocError>
        ensures added { IfOk result (λ span.
            IsPartAdded self.old.tags.items self.new.tags.items (entry_tags keys.now values.now) span) }
        ensures refs { self.new.refs ≡ self.old.refs }
        ensures members { self.new.members ≡ self.old.members }
    {
        let start = self.tags.len();
        let count = keys.len().min(values.len());
        for at in 0..count {
            self.tags.push(tag_at(keys, values, at))?;
        }
        let end = self.tags.len();
        Ok(Span { start, end })
    }

    /// Adds refs, from their differences.
    pub(crate) fn add_refs(&mut self, codes: &[u64]) -> Result<Span, AllocError>
        ensures added { IfOk result (λ span. IsPartAdded self.old.refs.items self.new.refs.items
            (summed w64 (map unzigzagged codes.now)) span) }
        ensures tags { self.new.tags ≡ self.old.tags }
        ensures members { self.new.members ≡ self.old.members }
    {
        let start = self.refs.len();
        let mut last = 0i64;
        for at in 0..codes.len() {
            last = next_sum(last, codes, at);
            self.refs.push(last)?;
        }
        let end = self.refs.len();
        Ok(Span { start, end })
    }

    /// Adds members of a kind, an id and a role each, as far as all lists go.
    pub(crate) fn add_members(
        &mut self,
        kinds: &[u64],
        ids: &[u64],
        roles: &[u64],
    ) -> Result<Span, AllocError>
        ensures added { IfOk result (λ span.
            IsPartAdded self.old.members.items self.new.members.items (entry_members
            (map int32 kinds.now) (summed w64 (map unzigzagged ids.now)) (map int32 roles.now))
            span) }
        ensures tags { self.new.tags ≡ self.old.tags }
        ensures refs { self.new.refs ≡ self.old.refs }
    {
        let start = self.members.len();
        let mut id = 0i64;
        let count = kinds.len().min(ids.len()).min(roles.len());
        for at in 0..count {
            id = next_sum(id, ids, at);
            self.members.push(member_at(kinds, id, roles, at))?;
        }
        let end = self.members.len();
        Ok(Span { start, end })
    }
}

// The tag whose codes are at a place.
#[inline(always)]
fn tag_at(keys: &[u64], values: &[u64], at: usize) -> EntryTag
    ensures { result ≡ tag_of_codes
        (slice_index_or keys.now at 0) (slice_index_or values.now at 0) }
{
    EntryTag {
        key: uint32(code_at(keys, at)) as i64,
        value: uint32(code_at(values, at)) as i64,
    }
}

// The member with this id, whose other codes are at a place.
#[inline(always)]
fn member_at(kinds: &[u64], id: i64, roles: &[u64], at: usize) -> EntryMember
    ensures { result ≡ member_of_codes
        (slice_index_or kinds.now at 0) id (slice_index_or roles.now at 0) }
{
    EntryMember {
        kind: int32(code_at(kinds, at)),
        id,
        role: int32(code_at(roles, at)) as i64,
    }
}

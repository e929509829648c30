//! What is wrong with an entity of a block.
ghost use Rattle.std.specs.Prelude.{◌≡◌, ◌^◌, ◌-◌, ◌+◌, min, nat_lt, not, map, sum_by};
ghost use Rattle.std.specs.List.{list_all, list_any};
ghost use Rattle.osm_entity.specs.Entities.{body_fits, body_weight, greatest_weight, member_weight, tag_weight, weight_of};
ghost use Rattle.osm_block_read.specs.Entries.{entry_body, entry_entity, entry_member, entry_tag};
ghost use Rattle.osm_block_read.specs.Faults.{entry_fault, has_body_indexes, has_empty_key, has_indexes};
ghost use Rattle.osm_block_read.specs.Faults.{is_member_index, is_tag_index, is_user_index};
ghost use Rattle.osm_block_read.specs.Seen.{body_seen, entry_seen};
ghost use Rattle.osm_block_read.specs.Usual.{are_usual, are_usual_texts};

use crate::entry::{EntryMember, EntryTag};
use crate::entry_ref::{BodyRef, EntryRef};
use crate::setting::{Setting, is_index_below};
use crate::usual::is_small_body;
use osm_entity::{Cause, GREATEST_WEIGHT};

impl<'a> Setting<'a> {
    /// The first thing that is wrong with an entity. `usual` says whether the texts are usual.
    #[tactic(auto, unfolding(crate::specs::Faults::entry_fault))]
    pub(crate) fn fault(&self, usual: bool, entry: &EntryRef<'_>) -> Option<Cause>
        requires { usual ≡ are_usual_texts self.now.texts }
        ensures { result ≡ entry_fault self.now (entry_seen entry.now) }
    {
        let usual = self.are_usual(usual, entry.tags);
        if !entry.even {
            Some(Cause::BadLengths)
        } else if !self.has_indexes(usual, entry) {
            Some(Cause::BadIndex)
        } else if self.has_empty_key(usual, entry.tags) {
            Some(Cause::BadField)
        } else if !self.has_place(entry.body) {
            Some(Cause::BadCoordinate)
        } else if self.seconds(entry.info.timestamp).is_none() {
            Some(Cause::BadTime)
        } else if !entry.info.visible {
            Some(Cause::Deleted)
        } else if self.is_heavy(usual, entry) {
            Some(Cause::TooHeavy)
        } else {
            None
        }
    }

    fn has_indexes(&self, usual: bool, entry: &EntryRef<'_>) -> bool
        requires { usual ≡ are_usual self.now.texts entry.now.tags.now }
        ensures { result ≡ has_indexes self.now.texts (entry_seen entry.now) }
    {
        self.has_tags(usual, entry.tags)
            && self.has_user(entry.info.user)
            && self.has_body(entry.body)
    }

    fn has_tags(&self, usual: bool, tags: &[EntryTag]) -> bool
        requires { usual ≡ are_usual self.now.texts tags.now }
        ensures { result ≡ list_all (is_tag_index self.now.texts) tags.now }
    {
        usual || self.has_all(tags)
    }

    fn has_all(&self, tags: &[EntryTag]) -> bool
        ensures { result ≡ list_all (is_tag_index self.now.texts) tags.now }
    {
        tags.iter()
            .all(|tag| self.has_text(tag.key) && self.has_text(tag.value))
    }

    fn has_user(&self, index: i64) -> bool
        ensures { result ≡ is_user_index self.now.texts index }
    {
        let count = self.count();
        if count == 0 {
            is_index_below(1, index)
        } else {
            is_index_below(count, index)
        }
    }

    fn has_body(&self, body: BodyRef<'_>) -> bool
        ensures { result ≡ has_body_indexes self.now.texts (body_seen body.entry) }
    {
        match body {
            BodyRef::Having(members) => self.has_members(members),
            _ => true,
        }
    }

    fn has_members(&self, members: &[EntryMember]) -> bool
        ensures { result ≡ list_all (is_member_index self.now.texts) members.now }
    {
        members.iter().all(|member| is_index_below(3, member.kind as i64)
            && self.has_text(member.role))
    }

    fn has_empty_key(&self, usual: bool, tags: &[EntryTag]) -> bool
        requires { usual ≡ are_usual self.now.texts tags.now }
        ensures { result ≡ list_any (has_empty_key self.now.texts) tags.now }
    {
        !usual && self.has_any_empty(tags)
    }

    fn has_any_empty(&self, tags: &[EntryTag]) -> bool
        ensures { result ≡ list_any (has_empty_key self.now.texts) tags.now }
    {
        tags.iter().any(|tag| self.text(tag.key).is_empty())
    }

    fn has_place(&self, body: BodyRef<'_>) -> bool
        ensures { result ≡ body_fits (entry_body self.now (body_seen body.entry)) }
    {
        match body {
            BodyRef::At { lat, lon } => self.place(lat, lon).is_some(),
            _ => true,
        }
    }

    // Whether it weighs more than an entity may.
    fn is_heavy(&self, usual: bool, entry: &EntryRef<'_>) -> bool
        requires { usual ≡ are_usual self.now.texts entry.now.tags.now }
        ensures { result ≡ nat_lt greatest_weight
            (weight_of (entry_entity self.now (entry_seen entry.now))) }
    {
        if usual && is_small_body(entry.body) {
            return false;
        }
        self.is_weighed_heavy(entry)
    }

    fn is_weighed_heavy(&self, entry: &EntryRef<'_>) -> bool
        ensures { result ≡ nat_lt greatest_weight
            (weight_of (entry_entity self.now (entry_seen entry.now))) }
    {
        let user = self.text(entry.info.user).len() as u64;
        let tags = self.weight_of_tags(entry.tags);
        let body = self.weight_of_body(entry.body);
        let weight = user
            .saturating_add(tags)
            .saturating_add(body)
            .saturating_add(128);
        weight > GREATEST_WEIGHT
    }

    fn weight_of_tags(&self, tags: &[EntryTag]) -> u64
        ensures { result
            ≡ min (sum_by tag_weight (map (entry_tag self.now) tags.now)) (2 ^ 64 - 1) }
    {
        let mut total = 0u64;
        for tag in tags {
            let key = self.text(tag.key).len() as u64;
            let value = self.text(tag.value).len() as u64;
            total = total
                .saturating_add(key)
                .saturating_add(value)
                .saturating_add(32);
        }
        total
    }

    fn weight_of_body(&self, body: BodyRef<'_>) -> u64
        ensures { result
            ≡ min (body_weight (entry_body self.now (body_seen body.entry))) (2 ^ 64 - 1) }
    {
        match body {
            BodyRef::At { .. } => 0,
            BodyRef::Along(refs) => (refs.len() as u64).saturating_mul(32),
            BodyRef::Having(members) => self.weight_of_members(members),
        }
    }

    fn weight_of_members(&self, members: &[EntryMember]) -> u64
        ensures { result
            ≡ min (sum_by member_weight (map (entry_member self.now) members.now)) (2 ^ 64 - 1) }
    {
        let mut total = 0u64;
        for member in members {
            let role = self.text(member.role).len() as u64;
            total = total.saturating_add(role).saturating_add(32);
        }
        total
    }
}

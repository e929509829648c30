//! Makes the parts of the item of an entity of a block.
ghost use Rattle.std.specs.Prelude.{◌≡◌, ◌<◌, ◌^◌, map, true, IfOk};
ghost use Rattle.std.specs.List.{list_all};
ghost use Rattle.osm_entity.specs.Counts.{counted};
ghost use Rattle.osm_entity.specs.Entities.{body_fits};
ghost use Rattle.osm_block_read.specs.Entries.{entry_body, entry_member, entry_tag, kind_of_number, text_at};
ghost use Rattle.osm_block_read.specs.Faults.{is_tag_index};
ghost use Rattle.osm_block_read.specs.Seen.{body_seen};

use crate::entry::{EntryMember, EntryTag};
use crate::entry_ref::BodyRef;
use crate::setting::Setting;
use osm_entity::{Body, Kind, Member, Members, NoMemory, Refs, Tag, Tags, Text};
use std::alloc::Global;

/// The text of an index. It is empty past the last.
#[inline(always)]
pub(crate) fn make_text(alloc: Global, setting: &Setting<'_>, index: i64) -> Result<Text, NoMemory>
    ensures { IfOk result (λ text. text ≡ text_at setting.now.texts index) }
{
    match setting.find_text(index) {
        Some(text) => match text.copy_short() {
            Some(short) => Ok(short),
            None => text.copy(alloc),
        },
        None => Ok(Text::new(alloc)),
    }
}

/// The tags of indexes, which are those of texts.
pub(crate) fn make_tags(
    alloc: Global,
    setting: &Setting<'_>,
    tags: &[EntryTag],
) -> Result<Tags, NoMemory>
    requires { list_all (is_tag_index setting.now.texts) tags.now ≡ true }
    ensures { IfOk result (λ made. made ≡ map (entry_tag setting.now) tags.now) }
{
    let mut made = Tags::with_room(alloc, tags.len())?;
    for tag in tags {
        let key = setting.known_text(tag.key);
        let value = setting.known_text(tag.value);
        if let Some(key) = key.copy_short()
            && let Some(value) = value.copy_short()
        {
            made.push_in_room(Tag { key, value })?;
        } else {
            made.push_in_room(copy_tag(alloc, key, value)?)?;
        }
    }
    Ok(made)
}

// A tag of texts that may take memory.
#[inline(never)]
fn copy_tag(alloc: Global, key: &Text, value: &Text) -> Result<Tag, NoMemory>
    ensures { IfOk result (λ tag. (tag.key ≡ key.now) × (tag.value ≡ value.now)) }
{
    Ok(Tag {
        key: key.copy(alloc)?,
        value: value.copy(alloc)?,
    })
}

/// The place, the refs or the members.
pub(crate) fn make_body(
    alloc: Global,
    setting: &Setting<'_>,
    body: BodyRef<'_>,
) -> Result<Body, NoMemory>
    requires { body_fits (entry_body setting.now (body_seen body)) ≡ true }
    ensures { IfOk result (λ made. made ≡ entry_body setting.now (body_seen body.entry)) }
{
    match body {
        BodyRef::At { lat, lon } => match setting.place(lat, lon) {
            Some(place) => Ok(Body::Node(Some(place))),
            None => unreachable!(),
        },
        BodyRef::Along(refs) => Ok(Body::Way(Refs::from_slice(alloc, refs)?)),
        BodyRef::Having(members) => Ok(Body::Relation(make_members(alloc, setting, members)?)),
    }
}

fn make_members(
    alloc: Global,
    setting: &Setting<'_>,
    members: &[EntryMember],
) -> Result<Members, NoMemory>
    ensures { IfOk result (λ made. made ≡ map (entry_member setting.now) members.now) }
{
    let mut made = Members::with_room(alloc, members.len())?;
    for member in members {
        made.push(Member {
            kind: kind_of_number(member.kind),
            id: member.id,
            role: make_text(alloc, setting, member.role)?,
        })?;
    }
    Ok(made)
}

fn kind_of_number(number: i32) -> Kind
    ensures { result ≡ kind_of_number number }
{
    if number <= 0 {
        Kind::Node
    } else if number == 1 {
        Kind::Way
    } else {
        Kind::Relation
    }
}

/// The number, and 0 where it is negative.
pub(crate) fn counted32(number: i32) -> u32
    ensures value { result ≡ counted number }
    ensures small { result < 2 ^ 31 }
{
    if number < 0 { 0 } else { number as u32 }
}

/// The number, and 0 where it is negative.
pub(crate) fn counted64(number: i64) -> u64
    ensures value { result ≡ counted number }
    ensures small { result < 2 ^ 63 }
{
    if number < 0 { 0 } else { number as u64 }
}

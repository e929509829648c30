//! Appends an item as a line, all lines in one form.
//!
//! Each field is written: a number that isn't known as 0, a text or a list without anything as its
//! letter alone.
ghost use Rattle.std.specs.Prelude.{◌≡◌, ◌++◌, ◌∷◌, OnOk, OnErr, IsTrue, codes, map};
ghost use Rattle.std.specs.Fmt.{signed_decimal};
ghost use Rattle.std.specs.List.{flat_map, join_with_byte};
ghost use Rattle.osm_entity.specs.Ascii.{comma};
ghost use Rattle.osm_entity.specs.Entities.{place_fits, body_fits};
ghost use Rattle.osm_entity.specs.Prefixes.{IsPrefix};
ghost use Rattle.osm_opl_line.specs.LineParts.{author_text, head_text, lists_text};
ghost use Rattle.osm_opl_line.specs.Writing.{act_text, body_text};
ghost use Rattle.osm_opl_line.specs.Writing.{line_text, place_text, time_field};

use crate::parts::{Part, append_id};
use osm_entity::{Act, Body, Bytes, Entity, Item, NoMemory, Place};
use osm_text::{escape, write_nano, write_time, write_whole};

/// Appends the line of an item, with its newline. At `Err` nothing is appended.
pub fn write_line(out: &mut Bytes, item: &Item) -> Result<(), NoMemory>
    ensures ok { OnOk result (out.new ≡ out.old ++ line_text item.now) }
    ensures err { OnErr result (out.new ≡ out.old) }
{
    let length = out.len();
    let written = append_line(out, item);
    if written.is_err() {
        out.truncate(length);
    }
    written
}

// Appends field after field. At `Err` some of them are appended.
fn append_line(out: &mut Bytes, item: &Item) -> Result<(), NoMemory>
    ensures ok { OnOk result (out.new ≡ out.old ++ line_text item.now) }
    ensures err { OnErr result (IsPrefix out.old out.new) }
{
    let entity: &Entity = &item.entity;
    append_head(out, item)?;
    append_author(out, entity)?;
    append_lists(out, entity)?;
    out.push(b'\n')
}

// Appends the kind and the id, the version, what is done, and the changeset.
fn append_head(out: &mut Bytes, item: &Item) -> Result<(), NoMemory>
    ensures ok { OnOk result (out.new ≡ out.old ++ head_text item.now) }
    ensures err { OnErr result (IsPrefix out.old out.new) }
{
    let entity: &Entity = &item.entity;
    append_id(out, item.key().kind, entity.id)?;
    append_number(out, b" v", i64::from(entity.version))?;
    append_number(out, act_field(item.act), entity.changeset as i64)
}

// Appends the time, the uid and the user.
fn append_author(out: &mut Bytes, entity: &Entity) -> Result<(), NoMemory>
    ensures ok { OnOk result (out.new ≡ out.old ++ author_text entity.now) }
    ensures err { OnErr result (IsPrefix out.old out.new) }
{
    append_time(out, entity.time)?;
    append_number(out, b" i", i64::from(entity.uid))?;
    out.append(b" u")?;
    escape(out, &entity.user)
}

// Appends the tags, and the fields that only a kind has.
fn append_lists(out: &mut Bytes, entity: &Entity) -> Result<(), NoMemory>
    ensures ok { OnOk result (out.new ≡ out.old ++ lists_text entity.now) }
    ensures err { OnErr result (IsPrefix out.old out.new) }
{
    append_named(out, b" T", entity.tags.as_slice())?;
    append_body(out, &entity.body)
}

// Appends the fields that only a kind has.
fn append_body(out: &mut Bytes, body: &Body) -> Result<(), NoMemory>
    requires { IsTrue (body_fits body.now) }
    ensures ok { OnOk result (out.new ≡ out.old ++ body_text body.now) }
    ensures err { OnErr result (IsPrefix out.old out.new) }
{
    match body {
        Body::Node(Some(place)) => append_place(out, place),
        Body::Node(None) => out.append(b" x y"),
        Body::Way(refs) => append_named(out, b" N", refs.as_slice()),
        Body::Relation(members) => append_named(out, b" M", members.as_slice()),
    }
}

// Appends `x` and `y` with the degrees of a place.
fn append_place(out: &mut Bytes, place: &Place) -> Result<(), NoMemory>
    requires { IsTrue (place_fits place.now) }
    ensures ok { OnOk result (out.new ≡ out.old ++ place_text place.now) }
    ensures err { OnErr result (IsPrefix out.old out.new) }
{
    out.append(b" x")?;
    write_nano(out, place.lon)?;
    out.append(b" y")?;
    write_nano(out, place.lat)
}

// Appends `t` and a time.
fn append_time(out: &mut Bytes, time: u32) -> Result<(), NoMemory>
    ensures ok { OnOk result (out.new ≡ out.old ++ codes " t" ++ time_field time) }
    ensures err { OnErr result (IsPrefix out.old out.new) }
{
    out.append(b" t")?;
    if time == 0 {
        return Ok(());
    }
    write_time(out, time)
}

// Appends a number and what stands before it.
fn append_number(out: &mut Bytes, before: &[u8], n: i64) -> Result<(), NoMemory>
    ensures ok { OnOk result (out.new ≡ out.old ++ before.now ++ signed_decimal n) }
    ensures err { OnErr result (IsPrefix out.old out.new) }
{
    out.append(before)?;
    write_whole(out, n)
}

// The field that says what is done, and the letter of the changeset's.
fn act_field(act: Act) -> &'static [u8]
    ensures { result.now ≡ codes " d" ++ act_text act ++ codes " c" }
{
    match act {
        Act::Delete => b" dD c",
        Act::Keep | Act::Create | Act::Modify => b" dV c",
    }
}

// Appends the name of a list and its elements.
fn append_named<T: Part>(out: &mut Bytes, name: &[u8], parts: &[T]) -> Result<(), NoMemory>
    ensures ok { OnOk result
        (out.new ≡ out.old ++ name.now ++ join_with_byte comma (map T.text parts.now)) }
    ensures err { OnErr result (IsPrefix out.old out.new) }
{
    out.append(name)?;
    append_list(out, parts)
}

// Appends the elements of a list, with a comma between two.
fn append_list<T: Part>(out: &mut Bytes, parts: &[T]) -> Result<(), NoMemory>
    ensures ok { OnOk result (out.new ≡ out.old ++ join_with_byte comma (map T.text parts.now)) }
    ensures err { OnErr result (IsPrefix out.old out.new) }
{
    match parts {
        [] => Ok(()),
        [first, more @ ..] => {
            first.append_to(out)?;
            append_more(out, more)
        }
    }
}

// Appends elements, each after a comma.
fn append_more<T: Part>(out: &mut Bytes, parts: &[T]) -> Result<(), NoMemory>
    ensures ok { OnOk result
        (out.new ≡ out.old ++ flat_map (λ part. comma ∷ T.text part) parts.now) }
    ensures err { OnErr result (IsPrefix out.old out.new) }
{
    for part in parts {
        out.push(b',')?;
        part.append_to(out)?;
    }
    Ok(())
}

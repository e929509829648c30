//! Makes the item that the fields of a line say.
//!
//! No field has a fault, which was looked at when the line was cut, so it fails only where it is
//! out of memory.
ghost use Rattle.std.specs.Prelude.{◌≡◌, ◌≤◌, [], IfOk, IfSome, IsOk, IsUtf8, Ok, length};
ghost use Rattle.std.specs.Option.{option_map};
ghost use Rattle.osm_entity.specs.declared.kind.Kind.TheVariants.{Relation, Way};
ghost use Rattle.osm_opl_line.specs.Contents.{all_in, members_in, parts_of, refs_in, text_in};
ghost use Rattle.osm_opl_line.specs.Cut.{IsFine, IsFineList};
ghost use Rattle.osm_opl_line.specs.Item.{act_of, body_with, item_of, place_of, value_of};
ghost use Rattle.osm_opl_line.specs.Line.{longest_line};

use crate::contents::{ContentError, make_text};
use crate::line::{Line, Made};
use crate::listing::make_list;
use crate::parts::Part;
use osm_entity::{Act, Body, Entity, Flow, Item, Kind, Member, NoMemory, Place, Sequence, Text};
use std::alloc::Global;

impl<'a> Line<'a> {
    /// The item that the line says. `NoMemory` where it has no room.
    pub fn item(&self, alloc: Global) -> Result<Item, NoMemory>
        ensures { IfOk result (λ item. item ≡ item_of self.now) }
    {
        self.bare().into_item(alloc)
    }

    // The same line, of which nothing is made.
    fn bare(&self) -> Line<'a>
        ensures { result ≡ self.now }
    {
        Line {
            flow: self.flow,
            kind: self.kind,
            id: self.id,
            v: self.v,
            d: self.d,
            c: self.c,
            t: self.t,
            i: self.i,
            u: self.u,
            tags: self.tags,
            x: self.x,
            y: self.y,
            list: self.list,
            numbers: self.numbers,
            made: Made::none(),
        }
    }

    /// The item that the line says, with what was made of it. `NoMemory` where it has no room.
    pub(crate) fn into_item(self, alloc: Global) -> Result<Item, NoMemory>
        ensures { IfOk result (λ item. item ≡ item_of self.entry) }
    {
        let numbers = self.numbers;
        let Made {
            user,
            tags,
            refs,
            members,
        } = self.made;
        let user = text_or(alloc, user, self.u)?;
        let tags = list_or(alloc, tags, self.tags)?;
        let place = place_of(numbers.lon, numbers.lat);
        let body = body_or(alloc, self.kind, place, refs, members, self.list)?;
        let entity = Entity {
            id: self.id,
            version: numbers.version,
            time: numbers.time,
            changeset: numbers.changeset,
            uid: numbers.uid,
            user,
            tags,
            body,
        };
        let act = act_of(self.flow, numbers.deleted, numbers.version);
        Item::new(alloc, act, entity)
    }
}

fn act_of(flow: Flow, deleted: bool, version: u32) -> Act
    ensures { result ≡ act_of flow deleted version }
{
    match flow {
        Flow::Entities => Act::Keep,
        Flow::Changes if deleted => Act::Delete,
        Flow::Changes if version == 1 => Act::Create,
        Flow::Changes => Act::Modify,
    }
}

fn place_of(lon: Option<i64>, lat: Option<i64>) -> Option<Place>
    ensures { result ≡ place_of lon lat }
{
    match (lon, lat) {
        (Some(lon), Some(lat)) => Some(Place { lon, lat }),
        _ => None,
    }
}

// What is proper to the kind of the entity, of which the list may have been made.
fn body_or(
    alloc: Global,
    kind: Kind,
    place: Option<Place>,
    refs: Option<Sequence<i64>>,
    members: Option<Sequence<Member>>,
    list: Option<&[u8]>,
) -> Result<Body, NoMemory>
    requires fine { IsFineList kind (option_map (λ s. s.now) list) }
    requires refs { IfSome refs (λ made.
        kind ≡ Way → value_of [] refs_in (option_map (λ s. s.now) list) ≡ made) }
    requires members { IfSome members (λ made.
        kind ≡ Relation → value_of [] members_in (option_map (λ s. s.now) list) ≡ made) }
    ensures { IfOk result (λ body.
        body ≡ body_with kind place (option_map (λ s. s.now) list.entry)) }
{
    match kind {
        Kind::Node => Ok(Body::Node(place)),
        Kind::Way => Ok(Body::Way(list_or(alloc, refs, list)?)),
        Kind::Relation => Ok(Body::Relation(list_or(alloc, members, list)?)),
    }
}

// The text of a field, which may have been made; the empty text where it is absent.
fn text_or(alloc: Global, made: Option<Text>, field: Option<&[u8]>) -> Result<Text, NoMemory>
    requires fine { IsFine text_in (option_map (λ s. s.now) field) }
    requires made { IfSome made (λ text.
        value_of [] text_in (option_map (λ s. s.now) field) ≡ text) }
    ensures { IfOk result (λ text.
        text ≡ value_of [] text_in (option_map (λ s. s.now) field.entry)) }
{
    match (made, field) {
        (Some(text), _) => Ok(text),
        (None, Some(content)) => read_text(alloc, content),
        (None, None) => Ok(Text::new(alloc)),
    }
}

fn read_text(alloc: Global, content: &[u8]) -> Result<Text, NoMemory>
    requires utf8 { IsUtf8 content.now }
    requires fine { IsOk (text_in content.now) }
    ensures { IfOk result (λ text. text_in content.now ≡ Ok text) }
{
    match make_text(alloc, content, content.len()) {
        Ok(text) => Ok(text),
        Err(ContentError::Memory) => Err(NoMemory),
        Err(ContentError::Bad(_)) => unreachable!(),
    }
}

// The list of a field, which may have been made; the empty list where it is absent.
fn list_or<T: Part>(
    alloc: Global,
    made: Option<Sequence<T>>,
    field: Option<&[u8]>,
) -> Result<Sequence<T>, NoMemory>
    requires fine { IsFine
        (λ content. all_in T.says (parts_of content)) (option_map (λ s. s.now) field) }
    requires made { IfSome made (λ list. value_of []
        (λ content. all_in T.says (parts_of content)) (option_map (λ s. s.now) field) ≡ list) }
    ensures { IfOk result (λ list. list ≡ value_of []
        (λ content. all_in T.says (parts_of content)) (option_map (λ s. s.now) field.entry)) }
{
    match (made, field) {
        (Some(list), _) => Ok(list),
        (None, Some(content)) => read_list(alloc, content),
        (None, None) => Ok(Sequence::new(alloc)),
    }
}

fn read_list<T: Part>(alloc: Global, content: &[u8]) -> Result<Sequence<T>, NoMemory>
    requires short { length content.now ≤ longest_line }
    requires utf8 { IsUtf8 content.now }
    requires fine { IsOk (all_in T.says (parts_of content.now)) }
    ensures { IfOk result (λ list. all_in T.says (parts_of content.now) ≡ Ok list) }
{
    match make_list(alloc, content) {
        Ok((list, _)) => Ok(list),
        Err(ContentError::Memory) => Err(NoMemory),
        Err(ContentError::Bad(_)) => unreachable!(),
    }
}

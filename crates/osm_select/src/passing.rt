//! The machine that passes its items on. It judges each item as it comes, by the ids that it kept,
//! and holds at most the one message that it has to give next.
ghost use Rattle.std.specs.Prelude.{◌≡◌, OnErr, OnOk, IfOk, map, option_to_list, Some};
ghost use Rattle.osm_entity.specs.Calls.{Gives, StopsInTake, Takes};
ghost use Rattle.osm_entity.specs.Machines.{IsNew, IsSameTask};
ghost use Rattle.osm_entity.specs.OneInput.{meanings_of};
ghost use Rattle.osm_entity.specs.declared.stream.Message.TheVariants.{Item as One, End as Last};
ghost use Rattle.osm_entity.specs.declared.stream.Want.TheVariants.{Give, Take};
ghost use Rattle.osm_select.specs.Kept.{sets_of};
ghost use Rattle.osm_select.specs.Order.{Admits, end_after};
ghost use Rattle.osm_select.specs.Passed.{is_kept, item_given, kept_after};
ghost use Rattle.osm_select.specs.Passing.{passing};
ghost use Rattle.osm_select.specs.Parts.{lies_inside};

use crate::keys::Keys;
use crate::order::Order;
use osm_area::Area;
use osm_entity::{Body, End, Entity, Item, Message, NoMemory, Verdict, Want};
use std::alloc::Global;

/// Passes on the items that an area keeps, in their order, and then its end.
#[derive(Drop)]
pub(crate) struct Passing {
    area: Area,
    clip: bool,
    /// The ids of the items that were kept.
    kept: Keys,
    order: Order,
    /// What it has to give.
    held: Option<Message>,
    /// The end that came.
    end: Option<End>,
    /// Whether it is out of memory.
    stopped: bool,
}

/// Whether a body is a node in an area.
pub(crate) fn is_inside(area: &Area, body: &Body) -> bool
    ensures { result ≡ lies_inside area.now body.now }
{
    match body {
        Body::Node(Some(place)) => area.contains(place),
        Body::Node(None) => false,
        Body::Way(_) => false,
        Body::Relation(_) => false,
    }
}

fn keeps(area: &Area, kept: &Keys, item: &Item) -> bool
    ensures { result ≡ is_kept area.now (sets_of kept.now) item.now }
{
    let entity: &Entity = &item.entity;
    is_inside(area, &entity.body)
        || kept.has_part(&entity.body)
        || kept.stays(entity.id, &entity.body)
}

/// What is given of an item. Where that is the item, its id is then among those kept.
fn pass(area: &Area, clip: bool, kept: &mut Keys, item: Item) -> Result<Option<Message>, NoMemory>
    ensures given { IfOk result (λ out. option_to_list out
        ≡ map One (item_given area.now clip (sets_of kept.old) item)) }
    ensures after { OnOk result (sets_of kept.new ≡ kept_after area.now (sets_of kept.old) item) }
{
    if !keeps(area, kept, &item) {
        return Ok(None);
    }
    let key = item.key();
    let mut out = item;
    kept.clip_if(clip, &mut out);
    kept.add(key.kind, key.id)?;
    Ok(Some(Message::Item(out)))
}

impl Passing {
    pub(crate) fn new(alloc: Global, area: Area, clip: bool) -> Self
        ensures new { IsNew (meanings_of passing) result }
        ensures area { result.area ≡ area }
        ensures clip { result.clip ≡ clip }
    {
        Passing {
            area,
            clip,
            kept: Keys::new(alloc),
            order: Order::new(),
            held: None,
            end: None,
            stopped: false,
        }
    }

    pub(crate) fn want(&self) -> Want
        ensures { result ≡ passing.wanted self.now }
    {
        match (&self.held, self.end) {
            (Some(_), _) => Want::Give(0),
            (None, None) => Want::Take(0),
            (None, Some(_)) => Want::Ended,
        }
    }

    fn take_item(&mut self, item: Item) -> Result<(), NoMemory>
        requires { passing.wanted self.old ≡ Take 0 }
        ensures takes { OnOk result (Takes (meanings_of passing) 0 (One item) self.old self.new) }
        ensures stops { OnErr result
            (StopsInTake (meanings_of passing) 0 (One item) self.old self.new) }
        ensures same { IsSameTask (meanings_of passing) self.old self.new }
    {
        if !self.order.admits(item.key().kind) {
            return Ok(());
        }
        match pass(&self.area, self.clip, &mut self.kept, item) {
            Ok(message) => {
                self.held = message;
                Ok(())
            }
            Err(NoMemory) => {
                self.stopped = true;
                Err(NoMemory)
            }
        }
    }

    fn take_end(&mut self, end: End)
        requires { passing.wanted self.old ≡ Take 0 }
        ensures takes { Takes (meanings_of passing) 0 (Last end) self.old self.new }
        ensures same { IsSameTask (meanings_of passing) self.old self.new }
    {
        self.held = Some(Message::End(self.order.end_after(end)));
        self.end = Some(end);
    }

    pub(crate) fn accept(&mut self, port: u32, message: Message) -> Result<(), NoMemory>
        requires { passing.wanted self.old ≡ Take port }
        ensures takes { OnOk result (Takes (meanings_of passing) port message self.old self.new) }
        ensures stops { OnErr result
            (StopsInTake (meanings_of passing) port message self.old self.new) }
        ensures same { IsSameTask (meanings_of passing) self.old self.new }
    {
        match message {
            Message::Item(item) => self.take_item(item),
            Message::End(end) => {
                self.take_end(end);
                Ok(())
            }
        }
    }

    pub(crate) fn hand(&mut self, port: u32) -> Message
        requires { passing.wanted self.old ≡ Give port }
        ensures gives { Gives (meanings_of passing) port result self.old self.new }
        ensures same { IsSameTask (meanings_of passing) self.old self.new }
    {
        match self.held.take() {
            Some(message) => message,
            None => unreachable!(),
        }
    }

    pub(crate) fn verdict(&self) -> Verdict
        ensures { result ≡ passing.verdict self.now }
    {
        if self.stopped {
            return Verdict::Memory;
        }
        match (&self.held, self.end) {
            (Some(_), _) => Verdict::Running,
            (None, None) => Verdict::Running,
            (None, Some(end)) => self.order.verdict_at(end),
        }
    }
}

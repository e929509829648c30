//! The machine that holds its items. Once its input has ended it finds which of them are kept, and
//! gives those.
ghost use Rattle.std.specs.Prelude.{◌≡◌, ◌≤◌, ◌++◌, ◌∷◌, [], OnErr, OnOk, length};
ghost use Rattle.osm_entity.specs.Calls.{Gives, StopsInTake, Takes};
ghost use Rattle.osm_entity.specs.Machines.{IsNew, IsSameTask};
ghost use Rattle.osm_entity.specs.OneInput.{meanings_of};
ghost use Rattle.osm_entity.specs.declared.stream.Message.TheVariants.{Item as One, End as Last};
ghost use Rattle.osm_entity.specs.declared.stream.Want.TheVariants.{Give, Take};
ghost use Rattle.osm_select.specs.Held.{items_held};
ghost use Rattle.osm_select.specs.Holding.{choice_gives, holding};
ghost use Rattle.osm_select.specs.Order.{end_after};
ghost use Rattle.osm_select.specs.declared.phase.Phase.TheVariants.{Closed, Giving, Stopped};

use crate::choosing::Choice;
use crate::order::Order;
use crate::phase::Phase;
use osm_area::Area;
use osm_entity::{End, Held, Item, Message, NoMemory, Verdict, Want};
use std::alloc::Global;

/// Gives the items that an area keeps once all of them came, and then its end.
#[derive(Drop)]
pub(crate) struct Holding {
    alloc: Global,
    area: Area,
    complete: bool,
    clip: bool,
    order: Order,
    /// The items that came, and then those of them that were not given or dropped.
    items: Held,
    /// Which of them are given.
    choice: Choice,
    phase: Phase,
}

impl Holding {
    pub(crate) fn new(alloc: Global, area: Area, complete: bool, clip: bool) -> Self
        ensures new { IsNew (meanings_of holding) result }
        ensures area { result.area ≡ area }
        ensures complete { result.complete ≡ complete }
        ensures clip { result.clip ≡ clip }
    {
        Holding {
            alloc,
            area,
            complete,
            clip,
            order: Order::new(),
            items: Held::new(alloc),
            choice: Choice::none(alloc),
            phase: Phase::Gathering,
        }
    }

    pub(crate) fn want(&self) -> Want
        ensures { result ≡ holding.wanted self.now }
    {
        match self.phase {
            Phase::Gathering => Want::Take(0),
            Phase::Giving(_) => Want::Give(0),
            Phase::Closed(_) => Want::Ended,
            Phase::Stopped => Want::Ended,
        }
    }

    fn take_item(&mut self, item: Item) -> Result<(), NoMemory>
        requires { holding.wanted self.old ≡ Take 0 }
        ensures takes { OnOk result (Takes (meanings_of holding) 0 (One item) self.old self.new) }
        ensures stops { OnErr result (self.new.phase ≡ Stopped) }
        ensures same { IsSameTask (meanings_of holding) self.old self.new }
    {
        if !self.order.admits(item.key().kind) {
            self.items = Held::new(self.alloc);
            return Ok(());
        }
        match self.items.push(item) {
            Ok(()) => Ok(()),
            Err(NoMemory) => {
                self.phase = Phase::Stopped;
                Err(NoMemory)
            }
        }
    }

    /// Finds what is given behind an end that is given.
    fn settle(&mut self, end: End) -> Result<(), NoMemory>
        ensures chosen { OnOk result (choice_gives self.new.clip self.new.choice self.new.items
            ≡ items_held self.old.area self.old.complete self.old.clip self.old.items end) }
        ensures shorter { length self.new.items ≤ length self.old.items }
        ensures same { self.new
            ≡ record self.old { items = self.new.items; choice = self.new.choice } }
    {
        match end {
            End::Done => {
                self.choice = Choice::of(
                    self.alloc,
                    &self.area,
                    self.complete,
                    self.clip,
                    &self.items,
                )?;
                Ok(())
            }
            End::Broken => {
                self.items = Held::new(self.alloc);
                Ok(())
            }
        }
    }

    fn take_end(&mut self, end: End) -> Result<(), NoMemory>
        requires { holding.wanted self.old ≡ Take 0 }
        ensures takes { OnOk result (Takes (meanings_of holding) 0 (Last end) self.old self.new) }
        ensures stops { OnErr result (self.new.phase ≡ Stopped) }
        ensures same { IsSameTask (meanings_of holding) self.old self.new }
    {
        let last = self.order.end_after(end);
        match self.settle(last) {
            Ok(()) => {
                self.phase = Phase::Giving(end);
                Ok(())
            }
            Err(NoMemory) => {
                self.phase = Phase::Stopped;
                Err(NoMemory)
            }
        }
    }

    pub(crate) fn accept(&mut self, port: u32, message: Message) -> Result<(), NoMemory>
        requires { holding.wanted self.old ≡ Take port }
        ensures takes { OnOk result (Takes (meanings_of holding) port message self.old self.new) }
        ensures stops { OnErr result
            (StopsInTake (meanings_of holding) port message self.old self.new) }
        ensures same { IsSameTask (meanings_of holding) self.old self.new }
    {
        match message {
            Message::Item(item) => self.take_item(item),
            Message::End(end) => self.take_end(end),
        }
    }

    fn close(&mut self, end: End)
        ensures { self.new
            ≡ record self.old { items = []; choice = self.new.choice; phase = Closed end } }
    {
        self.items = Held::new(self.alloc);
        self.choice = Choice::none(self.alloc);
        self.phase = Phase::Closed(end);
    }

    pub(crate) fn hand(&mut self, port: u32) -> Message
        requires { holding.wanted self.old ≡ Give port }
        ensures gives { Gives (meanings_of holding) port result self.old self.new }
        ensures same { IsSameTask (meanings_of holding) self.old self.new }
    {
        let Phase::Giving(end) = self.phase else {
            unreachable!()
        };
        match self.choice.next(self.clip, &mut self.items) {
            Some(item) => Message::Item(item),
            None => {
                self.close(end);
                Message::End(self.order.end_after(end))
            }
        }
    }

    pub(crate) fn verdict(&self) -> Verdict
        ensures { result ≡ holding.verdict self.now }
    {
        match self.phase {
            Phase::Gathering => Verdict::Running,
            Phase::Giving(_) => Verdict::Running,
            Phase::Closed(end) => self.order.verdict_at(end),
            Phase::Stopped => Verdict::Memory,
        }
    }
}

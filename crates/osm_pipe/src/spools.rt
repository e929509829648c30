//! Spools: a queue of items that grows, and beside it a slot for the end.
//!
//! The end stands in the slot with the number of items before it, and is taken after that many.
//! The slot is made with the spool, so the end takes no memory.
ghost use Rattle.std.specs.Prelude.{◌≡◌, [], true, false, None, IfErr, OnOk, IfSome, IfNone};
ghost use Rattle.crossbeam_queue.specs.Passes.{IsPassOf, IsSamePass};
ghost use Rattle.osm_entity.specs.Ports.{has_end};
ghost use Rattle.osm_entity.specs.declared.stream.Message.TheVariants as Says;
ghost use Rattle.osm_pipe.specs.Rule.{hand};
ghost use Rattle.osm_pipe.specs.Spool.{spool_more, items_hand, ends_hand, kept_of};

use crate::channels::TRIES;
use crate::rule::{Hand, Sends, Takes};
use crate::store::{Last, Slot, Store};
use crossbeam_queue::{Pass, SegPass};
use osm_entity::{End, Item, Message};
use std::marker::Model;
use std::sync::{Arc, Wait};
use std::thread;

mod halves;

pub use halves::{spool_halves, spool_meets};

type ItemPass = SegPass<Item, Hand<Item>>;

type EndPass = Pass<Last, Hand<Last>>;

/// The giving half of a spool, seen as the spool and what was sent.
#[derive(Drop)]
pub struct SpoolGiver {
    store: Arc<Store>,
    items: ItemPass,
    ends: EndPass,
    count: u64,
}

impl Model for SpoolGiver {
    ghost use Rattle.std.specs.Arc.{arc_value};
    ghost use Rattle.crossbeam_queue.specs.Passes.{IsPassOf};
    ghost use Rattle.crossbeam_queue.specs.SegTies.{IsSegPassOf};
    ghost use Rattle.osm_pipe.specs.Spool.{SpoolValue, spool_half, spool_of, spooled, items_hand, ends_hand, GivesSpool};

    ghost Value = { SpoolValue };

    ghost view = { λ g. spool_half (spool_of g.items g.ends)
        (spooled (items_hand g.items).sent (ends_hand g.ends).sent) };

    ghost invariant = { λ g. IsSegPassOf (arc_value g.store).queue g.items
        × IsPassOf (arc_value g.store).slot g.ends
        × GivesSpool (items_hand g.items) (ends_hand g.ends) g.count };
}

/// The taking half of a spool, seen as the spool and what was taken.
#[derive(Drop)]
pub struct SpoolTaker {
    store: Arc<Store>,
    items: ItemPass,
    ends: EndPass,
    count: u64,
    last: Option<Last>,
    has_ended: bool,
}

impl Model for SpoolTaker {
    ghost use Rattle.std.specs.Arc.{arc_value};
    ghost use Rattle.crossbeam_queue.specs.Passes.{IsPassOf};
    ghost use Rattle.crossbeam_queue.specs.SegTies.{IsSegPassOf};
    ghost use Rattle.osm_pipe.specs.Spool.{SpoolValue, spool_half, spool_of, spooled, shown, items_hand, ends_hand, TakesSpool};

    ghost Value = { SpoolValue };

    ghost view = { λ t. spool_half (spool_of t.items t.ends)
        (spooled (items_hand t.items).taken (shown t.has_ended (ends_hand t.ends).taken)) };

    ghost invariant = { λ t. IsSegPassOf (arc_value t.store).queue t.items
        × IsPassOf (arc_value t.store).slot t.ends
        × TakesSpool (items_hand t.items) (ends_hand t.ends) t.count t.last t.has_ended };
}

impl SpoolGiver {
    /// Sends an item. At `Err` it was out of memory, or 2^64 - 1 items were sent, and the item
    /// comes back.
    #[tactic(auto, using(crate::proofs::RuleLemmas::sends, crate::proofs::RuleLemmas::within_any, crate::proofs::SpoolLemmas::no_ends, crate::proofs::SpoolLemmas::spooled_item))]
    pub fn push<R: Wait>(&mut self, rt: &R, item: Item) -> Result<(), Item>
        requires before_end { has_end self.old.list ≡ false }
        ensures ok { OnOk result (self.new ≡ spool_more self.old (Says.Item item)) }
        ensures err { IfErr result (λ back. (back ≡ item) × (self.new ≡ self.old)) }
    {
        let half = &mut *self;
        if half.count == u64::MAX {
            return Err(item);
        }
        match half
            .store
            .queue
            .push_as::<Sends, R>(rt, &mut half.items, item)
        {
            Ok(()) => {
                half.count += 1;
                half.store.bell.ring();
                Ok(())
            }
            Err(back) => Err(back),
        }
    }

    /// Sends the end.
    #[tactic(auto, using(crate::proofs::RuleLemmas::sends, crate::proofs::RuleLemmas::within_any, crate::proofs::RuleLemmas::holds_less, crate::proofs::SpoolLemmas::no_ends, crate::proofs::SpoolLemmas::spooled_end))]
    pub fn close<R: Wait>(&mut self, rt: &R, end: End)
        requires before_end { has_end self.old.list ≡ false }
        ensures { self.new ≡ spool_more self.old (Says.End end) }
    {
        let half = &mut *self;
        let last = Last {
            end,
            count: half.count,
        };
        match half
            .store
            .slot
            .push_as::<Sends, R>(rt, &mut half.ends, last)
        {
            Ok(()) => half.store.bell.ring(),
            // The slot was never filled.
            Err(_) => unreachable!(),
        }
    }
}

/// Looks into the slot, unless its end was found before.
#[tactic(auto, using(crate::proofs::SpoolLemmas::found))]
fn look<R: Wait>(rt: &R, slot: &Slot, ends: &mut EndPass, last: Option<Last>) -> Option<Last>
    requires seat { IsPassOf slot.now ends.old }
    requires takes { ends_hand ends.old ≡ hand false true None [] (kept_of last) }
    ensures seat { IsSamePass ends.old ends.new }
    ensures takes { ends_hand ends.new ≡ hand false true None [] (kept_of result) }
{
    match last {
        Some(_) => last,
        None => slot.pop_as::<Takes, R>(rt, ends),
    }
}

impl SpoolTaker {
    /// Takes the item sent first of those that are left, if one is there.
    #[tactic(auto, using(crate::proofs::RuleLemmas::takes, crate::proofs::SpoolLemmas::unshown, crate::proofs::SpoolLemmas::spooled_item))]
    fn try_item<R: Wait>(&mut self, rt: &R) -> Option<Item>
        ensures found { IfSome result (λ item. self.new ≡ spool_more self.old (Says.Item item)) }
        ensures none { IfNone result (self.new ≡ self.old) }
    {
        let half = &mut *self;
        if half.has_ended {
            return None;
        }
        // No more items than this are sent.
        if half.count == u64::MAX {
            return None;
        }
        match half.store.queue.pop_as::<Takes, R>(rt, &mut half.items) {
            Some(item) => {
                half.count += 1;
                Some(item)
            }
            None => None,
        }
    }

    /// Takes the end, if all items before it were taken.
    #[tactic(auto, using(crate::proofs::SpoolLemmas::takes_end, crate::proofs::SpoolLemmas::takes_none, crate::proofs::SpoolLemmas::shown_end, crate::proofs::SpoolLemmas::shown_none))]
    fn try_end<R: Wait>(&mut self, rt: &R) -> Option<End>
        ensures found { IfSome result (λ end. self.new ≡ spool_more self.old (Says.End end)) }
        ensures none { IfNone result (self.new ≡ self.old) }
    {
        let half = &mut *self;
        if half.has_ended {
            return None;
        }
        half.last = look(rt, &half.store.slot, &mut half.ends, half.last);
        match half.last {
            Some(last) if last.count == half.count => {
                half.has_ended = true;
                Some(last.end)
            }
            _ => None,
        }
    }

    /// Takes the message sent first of those that are left, if one is there.
    fn try_receive<R: Wait>(&mut self, rt: &R) -> Option<Message>
        ensures found { IfSome result (λ message. self.new ≡ spool_more self.old message) }
        ensures none { IfNone result (self.new ≡ self.old) }
    {
        if let Some(item) = self.try_item(rt) {
            return Some(Message::Item(item));
        }
        match self.try_end(rt) {
            Some(end) => Some(Message::End(end)),
            None => None,
        }
    }

    /// Takes a message, which waits while there is none.
    pub fn receive<R: Wait>(&mut self, rt: &R) -> Message
        ensures { self.new ≡ spool_more self.old result }
    {
        for _ in 0..TRIES {
            if let Some(message) = self.try_receive(rt) {
                return message;
            }
            thread::yield_now();
        }
        for _ in rt.forever() {
            let heard = self.store.bell.heard();
            if let Some(message) = self.try_receive(rt) {
                return message;
            }
            self.store.bell.sleep(rt, heard);
        }
        unreachable!()
    }
}

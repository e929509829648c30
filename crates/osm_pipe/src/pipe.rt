//! Pipes of either kind, by their halves.
ghost use Rattle.std.specs.Prelude.{◌≡◌, ◌<◌, ◌-◌, [], true, false, Some, None, length, IfOk, IfErr, OnOk};
ghost use Rattle.osm_entity.specs.Ports.{has_end};
ghost use Rattle.osm_entity.specs.declared.stream.Message.TheVariants as Says;
ghost use Rattle.osm_pipe.specs.Pipes.{half, half_more, capacity_of, Meets};
ghost use Rattle.osm_pipe.specs.Rule.{IsWithin};

use crate::channels::{bounded_halves, bounded_meets};
use crate::spools::{spool_halves, spool_meets};
use crate::way::{GiverWay, TakerWay};
use osm_entity::{End, Item, Message, NoMemory};
use std::alloc::Global;
use std::marker::Model;
use std::sync::Wait;

/// The giving half of a pipe whose end was not yet sent, seen as the pipe and what was sent.
#[derive(Drop)]
pub struct Giver {
    way: GiverWay,
}

impl Model for Giver {
    ghost use Rattle.std.specs.Prelude.{◌≡◌, false};
    ghost use Rattle.osm_entity.specs.Ports.{has_end};
    ghost use Rattle.osm_pipe.specs.Pipes.{HalfValue, giver_half};

    ghost Value = { HalfValue };

    ghost view = { λ g. giver_half g.way };

    ghost invariant = { λ g. has_end (giver_half g.way).list ≡ false };
}

/// The giving half of a pipe after its end, seen as the pipe and what was sent.
#[derive(Drop)]
pub struct Sent {
    way: GiverWay,
}

impl Model for Sent {
    ghost use Rattle.std.specs.Prelude.{◌≡◌, true};
    ghost use Rattle.osm_entity.specs.Ports.{has_end, EndsLast};
    ghost use Rattle.osm_pipe.specs.Pipes.{HalfValue, giver_half};

    ghost Value = { HalfValue };

    ghost view = { λ s. giver_half s.way };

    ghost invariant = { λ s. (has_end (giver_half s.way).list ≡ true)
        × EndsLast (giver_half s.way).list };
}

/// The taking half of a pipe, seen as the pipe and what was taken.
#[derive(Drop)]
pub struct Taker {
    way: TakerWay,
}

impl Model for Taker {
    ghost use Rattle.osm_pipe.specs.Pipes.{HalfValue, taker_half};

    ghost Value = { HalfValue };

    ghost view = { λ t. taker_half t.way };
}

/// The taking half of a pipe that takes no more, seen as the pipe and what was taken.
#[derive(Drop)]
pub struct Taken {
    way: TakerWay,
}

impl Model for Taken {
    ghost use Rattle.osm_pipe.specs.Pipes.{HalfValue, taker_half};

    ghost Value = { HalfValue };

    ghost view = { λ t. taker_half t.way };
}

/// A new pipe that never holds more than `capacity` messages. An end is a message.
pub fn bounded<R: Wait>(_rt: &R, alloc: Global, capacity: u32) -> Result<(Giver, Taker), NoMemory>
    requires { 0 < capacity }
    ensures new { IfOk result (λ r. (r.0 ≡ half r.0.pipe []) × (r.1 ≡ half r.0.pipe [])) }
    ensures limit { IfOk result (λ r. capacity_of r.0.pipe ≡ Some capacity) }
{
    let (giver, taker) = bounded_halves(alloc, capacity)?;
    let giver = Giver {
        way: GiverWay::Bounded(giver),
    };
    let taker = Taker {
        way: TakerWay::Bounded(taker),
    };
    Ok((giver, taker))
}

/// A new pipe that holds as many messages as there is memory for.
pub fn spool<R: Wait>(_rt: &R, alloc: Global) -> Result<(Giver, Taker), NoMemory>
    ensures new { IfOk result (λ r. (r.0 ≡ half r.0.pipe []) × (r.1 ≡ half r.0.pipe [])) }
    ensures limit { IfOk result (λ r. capacity_of r.0.pipe ≡ None) }
{
    let (giver, taker) = spool_halves(alloc)?;
    let giver = Giver {
        way: GiverWay::Spool(giver),
    };
    let taker = Taker {
        way: TakerWay::Spool(taker),
    };
    Ok((giver, taker))
}

impl Giver {
    /// Sends an item, which may wait while the pipe is full. At `Err` a spool is out of memory, or
    /// sent 2^64 - 1 items before; the item comes back, and nothing was sent.
    #[tactic(auto, using(crate::proofs::PipeLemmas::has_end_item))]
    pub fn give<R: Wait>(&mut self, rt: &R, item: Item) -> Result<(), Item>
        ensures ok { OnOk result (self.new ≡ half_more self.old (Says.Item item)) }
        ensures err { IfErr result (λ back. (back ≡ item) × (self.new ≡ self.old)) }
        ensures open { has_end self.new.list ≡ false }
        ensures spool { IfErr result (λ _. capacity_of self.old.pipe ≡ None) }
    {
        let half = &mut *self;
        match &mut half.way {
            GiverWay::Bounded(pipe) => {
                pipe.send(rt, Message::Item(item));
                Ok(())
            }
            GiverWay::Spool(spool) => spool.push(rt, item),
        }
    }

    /// Sends the end, which may wait while the pipe is full. It takes no memory.
    #[tactic(auto, using(crate::proofs::PipeLemmas::ends_last_end, crate::proofs::PipeLemmas::has_end_end))]
    pub fn end<R: Wait>(self, rt: &R, end: End) -> Sent
        ensures first { has_end self.list ≡ false }
        ensures sent { result ≡ half_more self (Says.End end) }
        ensures shut { has_end result.list ≡ true }
    {
        match self.way {
            GiverWay::Bounded(mut pipe) => {
                pipe.send(rt, Message::End(end));
                Sent {
                    way: GiverWay::Bounded(pipe),
                }
            }
            GiverWay::Spool(mut spool) => {
                spool.close(rt, end);
                Sent {
                    way: GiverWay::Spool(spool),
                }
            }
        }
    }
}

impl Taker {
    /// Takes the message that was sent first of those that are left, which may wait for it.
    pub fn take<R: Wait>(&mut self, rt: &R) -> Message
        requires before_end { has_end self.old.list ≡ false }
        ensures { self.new ≡ half_more self.old result }
    {
        let half = &mut *self;
        match &mut half.way {
            TakerWay::Bounded(pipe) => pipe.receive(rt),
            TakerWay::Spool(spool) => spool.receive(rt),
        }
    }

    /// Takes no more.
    pub fn finish(self) -> Taken
        ensures { result ≡ self }
    {
        Taken { way: self.way }
    }
}

/// Joins the two halves of one pipe, which shows what was taken beside what was sent.
pub fn meet<R: Wait>(rt: &R, sent: Sent, taken: Taken)
    requires { sent.pipe ≡ taken.pipe }
    ensures meets { Meets taken.list sent.list }
    ensures within { IsWithin (capacity_of sent.pipe) (length sent.list - length taken.list) }
{
    match sent.way {
        GiverWay::Bounded(sent) => match taken.way {
            TakerWay::Bounded(taken) => bounded_meets(sent, taken),
            TakerWay::Spool(_) => unreachable!(),
        },
        GiverWay::Spool(sent) => match taken.way {
            TakerWay::Spool(taken) => spool_meets(rt, sent, taken),
            TakerWay::Bounded(_) => unreachable!(),
        },
    }
}

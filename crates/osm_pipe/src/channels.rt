//! Bounded pipes: a channel of a fixed number of places, in which items and the end stand in order.
ghost use Rattle.std.specs.Prelude.{◌≡◌, ◌<◌, ◌-◌, ◌++◌, ◌∷◌, [], true, false, Some, length, IfOk};
ghost use Rattle.crossbeam_channel.specs.Claims.{view, IsSeatAt};
ghost use Rattle.crossbeam_channel.specs.Ends.{sends_on, receives_on, ruled_capacity};
ghost use Rattle.osm_entity.specs.Prefixes.{IsPrefix};
ghost use Rattle.osm_pipe.specs.Bounded.{bounded_half, bounded_more, bounded_of};
ghost use Rattle.osm_pipe.specs.Rule.{hand, HasSent, HasTaken, IsWithin};

use crate::rule::{Halves, Hand, InOrder, Limit, Sends, Takes, Whole};
use crossbeam_channel::{Pass, RuledReceiver, RuledSender, bounded_with};
use osm_entity::{Message, NoMemory};
use std::alloc::Global;
use std::marker::{Brand, Model};
use std::sync::Wait;
use std::thread;

/// How often a half tries, with a yield between, before it waits.
pub(crate) const TRIES: u32 = 8;

type To = RuledSender<Message, Hand<Message>, InOrder>;

type From = RuledReceiver<Message, Hand<Message>, InOrder>;

type Seat = Pass<Message, Hand<Message>>;

/// The giving half of a bounded pipe, seen as the pipe and what was sent.
#[derive(Drop)]
pub struct BoundedGiver {
    to: To,
    pass: Seat,
}

impl Model for BoundedGiver {
    ghost use Rattle.std.specs.Prelude.{Some};
    ghost use Rattle.crossbeam_channel.specs.Claims.{IsSeatAt};
    ghost use Rattle.crossbeam_channel.specs.Ends.{sends_on, ruled_capacity};
    ghost use Rattle.osm_pipe.specs.Bounded.{BoundedValue, bounded_half, bounded_of, hand_of};
    ghost use Rattle.osm_pipe.specs.Rule.{SendsOnly};

    ghost Value = { BoundedValue };

    ghost view = { λ g. bounded_half (bounded_of g.pass) (hand_of g.pass).sent };

    ghost invariant = { λ g. IsSeatAt (sends_on g.to) g.pass
        × SendsOnly (Some (ruled_capacity (sends_on g.to))) (hand_of g.pass) };
}

/// The taking half of a bounded pipe, seen as the pipe and what was taken.
#[derive(Drop)]
pub struct BoundedTaker {
    from: From,
    pass: Seat,
}

impl Model for BoundedTaker {
    ghost use Rattle.crossbeam_channel.specs.Claims.{IsSeatAt};
    ghost use Rattle.crossbeam_channel.specs.Ends.{receives_on};
    ghost use Rattle.osm_pipe.specs.Bounded.{BoundedValue, bounded_half, bounded_of, hand_of};
    ghost use Rattle.osm_pipe.specs.Rule.{TakesOnly};

    ghost Value = { BoundedValue };

    ghost view = { λ t. bounded_half (bounded_of t.pass) (hand_of t.pass).taken };

    ghost invariant = { λ t. IsSeatAt (receives_on t.from) t.pass
        × TakesOnly (hand_of t.pass).limit (hand_of t.pass) };
}

/// Cuts the first pass of a channel into those of its two halves.
fn part<L: Limit>(to: &To, pass: &mut Seat) -> Seat
    requires seat { IsSeatAt (sends_on to.now) pass.old }
    requires new { view pass.old ≡ hand true true (Some 0) [] [] }
    requires limit { L.limit ≡ Some (ruled_capacity (sends_on to.now)) }
    ensures seat { IsSeatAt (sends_on to.now) pass.new × IsSeatAt (sends_on to.now) result }
    ensures sends { view pass.new
        ≡ hand true false (Some (ruled_capacity (sends_on to.now))) [] [] }
    ensures takes { view result
        ≡ hand false true (Some (ruled_capacity (sends_on to.now))) [] [] }
{
    to.another::<Halves<L>>(pass)
}

/// Sends a message, which waits while the channel is full.
fn send<R: Wait>(rt: &R, to: &To, pass: &mut Seat, message: Message)
    requires seat { IsSeatAt (sends_on to.now) pass.old }
    requires sends { (view pass.old).sends ≡ true }
    requires limit { (view pass.old).limit ≡ Some (ruled_capacity (sends_on to.now)) }
    ensures seat { IsSeatAt (sends_on to.now) pass.new }
    ensures same { bounded_of pass.new ≡ bounded_of pass.old }
    ensures sent { HasSent (view pass.old) message (view pass.new) }
{
    let mut message = message;
    for _ in 0..TRIES {
        match to.try_send_as::<Sends, R>(rt, pass, message) {
            Ok(()) => return,
            Err(refused) => message = refused.into_inner(),
        }
        thread::yield_now();
    }
    for _ in rt.forever() {
        match to.send_as::<Sends, R>(rt, pass, message) {
            Ok(()) => return,
            Err(refused) => message = refused.into_inner(),
        }
    }
    unreachable!()
}

/// Takes the message sent first of those that are left, which waits while there is none.
fn receive<R: Wait>(rt: &R, from: &From, pass: &mut Seat) -> Message
    requires seat { IsSeatAt (receives_on from.now) pass.old }
    requires takes { (view pass.old).takes ≡ true }
    ensures seat { IsSeatAt (receives_on from.now) pass.new }
    ensures same { bounded_of pass.new ≡ bounded_of pass.old }
    ensures taken { HasTaken (view pass.old) result (view pass.new) }
{
    for _ in 0..TRIES {
        match from.try_recv_as::<Takes, R>(rt, pass) {
            Ok(message) => return message,
            Err(_) => thread::yield_now(),
        }
    }
    for _ in rt.forever() {
        if let Ok(message) = from.recv_as::<Takes, R>(rt, pass) {
            return message;
        }
    }
    unreachable!()
}

/// A new bounded pipe of `capacity` places.
pub fn bounded_halves(
    alloc: Global,
    capacity: u32,
) -> Result<(BoundedGiver, BoundedTaker), NoMemory>
    requires { 0 < capacity }
    ensures new { IfOk result
        (λ r. (r.0 ≡ bounded_half r.0.pipe []) × (r.1 ≡ bounded_half r.0.pipe [])) }
    ensures limit { IfOk result (λ r. r.0.pipe.limit ≡ Some capacity) }
{
    match bounded_with(alloc, capacity as usize) {
        Ok((to, from, mut pass)) => {
            let other = part::<Brand>(&to, &mut pass);
            Ok((
                BoundedGiver { to, pass },
                BoundedTaker { from, pass: other },
            ))
        }
        Err(_) => Err(NoMemory),
    }
}

impl BoundedGiver {
    /// Sends a message, which waits while the pipe is full.
    pub fn send<R: Wait>(&mut self, rt: &R, message: Message)
        ensures { self.new ≡ bounded_more self.old message }
    {
        let half = &mut *self;
        send(rt, &half.to, &mut half.pass, message)
    }
}

impl BoundedTaker {
    /// Takes a message, which waits while the pipe is empty.
    pub fn receive<R: Wait>(&mut self, rt: &R) -> Message
        ensures { self.new ≡ bounded_more self.old result }
    {
        let half = &mut *self;
        receive(rt, &half.from, &mut half.pass)
    }
}

/// Joins the two halves of a pipe: what was taken is a prefix of what was sent.
pub fn bounded_meets(sent: BoundedGiver, taken: BoundedTaker)
    requires { sent.pipe ≡ taken.pipe }
    ensures prefix { IsPrefix taken.list sent.list }
    ensures within { IsWithin sent.pipe.limit (length sent.list - length taken.list) }
{
    let BoundedGiver { to, mut pass } = sent;
    let BoundedTaker {
        from: _,
        pass: other,
    } = taken;
    to.absorb::<Halves<Brand>>(&mut pass, other);
    to.learn_as::<Whole>(&mut pass);
}

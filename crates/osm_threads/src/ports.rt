//! The ports of a task: halves of pipes, before and after their ends.
ghost use Rattle.std.specs.Prelude.{◌≡◌, ℕ, ◌∷◌, [], ◌<◌, length, Some, None, true, false, IsSome};
ghost use Rattle.osm_entity.specs.Ports.{added, has_end};
ghost use Rattle.osm_threads.specs.Ports.{HasMore, broken_off, in_row, is_shut, messages_at, pipes_at, port_more};

use osm_entity::{End, Message};
use osm_pipe::{Giver, Sent, Taken, Taker};
use std::marker::Model;
use std::sync::Wait;

/// An output port, seen as the half of a pipe that is there.
#[derive(Drop)]
pub struct Outlet {
    giver: Option<Giver>,
    sent: Option<Sent>,
}

impl Model for Outlet {
    ghost use Rattle.osm_threads.specs.Ports.{PortHalf, outlet_half, IsOutlet};

    ghost Value = { PortHalf };

    ghost view = { λ o. outlet_half o.giver o.sent };

    ghost invariant = { λ o. IsOutlet o.giver o.sent };
}

/// An input port, seen as the half of a pipe that is there.
#[derive(Drop)]
pub struct Inlet {
    taker: Option<Taker>,
    has_ended: bool,
}

impl Model for Inlet {
    ghost use Rattle.std.specs.Prelude.{◌≡◌};
    ghost use Rattle.osm_threads.specs.Ports.{PortHalf, is_shut};

    ghost Value = { PortHalf };

    ghost view = { λ i. i.taker };

    ghost invariant = { λ i. i.has_ended ≡ is_shut i.taker };
}

/// The ports of a task, by their numbers.
#[derive(Drop)]
pub struct TaskPorts {
    pub inlets: Vec<Inlet>,
    pub outlets: Vec<Outlet>,
}

/// Whether a message is an end.
fn is_end(message: &Message) -> bool
    ensures { result ≡ has_end (message.now ∷ []) }
{
    match message {
        Message::Item(_) => false,
        Message::End(_) => true,
    }
}

impl Outlet {
    /// A port without a pipe.
    pub fn new() -> Outlet
        ensures { result ≡ None }
    {
        Outlet {
            giver: None,
            sent: None,
        }
    }

    /// A port with the giver of a pipe.
    pub fn of(giver: Giver) -> Outlet
        requires { has_end giver.list ≡ false }
        ensures { result ≡ Some giver }
    {
        Outlet {
            giver: Some(giver),
            sent: None,
        }
    }

    /// Gives a message, before the end: whether it was given. Where it wasn't, the pipe is a spool out of memory.
    pub fn give<R: Wait>(&mut self, rt: &R, message: Message) -> bool
        requires { is_shut self.old ≡ false }
        ensures given { result ≡ true → self.new ≡ port_more self.old message }
        ensures same { result ≡ false → self.new ≡ self.old }
    {
        match message {
            Message::Item(item) => match self.giver.as_mut() {
                Some(giver) => match giver.give(rt, item) {
                    Ok(()) => true,
                    Err(_) => false,
                },
                None => unreachable!(),
            },
            Message::End(end) => match self.giver.take() {
                Some(giver) => {
                    self.sent = Some(giver.end(rt, end));
                    true
                }
                None => unreachable!(),
            },
        }
    }

    /// Gives a broken end, unless the end was given.
    pub fn break_off<R: Wait>(&mut self, rt: &R)
        ensures { self.new ≡ broken_off self.old }
    {
        if let Some(giver) = self.giver.take() {
            self.sent = Some(giver.end(rt, End::Broken));
        }
    }

    /// Takes away what was sent, after the end.
    pub fn leave(&mut self) -> Sent
        requires there { IsSome self.old }
        requires shut { is_shut self.old ≡ true }
        ensures sent { self.old ≡ Some result }
        ensures none { self.new ≡ None }
    {
        match self.sent.take() {
            Some(sent) => sent,
            None => unreachable!(),
        }
    }
}

impl Inlet {
    /// A port without a pipe.
    pub fn new() -> Inlet
        ensures { result ≡ None }
    {
        Inlet {
            taker: None,
            has_ended: true,
        }
    }

    /// A port with the taker of a pipe.
    pub fn of(taker: Taker) -> Inlet
        requires { has_end taker.list ≡ false }
        ensures { result ≡ Some taker }
    {
        Inlet {
            taker: Some(taker),
            has_ended: false,
        }
    }

    /// Takes the next message, before the end.
    #[tactic(auto, using(crate::proofs::PortLemmas::end_by_last))]
    pub fn take<R: Wait>(&mut self, rt: &R) -> Message
        requires { is_shut self.old ≡ false }
        ensures { self.new ≡ port_more self.old result }
    {
        match self.taker.as_mut() {
            Some(taker) => {
                let message = taker.take(rt);
                self.has_ended = is_end(&message);
                message
            }
            None => unreachable!(),
        }
    }

    // Whether the end was taken.
    fn has_ended(&self) -> bool
        ensures { result ≡ is_shut self.now }
    {
        self.has_ended
    }

    /// Takes all messages that come, to the end.
    #[tactic(auto, using(crate::proofs::PortLemmas::drained_itself, crate::proofs::PortLemmas::drained_more))]
    pub fn drain<R: Wait>(&mut self, rt: &R)
        ensures more { HasMore self.old self.new }
        ensures shut { is_shut self.new ≡ true }
    {
        for _ in rt.forever() {
            if self.has_ended() {
                return;
            }
            self.take(rt);
        }
        unreachable!()
    }

    /// Takes away what was taken.
    pub fn leave(&mut self) -> Taken
        requires { IsSome self.old }
        ensures taken { self.old ≡ Some result }
        ensures none { self.new ≡ None }
    {
        let taker = self.taker.take();
        self.has_ended = true;
        match taker {
            Some(taker) => taker.finish(),
            None => unreachable!(),
        }
    }
}

/// Takes a message at a port.
#[tactic(auto, using(crate::proofs::PortLemmas::within_row, crate::proofs::PortLemmas::open_in_row, crate::proofs::PortLemmas::pipes_more))]
pub fn take_at<R: Wait>(rt: &R, inlets: &mut Vec<Inlet>, port: u32) -> Message
    requires there { IsSome (in_row inlets.old.items port) }
    requires open { has_end (messages_at inlets.old.items port) ≡ false }
    ensures pipes { pipes_at inlets.new.items ≡ pipes_at inlets.old.items }
    ensures taken { messages_at inlets.new.items ≡ added (messages_at inlets.old.items) port result }
{
    let inlet = &mut inlets[port as usize];
    inlet.take(rt)
}

/// Gives a message at a port: whether it was given. Where it wasn't, memory was wanted.
#[tactic(auto, using(crate::proofs::PortLemmas::within_row, crate::proofs::PortLemmas::open_in_row, crate::proofs::PortLemmas::pipes_more, crate::proofs::PortLemmas::row_same))]
pub fn give_at<R: Wait>(rt: &R, outlets: &mut Vec<Outlet>, port: u32, message: Message) -> bool
    requires there { IsSome (in_row outlets.old.items port) }
    requires open { has_end (messages_at outlets.old.items port) ≡ false }
    ensures pipes { pipes_at outlets.new.items ≡ pipes_at outlets.old.items }
    ensures given { result ≡ true
        → messages_at outlets.new.items ≡ added (messages_at outlets.old.items) port message }
    ensures same { result ≡ false → messages_at outlets.new.items ≡ messages_at outlets.old.items }
{
    let outlet = &mut outlets[port as usize];
    outlet.give(rt, message)
}

/// Gives a broken end at each port where none was given.
pub fn break_all<R: Wait>(rt: &R, outlets: &mut Vec<Outlet>)
    ensures each { (p : ℕ) → in_row outlets.new.items p ≡ broken_off (in_row outlets.old.items p) }
    ensures count { length outlets.new.items ≡ length outlets.old.items }
{
    for outlet in outlets.iter_mut() {
        outlet.break_off(rt);
    }
}

/// Takes all that comes at each port, to its end.
pub fn drain_all<R: Wait>(rt: &R, inlets: &mut Vec<Inlet>)
    ensures each { (p : ℕ) → HasMore (in_row inlets.old.items p) (in_row inlets.new.items p) }
    ensures shut { (p : ℕ) → p < length inlets.new.items
        → is_shut (in_row inlets.new.items p) ≡ true }
    ensures count { length inlets.new.items ≡ length inlets.old.items }
{
    for inlet in inlets.iter_mut() {
        inlet.drain(rt);
    }
}

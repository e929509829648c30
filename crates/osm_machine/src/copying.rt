//! The machine of tee, buffer and spool: it gives each message at each of its outputs.
ghost use Rattle.std.specs.Prelude.{◌≡◌, ◌≢◌, ◌<◌, true, Some, None, IfOk, OnOk, OnErr};
ghost use Rattle.osm_entity.specs.Calls.{Gives, StopsInGive, Takes};
ghost use Rattle.osm_entity.specs.Machines.{IsNew, IsSameTask};
ghost use Rattle.osm_entity.specs.declared.stream.Want.TheVariants.{Give, Take};
ghost use Rattle.osm_machine.specs.Copying.{copying, copying_task};

use crate::ending::end_in;
use osm_entity::{End, Message, NoMemory, Verdict, Want};
use std::alloc::Global;
use std::marker::Model;

/// Gives its input at each of its outputs, in the order of their numbers. It holds one message; the
/// last output gets the message itself, and each other one a copy.
#[derive(Drop)]
pub struct Copying {
    alloc: Global,
    /// How many outputs it has, at least one.
    outputs: u32,
    /// What it has to give.
    held: Option<Message>,
    /// The output that it gives it at next; 0 where it holds nothing.
    next: u32,
    /// The end that came.
    end: Option<End>,
    /// Whether it is out of memory.
    stopped: bool,
}

impl Model for Copying {
    ghost use Rattle.std.specs.Prelude.{◌<◌};
    ghost use Rattle.osm_machine.specs.Copying.{CopyingValue};

    ghost Value = { CopyingValue };

    ghost view = { λ c. record {
      outputs = c.outputs;
      held = c.held;
      next = c.next;
      end = c.end;
      stopped = c.stopped;
    } };

    ghost invariant = { λ c. c.next < c.outputs };
}

impl Copying {
    /// A machine that took nothing yet.
    pub fn new(alloc: Global, outputs: u32) -> Copying
        requires { 0 < outputs }
        ensures new { IsNew copying result }
        ensures task { copying.task result ≡ copying_task outputs }
    {
        Copying {
            alloc,
            outputs,
            held: None,
            next: 0,
            end: None,
            stopped: false,
        }
    }

    /// How many outputs it has.
    pub fn outputs(&self) -> u32
        ensures { result ≡ self.now.outputs }
    {
        self.outputs
    }

    pub fn want(&self) -> Want
        ensures { result ≡ copying.wanted self.now }
    {
        match (&self.held, self.end) {
            (Some(_), _) => Want::Give(self.next),
            (None, None) => Want::Take(0),
            (None, Some(_)) => Want::Ended,
        }
    }

    /// Takes a message. It takes no memory.
    pub fn accept(&mut self, port: u32, message: Message)
        requires { copying.wanted self.old ≡ Take port }
        ensures takes { Takes copying port message self.old self.new }
        ensures same { IsSameTask copying self.old self.new }
    {
        self.end = end_in(&message);
        self.held = Some(message);
    }

    /// Gives the message that it holds. Out of memory nothing is given, and it is not called again.
    pub fn hand(&mut self, port: u32) -> Result<Message, NoMemory>
        requires { copying.wanted self.old ≡ Give port }
        ensures gives { IfOk result (λ message. Gives copying port message self.old self.new) }
        ensures stops { OnErr result (StopsInGive copying self.old self.new) }
        ensures same { IsSameTask copying self.old self.new }
    {
        if port < self.outputs - 1 {
            self.hand_copy(port + 1)
        } else {
            Ok(self.hand_last())
        }
    }

    // Gives a copy of the message that it holds, and then has it for this output.
    fn hand_copy(&mut self, next: u32) -> Result<Message, NoMemory>
        requires held { self.old.held ≢ None }
        requires known { next < self.old.outputs }
        ensures message { IfOk result (λ message. self.old.held ≡ Some message) }
        ensures next { OnOk result (self.new ≡ record self.old { next = next }) }
        ensures stops { OnErr result (self.new ≡ record self.old { stopped = true }) }
    {
        match self.copy() {
            Ok(message) => {
                self.next = next;
                Ok(message)
            }
            Err(NoMemory) => {
                self.stopped = true;
                Err(NoMemory)
            }
        }
    }

    // A copy of the message that it holds.
    fn copy(&self) -> Result<Message, NoMemory>
        requires { self.now.held ≢ None }
        ensures { IfOk result (λ message. self.now.held ≡ Some message) }
    {
        match &self.held {
            Some(Message::Item(item)) => Ok(Message::Item(item.copy(self.alloc)?)),
            Some(Message::End(end)) => Ok(Message::End(*end)),
            None => unreachable!(),
        }
    }

    // Gives the message that it holds, and then holds none.
    fn hand_last(&mut self) -> Message
        requires { self.old.held ≢ None }
        ensures message { self.old.held ≡ Some result }
        ensures same { self.new ≡ record self.old { held = None; next = 0 } }
    {
        self.next = 0;
        match self.held.take() {
            Some(message) => message,
            None => unreachable!(),
        }
    }

    pub fn verdict(&self) -> Verdict
        ensures { result ≡ copying.verdict self.now }
    {
        if self.stopped {
            return Verdict::Memory;
        }
        match (&self.held, self.end) {
            (Some(_), _) => Verdict::Running,
            (None, None) => Verdict::Running,
            (None, Some(end)) => Verdict::after(end),
        }
    }
}

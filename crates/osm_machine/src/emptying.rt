//! The machines of the two tasks without a file: read-empty and write-null.
ghost use Rattle.std.specs.Prelude.{◌≡◌};
ghost use Rattle.osm_entity.specs.Calls.{Gives, Takes};
ghost use Rattle.osm_entity.specs.Machines.{IsNew};
ghost use Rattle.osm_entity.specs.declared.stream.Want.TheVariants.{Give, Take};
ghost use Rattle.osm_machine.specs.Emptying.{dropping, emptying};

use crate::ending::end_in;
use osm_entity::{End, Message, Verdict, Want};

/// Gives no item, and then its end.
#[derive(Drop)]
pub struct Empty {
    /// Whether it gave its end.
    closed: bool,
}

impl Empty {
    /// A machine that gave nothing yet.
    pub fn new() -> Empty
        ensures { IsNew emptying result }
    {
        Empty { closed: false }
    }

    pub fn want(&self) -> Want
        ensures { result ≡ emptying.wanted self.now }
    {
        if self.closed {
            Want::Ended
        } else {
            Want::Give(0)
        }
    }

    /// Gives its end.
    pub fn hand(&mut self, port: u32) -> Message
        requires { emptying.wanted self.old ≡ Give port }
        ensures gives { Gives emptying port result self.old self.new }
    {
        self.closed = true;
        Message::End(End::Done)
    }

    pub fn verdict(&self) -> Verdict
        ensures { result ≡ emptying.verdict self.now }
    {
        if self.closed {
            Verdict::Clean
        } else {
            Verdict::Running
        }
    }
}

/// Takes its input to its end, and drops it.
#[derive(Drop)]
pub struct Dropping {
    /// The end that came.
    end: Option<End>,
}

impl Dropping {
    /// A machine that took nothing yet.
    pub fn new() -> Dropping
        ensures { IsNew dropping result }
    {
        Dropping { end: None }
    }

    pub fn want(&self) -> Want
        ensures { result ≡ dropping.wanted self.now }
    {
        match self.end {
            None => Want::Take(0),
            Some(_) => Want::Ended,
        }
    }

    /// Takes a message.
    pub fn accept(&mut self, port: u32, message: Message)
        requires { dropping.wanted self.old ≡ Take port }
        ensures takes { Takes dropping port message self.old self.new }
    {
        self.end = end_in(&message);
    }

    pub fn verdict(&self) -> Verdict
        ensures { result ≡ dropping.verdict self.now }
    {
        match self.end {
            None => Verdict::Running,
            Some(end) => Verdict::after(end),
        }
    }
}

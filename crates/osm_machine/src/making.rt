//! The machine of the task that makes items: it gives what a generator makes, and then its end.
ghost use Rattle.std.specs.Prelude.{◌≡◌, IfOk, OnErr};
ghost use Rattle.osm_entity.specs.Calls.{Gives, StopsInGive};
ghost use Rattle.osm_entity.specs.Machines.{IsNew, IsSameTask};
ghost use Rattle.osm_entity.specs.declared.stream.Want.TheVariants.{Give};
ghost use Rattle.osm_machine.specs.Making.{made_task, making};

use osm_entity::{End, Message, NoMemory, Verdict, Want};
use osm_made::Made;
use std::alloc::Global;
use std::marker::Model;

/// How far a machine that makes items is.
#[derive(Clone, Copy, Debug, PartialEq, Eq)]
pub(crate) enum Progress {
    /// It goes on.
    Going,
    /// It gave its end.
    Closed,
    /// It is out of memory.
    Stopped,
}

/// A machine that makes items out of numbers.
#[derive(Drop)]
pub struct Making {
    alloc: Global,
    made: Made,
    progress: Progress,
}

impl Model for Making {
    ghost use Rattle.osm_machine.specs.Making.{MakingValue};

    ghost Value = { MakingValue };

    ghost view = { λ m. record { made = m.made; progress = m.progress } };
}

impl Making {
    /// A machine that makes `count` items of this seed. It takes no memory.
    pub fn new(alloc: Global, count: u32, seed: u32) -> Making
        ensures new { IsNew making result }
        ensures task { making.task result ≡ made_task count seed }
    {
        Making {
            alloc,
            made: Made::new(count, seed),
            progress: Progress::Going,
        }
    }

    /// What it can do next.
    pub fn want(&self) -> Want
        ensures { result ≡ making.wanted self.now }
    {
        match self.progress {
            Progress::Going => Want::Give(0),
            Progress::Closed | Progress::Stopped => Want::Ended,
        }
    }

    /// Gives the next item, or the end. It is called where it wants to give; after `NoMemory` only
    /// `verdict` is.
    pub fn hand(&mut self, port: u32) -> Result<Message, NoMemory>
        requires { making.wanted self.old ≡ Give port }
        ensures gives { IfOk result (λ message. Gives making port message self.old self.new) }
        ensures stops { OnErr result (StopsInGive making self.old self.new) }
        ensures same { IsSameTask making self.old self.new }
    {
        match self.made.next(self.alloc) {
            Ok(Some(item)) => Ok(Message::Item(item)),
            Ok(None) => {
                self.progress = Progress::Closed;
                Ok(Message::End(End::Done))
            }
            Err(NoMemory) => {
                self.progress = Progress::Stopped;
                Err(NoMemory)
            }
        }
    }

    /// How it stands with it: running until its end was given, and then clean, or out of memory.
    pub fn verdict(&self) -> Verdict
        ensures { result ≡ making.verdict self.now }
    {
        match self.progress {
            Progress::Going => Verdict::Running,
            Progress::Closed => Verdict::Clean,
            Progress::Stopped => Verdict::Memory,
        }
    }
}

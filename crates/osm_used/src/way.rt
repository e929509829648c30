//! The task used-way.
ghost use Rattle.std.specs.Prelude.{◌≡◌, IfOk, OnErr, OnOk, IsOk};
ghost use Rattle.osm_entity.specs.Calls.{Gives, StopsInTake, Takes};
ghost use Rattle.osm_entity.specs.Machines.{IsNew, IsSameTask};
ghost use Rattle.osm_entity.specs.OneInput.{meanings_of};
ghost use Rattle.osm_entity.specs.declared.kind.Kind.TheVariants.{Way};
ghost use Rattle.osm_entity.specs.declared.stream.Want.TheVariants.{Take, Give};
ghost use Rattle.osm_used.specs.Using.{keeping_used};

use crate::using::Using;
use osm_entity::{Kind, Message, NoMemory, Verdict, Want};
use std::alloc::Global;
use std::marker::Model;

/// Gives a stream without the ways that are a member of no relation; after a broken end just the
/// items before the first way.
#[derive(Drop)]
pub struct UsedWay {
    using: Using,
}

impl Model for UsedWay {
    ghost use Rattle.osm_used.specs.Using.{UsedValue};

    ghost Value = { UsedValue };

    ghost view = { λ u. u.using };
}

impl UsedWay {
    /// A machine that took nothing yet. It takes no memory.
    pub fn new(alloc: Global) -> Result<UsedWay, NoMemory>
        ensures new { IfOk result (IsNew (meanings_of keeping_used)) }
        ensures kind { IfOk result (λ u. u.kind ≡ Way) }
        ensures ok { IsOk result }
    {
        Ok(UsedWay {
            using: Using::new(alloc, Kind::Way),
        })
    }

    /// What it can do next. Its ports are 0.
    pub fn want(&self) -> Want
        ensures { result ≡ keeping_used.wanted self.now }
    {
        self.using.want()
    }

    /// Takes a message, where it wants that. Out of memory it has stopped, behind what it took: its
    /// verdict says so, and nothing more is asked of it.
    pub fn accept(&mut self, port: u32, message: Message) -> Result<(), NoMemory>
        requires { keeping_used.wanted self.old ≡ Take port }
        ensures takes { OnOk result
            (Takes (meanings_of keeping_used) port message self.old self.new) }
        ensures stops { OnErr result
            (StopsInTake (meanings_of keeping_used) port message self.old self.new) }
        ensures same { IsSameTask (meanings_of keeping_used) self.old self.new }
    {
        self.using.accept(port, message)
    }

    /// Gives a message, where it wants that. It takes no memory.
    pub fn hand(&mut self, port: u32) -> Message
        requires { keeping_used.wanted self.old ≡ Give port }
        ensures gives { Gives (meanings_of keeping_used) port result self.old self.new }
        ensures same { IsSameTask (meanings_of keeping_used) self.old self.new }
    {
        self.using.hand(port)
    }

    /// How it stands with it: running until it gave its end, and then clean or passed.
    pub fn verdict(&self) -> Verdict
        ensures { result ≡ keeping_used.verdict self.now }
    {
        self.using.verdict()
    }
}

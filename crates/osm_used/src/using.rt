//! The machine of both tasks. It holds all items, and gathers the ids of its kind that they name;
//! once its input has ended it gives what is left.
ghost use Rattle.std.specs.Prelude.{◌≡◌, ◌||◌, ◌++◌, ◌∷◌, [], ℤ, OnErr, OnOk};
ghost use Rattle.osm_entity.specs.Calls.{Gives, StopsInTake, Takes};
ghost use Rattle.osm_entity.specs.Machines.{IsNew, IsSameTask};
ghost use Rattle.osm_entity.specs.OneInput.{meanings_of};
ghost use Rattle.osm_entity.specs.declared.stream.Want.TheVariants.{Take, Give};
ghost use Rattle.osm_used.specs.Used.{body_names, has_id};
ghost use Rattle.osm_used.specs.Using.{keeping_used};
ghost use Rattle.osm_used.specs.declared.phase.Phase.TheVariants.{Closed};

use crate::giving::next;
use crate::ids::Ids;
use crate::naming::add_named;
use crate::phase::Phase;
use osm_entity::{End, Entity, Held, Item, Kind, Message, NoMemory, Verdict, Want};
use std::alloc::Global;
use std::marker::Model;

/// Gives a stream without the entities of a kind that none of its items names.
#[derive(Drop)]
pub(crate) struct Using {
    alloc: Global,
    kind: Kind,
    /// The items that came, and then those of them that were not given or dropped.
    kept: Held,
    /// The ids of that kind that they name.
    named: Ids,
    phase: Phase,
}

impl Model for Using {
    ghost use Rattle.osm_used.specs.Using.{UsedValue};

    ghost Value = { UsedValue };

    ghost view = { λ u. record {
      kind = u.kind;
      kept = u.kept;
      named = u.named;
      phase = u.phase;
    } };
}

/// Adds an item to those that are held, and the ids that it names. At `Err` the item is lost.
fn hold(kind: Kind, item: Item, kept: &mut Held, named: &mut Ids) -> Result<(), NoMemory>
    ensures kept { OnOk result (kept.new ≡ kept.old ++ item ∷ []) }
    ensures named { OnOk result ((q : ℤ) → has_id named.new q
        ≡ (has_id named.old q || body_names kind item.entity.body q)) }
{
    let entity: &Entity = &item.entity;
    add_named(kind, &entity.body, named)?;
    kept.push(item)
}

impl Using {
    pub(crate) fn new(alloc: Global, kind: Kind) -> Self
        ensures new { IsNew (meanings_of keeping_used) result }
        ensures kind { result.kind ≡ kind }
    {
        Using {
            alloc,
            kind,
            kept: Held::new(alloc),
            named: Ids::new(alloc),
            phase: Phase::Gathering,
        }
    }

    pub(crate) fn want(&self) -> Want
        ensures { result ≡ keeping_used.wanted self.now }
    {
        match self.phase {
            Phase::Gathering => Want::Take(0),
            Phase::Giving(_) => Want::Give(0),
            Phase::Closed(_) => Want::Ended,
            Phase::Stopped => Want::Ended,
        }
    }

    pub(crate) fn accept(&mut self, port: u32, message: Message) -> Result<(), NoMemory>
        requires { keeping_used.wanted self.old ≡ Take port }
        ensures takes { OnOk result
            (Takes (meanings_of keeping_used) port message self.old self.new) }
        ensures stops { OnErr result
            (StopsInTake (meanings_of keeping_used) port message self.old self.new) }
        ensures same { IsSameTask (meanings_of keeping_used) self.old self.new }
    {
        match message {
            Message::Item(item) => {
                match hold(self.kind, item, &mut self.kept, &mut self.named) {
                    Ok(()) => Ok(()),
                    Err(NoMemory) => {
                        self.phase = Phase::Stopped;
                        Err(NoMemory)
                    }
                }
            }
            Message::End(end) => {
                self.named.sort();
                self.phase = Phase::Giving(end);
                Ok(())
            }
        }
    }

    fn close(&mut self, end: End)
        ensures kind { self.new.kind ≡ self.old.kind }
        ensures phase { self.new.phase ≡ Closed end }
    {
        self.kept = Held::new(self.alloc);
        self.named = Ids::new(self.alloc);
        self.phase = Phase::Closed(end);
    }

    pub(crate) fn hand(&mut self, port: u32) -> Message
        requires { keeping_used.wanted self.old ≡ Give port }
        ensures gives { Gives (meanings_of keeping_used) port result self.old self.new }
        ensures same { IsSameTask (meanings_of keeping_used) self.old self.new }
    {
        match self.phase {
            Phase::Giving(end) => match next(self.kind, end, &mut self.kept, &self.named) {
                Some(item) => Message::Item(item),
                None => {
                    self.close(end);
                    Message::End(end)
                }
            },
            _ => unreachable!(),
        }
    }

    pub(crate) fn verdict(&self) -> Verdict
        ensures { result ≡ keeping_used.verdict self.now }
    {
        match self.phase {
            Phase::Gathering => Verdict::Running,
            Phase::Giving(_) => Verdict::Running,
            Phase::Closed(end) => Verdict::after(end),
            Phase::Stopped => Verdict::Memory,
        }
    }
}

//! The machine of the task simplify-change. It holds the last change of each key until its input
//! has ended.
ghost use Rattle.std.specs.Prelude.{◌≡◌, IfOk, IsOk, OnOk, OnErr};
ghost use Rattle.osm_change.specs.Simplified.{kept_behind, with_latest};
ghost use Rattle.osm_change.specs.Simplifying.{HasPlaces, simplifying};
ghost use Rattle.osm_change.specs.declared.phase.Phase.TheVariants.{Gathering, Giving, Stopped};
ghost use Rattle.osm_entity.specs.Calls.{Gives, StopsInTake, Takes};
ghost use Rattle.osm_entity.specs.Machines.{IsNew, IsSameTask};
ghost use Rattle.osm_entity.specs.OneInput.{meanings_of};
ghost use Rattle.osm_entity.specs.declared.stream.Want.TheVariants.{Give, Take};

use crate::phase::Phase;
use osm_entity::{End, Held, Item, Key, Message, NoMemory, Verdict, Want};
use std::alloc::Global;
use std::collections::BTreeMap;
use std::marker::Model;

/// The task `simplify-change`: the last change of each key, at the place of the key's first. After
/// a broken end it gives no item.
#[derive(Drop)]
pub struct Simplify {
    alloc: Global,
    /// The items that are left to give.
    kept: Held,
    /// While it takes its input, the place of each key among the items.
    places: BTreeMap<Key, usize>,
    phase: Phase,
}

/// Puts an item in the place of the one of its key, or behind all where there is none.
fn keep_latest(
    kept: &mut Held,
    places: &mut BTreeMap<Key, usize>,
    item: Item,
) -> Result<(), NoMemory>
    requires { HasPlaces places.old kept.old }
    ensures ok { OnOk result (kept.new ≡ with_latest kept.old item) }
    ensures places { OnOk result (HasPlaces places.new kept.new) }
{
    let key = item.key();
    if let Some(place) = places.get(&key) {
        kept.replace(*place, item);
        return Ok(());
    }
    match places.insert(key, kept.len()) {
        Ok(_) => kept.push(item),
        Err(_) => Err(NoMemory),
    }
}

impl Model for Simplify {
    ghost use Rattle.osm_change.specs.Simplifying.{SimplifyValue, KeepsPlaces};

    ghost Value = { SimplifyValue };

    ghost view = { λ s. record { kept = s.kept; phase = s.phase } };

    ghost invariant = { λ s. KeepsPlaces s.phase s.places s.kept };
}

impl Simplify {
    /// A simplify that took nothing yet. It takes no memory, and always answers `Ok`.
    pub fn new(alloc: Global) -> Result<Simplify, NoMemory>
        ensures ok { IsOk result }
        ensures new { IfOk result (IsNew (meanings_of simplifying)) }
    {
        Ok(Simplify {
            alloc,
            kept: Held::new(alloc),
            places: BTreeMap::new(alloc),
            phase: Phase::Gathering,
        })
    }

    /// What it can do next. Its ports are 0.
    pub fn want(&self) -> Want
        ensures { result ≡ simplifying.wanted self.now }
    {
        match self.phase {
            Phase::Gathering => Want::Take(0),
            Phase::Giving(_) => Want::Give(0),
            Phase::Closed(_) => Want::Ended,
            Phase::Stopped => Want::Ended,
        }
    }

    /// Takes a message, where it wants that. At `Err` it is out of memory, and stays so; then only
    /// `verdict` is called.
    pub fn accept(&mut self, port: u32, message: Message) -> Result<(), NoMemory>
        requires { simplifying.wanted self.old ≡ Take port }
        ensures takes { OnOk result
            (Takes (meanings_of simplifying) port message self.old self.new) }
        ensures stops { OnErr result
            (StopsInTake (meanings_of simplifying) port message self.old self.new) }
        ensures same { IsSameTask (meanings_of simplifying) self.old self.new }
    {
        match message {
            Message::Item(item) => self.take_item(item),
            Message::End(end) => {
                self.take_end(end);
                Ok(())
            }
        }
    }

    fn take_item(&mut self, item: Item) -> Result<(), NoMemory>
        requires { self.old.phase ≡ Gathering }
        ensures ok { OnOk result
            (self.new ≡ record self.old { kept = with_latest self.old.kept item }) }
        ensures err { OnErr result (self.new.phase ≡ Stopped) }
    {
        match keep_latest(&mut self.kept, &mut self.places, item) {
            Ok(()) => Ok(()),
            Err(NoMemory) => {
                self.phase = Phase::Stopped;
                Err(NoMemory)
            }
        }
    }

    fn take_end(&mut self, end: End)
        ensures { self.new ≡ record { kept = kept_behind self.old.kept end; phase = Giving end } }
    {
        self.phase = Phase::Giving(end);
        self.places = BTreeMap::new(self.alloc);
        match end {
            End::Done => {}
            End::Broken => self.kept = Held::new(self.alloc),
        }
    }

    /// Gives a message, where it wants that. It takes no memory.
    pub fn hand(&mut self, port: u32) -> Message
        requires { simplifying.wanted self.old ≡ Give port }
        ensures gives { Gives (meanings_of simplifying) port result self.old self.new }
        ensures same { IsSameTask (meanings_of simplifying) self.old self.new }
    {
        let Phase::Giving(end) = self.phase else {
            unreachable!()
        };
        match self.kept.take_first() {
            Some(item) => Message::Item(item),
            None => {
                self.phase = Phase::Closed(end);
                Message::End(end)
            }
        }
    }

    /// How it stands with it: running until it gave its end, then clean, or passed behind a broken
    /// end.
    pub fn verdict(&self) -> Verdict
        ensures { result ≡ simplifying.verdict self.now }
    {
        match self.phase {
            Phase::Gathering => Verdict::Running,
            Phase::Giving(_) => Verdict::Running,
            Phase::Closed(end) => Verdict::after(end),
            Phase::Stopped => Verdict::Memory,
        }
    }
}

//! The machine of the tasks sort and sort-change. It holds all items until its input has ended.
ghost use Rattle.std.specs.Prelude.{◌≡◌, ◌++◌, ◌∷◌, [], IfOk, IsOk, OnOk, OnErr};
ghost use Rattle.osm_entity.specs.Calls.{Gives, StopsInTake, Takes};
ghost use Rattle.osm_entity.specs.Machines.{IsNew, IsSameTask};
ghost use Rattle.osm_entity.specs.OneInput.{meanings_of};
ghost use Rattle.osm_entity.specs.declared.stream.Want.TheVariants.{Give, Take};
ghost use Rattle.osm_sort.specs.SortMachine.{sorting};
ghost use Rattle.osm_sort.specs.Sorted.{items_sorted};
ghost use Rattle.osm_sort.specs.declared.phase.Phase.TheVariants.{Giving, Stopped};

use crate::phase::Phase;
use osm_entity::{End, Flow, Held, Item, Message, NoMemory, Verdict, Want};
use std::alloc::Global;
use std::marker::Model;

/// Gives the items of a stream by key, equal keys in their old order, and then its end. After a
/// broken end it gives no item.
#[derive(Debug, Drop)]
pub struct Sort {
    alloc: Global,
    /// The items that are left to give.
    kept: Held,
    phase: Phase,
}

impl Model for Sort {
    ghost use Rattle.osm_sort.specs.SortMachine.{SortValue};

    ghost Value = { SortValue };

    ghost view = { λ s. record { kept = s.kept; phase = s.phase } };
}

impl Sort {
    /// A sort that took nothing yet. It sorts items of either flow alike. It takes no memory, and
    /// always answers `Ok`.
    pub fn new(alloc: Global, _flow: Flow) -> Result<Sort, NoMemory>
        ensures ok { IsOk result }
        ensures new { IfOk result (IsNew (meanings_of sorting)) }
    {
        Ok(Sort {
            alloc,
            kept: Held::new(alloc),
            phase: Phase::Gathering,
        })
    }

    /// What it can do next. Its ports are 0.
    pub fn want(&self) -> Want
        ensures { result ≡ sorting.wanted self.now }
    {
        match self.phase {
            Phase::Gathering => Want::Take(0),
            Phase::Giving(_) => Want::Give(0),
            Phase::Closed(_) => Want::Ended,
            Phase::Stopped => Want::Ended,
        }
    }

    /// Takes a message, where it wants that. At its end the input is sorted, which takes memory for
    /// half as many items again. At `Err` it is out of memory, and stays so; then only `verdict` is
    /// called.
    pub fn accept(&mut self, port: u32, message: Message) -> Result<(), NoMemory>
        requires { sorting.wanted self.old ≡ Take port }
        ensures takes { OnOk result (Takes (meanings_of sorting) port message self.old self.new) }
        ensures stops { OnErr result
            (StopsInTake (meanings_of sorting) port message self.old self.new) }
        ensures same { IsSameTask (meanings_of sorting) self.old self.new }
    {
        match message {
            Message::Item(item) => self.take_item(item),
            Message::End(end) => self.take_end(end),
        }
    }

    fn take_item(&mut self, item: Item) -> Result<(), NoMemory>
        ensures ok { OnOk result (self.new ≡ record self.old { kept = self.old.kept ++ item ∷ [] }) }
        ensures err { OnErr result (self.new.phase ≡ Stopped) }
    {
        match self.kept.push(item) {
            Ok(()) => Ok(()),
            Err(NoMemory) => {
                self.phase = Phase::Stopped;
                Err(NoMemory)
            }
        }
    }

    fn take_end(&mut self, end: End) -> Result<(), NoMemory>
        ensures ok { OnOk result (self.new
            ≡ record { kept = items_sorted self.old.kept end; phase = Giving end }) }
        ensures err { OnErr result (self.new.phase ≡ Stopped) }
    {
        match self.settle(end) {
            Ok(()) => {
                self.phase = Phase::Giving(end);
                Ok(())
            }
            Err(NoMemory) => {
                self.phase = Phase::Stopped;
                Err(NoMemory)
            }
        }
    }

    /// Keeps what is left to give behind an input that ended so.
    fn settle(&mut self, end: End) -> Result<(), NoMemory>
        ensures { OnOk result (self.new.kept ≡ items_sorted self.old.kept end) }
    {
        match end {
            End::Done => self.kept.sort_by_key(),
            End::Broken => {
                self.kept = Held::new(self.alloc);
                Ok(())
            }
        }
    }

    /// Gives a message, where it wants that. It takes no memory.
    pub fn hand(&mut self, port: u32) -> Message
        requires { sorting.wanted self.old ≡ Give port }
        ensures gives { Gives (meanings_of sorting) port result self.old self.new }
        ensures same { IsSameTask (meanings_of sorting) self.old self.new }
    {
        let Phase::Giving(end) = self.phase else {
            unreachable!()
        };
        match self.kept.take_first() {
            Some(item) => Message::Item(item),
            None => {
                self.phase = Phase::Closed(end);
                Message::End(end)
            }
        }
    }

    /// How it stands with it: running until it gave its end, then clean, or passed behind a broken
    /// end.
    pub fn verdict(&self) -> Verdict
        ensures { result ≡ sorting.verdict self.now }
    {
        match self.phase {
            Phase::Gathering => Verdict::Running,
            Phase::Giving(_) => Verdict::Running,
            Phase::Closed(end) => Verdict::after(end),
            Phase::Stopped => Verdict::Memory,
        }
    }
}

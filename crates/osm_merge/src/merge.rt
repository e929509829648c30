//! Merge and merge-change: both inputs in the order of their keys, each key once.
ghost use Rattle.std.specs.Prelude.{◌≡◌, IsOk, OnOk, IfOk};
ghost use Rattle.osm_entity.specs.Calls.{Takes, Gives};
ghost use Rattle.osm_entity.specs.Machines.{IsNew, IsSameTask};
ghost use Rattle.osm_entity.specs.declared.stream.Want.TheVariants.{Take, Give};
ghost use Rattle.osm_merge.specs.Merging.{merging};
ghost use Rattle.osm_merge.specs.TwoInputs.{meanings_of_two};

use crate::heads::Heads;
use osm_entity::{Flow, Message, NoMemory, Resolution, Verdict, Want};

/// The task `merge` over two streams of entities, and `merge-change` over two streams of changes.
///
/// It gives the rising list of all keys of both inputs; of two items of one key it gives the one
/// that its resolution names. Both inputs need keys that rise: the first item that breaks this is
/// out of order at its port, and its input counts as the list before it.
#[derive(Debug, Drop)]
pub struct Merge {
    heads: Heads<Resolution>,
}

impl Merge {
    /// A merge that took nothing. Entities and changes are merged alike, so nothing depends on the
    /// flow. It takes no memory, and always answers `Ok`.
    pub fn new(_flow: Flow, resolution: Resolution) -> Result<Merge, NoMemory>
        ensures ok { IsOk result }
        ensures new { IfOk result (IsNew (meanings_of_two merging)) }
        ensures resolution { IfOk result (λ m. m.heads.chooser ≡ resolution) }
    {
        Ok(Merge {
            heads: Heads::new(resolution),
        })
    }

    /// What it can do next.
    pub fn want(&self) -> Want
        ensures { result ≡ merging.wanted self.now }
    {
        self.heads.want()
    }

    /// Takes a message at a port that it wants. It takes no memory, and always answers `Ok`.
    pub fn accept(&mut self, port: u32, message: Message) -> Result<(), NoMemory>
        requires { merging.wanted self.old ≡ Take port }
        ensures ok { IsOk result }
        ensures takes { Takes (meanings_of_two merging) port message self.old self.new }
        ensures same { IsSameTask (meanings_of_two merging) self.old self.new }
    {
        self.heads.accept(port, message);
        Ok(())
    }

    /// Gives the message at a port that it wants. It takes no memory.
    pub fn hand(&mut self, port: u32) -> Message
        requires { merging.wanted self.old ≡ Give port }
        ensures gives { Gives (meanings_of_two merging) port result self.old self.new }
        ensures same { IsSameTask (meanings_of_two merging) self.old self.new }
    {
        self.heads.hand(port)
    }

    /// Running until it has ended. Then Clean where both inputs were whole; where the end that was
    /// met was an item out of order, that item; else Passed.
    pub fn verdict(&self) -> Verdict
        ensures { result ≡ merging.verdict self.now }
    {
        self.heads.verdict()
    }
}

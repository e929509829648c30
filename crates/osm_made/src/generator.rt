//! A generator of items: it knows how many it gave, and makes the next one out of its number.
ghost use Rattle.std.specs.Prelude.{◌≡◌, ◌∷◌, ◌+◌, ◌<◌, [], drop, IfNone, IfOk, IfSome, OnErr};
ghost use Rattle.osm_made.specs.Generator.{made_list};
ghost use Rattle.osm_made.specs.Maker.{count_to_come, items_to_come};

use crate::making::{make_node, make_relation, make_way};
use osm_entity::{Item, NoMemory};
use std::alloc::Global;
use std::marker::Model;

/// Gives nodes, then ways, then relations, as the task `read-made` does (docs/COMMANDS.md). It is
/// seen as how many items it makes, of which seed, and how many of them it gave.
#[derive(Debug, Drop)]
pub struct Made {
    count: u32,
    seed: u32,
    given: u32,
}

impl Model for Made {
    ghost use Rattle.osm_made.specs.Maker.{MadeValue, IsGenerator};

    ghost Value = { MadeValue };

    ghost view = { λ m. record { count = m.count; seed = m.seed; given = m.given } };

    ghost invariant = { λ m.
        IsGenerator (record { count = m.count; seed = m.seed; given = m.given }) };
}

impl Made {
    /// A generator of `count` items that gave none yet. It takes no memory.
    pub fn new(count: u32, seed: u32) -> Made
        ensures { result ≡ record { count = count; seed = seed; given = 0 } }
    {
        Made {
            count,
            seed,
            given: 0,
        }
    }

    /// The next item; `None` exactly after `count` items. At `Err` it gave nothing, and the call
    /// may be made again.
    #[tactic(auto, using(crate::proofs::GeneratorLemmas::none_to_come))]
    pub fn next(&mut self, alloc: Global) -> Result<Option<Item>, NoMemory>
        // What it gives.
        ensures some { IfOk result (λ found. IfSome found
            (λ item. items_to_come self.old ≡ item ∷ items_to_come self.new)) }
        ensures none { IfOk result (λ found. IfNone found (items_to_come self.old ≡ [])) }

        // What it is then.
        ensures given { IfOk result (λ found. IfSome found
            (λ _. self.new ≡ record self.old { given = self.old.given + 1 })) }
        ensures falls { IfOk result (λ found. IfSome found
            (λ _. count_to_come self.old ≡ count_to_come self.new + 1)) }
        ensures over { IfOk result (λ found. IfNone found (count_to_come self.old ≡ 0)) }
        ensures same { IfOk result (λ found. IfNone found (self.new ≡ self.old)) }
        ensures err { OnErr result (self.new ≡ self.old) }
    {
        if self.given == self.count {
            return Ok(None);
        }
        let item = self.make(alloc)?;
        self.given += 1;
        Ok(Some(item))
    }

    // Makes the next item: a node, a way or a relation, by how many were given.
    fn make(&self, alloc: Global) -> Result<Item, NoMemory>
        requires { self.now.given < self.now.count }
        ensures { IfOk result (λ item.
            drop self.now.given (made_list self.now.count self.now.seed)
            ≡ item ∷ drop (self.now.given + 1) (made_list self.now.count self.now.seed)) }
    {
        let ways = self.count / 10;
        let nodes = self.count - ways - self.count / 100;
        if self.given < nodes {
            return make_node(alloc, self.seed, self.given + 1);
        }
        let after_nodes = self.given - nodes;
        if after_nodes < ways {
            return make_way(alloc, self.count, self.seed, after_nodes + 1);
        }
        make_relation(alloc, self.count, self.seed, after_nodes - ways + 1)
    }
}

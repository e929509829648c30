//! What the two halves of a spool share.
ghost use Rattle.std.specs.Prelude.{◌≡◌};
ghost use Rattle.crossbeam_queue.specs.Passes.{ruled_capacity};

use crate::bell::Bell;
use crate::rule::{Hand, InOrder};
use crossbeam_queue::{RuledArrayQueue, RuledSegQueue};
use osm_entity::{End, Item};

/// The end of a spool, and the number of items before it.
#[derive(Clone, Copy, Debug)]
pub struct Last {
    pub end: End,
    pub count: u64,
}

/// The items of a spool.
pub type Queue = RuledSegQueue<Item, Hand<Item>, InOrder>;

/// Where the end of a spool stands.
pub type Slot = RuledArrayQueue<Last, Hand<Last>, InOrder>;

/// The items, the end, and a bell that is rung for each.
pub struct Store {
    pub queue: Queue,
    pub slot: Slot,
    pub bell: Bell,
    pub ghost one: { ruled_capacity slot ≡ 1 },
}

impl Drop for Store {
    fn drop(self) {
        let Self {
            queue,
            slot: _,
            bell: _,
        } = self;
        queue.destroy();
    }
}

//! How the two halves of a spool are made, and how they meet.
ghost use Rattle.std.specs.Prelude.{◌≡◌, ◌++◌, [], true, List, IfOk};
ghost use Rattle.crossbeam_queue.specs.Passes.{IsPassOf};
ghost use Rattle.crossbeam_queue.specs.SegTies.{IsSegPassOf};
ghost use Rattle.osm_entity.specs.Items.{ItemValue};
ghost use Rattle.osm_entity.specs.Prefixes.{IsPrefix};
ghost use Rattle.osm_pipe.specs.Spool.{spool_half, items_hand, ends_hand};
ghost use Rattle.osm_pipe.specs.declared.store.Last.{Last};

use super::{EndPass, ItemPass, SpoolGiver, SpoolTaker};
use crate::bell::Bell;
use crate::rule::{Halves, Unlimited, Whole};
use crate::store::{Queue, Slot, Store};
use osm_entity::NoMemory;
use std::alloc::Global;
use std::sync::{Arc, Wait};

/// A new spool.
#[tactic(auto, using(crate::proofs::RuleLemmas::begins, crate::proofs::RuleLemmas::splits))]
pub fn spool_halves(alloc: Global) -> Result<(SpoolGiver, SpoolTaker), NoMemory>
    ensures { IfOk result (λ r. (r.0 ≡ spool_half r.0.pipe []) × (r.1 ≡ spool_half r.0.pipe [])) }
{
    let Ok((queue, mut items)) = Queue::with_rule(alloc) else {
        return Err(NoMemory);
    };
    let Ok((slot, mut ends)) = Slot::ruled(alloc, 1) else {
        queue.destroy();
        return Err(NoMemory);
    };
    let other_items = queue.another::<Halves<Unlimited>>(&mut items);
    let other_ends = slot.another::<Halves<Unlimited>>(&mut ends);
    let store = Store {
        queue,
        slot,
        bell: Bell::new(),
    };
    let Ok(store) = Arc::new(alloc, store) else {
        return Err(NoMemory);
    };
    let Ok(other_store) = Arc::try_clone(&store) else {
        return Err(NoMemory);
    };
    let giver = SpoolGiver {
        store,
        items,
        ends,
        count: 0,
    };
    let taker = SpoolTaker {
        store: other_store,
        items: other_items,
        ends: other_ends,
        count: 0,
        last: None,
        has_ended: false,
    };
    Ok((giver, taker))
}

/// Joins the two passes of the items: what was sent is what was taken and then what is left.
fn join_items<R: Wait>(rt: &R, queue: &Queue, mut giver: ItemPass, taker: ItemPass)
    requires seats { IsSegPassOf queue.now giver × IsSegPassOf queue.now taker }
    requires sends { (items_hand giver).sends ≡ true }
    requires takes { (items_hand taker).takes ≡ true }
    ensures { (left : List ItemValue)
        × ((items_hand giver).sent ≡ (items_hand taker).taken ++ left) }
{
    queue.absorb::<Halves<Unlimited>>(&mut giver, taker);
    queue.len_as::<Whole, R>(rt, &mut giver);
}

/// Joins the two passes of the slot.
fn join_ends(slot: &Slot, mut giver: EndPass, taker: EndPass)
    requires seats { IsPassOf slot.now giver × IsPassOf slot.now taker }
    requires sends { (ends_hand giver).sends ≡ true }
    requires takes { (ends_hand taker).takes ≡ true }
    ensures { (left : List Last) × ((ends_hand giver).sent ≡ (ends_hand taker).taken ++ left) }
{
    slot.absorb::<Halves<Unlimited>>(&mut giver, taker);
    slot.learn_as::<Whole>(&mut giver);
}

/// Joins the two halves of a spool: what was taken is a prefix of what was sent.
pub fn spool_meets<R: Wait>(rt: &R, sent: SpoolGiver, taken: SpoolTaker)
    requires { sent.pipe ≡ taken.pipe }
    ensures { IsPrefix taken.list sent.list }
{
    let SpoolGiver {
        store,
        items,
        ends,
        count: _,
    } = sent;
    let SpoolTaker {
        store: _,
        items: other_items,
        ends: other_ends,
        count: _,
        last: _,
        has_ended: _,
    } = taken;
    join_items(rt, &store.queue, items, other_items);
    join_ends(&store.slot, ends, other_ends);
}

//! Pipes between two threads: that the calls come back, with memory where it is there.
ghost use Rattle.std.specs.Prelude.{◌≡◌, false};
ghost use Rattle.osm_entity.specs.Ports.{has_end};

use osm_entity::{Act, Body, End, Entity, Item, Message, NoMemory, Refs, Tags, Text};
use osm_pipe::{Giver, Sent, Taken, Taker, bounded, meet, spool};
use std::alloc::Global;
use std::process::Abort;
use std::snapshot::Snapshot;
use std::sync::Wait;
use std::thread;
use std::thread::{Promise, Threads};

const ITEMS: i64 = 100_000;

/// What comes back of a giver is of the same pipe.
#[derive(Drop)]
struct OfOnePipe(Snapshot<Giver>);

impl Promise<Sent> for OfOnePipe {
    ghost use Rattle.std.specs.Prelude.{◌≡◌};

    ghost kept_by = { λ p sent. sent.pipe ≡ p.0.value.pipe };
}

fn way(alloc: Global, id: i64) -> Result<Item, NoMemory> {
    let entity = Entity {
        id,
        version: 1,
        time: 0,
        changeset: 0,
        uid: 0,
        user: Text::new(alloc),
        tags: Tags::new(alloc),
        body: Body::Way(Refs::new(alloc)),
    };
    Item::new(alloc, Act::Keep, entity)
}

/// Gives all items and then the end.
fn give_all<R: Wait>(rt: &R, alloc: Global, mut giver: Giver, end: End) -> Sent
    ensures { result.pipe ≡ giver.pipe }
{
    for id in 0..ITEMS {
        let Ok(way) = way(alloc, id) else {
            break;
        };
        if giver.give(rt, way).is_err() {
            break;
        }
    }
    giver.end(rt, end)
}

/// Takes all items and then the end: whether they came in order.
#[tactic(auto, using(osm_pipe::proofs::PipeLemmas::has_end_item))]
fn take_all<R: Wait>(rt: &R, mut taker: Taker, end: End) -> (bool, Taken)
    requires { has_end taker.list ≡ false }
    ensures { result.1.pipe ≡ taker.pipe }
{
    let mut right = true;
    for id in 0..ITEMS {
        match taker.take(rt) {
            Message::Item(item) => right = right && item.entity.id == id,
            Message::End(_) => return (false, taker.finish()),
        }
    }
    let right = match taker.take(rt) {
        Message::End(last) => right && last == end,
        Message::Item(_) => false,
    };
    (right, taker.finish())
}

/// Runs a giver on a thread of its own and a taker on this one, through a new pipe: a spool where there is no capacity.
fn check<R>(rt: R, capacity: Option<u32>, end: End)
where
    R: Abort + AllocGlobal + Threads + Wait + Copy + Send + 'static,
{
    let alloc = rt.alloc();
    let (giver, taker) = match capacity {
        Some(most) => bounded(&rt, alloc, most.max(1)).expect(&rt, "a pipe"),
        None => spool(&rt, alloc).expect(&rt, "a spool"),
    };
    let promise = OfOnePipe(Snapshot::of(&giver));
    let work = move || give_all(&rt, alloc, giver, end);
    let worker = thread::spawn_with(&rt, promise, work).expect(&rt, "a thread");
    let (right, taken) = take_all(&rt, taker, end);
    meet(&rt, worker.join(&rt), taken);
    assert!(rt; right, "{capacity:?}, {end:?}");
}

#[test]
fn what_one_thread_gives_another_takes(rt: HostRuntime) {
    for capacity in [Some(1), Some(65_536), None] {
        for end in [End::Done, End::Broken] {
            check(rt, capacity, end);
        }
    }
}

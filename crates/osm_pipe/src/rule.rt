//! The one rule of all queues here: what was sent is what was taken and then what is on the way.
//!
//! Each half of a pipe holds a pass of no bytes, and what the pass knows is a `Hand`. The two are
//! made of the queue's first pass, and are joined into it again when they meet.
use crossbeam_channel::protocol as channel;
use crossbeam_queue::protocol as queue;
use std::collections::LinkedList;
use std::marker::{Brand, PhantomData};

/// What a half knows of a queue: whether it sends and takes there, how many messages may be on the
/// way at once, and what it sent and took. No value of it is made.
pub struct Hand<T> {
    pub sends: bool,
    pub takes: bool,
    pub limit: Option<u64>,
    pub sent: LinkedList<T>,
    pub taken: LinkedList<T>,
}

/// Messages are taken in the order in which they were sent, each once.
pub struct InOrder;

impl<T> channel::Protocol<T, Hand<T>> for InOrder {
    ghost use Rattle.std.specs.Prelude.{true, [], Some};
    ghost use Rattle.osm_pipe.specs.Rule.{hand, IsInOrder};

    ghost holds = { IsInOrder };

    ghost first = { hand true true (Some 0) [] [] };
}

impl<T> queue::Protocol<T, Hand<T>> for InOrder {
    ghost use Rattle.std.specs.Prelude.{true, [], Some};
    ghost use Rattle.osm_pipe.specs.Rule.{hand, IsInOrder};

    ghost holds = { IsInOrder };

    ghost first = { hand true true (Some 0) [] [] };
}

/// How many messages may be on the way at once. A call picks it.
pub trait Limit {
    ghost use Rattle.std.specs.Prelude.{ℕ, Option};

    ghost limit: { Option ℕ };
}

impl Limit for Brand {
    ghost use Rattle.std.specs.Prelude.{None};

    ghost limit = { None };
}

/// Any number of messages may be on the way.
pub struct Unlimited;

impl Limit for Unlimited {
    ghost use Rattle.std.specs.Prelude.{None};

    ghost limit = { None };
}

/// A pass becomes the giver's and the taker's under a limit `L`, and the two become one again.
pub struct Halves<L> {
    limit: PhantomData<L>,
}

impl<T, L: Limit> channel::Split<Hand<T>> for Halves<L> {
    ghost use Rattle.std.specs.Prelude.{true, false, []};
    ghost use Rattle.osm_pipe.specs.Rule.{hand};

    ghost left = { λ v. hand true false L.limit v.sent [] };

    ghost right = { λ v. hand false true L.limit [] v.taken };
}

impl<T, L: Limit> channel::Join<Hand<T>> for Halves<L> {
    ghost use Rattle.std.specs.Prelude.{true, false, [], None};
    ghost use Rattle.osm_pipe.specs.Rule.{hand};

    ghost both = { λ v w. hand true true v.limit v.sent w.taken };

    ghost spent = { hand false false None [] [] };
}

/// A message is sent.
pub struct Sends;

impl<T> channel::Outcome<T, Hand<T>> for Sends {
    ghost use Rattle.osm_pipe.specs.Rule.{HasSent};

    ghost then = { λ v x w. HasSent v x w };
}

impl<T> channel::Lesson<T, Hand<T>> for Sends {
    ghost use Rattle.std.specs.Prelude.{⊤};

    ghost fact = { λ v items. ⊤ };
}

impl<T> queue::Outcome<T, Hand<T>> for Sends {
    ghost use Rattle.osm_pipe.specs.Rule.{HasSent};

    ghost then = { λ v x w. HasSent v x w };
}

impl<T> queue::Lesson<T, Hand<T>> for Sends {
    ghost use Rattle.std.specs.Prelude.{◌≤◌, length};

    ghost fact = { λ v items. length items ≤ length v.sent };
}

/// A message is taken.
pub struct Takes;

impl<T> channel::Outcome<T, Hand<T>> for Takes {
    ghost use Rattle.osm_pipe.specs.Rule.{HasTaken};

    ghost then = { λ v x w. HasTaken v x w };
}

impl<T> channel::Lesson<T, Hand<T>> for Takes {
    ghost use Rattle.std.specs.Prelude.{⊤};

    ghost fact = { λ v items. ⊤ };
}

impl<T> queue::Outcome<T, Hand<T>> for Takes {
    ghost use Rattle.osm_pipe.specs.Rule.{HasTaken};

    ghost then = { λ v x w. HasTaken v x w };
}

impl<T> queue::Lesson<T, Hand<T>> for Takes {
    ghost use Rattle.std.specs.Prelude.{⊤};

    ghost fact = { λ v items. ⊤ };
}

/// The joined pass knows what is on the way.
pub struct Whole;

impl<T> channel::Lesson<T, Hand<T>> for Whole {
    ghost use Rattle.osm_pipe.specs.Rule.{IsOnTheWay};

    ghost fact = { λ v items. IsOnTheWay v items };
}

impl<T> queue::Lesson<T, Hand<T>> for Whole {
    ghost use Rattle.osm_pipe.specs.Rule.{IsOnTheWay};

    ghost fact = { λ v items. IsOnTheWay v items };
}

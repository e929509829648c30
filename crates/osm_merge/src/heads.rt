//! A machine of two heads: it goes through two inputs whose keys rise, and at each key gives what
//! is chosen of the items there.
//!
//! It takes from the input whose last key is the least, so that one item waits at most. An input
//! counts as far as its keys rise. Once the end of an input is met that is broken or out of order,
//! nothing more is given: all up to its last key is out. Both inputs are taken to their ends, and
//! then the machine gives its own.
ghost use Rattle.std.specs.Prelude.{◌≡◌, ◌+◌, List, [], ◌∷◌, ◌++◌, true, false, None};
ghost use Rattle.osm_entity.specs.Calls.{Takes, Gives};
ghost use Rattle.osm_entity.specs.Items.{ItemValue, key_of};
ghost use Rattle.osm_entity.specs.Machines.{IsNew};
ghost use Rattle.osm_entity.specs.Meaning.{Wrong};
ghost use Rattle.osm_entity.specs.Tasks.{verdict_as};
ghost use Rattle.osm_entity.specs.declared.stream.Message.{Message};
ghost use Rattle.osm_entity.specs.declared.stream.Message.TheVariants.{Item as One};
ghost use Rattle.osm_entity.specs.declared.stream.Want.TheVariants.{Take, Give};
ghost use Rattle.osm_entity.specs.declared.verdict.Cause.TheVariants.{Unordered};
ghost use Rattle.osm_entity.specs.declared.verdict.Spot.TheVariants.{Item as AtItem};
ghost use Rattle.osm_merge.specs.Choices.{seen_from};
ghost use Rattle.osm_merge.specs.Heads.{HasTurn, SidesStand, port_of, head_reaches, heads_of};
ghost use Rattle.osm_merge.specs.Rules.{is_above, is_before_last, item_number};
ghost use Rattle.osm_merge.specs.TwoInputs.{meanings_of_two};

use crate::choice::Chooser;
use osm_entity::{Cause, End, Item, Key, Message, Spot, Verdict, Want};

/// One of the two inputs.
#[derive(Clone, Copy, Debug, PartialEq, Eq)]
pub(crate) enum Side {
    First,
    Second,
}

/// How far an input was taken.
#[derive(Debug, Drop)]
pub(crate) struct Head {
    /// Its last item, while the other input hasn't come up to it.
    waiting: Option<Item>,
    /// The key of its last item.
    last: Option<Key>,
    /// How many items were in order; it stops at the greatest number of 64 bits.
    count: u64,
    ended: bool,
}

/// A machine of two sorted inputs that gives what its chooser says at each key.
#[derive(Debug, Drop)]
pub struct Heads<C> {
    chooser: C,
    first: Head,
    second: Head,
    ready: Option<Item>,
    /// The verdict of the end that was met.
    cut: Option<Verdict>,
    closed: bool,
}

fn fresh() -> Head
    ensures { result ≡ record { waiting = None; last = None; count = 0; ended = false } }
{
    Head {
        waiting: None,
        last: None,
        count: 0,
        ended: false,
    }
}

impl Head {
    /// Whether this key is behind the last one, as that of an item in order is.
    fn is_next(&self, key: Key) -> bool
        ensures { result ≡ is_above self.now.last key }
    {
        match self.last {
            None => true,
            Some(last) => last.is_before(&key),
        }
    }

    /// Whether this key is before the last one.
    fn has_passed(&self, key: Key) -> bool
        ensures { result ≡ is_before_last key self.now.last }
    {
        match self.last {
            None => false,
            Some(last) => key.is_before(&last),
        }
    }

    /// Whether it is known what the input has at this key.
    fn reaches(&self, key: Key) -> bool
        ensures { result ≡ head_reaches self.now key }
    {
        self.ended || !self.is_next(key)
    }
}

/// What is chosen, with the item of this side first.
fn choose_from<C: Chooser>(
    chooser: &C,
    side: Side,
    own: Option<Item>,
    other: Option<Item>,
) -> Option<Item>
    ensures { result ≡ seen_from side (C.chosen chooser.now) own other }
{
    match side {
        Side::First => chooser.choose(own, other),
        Side::Second => chooser.choose(other, own),
    }
}

/// Takes an item that is in order, and gives what can be given then.
fn advance<C: Chooser>(
    chooser: &C,
    side: Side,
    own: &mut Head,
    other: &mut Head,
    item: Item,
) -> Option<Item>
    requires { is_above own.old.last (key_of item) ≡ true }
    ensures { (x z : List Message) (given : List ItemValue)
        → own.old.ended ≡ false → own.old.waiting ≡ None
        → SidesStand (seen_from side (C.chosen chooser.now)) side None own.old other.old None x z given
        → SidesStand (seen_from side (C.chosen chooser.now)) side None own.new other.new result
        (x ++ One item ∷ []) z given }
{
    let key = item.key();
    own.last = Some(key);
    own.count = own.count.saturating_add(1);
    if !other.reaches(key) {
        own.waiting = Some(item);
        return choose_from(chooser, side, None, other.waiting.take());
    }
    if other.has_passed(key) {
        return choose_from(chooser, side, Some(item), None);
    }
    choose_from(chooser, side, Some(item), other.waiting.take())
}

/// Takes a message at one input, and gives what can be given then.
fn take<C: Chooser>(
    chooser: &C,
    side: Side,
    own: &mut Head,
    other: &mut Head,
    cut: &mut Option<Verdict>,
    message: Message,
) -> Option<Item>
    ensures { (x z : List Message) (given : List ItemValue)
        → own.old.ended ≡ false → HasTurn side own.old other.old
        → SidesStand (seen_from side (C.chosen chooser.now)) side cut.old own.old other.old None x z given
        → SidesStand (seen_from side (C.chosen chooser.now)) side cut.new own.new other.new result
        (x ++ message ∷ []) z given }
{
    match message {
        Message::Item(item) => {
            if cut.is_some() {
                return None;
            }
            if own.is_next(item.key()) {
                return advance(chooser, side, own, other, item);
            }
            *cut = Some(out_of_order(side, own.count));
            None
        }
        Message::End(end) => {
            own.ended = true;
            if cut.is_some() {
                return None;
            }
            match end {
                End::Done => choose_from(chooser, side, None, other.waiting.take()),
                End::Broken => {
                    *cut = Some(Verdict::Passed);
                    None
                }
            }
        }
    }
}

/// The verdict of the item behind these that are in order.
fn out_of_order(side: Side, count: u64) -> Verdict
    ensures { result ≡ verdict_as 0 0 (Wrong Unordered (AtItem (port_of side) (item_number (count + 1)))) }
{
    let port = match side {
        Side::First => 0,
        Side::Second => 1,
    };
    Verdict::Input {
        cause: Cause::Unordered,
        spot: Spot::Item {
            port,
            number: count.saturating_add(1),
        },
    }
}

impl<C: Chooser> Heads<C> {
    /// A machine that took nothing.
    pub fn new(chooser: C) -> Heads<C>
        ensures new { IsNew (meanings_of_two (heads_of C.chosen)) result }
        ensures chooser { result.chooser ≡ chooser }
    {
        Heads {
            chooser,
            first: fresh(),
            second: fresh(),
            ready: None,
            cut: None,
            closed: false,
        }
    }

    /// What it can do next.
    pub fn want(&self) -> Want
        ensures { result ≡ (heads_of C.chosen).wanted self.now }
    {
        if self.ready.is_some() {
            return Want::Give(0);
        }
        if self.closed {
            return Want::Ended;
        }
        if self.first.ended && self.second.ended {
            return Want::Give(0);
        }
        if self.first.ended || (!self.second.ended && self.first.waiting.is_some()) {
            return Want::Take(1);
        }
        Want::Take(0)
    }

    /// How it stands with it.
    pub fn verdict(&self) -> Verdict
        ensures { result ≡ (heads_of C.chosen).verdict self.now }
    {
        if !self.closed {
            return Verdict::Running;
        }
        match self.cut {
            None => Verdict::Clean,
            Some(verdict) => verdict,
        }
    }

    /// Takes a message at a port that it wants. It takes no memory.
    pub fn accept(&mut self, port: u32, message: Message)
        requires { (heads_of C.chosen).wanted self.old ≡ Take port }
        ensures takes { Takes (meanings_of_two (heads_of C.chosen)) port message self.old self.new }
        ensures chooser { self.new.chooser ≡ self.old.chooser }
    {
        if port == 0 {
            self.ready = take(
                &self.chooser,
                Side::First,
                &mut self.first,
                &mut self.second,
                &mut self.cut,
                message,
            );
            return;
        }
        self.ready = take(
            &self.chooser,
            Side::Second,
            &mut self.second,
            &mut self.first,
            &mut self.cut,
            message,
        );
    }

    /// Gives the message at a port that it wants. It takes no memory.
    pub fn hand(&mut self, port: u32) -> Message
        requires { (heads_of C.chosen).wanted self.old ≡ Give port }
        ensures gives { Gives (meanings_of_two (heads_of C.chosen)) port result self.old self.new }
        ensures chooser { self.new.chooser ≡ self.old.chooser }
    {
        if let Some(item) = self.ready.take() {
            return Message::Item(item);
        }
        self.closed = true;
        match self.cut {
            None => Message::End(End::Done),
            Some(_) => Message::End(End::Broken),
        }
    }
}

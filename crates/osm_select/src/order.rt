//! Whether the kinds of the items that came go back.
ghost use Rattle.std.specs.Prelude.{◌≡◌, []};
ghost use Rattle.osm_entity.specs.Tasks.{verdict_as};
ghost use Rattle.osm_select.specs.Order.{Admits, IsOrderOf, end_after, finish_in};

use osm_entity::{Cause, End, Kind, Spot, Verdict};

/// What is known of the kinds of the items that came.
#[derive(Clone, Copy)]
pub(crate) struct Order {
    /// The kind of the last item.
    last: Kind,
    /// How many items came, up to the greatest number.
    count: u64,
    /// The number of the first item whose kind went back.
    fault: Option<u64>,
}

impl Order {
    /// Of no items.
    pub(crate) fn new() -> Self
        ensures { IsOrderOf result [] }
    {
        Order {
            last: Kind::Node,
            count: 0,
            fault: None,
        }
    }

    /// Counts one item more, of this kind. Whether it and all before it are in order.
    pub(crate) fn admits(&mut self, kind: Kind) -> bool
        ensures { Admits kind self.old self.new result }
    {
        if self.fault.is_some() {
            return false;
        }
        let number = self.count.saturating_add(1);
        if kind < self.last {
            self.fault = Some(number);
            return false;
        }
        self.last = kind;
        self.count = number;
        true
    }

    /// The end that is given where the input ended so: Broken where a kind went back.
    pub(crate) fn end_after(&self, end: End) -> End
        ensures { result ≡ end_after self.now end }
    {
        match self.fault {
            None => end,
            Some(_) => End::Broken,
        }
    }

    /// How it stands with a task that has ended, where its input ended so.
    pub(crate) fn verdict_at(&self, end: End) -> Verdict
        ensures { result ≡ verdict_as 0 0 (finish_in self.now end) }
    {
        match (self.fault, end) {
            (Some(number), _) => Verdict::Input {
                cause: Cause::Unordered,
                spot: Spot::Item { port: 0, number },
            },
            (None, End::Done) => Verdict::Clean,
            (None, End::Broken) => Verdict::Passed,
        }
    }
}

//! Laws of messages at ports, and of rules over their streams.
ghost use Rattle.std.specs.Prelude.{◌≡◌, List, true};
ghost use Rattle.osm_entity.specs.Growth.{Grows, IsMonotone};
ghost use Rattle.osm_entity.specs.Ports.{EndsLast, has_end, stream_of, fixed};
ghost use Rattle.osm_entity.specs.Prefixes.{IsPrefix};
ghost use Rattle.osm_entity.specs.Streams.{Stream};
ghost use Rattle.osm_entity.specs.declared.stream.Message.{Message};

/// To be a prefix is an order: each list is a prefix of itself, a prefix of a prefix is one, and two
/// lists that are prefixes of each other are one.
pub fn prefix_is_an_order<T>()
    ensures itself { (xs : List T) → IsPrefix xs xs }
    ensures onward { (xs ys zs : List T) → IsPrefix xs ys → IsPrefix ys zs → IsPrefix xs zs }
    ensures both { (xs ys : List T) → IsPrefix xs ys → IsPrefix ys xs → xs ≡ ys }
{}

/// A stream is what its messages are, and messages that end with their end are those of their
/// stream.
pub fn messages_are_their_stream()
    ensures stream { (s : Stream) → stream_of (fixed true s) ≡ s }
    ensures messages { (ms : List Message) → EndsLast ms → has_end ms ≡ true
        → ms ≡ fixed true (stream_of ms) }
{}

/// A rule that only adds behind what it gave gives what is before, of what is before.
pub fn growing_rules_are_monotone()
    ensures { (rule : Stream → Stream) → Grows rule → IsMonotone rule }
{}

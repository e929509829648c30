//! What no clause says: that the calls answer where memory is there, and which order is meant.
use osm_entity::{Act, Body, Bytes, Entity, Item, Key, Kind, Refs, Tags, Text, weight};
use std::process::Abort;

#[test]
fn every_call_answers_where_memory_is_there(rt: HostRuntime) {
    let rising = [
        (Kind::Node, i64::MIN),
        (Kind::Node, -1),
        (Kind::Node, 2),
        (Kind::Way, -5),
        (Kind::Way, i64::MAX),
        (Kind::Relation, 0),
    ];
    for pair in rising.windows(2) {
        assert!(rt; rises(pair[0], pair[1]));
    }
    assert!(rt; texts_hold(&rt));
    assert!(rt; lists_hold(&rt));
    assert!(rt; items_hold(&rt));
}

fn rises(first: (Kind, i64), second: (Kind, i64)) -> bool {
    let first = Key {
        kind: first.0,
        id: first.1,
    };
    let second = Key {
        kind: second.0,
        id: second.1,
    };
    first.is_before(&second) && !second.is_before(&first) && !first.is_before(&first)
}

fn text<R: Abort + AllocGlobal>(rt: &R, bytes: &[u8]) -> Text {
    Text::from_bytes(rt.alloc(), bytes).expect(rt, "a text")
}

fn texts_hold<R: Abort + AllocGlobal>(rt: &R) -> bool {
    let few = text(rt, b"addr:interpolation:num");
    let many = text(
        rt,
        "na\u{ef}ve \u{20ac} \u{1f5fa} \u{20ac}\u{20ac}".as_bytes(),
    );
    let copy = many.copy(rt.alloc()).expect(rt, "a copy");
    let known = Text::from_utf8(rt.alloc(), copy.as_slice()).expect(rt, "a known text");
    let short = match few.copy_short() {
        Some(short) => short.is(&few),
        None => false,
    };
    known.is(&many)
        && !known.is(&few)
        && short
        && text(rt, b"addr:interpolation:number")
            .copy_short()
            .is_none()
        && Text::new(rt.alloc()).as_slice().is_empty()
}

fn lists_hold<R: Abort + AllocGlobal>(rt: &R) -> bool {
    let mut bytes = Bytes::with_room(rt.alloc(), 2).expect(rt, "room");
    bytes.push_in_room(b'o').expect(rt, "a byte in room");
    bytes.append(b"node").expect(rt, "bytes");
    bytes.push(b's').expect(rt, "a byte");
    let last = bytes.pop();
    bytes.truncate(2);
    bytes.set(0, b'g');
    bytes.reverse();
    let all = bytes.len();
    bytes.retain(|byte| *byte == b'g');
    let kept = Bytes::from_slice(rt.alloc(), b"g").expect(rt, "a list");
    last == Some(b's') && all == 2 && bytes.as_slice() == kept.as_slice()
}

fn items_hold<R: Abort + AllocGlobal>(rt: &R) -> bool {
    let entity = Entity {
        id: -7,
        version: 2,
        time: 5,
        changeset: 6,
        uid: 7,
        user: Text::new(rt.alloc()),
        tags: Tags::new(rt.alloc()),
        body: Body::Way(Refs::new(rt.alloc())),
    };
    let way = Item::new(rt.alloc(), Act::Delete, entity).expect(rt, "an item");
    way.held();
    let copy = way.copy(rt.alloc()).expect(rt, "a copy");
    let same = copy.key() == way.key() && copy.act == Act::Delete && copy.entity.changeset == 6;
    same && weight(&copy.entity) == 128
}

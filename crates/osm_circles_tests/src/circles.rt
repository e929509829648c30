//! Circles of pipes in graphs of commands: which lists of senses are bare, and that the one that is found is.
use osm_circle::{Circle, Sense, check};
use osm_entity::{Sequence, Text};
use osm_graph::{Graph, connect};
use osm_tasks::resolve;
use osm_words::split;
use std::process::Abort;

/// A tee whose two outputs meet at a merge.
const MEETING: &[u8] = b"--read-opl a --tee --merge --write-opl b";

/// A tee whose three outputs meet at two merges.
const MEETING_TWICE: &[u8] = b"--read-opl a --tee 3 --merge --merge --write-opl b";

/// A tee whose two outputs meet at a merge, each behind a spool.
const SPOOLED: &[u8] =
    b"--read-opl a --tee --spool outPipe.0=s --spool --merge inPipe.1=s --write-opl b";

/// The graph of words with a blank between them.
fn graph_of<R: Abort + AllocGlobal>(rt: &R, line: &[u8]) -> Graph {
    let mut words = Sequence::new(rt.alloc());
    for word in line.split(|byte| *byte == b' ') {
        let word = Text::from_bytes(rt.alloc(), word).expect(rt, "a word");
        words.push(word).expect(rt, "words");
    }
    let list = split(rt.alloc(), words.as_slice()).expect(rt, "tasks");
    let tasks = resolve(rt.alloc(), &list).expect(rt, "the catalogue");
    connect(rt.alloc(), tasks).expect(rt, "a graph")
}

fn along(pipe: u32) -> Sense {
    Sense { pipe, along: true }
}

fn against(pipe: u32) -> Sense {
    Sense { pipe, along: false }
}

fn is_bare(graph: &Graph, senses: &[Sense]) -> bool {
    senses.len() <= 128 && Circle::of(senses).is_bare(graph)
}

/// Whether a circle is found, and is one.
fn has_circle(graph: &Graph) -> bool {
    match check(graph) {
        Ok(()) => false,
        Err(circle) => circle.is_bare(graph),
    }
}

#[test]
fn circles_are_bare_by_their_rule(rt: HostRuntime) {
    let graph = graph_of(&rt, MEETING);
    assert!(rt; is_bare(&graph, &[along(1), against(2)]));
    assert!(rt; is_bare(&graph, &[against(1), along(2)]));
    assert!(rt; !is_bare(&graph, &[]));
    assert!(rt; !is_bare(&graph, &[along(1)]));
    assert!(rt; !is_bare(&graph, &[against(2), along(1)]));
    assert!(rt; !is_bare(&graph, &[along(1), against(9)]));
    assert!(rt; has_circle(&graph));
    assert!(rt; has_circle(&graph_of(&rt, MEETING_TWICE)));
    assert!(rt; check(&graph_of(&rt, SPOOLED)).is_ok());
}

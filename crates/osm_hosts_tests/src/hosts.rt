//! What no clause of a host in memory says: that its calls answer where there is memory.
ghost use Rattle.std.specs.Prelude.{◌≢◌};
ghost use Rattle.std.specs.List.{AllPairs};

use osm_entity::{Bytes, Text};
use osm_host::{
    FailAt, Failed, Fails, FileHeld, Files, Host, HostError, MemoryHost, Op, Sink, Source,
};
use std::process::Abort;

fn text<R: Abort + AllocGlobal>(rt: &R, name: &[u8]) -> Text {
    Text::from_bytes(rt.alloc(), name).expect(rt, "a name")
}

/// The one file `a`.
fn one_file<R: Abort + AllocGlobal>(rt: &R, bytes: &[u8]) -> Files
    ensures { AllPairs (λ f g. f.name ≢ g.name) result }
{
    let name = text(rt, b"a");
    let bytes = Bytes::from_slice(rt.alloc(), bytes).expect(rt, "bytes");
    let mut files = Files::new(rt.alloc());
    files.push(FileHeld { name, bytes }).expect(rt, "a file");
    files
}

/// A host with the one file, of whose sources the second pull fails, and of whose sinks the second put.
fn host_of<R: Abort + AllocGlobal>(rt: &R) -> MemoryHost {
    let mut fails = Fails::new(rt.alloc());
    for op in [Op::Pull, Op::Put] {
        let name = text(rt, b"a");
        fails.push(FailAt { name, op, nth: 2 }).expect(rt, "a call");
    }
    MemoryHost::new(rt.alloc(), one_file(rt, b"abc"), 2, fails, false).expect(rt, "a host")
}

fn read<R: Abort>(rt: &R, host: &mut MemoryHost, name: &Text) {
    let mut source = host.open_source(name).expect(rt, "a source");
    for answer in [Ok(2), Err(Failed), Ok(1), Ok(0)] {
        assert_eq!(rt; source.pull(&mut [0; 16]), answer);
    }
}

fn write<R: Abort>(rt: &R, host: &mut MemoryHost, name: &Text) {
    let mut sink = host.open_sink(name).expect(rt, "a sink");
    assert_eq!(rt; sink.put(b"a"), Ok(()));
    assert_eq!(rt; sink.put(b"b"), Err(HostError::Failed));
    assert_eq!(rt; sink.put(b"bc"), Ok(()));
    assert_eq!(rt; host.keep(name, sink), Ok(()));
}

#[test]
fn calls_answer_where_there_is_memory(rt: HostRuntime) {
    let name = text(&rt, b"a");
    let missing = text(&rt, b"b");
    let mut host = host_of(&rt);
    for _round in 0..2 {
        read(&rt, &mut host, &name);
        write(&rt, &mut host, &name);
        assert_eq!(rt; host.open_source(&missing).err(), Some(HostError::Failed));
    }
    for _turn in 0..128 {
        assert_eq!(rt; host.say(&[b'x'; 4096]), Ok(()));
    }
    assert_eq!(rt; host.say(b""), Ok(()));
    assert_eq!(rt; host.said().len(), 524_288);
    assert_eq!(rt; host.files().len(), 1);
}

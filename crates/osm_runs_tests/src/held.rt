//! That a run moves its items along, and doesn't hold them all: a pull fails unless each sink has
//! taken a byte by then. And that on threads a reader and a writer run at one time: the second pull
//! waits for the first put, and that put for the pull.
use crate::runs::{COPY, On, run_on, texts_of};
use crate::watched::{Watch, WatchedHost};
use std::process::Abort;
use std::sync::Wait;
use std::thread::Threads;

/// How many bytes each line of the file is, once it is written.
const WRITTEN: u64 = 29;

/// Through a pipe that holds one message, to one sink.
const ONE: &[u8] = b"--read-opl a --buffer 1 --write-opl b";

/// Through pipes that hold as many as they do by themselves, to two sinks.
const TWO: &[u8] = b"--read-opl a --tee --write-opl b --write-opl c";

fn check<R>(rt: &R, on: On, words: &[u8], watch: Watch)
where
    R: Abort + AllocGlobal + Threads + Wait + Sync,
{
    let words = texts_of(rt, words);
    let mut host = WatchedHost::new(rt.alloc(), watch).expect(rt, "a host");
    let status = run_on(rt, on, words.as_slice(), &mut host);
    let bytes = watch
        .lines
        .saturating_mul(watch.sinks)
        .saturating_mul(WRITTEN);
    assert!(rt; status.code == 0 && host.bytes() == bytes, "{on:?}");
}

fn is_held<R>(rt: &R, on: On, words: &[u8], sinks: u64)
where
    R: Abort + AllocGlobal + Threads + Wait + Sync,
{
    let watch = Watch {
        lines: 1000,
        pull: 200,
        sinks,
        begun: 0,
        looks: 1,
    };
    check(rt, on, words, watch);
}

#[test]
fn items_come_out_while_others_are_read(rt: HostRuntime) {
    for on in [On::Threads, On::One] {
        is_held(&rt, on, ONE, 1);
        is_held(&rt, on, TWO, 2);
    }
}

#[test]
fn a_reader_and_a_writer_run_at_one_time(rt: HostRuntime) {
    let watch = Watch {
        lines: 1,
        pull: 2,
        sinks: 1,
        begun: 2,
        looks: 100_000_000,
    };
    check(&rt, On::Threads, COPY, watch);
}

//! Lines with what only their cause shows, and lines of change files, which no command copies.
//! Answers are taken from the format's rules or worked out by hand.
use osm_entity::{Act, Bytes, Cause, Flow, Item};
use osm_opl_line::{LineRead, read_line, write_line};
use osm_text::first_part;
use std::process::Abort;

/// Bad lines of entity files, the last 12 with degrees far past those of a place: the cause, and the line.
const BAD_COUNT: u32 = 81;

const BAD: &[u8] = b"\
bad text|n1 u\xff x0 y0
bad text|n1 \x01u\xff
bad field|n1 x0 y0\r
bad field|n1 u\x00 x0 y0
bad field|q1 \x1f
bad field| #
bad field|c1
bad number|n
bad number|n1a
bad number|n+1 x0 y0
bad number|n9223372036854775808 x0 y0
bad number|n-9223372036854775809 x0 y0
bad field|n1 v0 q
bad field|n1 n2
bad field|n1 Nn1 x0 y0
bad field|n1 Mn1@ x0 y0
bad field|w1 x0
bad field|w1 Mn1@
bad field|r1 Nn1
bad field|r1 y0
field twice|n1 x0 y0 x1
field twice|n1 x1 x
field twice|n1 u u
field twice|n1 T Ta
bad number|n1 v2147483648 x0 y0
bad number|n1 v x0 y0
bad number|n1 i2147483648 x0 y0
bad number|n1 c9223372036854775808 x0 y0
bad number|n1 c1.0 x0 y0
bad field|n1 d x0 y0
bad field|n1 dd x0 y0
bad field|n1 dVV x0 y0
bad time|n1 t2010-01-01T00:00:60Z x0 y0
bad time|n1 t1969-12-31T23:59:59Z x0 y0
bad time|n1 t2106-02-07T06:28:16Z x0 y0
bad time|n1 t2001-02-29T00:00:00Z x0 y0
bad time|n1 t2100-02-29T00:00:00Z x0 y0
bad time|n1 t2010-01-01 x0 y0
bad escape|n1 u%110000% x0 y0
bad escape|n1 u%d800% x0 y0
bad escape|n1 u%dfff% x0 y0
bad escape|n1 u%000000041% x0 y0
bad escape|n1 u%% x0 y0
bad escape|n1 u50% x0 y0
bad field|n1 T=b x0 y0
bad field|n1 Ta x0 y0
bad field|n1 Ta=b, x0 y0
bad escape|n1 T%=%,=b x0 y0
bad escape|n1 Ta=%g%,b x0 y0
bad number|n1 x1. y.
bad number|n1 x- y0
bad coordinate|n1 x181 y0
bad coordinate|n1 x180.000000001 y0
bad coordinate|n1 x-180.000000001 y0
bad coordinate|n1 x0 y90.000000001
bad coordinate|n1 x1e9 y0
bad number|n1 x1e10 y0
bad field|w1 N1
bad field|w1 Nn1,
bad number|w1 Nn1,nx
bad field|r1 Mn1
bad field|r1 Mnx
bad field|r1 Mqx@
bad number|r1 Mnx@%
bad escape|r1 Mn1@%
no place|n1 x0
no place|n1 x y0
no place|n1 dD
deleted|n1 dD x0 y0
bad coordinate|n1 x1234.5 y0
bad coordinate|n1 x999999999.999999999 y0
bad coordinate|n1 x1000000000 y0
bad coordinate|n1 x1e9 y0
bad coordinate|n1 x1.0000000000000000001e9 y0
bad coordinate|n1 x-1.0000000000000000009e9 y0
bad coordinate|n1 x1000000000.0000000009 y0
bad number|n1 x1.0000000001e9 y0
bad number|n1 x1.1e9 y0
bad number|n1 x1000000000.000000001 y0
bad number|n1 x1e9999 y0
bad number|n1 x99999999999999999999999999999999999999 y0
";

/// Bad lines of change files.
const BAD_CHANGE_COUNT: u32 = 4;

const BAD_CHANGES: &[u8] = b"\
no place|n1 v2
no place|n1 dD x0
no place|n1 dD y0 x
bad number|n1 dD v
";

/// Lines of change files: what is done, the line, and how its item is written.
const CHANGE_COUNT: u32 = 8;

const CHANGES: &[u8] = b"\
create|n1 v1 x0 y0|n1 v1 dV c0 t i0 u T x0 y0
modify|n1 v2 x0 y0|n1 v2 dV c0 t i0 u T x0 y0
modify|n1 x0 y0|n1 v0 dV c0 t i0 u T x0 y0
delete|n1 v2 dD|n1 v2 dD c0 t i0 u T x y
delete|n1 v1 dD x y|n1 v1 dD c0 t i0 u T x y
delete|n1 v2 dD x0 y0|n1 v2 dD c0 t i0 u T x0 y0
delete|w5 dD Nn1|w5 v0 dD c0 t i0 u T Nn1
create|r6 v1|r6 v1 dV c0 t i0 u T M
";

/// Lines of change files that say nothing, the first of which is empty.
const SKIPPED_COUNT: u32 = 6;

const SKIPPED: &[u8] = b"
\x20
\t \t
#
# n1 x0 y0
#\xff\x00
";

/// The bytes before the first of a sign; the rest is what is behind it.
fn cut<'a>(rest: &mut &'a [u8], sign: u8) -> &'a [u8] {
    match first_part(rest, sign) {
        Some((first, more)) => {
            *rest = more;
            first
        }
        None => rest,
    }
}

fn name_of(cause: Cause) -> &'static [u8] {
    match cause {
        Cause::BadText => b"bad text",
        Cause::BadField => b"bad field",
        Cause::BadNumber => b"bad number",
        Cause::TwiceField => b"field twice",
        Cause::BadTime => b"bad time",
        Cause::BadEscape => b"bad escape",
        Cause::BadCoordinate => b"bad coordinate",
        Cause::NoPlace => b"no place",
        Cause::Deleted => b"deleted",
        _ => b"another",
    }
}

fn done_by(act: Act) -> &'static [u8] {
    match act {
        Act::Keep => b"keep",
        Act::Create => b"create",
        Act::Modify => b"modify",
        Act::Delete => b"delete",
    }
}

/// What is read of a line.
fn read<R: Abort + AllocGlobal>(rt: &R, line: &[u8], flow: Flow) -> LineRead {
    read_line(rt.alloc(), line, flow).expect(rt, "a line")
}

/// Whether each of the first `count` lines is bad for the cause that is said of it.
fn are_bad<R: Abort + AllocGlobal>(rt: &R, count: u32, lines: &[u8], flow: Flow) {
    let mut rest = lines;
    for _line in 0..count {
        let mut line = cut(&mut rest, b'\n');
        let name = cut(&mut line, b'|');
        let is_bad = match read(rt, line, flow) {
            LineRead::Bad(cause) => name_of(cause) == name,
            LineRead::Skipped | LineRead::Item(_) => false,
        };
        assert!(rt; is_bad, "{line:?}");
    }
}

/// Whether an item is written so, without its newline.
fn is_written<R: Abort + AllocGlobal>(rt: &R, item: &Item, written: &[u8]) -> bool {
    let mut out = Bytes::new(rt.alloc());
    write_line(&mut out, item).expect(rt, "a written line");
    out.as_slice().strip_suffix(b"\n") == Some(written)
}

/// Whether each of the first `count` lines says that this is done with an item, which is written so.
fn are_changes<R: Abort + AllocGlobal>(rt: &R, count: u32, lines: &[u8]) {
    let mut rest = lines;
    for _line in 0..count {
        let mut line = cut(&mut rest, b'\n');
        let name = cut(&mut line, b'|');
        let text = cut(&mut line, b'|');
        let is_change = match read(rt, text, Flow::Changes) {
            LineRead::Item(item) => done_by(item.act) == name && is_written(rt, &item, line),
            LineRead::Skipped | LineRead::Bad(_) => false,
        };
        assert!(rt; is_change, "{text:?}");
    }
}

/// Whether each of the first `count` lines says nothing.
fn are_skipped<R: Abort + AllocGlobal>(rt: &R, count: u32, lines: &[u8]) {
    let mut rest = lines;
    for _line in 0..count {
        let line = cut(&mut rest, b'\n');
        let is_skipped = match read(rt, line, Flow::Changes) {
            LineRead::Skipped => true,
            LineRead::Item(_) | LineRead::Bad(_) => false,
        };
        assert!(rt; is_skipped, "{line:?}");
    }
}

#[test]
fn a_line_says_its_item_or_its_first_cause(rt: HostRuntime) {
    are_bad(&rt, BAD_COUNT, BAD, Flow::Entities);
    are_bad(&rt, BAD_CHANGE_COUNT, BAD_CHANGES, Flow::Changes);
    are_changes(&rt, CHANGE_COUNT, CHANGES);
    are_skipped(&rt, SKIPPED_COUNT, SKIPPED);
}

//! Files of a host in memory, copied pull by pull: what the copy is, the verdict and the counts.
ghost use Rattle.std.specs.Prelude.{◌≡◌, ◌<◌, OnOk};
ghost use Rattle.osm_entity.specs.declared.verdict.Verdict.TheVariants.{Running};
ghost use Rattle.osm_opl.specs.Reader.{CanPull};

use osm_entity::{Bytes, Cause, Flow, Spot, Text, Verdict};
use osm_host::{FailAt, Fails, FileHeld, Files, Host, HostError, MemoryHost, Op, Sink, Source};
use osm_opl::{OplReader, OplWriter};
use std::alloc::Global;
use std::process::Abort;

/// How many rows there are.
const COUNT: u32 = 36;

/// A row for each file and each way to copy it, of two lines, the second of which is the copy. The columns of the first:
/// what it shows; the file's first bytes, how many `#` follow, and its last bytes; the verdict, its line, up to where
/// bytes are looked at, and whether the last pull gives nothing; the flow, the limit, which pieces, and the kind and
/// number of the call that fails. A `/` is a newline, and a blank at the end stands before a `|`.
const ROWS: &str = "\
an empty file||0||clean|0|0|idle|entities||any||0

blank lines and comments|/# n1/ \t/#|0||clean|0|10|idle|entities||any||0

a newline at the end|n1 x1.5 y2/w5/r6/|0||clean|0|17|idle|entities||any||0
n1 v0 dV c0 t i0 u T x1.5 y2/w5 v0 dV c0 t i0 u T N/r6 v0 dV c0 t i0 u T M/
no newline at the end|n1 x1.5 y2/w5/r6|0||clean|0|16|idle|entities||any||0
n1 v0 dV c0 t i0 u T x1.5 y2/w5 v0 dV c0 t i0 u T N/r6 v0 dV c0 t i0 u T M/
skipped lines|#/n1 x1.5 y2///w5/ /|0||clean|0|20|idle|entities||any||0
n1 v0 dV c0 t i0 u T x1.5 y2/w5 v0 dV c0 t i0 u T N/
a bad line|n1 x1.5 y2//w5/q/r6/n/|0||bad field|4|17||entities||any||0
n1 v0 dV c0 t i0 u T x1.5 y2/w5 v0 dV c0 t i0 u T N/
a bad first line|n1/n1 x1.5 y2/|0||no place|1|3||entities||any||0

a bad last line|n1 x1.5 y2/q|0||bad field|2|12|idle|entities||any||0
n1 v0 dV c0 t i0 u T x1.5 y2/
all within the limit|n1 x1.5 y2/w5/r6/|0||clean|0|17|idle|entities|17|any||0
n1 v0 dV c0 t i0 u T x1.5 y2/w5 v0 dV c0 t i0 u T N/r6 v0 dV c0 t i0 u T M/
all but a newline|n1 x1.5 y2/w5/r6/|0||too long|0|17||entities|16|any||0
n1 v0 dV c0 t i0 u T x1.5 y2/w5 v0 dV c0 t i0 u T N/
two lines|n1 x1.5 y2/w5/r6/|0||too long|0|15||entities|14|any||0
n1 v0 dV c0 t i0 u T x1.5 y2/w5 v0 dV c0 t i0 u T N/
a line and a part|n1 x1.5 y2/w5/r6/|0||too long|0|14||entities|13|any||0
n1 v0 dV c0 t i0 u T x1.5 y2/
nothing|n1 x1.5 y2/w5/r6/|0||too long|0|1||entities|0|any||0

an empty file within||0||clean|0|0|idle|entities|0|any||0

an unended line|n1 x1.5 y2/w5|0||clean|0|13|idle|entities|13|any||0
n1 v0 dV c0 t i0 u T x1.5 y2/w5 v0 dV c0 t i0 u T N/
a part of an unended line|n1 x1.5 y2/w5|0||too long|0|13||entities|12|any||0
n1 v0 dV c0 t i0 u T x1.5 y2/
a bad line within|n1 x1.5 y2/q/w5/|0||bad field|2|13||entities|13|any||0
n1 v0 dV c0 t i0 u T x1.5 y2/
a bad line but its newline|n1 x1.5 y2/q/|0||too long|0|13||entities|12|any||0
n1 v0 dV c0 t i0 u T x1.5 y2/
the longest line||16777216||clean|0|16777216|idle|entities||long||0

a line behind it||16777216|/n1 x1.5 y2/|clean|0|16777228|idle|entities||long||0
n1 v0 dV c0 t i0 u T x1.5 y2/
a byte more||16777217||line too long|1|16777217||entities||long||0

a later line|n1 x1.5 y2/|16777217|/n1 x1.5 y2/|line too long|2|16777228||entities||long||0
n1 v0 dV c0 t i0 u T x1.5 y2/
many bytes more||20000000||line too long|1|16777217||entities||long||0

no byte came|n1 x1.5 y2/w5|0||read|0|0|idle|entities||4096|pull|1

the end didn't come|n1 x1.5 y2/w5|0||read|0|13|idle|entities||4096|pull|2
n1 v0 dV c0 t i0 u T x1.5 y2/
a newline didn't come|n1 x1.5 y2/w5|0||read|0|10|idle|entities||5|pull|3

a line came|n1 x1.5 y2/w5|0||read|0|13|idle|entities||5|pull|4
n1 v0 dV c0 t i0 u T x1.5 y2/
a bad line isn't whole|n1 x1.5 y2/q|0||read|0|12|idle|entities||4096|pull|2
n1 v0 dV c0 t i0 u T x1.5 y2/
a bad line came|n1 x1.5 y2/q/w5|0||bad field|2|13||entities||5|pull|4
n1 v0 dV c0 t i0 u T x1.5 y2/
a bad line came at once|n1 x1.5 y2/q/w5|0||bad field|2|13||entities||4096|pull|2
n1 v0 dV c0 t i0 u T x1.5 y2/
half a line was put|n1 x1.5 y2/w5/r6/|0||running|0|11||entities||1|put|1
n1 v0 dV c0 t |
half a line was put at once|n1 x1.5 y2/w5/r6/|0||running|0|17||entities||4096|put|1
n1 v0 dV c0 t |
a line and a half were put|n1 x1.5 y2/w5/r6/|0||running|0|17||entities||4096|put|2
n1 v0 dV c0 t i0 u T x1.5 y2/w5 v0 dV c0
changes|n1 v1 x0 y0/n1 v2 x0 y0/w5/n1 v3 dD x0 y0/|0||clean|0|42|idle|changes||any||0
n1 v1 dV c0 t i0 u T x0 y0/n1 v2 dV c0 t i0 u T x0 y0/w5 v0 dV c0 t i0 u T N/n1 v3 dD c0 t i0 u T x0 y0/
a change in an entity file|n1 v1 x0 y0/n1 v2 x0 y0/w5/n1 v3 dD x0 y0/|0||deleted|4|42||entities||any||0
n1 v1 dV c0 t i0 u T x0 y0/n1 v2 dV c0 t i0 u T x0 y0/w5 v0 dV c0 t i0 u T N/
a comment without an end||0|#|clean|0|1|idle|entities||any||0

";

/// More bytes than any file here has.
const ENOUGH: u64 = 1 << 40;

/// A row by its columns; at 0 no call fails.
#[derive(Drop)]
struct Row<'a> {
    says: &'a str,
    head: &'a str,
    count: u64,
    tail: &'a str,
    copy: &'a str,
    verdict: &'a str,
    line: u64,
    end: u64,
    is_idle: bool,
    flow: Flow,
    limit: u64,
    pieces: &'static [u32],
    fails: Op,
    nth: u64,
}

/// The text before the first of a sign; the rest is what is behind it.
fn cut<'a>(rest: &mut &'a str, sign: char) -> &'a str {
    match rest.split_once(sign) {
        Some((first, more)) => {
            *rest = more;
            first
        }
        None => rest,
    }
}

fn number(digits: &str) -> u64 {
    let mut number = 0_u64;
    for digit in digits.as_bytes() {
        number = number
            .saturating_mul(10)
            .saturating_add((*digit % 16) as u64);
    }
    number
}

/// Adds a text to bytes, in which a `/` is a newline.
fn add_text<R: Abort>(rt: &R, bytes: &mut Bytes, text: &str) {
    for byte in text.as_bytes() {
        let byte = if *byte == b'/' { b'\n' } else { *byte };
        bytes.push(byte).expect(rt, "a text");
    }
}

fn bytes_of<R: Abort + AllocGlobal>(rt: &R, text: &str) -> Bytes {
    let mut bytes = Bytes::new(rt.alloc());
    add_text(rt, &mut bytes, text);
    bytes
}

fn text_of<R: Abort + AllocGlobal>(rt: &R, name: &[u8]) -> Text {
    Text::from_bytes(rt.alloc(), name).expect(rt, "a name")
}

/// The file of a row.
fn file_of<R: Abort + AllocGlobal>(rt: &R, row: &Row) -> Bytes {
    let mut bytes = bytes_of(rt, row.head);
    for _sign in 0..row.count {
        bytes.push(b'#').expect(rt, "a sign");
    }
    add_text(rt, &mut bytes, row.tail);
    bytes
}

/// How many bytes a source gives at most in one pull.
fn pieces_of(name: &str) -> &'static [u32] {
    if name == "any" {
        &[1, 2, 3, 5, 7, 16, 4096]
    } else if name == "long" {
        &[4096, 65_536]
    } else if name == "5" {
        &[5]
    } else if name == "1" {
        &[1]
    } else {
        &[4096]
    }
}

/// Puts all items that the reader has.
fn put_items<K: Sink>(from: &mut OplReader, by: &mut OplWriter, to: &mut K) -> Result<(), HostError>
    ensures pulls { OnOk result (from.new.verdict ≡ Running → CanPull from.new) }
    ensures name { K.name to.new ≡ K.name to.old }
{
    while let Some(item) = from.next()? {
        by.put(to, &item)?;
    }
    Ok(())
}

/// Pulls and puts items until the reader has a verdict, and counts the pulls.
fn copy_items<S: Source, K: Sink>(
    reader: &mut OplReader,
    source: &mut S,
    sink: &mut K,
    mut writer: OplWriter,
) -> Result<u64, HostError>
    requires { CanPull reader.old }
    ensures { K.name sink.new ≡ K.name sink.old }
{
    for pulls in 1..ENOUGH {
        reader.pull(source)?;
        put_items(reader, &mut writer, sink)?;
        if !matches!(reader.verdict(), Verdict::Running) {
            return Ok(pulls);
        }
    }
    Ok(ENOUGH)
}

/// A row of its two lines.
fn row_of<'a>(line: &'a str, copy: &'a str) -> Row<'a> {
    let mut rest = line;
    let mut copy = copy;
    let says = cut(&mut rest, '|');
    let head = cut(&mut rest, '|');
    let count = number(cut(&mut rest, '|'));
    let tail = cut(&mut rest, '|');
    let verdict = cut(&mut rest, '|');
    let line = number(cut(&mut rest, '|'));
    let end = number(cut(&mut rest, '|'));
    let is_idle = cut(&mut rest, '|') == "idle";
    let flow = flow_of(cut(&mut rest, '|'));
    let limit = limit_of(cut(&mut rest, '|'));
    let pieces = pieces_of(cut(&mut rest, '|'));
    let fails = op_of(cut(&mut rest, '|'));
    Row {
        says,
        head,
        count,
        tail,
        copy: cut(&mut copy, '|'),
        verdict,
        line,
        end,
        is_idle,
        flow,
        limit,
        pieces,
        fails,
        nth: number(rest),
    }
}

fn flow_of(name: &str) -> Flow {
    if name == "changes" {
        Flow::Changes
    } else {
        Flow::Entities
    }
}

fn limit_of(digits: &str) -> u64 {
    if digits == "" { ENOUGH } else { number(digits) }
}

fn op_of(name: &str) -> Op {
    if name == "put" { Op::Put } else { Op::Pull }
}

/// A verdict by its name and its line.
fn told(verdict: Verdict) -> (&'static str, u64) {
    match verdict {
        Verdict::Running => ("running", 0),
        Verdict::Clean => ("clean", 0),
        Verdict::TooLong => ("too long", 0),
        Verdict::Read => ("read", 0),
        Verdict::Input {
            cause,
            spot: Spot::Line(line),
        } => (cause_name(cause), line),
        _ => ("other", 0),
    }
}

fn cause_name(cause: Cause) -> &'static str {
    match cause {
        Cause::BadField => "bad field",
        Cause::NoPlace => "no place",
        Cause::LineTooLong => "line too long",
        Cause::Deleted => "deleted",
        _ => "other",
    }
}

/// A host with the file of a row as `a`.
fn host_of<R: Abort + AllocGlobal>(rt: &R, row: &Row, bytes: Bytes, piece: u32) -> MemoryHost
    requires { 0 < piece }
{
    let mut files = Files::new(rt.alloc());
    let name = text_of(rt, b"a");
    files.push(FileHeld { name, bytes }).expect(rt, "a file");
    let mut all = Fails::new(rt.alloc());
    let name = text_of(rt, if row.fails == Op::Put { b"b" } else { b"a" });
    let (op, nth) = (row.fails, row.nth);
    all.push(FailAt { name, op, nth }).expect(rt, "a call");
    MemoryHost::new(rt.alloc(), files, piece, all, false).expect(rt, "a host")
}

/// Copies `a` of a host to `b`: how many pulls were made, or 0 where a put failed, and the reader.
fn copy_file<R: Abort + AllocGlobal>(rt: &R, host: &mut MemoryHost, row: &Row) -> (u64, OplReader) {
    let b = text_of(rt, b"b");
    let mut source = host.open_source(&text_of(rt, b"a")).expect(rt, "a source");
    let mut sink = host.open_sink(&b).expect(rt, "a sink");
    let mut reader = OplReader::new(rt.alloc(), row.flow, row.limit).expect(rt, "a reader");
    let writer = OplWriter::new(rt.alloc(), row.flow).expect(rt, "a writer");
    let pulls = copy_items(&mut reader, &mut source, &mut sink, writer);
    host.keep(&b, sink).expect(rt, "a keep");
    (pulls.unwrap_or(0), reader)
}

/// Copies the file of a row as its source cuts it: the last pull that gives something gives the last byte that is looked
/// at.
fn check<R: Abort + AllocGlobal>(rt: &R, row: &Row, piece: u32)
    requires { 0 < piece }
{
    let bytes = file_of(rt, row);
    let length = bytes.len() as u64;
    let mut host = host_of(rt, row, bytes, piece);
    let (pulls, reader) = copy_file(rt, &mut host, row);
    let full = row.end.div_ceil(piece as u64);
    let given = full.saturating_mul(piece as u64).min(length);
    let makes = if row.fails == Op::Put {
        0
    } else {
        full.saturating_add(row.is_idle as u64)
    };
    let is_right = is_held(&host, bytes_of(rt, row.copy).as_slice())
        && is_told(reader.verdict(), row)
        && reader.given() == given
        && reader.reached_end() == (row.is_idle && row.verdict != "read")
        && pulls == makes;
    assert!(rt; is_right, "{}, in {piece}", row.says);
}

/// Whether the verdict is that of the row.
fn is_told(verdict: Verdict, row: &Row) -> bool {
    let (name, line) = told(verdict);
    name == row.verdict && line == row.line
}

/// Whether `b` of the host holds just these bytes.
fn is_held(host: &MemoryHost, bytes: &[u8]) -> bool {
    for file in host.files().as_slice() {
        if file.name.as_slice() == b"b".as_slice() {
            return file.bytes.as_slice() == bytes;
        }
    }
    false
}

#[test]
fn a_file_is_copied_however_its_source_cuts_it_up_to_what_stops_it(rt: HostRuntime) {
    let mut rest = ROWS;
    for _row in 0..COUNT {
        let line = cut(&mut rest, '\n');
        let row = row_of(line, cut(&mut rest, '\n'));
        for piece in row.pieces {
            check(&rt, &row, (*piece).max(1));
        }
    }
}

//! Each task as a machine, which is given its messages one by one as it wants them: what it did in which order, its
//! verdict, and the bytes of its device.
ghost use Rattle.std.specs.Prelude.{◌≡◌, ◌<◌, IsTrue, IsSome, IsNone};
ghost use Rattle.osm_machine.specs.TaskMeanings.{reads_area, reads_file};
ghost use Rattle.osm_tasks.specs.Kinds.{writes_file};

use crate::keeping::Keeping;
use osm_area::Area;
use osm_entity::{Bytes, End, Flow, Item, Message, Sequence, Text, Want};
use osm_host::{FailAt, Fails, FileHeld, Files, Host, MemoryHost, MemorySource, Op};
use osm_machine::{Machine, Parts, make};
use osm_opl_line::{LineRead, read_line, write_line};
use osm_tasks::{Task, TaskKind, Tasks, resolve};
use osm_text::first_part;
use osm_words::split;
use std::process::Abort;

/// A machine over devices in memory.
pub(crate) type Driven = Machine<MemorySource, Keeping>;

/// How many rows there are.
const COUNT: u32 = 89;

/// A row for each run, of two lines. The columns of the first: what it shows; the words of the task; its items, with a
/// `/` between them, which are called by the letters from `a` on; and what comes in at each input, with a `.` for an
/// end that is done and a `!` for one that is broken. Those of the second: what the machine did; its verdict; and for a
/// task with a file how many bytes a pull gives at most, the number of the pull or put that fails, at 0 none, how many
/// bytes its source gave, whether their end came, and the file, where a `/` is a newline and PBF is in hexadecimal.
///
/// What a machine did is a sign for each move: `^` for a pull, the number of the input at which it took a message, and
/// what it gave, a letter or an end, with as many `'` as the number of the output. An item not of the row is `?`.
const ROWS: &[u8] = b"\
a way that no relation names|--used-way|n1 x0.5 y0.5/n2 x2 y2/n3 x3 y3/w1 Nn1,n2/w2 Nn2,n3/r1 Mr2@/r2 Mw1@|abcdefg.|
00000000abcdfg.|Clean|
then a node that nothing names|--used-node|n1 x0.5 y0.5/n2 x2 y2/n3 x3 y3/w1 Nn1,n2/w2 Nn2,n3/r1 Mr2@/r2 Mw1@|abcdfg.|
0000000abdfg.|Clean|
each node is named|--used-node|n1 x0.5 y0.5/n2 x2 y2/n3 x3 y3/w1 Nn1,n2/w2 Nn2,n3/r1 Mr2@/r2 Mw1@|abcdefg.|
00000000abcdefg.|Clean|
ways after a broken end|--used-way|n1 x0.5 y0.5/n2 x2 y2/n3 x3 y3/w1 Nn1,n2/w2 Nn2,n3/r1 Mr2@/r2 Mw1@|abcdefg!|
00000000abc!|Passed|
nodes after a broken end|--used-node|n1 x0 y0/w1 Nn1|ab!|
000!|Passed|
what is before the first node|--used-node|n1 x0 y0/w1 Nn1|ba!|
000b!|Passed|
a broken end without a node|--used-node|w1 Nn1/r1 Mn5@|ab!|
000ab!|Passed|
a member of a relation|--used-node|n1 x0 y0/n5 x0 y0/r1 Mn5@|abc.|
0000bc.|Clean|
a way of the node's number|--used-node|n7 x0 y0/r1 Mw7@|ab.|
000b.|Clean|
a node of the way's number|--used-way|w7 Nn7/w8 Nn7/r1 Mn7@,w8@|abc.|
0000bc.|Clean|
no node|--used-node||.|
0.|Clean|
no way, broken|--used-way||!|
0!|Passed|
all of a kind are rejected|--tag-filter reject-nodes|n1 x0.5 y0.5/n2 x2 y2/n3 x3 y3/w1 Nn1,n2/w2 Nn2,n3/r1 Mr2@/\
    r2 Mw1@|abcdefg.|
0000d0e0f0g0.|Clean|
without a test all match|--tag-filter accept-ways|n1 Thighway=path x0 y0/w1 Thighway=path/w2 Thighway=track/w3/\
    w4 Tname=Lee,waterway=river/r1 Thighway=track|abcdef.|
0a0b0c0d0e0f0.|Clean|
any value|--tag-filter accept-ways highway=*|n1 Thighway=path x0 y0/w1 Thighway=path/w2 Thighway=track/w3/\
    w4 Tname=Lee,waterway=river/r1 Thighway=track|abcdef.|
0a0b0c000f0.|Clean|
some values|--tag-filter accept-ways highway=primary,track|n1 Thighway=path x0 y0/w1 Thighway=path/w2 Thighway=track/\
    w3/w4 Tname=Lee,waterway=river/r1 Thighway=track|abcdef.|
0a00c000f0.|Clean|
two keys|--tag-filter accept-ways highway=track waterway=river|n1 Thighway=path x0 y0/w1 Thighway=path/\
    w2 Thighway=track/w3/w4 Tname=Lee,waterway=river/r1 Thighway=track|abcdef.|
0a00c00e0f0.|Clean|
any value is rejected|--tag-filter reject-ways highway=*|n1 Thighway=path x0 y0/w1 Thighway=path/w2 Thighway=track/w3/\
    w4 Tname=Lee,waterway=river/r1 Thighway=track|abcdef.|
0a000d0e0f0.|Clean|
relations are rejected|--tag-filter reject-relations|n1 Thighway=path x0 y0/w1 Thighway=path/w2 Thighway=track/w3/\
    w4 Tname=Lee,waterway=river/r1 Thighway=track|abcdef.|
0a0b0c0d0e00.|Clean|
nodes are accepted|--tag-filter accept-nodes highway=track|n1 Thighway=path x0 y0/w1 Thighway=path/w2 Thighway=track/\
    w3/w4 Tname=Lee,waterway=river/r1 Thighway=track|abcdef.|
00b0c0d0e0f0.|Clean|
a broken end of a filter|--tag-filter reject-ways highway=*|n1 Thighway=path x0 y0/w1 Thighway=path/w2 Thighway=track/\
    w3/w4 Tname=Lee,waterway=river/r1 Thighway=track|abcdef!|
0a000d0e0f0!|Passed|
what a box touches|--bounding-box left=0 right=1 top=1 bottom=0|n1 x0.5 y0.5/n2 x2 y2/w1 Nn1,n2/w2 Nn2/r1 Mw1@/r2 Mr1@,n2@|\
    abcdef.|
0a00c00e0f0.|Clean|
whole ways of a box|--bounding-box left=0 right=1 top=1 bottom=0 completeWays=yes|n1 x0.5 y0.5/n2 x2 y2/n3 x3 y3/\
    w1 Nn1,n2/r1 Mw1@|abcde.|
000000abde.|Clean|
a relation that names a later one|--bounding-box left=0 right=1 top=1 bottom=0 cascadingRelations=yes|n1 x1 y1/r1 Mr2@/\
    r2 Mn1@|abc!|
0000!|Passed|
a way that is clipped|--bounding-box left=0 right=1 top=1 bottom=0 clipIncompleteEntities=yes|n1 x0 y0/w1 Nn1,n2/\
    w1 Nn1|ab.|
0a0c0.|Clean|
a node behind a way|--bounding-box left=0 right=1 top=1 bottom=0|w1 Nn1/n1 x0 y0|ab.|
000!|Input { cause: Unordered, spot: Item { port: 0, number: 2 } }|
the area of a polygon|--bounding-polygon file=a|n1 x0.5 y0.5/n2 x2 y2|ab!|
0a00!|Passed|
kinds and numbers are sorted|--sort|w1/n2 x0 y0/n1 x0 y0|abc.|
0000cba.|Clean|
nodes, ways, relations|--sort|r1/w1/n9 x0 y0|abc.|
0000cba.|Clean|
numbers below 0|--sort|n-1 x0 y0/n2 x0 y0/n-5 x0 y0|abc.|
0000cab.|Clean|
changes are sorted|--sort-change|n2 v2 dD/n1 v3 x1 y1|ab.|
000ba.|Clean|
equal keys stay|--sort|n1 v2 x0 y0/n1 v1 x0 y0|ab.|
000ab.|Clean|
nothing is sorted|--sort||.|
0.|Clean|
a sort of a broken stream|--sort|n2 x0 y0/n1 x0 y0|ab!|
000!|Passed|
tee gives twice|--tee|n1 x0 y0/w1|ab.|
0aa'0bb'0..'|Clean|
tee gives three times|--tee outputCount=3|n1 x0 y0|a!|
0aa'a''0!!'!''|Passed|
tee of changes|--tee-change 1|n1 v2 dD|a.|
0a0.|Clean|
a buffer|--buffer|n1 x0 y0/w1|ab.|
0a0b0.|Clean|
a buffer of changes|--buffer-change 1|n1 v2 dD|a!|
0a0!|Passed|
a spool|--spool|n1 x0 y0/w1|ab!|
0a0b0!|Passed|
a spool of changes|--spool-change|n1 v2 dD|a.|
0a0.|Clean|
no entity|--read-empty|||
.|Clean|
a node is made|--read-made 1|n1 v1 c1 t2010-01-01T00:00:00Z x85.4435761 y-4.5523737||
a.|Clean|
nothing is made|--read-made 0|||
.|Clean|
a hundred are made|--read-made 100 seed=4294967295|w9 v1 c1 t2010-01-01T00:00:00Z Nn59,n67,n75,n83/\
    w10 v1 c1 t2010-01-01T00:00:00Z Thighway=residential Nn6,n14,n22,n30/r1 v1 c1 t2010-01-01T00:00:00Z Mw1@part,n89@||
?????????????????????????????????????????????????????????????????????????????????????????????????abc.|Clean|
nothing is written|--write-null|n1 x0 y0/w1|ab.|
000|Clean|
nothing is written of a broken stream|--write-null|n1 x0 y0/w1|ab!|
000|Passed|
lines are written|--write-opl b|n1 x1.5 y2/w5|ab.|
000|Clean|||||n1 v0 dV c0 t i0 u T x1.5 y2/w5 v0 dV c0 t i0 u T N/|
lines of a broken stream|--write-opl b|n1 x1.5 y2|a!|
00|Passed|||||n1 v0 dV c0 t i0 u T x1.5 y2/|
no line|--write-opl b||.|
0|Clean||||||
the first put fails|--write-opl b|n1 x1.5 y2/w5|ab.|
000|Write||1|||n1 v0 dV c0 t |
changes are written|--write-opl-change b|n2 v2 dD|a.|
00|Clean|||||n2 v2 dD c0 t i0 u T x y/|
an empty PBF file|--write-pbf b usedense=false||.|
0|Clean|||||0000000d0a094f534d48656164657218120a10220e4f736d536368656d612d56302e36|
a PBF file|--write-pbf b omitmetadata=true|n1 x1.5 y2|a.|
00|Clean|||||0000000d0a094f534d486561646572181e0a1c220e4f736d536368656d612d56302e36220a44656e73654e6f6465730000000b0a0\
    74f534d4461746118190a170a020a001211120f0a0102420480b489134a048087a70e|
a summary|--write-summary b|n1 x0 y0 Ta=b/w1 Nn1,n2/r1 Mn1@role|abc.|
0000|Clean|||||nodes 1/ways 1/relations 1/tags 1/refs 2/members 1/weight 518/|
a summary of nothing|--write-summary b||.|
0|Clean|||||nodes 0/ways 0/relations 0/tags 0/refs 0/members 0/weight 0/|
a summary of a broken stream|--write-summary b|n1 x0 y0|a!|
00|Passed||||||
a file is read|--read-opl a|n1 x1.5 y2||
^a^.|Clean|4096||11|ended|n1 x1.5 y2/|
it is read in pieces|--read-opl a|n1 x1.5 y2/w5||
^^^ab^.|Clean|5||14|ended|n1 x1.5 y2/w5/|
it has no newline|--read-opl a|n1 x1.5 y2||
^^a.|Clean|4096||10|ended|n1 x1.5 y2|
its end doesn't come|--read-opl a|||
^^!|Read|4096|2|10||n1 x1.5 y2|
its second line is bad|--read-opl a|n1 x1.5 y2||
^a!|Input { cause: BadNumber, spot: Line(2) }|4096||38||n1 x1.5 y2/n9223372036854775808 x0 y0/|
it is empty|--read-opl a|||
^.|Clean|4096||0|ended||
a change where none may be|--read-opl a|||
^!|Input { cause: Deleted, spot: Line(1) }|4096||12||n1 dD x0 y0/|
changes are read|--read-opl-change a|n1 v2 dD||
^a^.|Clean|4096||9|ended|n1 v2 dD/|
an empty PBF file is read|--read-pbf a|||
^^.|Clean|4096||35|ended|0000000d0a094f534d48656164657218120a10220e4f736d536368656d612d56302e36|
a PBF file is read|--read-pbf a|n1 x1.5 y2||
^a^.|Clean|4096||87|ended|0000000d0a094f534d486561646572181e0a1c220e4f736d536368656d612d56302e36220a44656e73654e6f6465\
    730000000b0a074f534d4461746118190a170a020a001211120f0a0102420480b489134a048087a70e|
it is too short|--read-pbf a|||
^^!|Input { cause: ShortFile, spot: Blob { number: 0, byte: 0 } }|4096||10|ended|0000000d0a094f534d48|
a blob is compressed|--read-pbf a|||
^!|Input { cause: Compressed, spot: Blob { number: 1, byte: 35 } }|4096||53||\
    0000000d0a094f534d48656164657218120a10220e4f736d536368656d612d56302e360000000b0a074f534d4461746118031a0100|
a blob of another type|--read-pbf a|||
^^.|Clean|4096||51|ended|0000000d0a094f534d48656164657218120a10220e4f736d536368656d612d56302e36000000090a0558446174611\
    8031a0100|
a pull of a PBF file fails|--read-pbf a|||
^^!|Read|40|2|40||0000000d0a094f534d486561646572181e0a1c220e4f736d536368656d612d56302e36220a44656e73654e6f646573000000\
    0b0a074f534d4461746118190a170a020a001211120f0a0102420480b489134a048087a70e|
by version, time, input|--merge|n1 v2 t2011-01-01T00:00:00Z x1 y1/n2 v1 uA x1 y1/n1 v2 t2010-01-01T00:00:00Z x2 y2/\
    n2 v1 uB x2 y2|ab. cd.|
01a01d01.|Clean|
the last source|--merge conflictResolutionMethod=lastSource|n1 v2 t2011-01-01T00:00:00Z x1 y1/n2 v1 uA x1 y1/\
    n1 v2 t2010-01-01T00:00:00Z x2 y2/n2 v1 uB x2 y2|ab. cd.|
01c01d01.|Clean|
the later time|--merge conflictResolutionMethod=timestamp|n1 v1 t2011-01-01T00:00:00Z x1 y1/n2 v1 uA x1 y1/\
    n1 v2 t2010-01-01T00:00:00Z x2 y2/n2 v1 uB x2 y2|ab. cd.|
01a01d01.|Clean|
the greater version|--merge conflictResolutionMethod=version|n1 v1 t2011-01-01T00:00:00Z x1 y1/n2 v1 uA x1 y1/\
    n1 v2 t2010-01-01T00:00:00Z x2 y2/n2 v1 uB x2 y2|ab. cd.|
01c01d01.|Clean|
a stream and itself|--merge|n1 x1.5 y2|a. a.|
01a01.|Clean|
the second ends before|--merge|n1 x0 y0/n5 x0 y0/n4 x0 y0/n2 x0 y0/n9 x0 y0|abc. d!|
01a0d100!|Passed|
the first is out of order|--merge|n1 x0 y0/n5 x0 y0/n4 x0 y0/n2 x0 y0/n9 x0 y0|abc. de.|
01a0d1b001!|Input { cause: Unordered, spot: Item { port: 0, number: 3 } }|
the first is empty and broken|--merge|n1 x0 y0|! a.|
011!|Passed|
changes by key|--merge-change|n1 v1 x0 y0/n2 v2 dD|b. a.|
01a1b0.|Clean|
changes behind changes|--append-change|n1 v1 x0 y0/n2 v2 dD|b. a.|
0b01a1.|Clean|
behind a broken input|--append-change|n1 v1 x0 y0/n2 v2 dD|b! a.|
0b011!|Passed|
a broken input behind|--append-change|n1 v1 x0 y0/n2 v2 dD|b. a!|
0b01a1!|Passed|
changes over a base|--apply-change|n1 x1 y1/n3 x2 y2/n2 v1 x3 y3/n3 v2 dD|ab. cd.|
01a0c101.|Clean|
a change of what is there|--apply-change|n1 x1 y1/n1 v2 x3 y3|a. b.|
01b01.|Clean|
what is absent is deleted|--apply-change|n1 x1 y1/n2 v2 dD/n3 x1 y1|ac. b.|
01a01c0.|Clean|
a key twice in the changes|--apply-change|n1 x1 y1/n2 v1 x0 y0/n2 v2 x0 y0|a. bc.|
01a0b11!|Input { cause: Unordered, spot: Item { port: 1, number: 2 } }|
the last change at the first's place|--simplify-change|n2 v1 x0 y0/n1 v3 x1 y1/n2 v2 dD|abc.|
0000cb.|Clean|
broken changes|--simplify-change|n2 v1 x0 y0/n1 v3 x1 y1/n2 v2 dD|abc!|
0000!|Passed|
";

/// More moves than any machine here makes, but those of the million.
const ENOUGH: u32 = 1000;

/// A row by its columns.
#[derive(Drop)]
pub(crate) struct Row<'a> {
    shows: &'a [u8],
    words: &'a [u8],
    items: &'a [u8],
    streams: &'a [u8],
    did: &'a [u8],
    verdict: &'a [u8],
    piece: u64,
    fails: u64,
    given: u64,
    has_ended: bool,
    file: &'a [u8],
}

/// The bytes before the first of a sign; the rest is what is behind it.
pub(crate) fn cut<'a>(rest: &mut &'a [u8], sign: u8) -> &'a [u8] {
    match first_part(rest, sign) {
        Some((first, more)) => {
            *rest = more;
            first
        }
        None => {
            let all = *rest;
            *rest = b"".as_slice();
            all
        }
    }
}

fn column<'a>(rest: &mut &'a [u8]) -> &'a [u8] {
    cut(rest, b'|')
}

fn number(digits: &[u8]) -> u64 {
    let mut number = 0_u64;
    for digit in digits {
        number = number
            .saturating_mul(10)
            .saturating_add((*digit % 16) as u64);
    }
    number
}

/// A row of its two lines.
pub(crate) fn row_of<'a>(first: &'a [u8], second: &'a [u8]) -> Row<'a> {
    let (mut first, mut second) = (first, second);
    Row {
        shows: column(&mut first),
        words: column(&mut first),
        items: column(&mut first),
        streams: column(&mut first),
        did: column(&mut second),
        verdict: column(&mut second),
        piece: number(column(&mut second)),
        fails: number(column(&mut second)),
        given: number(column(&mut second)),
        has_ended: column(&mut second) == b"ended".as_slice(),
        file: column(&mut second),
    }
}

fn text<R: Abort + AllocGlobal>(rt: &R, bytes: &[u8]) -> Text {
    Text::from_bytes(rt.alloc(), bytes).expect(rt, "a text")
}

/// The task of these words, with a blank between them.
fn tasks_of<R: Abort + AllocGlobal>(rt: &R, words: &[u8]) -> Tasks {
    let mut texts = Sequence::new(rt.alloc());
    for word in words.split(|byte| *byte == b' ') {
        texts.push(text(rt, word)).expect(rt, "a word");
    }
    let list = split(rt.alloc(), texts.as_slice()).expect(rt, "the words of a task");
    resolve(rt.alloc(), &list).expect(rt, "a task")
}

/// The value of a hexadecimal digit.
fn hex(digit: u8) -> u8 {
    if digit < b'a' {
        digit % 16
    } else {
        digit % 16 + 9
    }
}

/// The bytes of a row's file.
fn file_of<R: Abort + AllocGlobal>(rt: &R, row: &Row) -> Bytes {
    let mut bytes = Bytes::new(rt.alloc());
    if row.words.ends_with(b"pbf a") || row.words.starts_with(b"--write-pbf") {
        for pair in row.file.chunks_exact(2) {
            if let [high, low] = pair {
                let byte = hex(*high).wrapping_mul(16).wrapping_add(hex(*low));
                bytes.push(byte).expect(rt, "a byte");
            }
        }
    } else {
        for byte in row.file {
            let byte = if *byte == b'/' { b'\n' } else { *byte };
            bytes.push(byte).expect(rt, "a byte");
        }
    }
    bytes
}

/// Whether a task reads its file.
fn reads(kind: &TaskKind) -> bool
    ensures { result ≡ reads_file kind.now }
{
    matches!(
        kind,
        TaskKind::ReadPbf { .. } | TaskKind::ReadOpl { .. } | TaskKind::ReadOplChange { .. }
    )
}

/// Whether a task has its area from a file.
fn has_polygon(kind: &TaskKind) -> bool
    ensures { result ≡ reads_area kind.now }
{
    matches!(kind, TaskKind::BoundingPolygon { .. })
}

/// The square of a degree, in the place of a polygon.
fn square() -> Area {
    Area::Box {
        left: 0,
        right: 1_000_000_000,
        top: 1_000_000_000,
        bottom: 0,
    }
}

/// A source of a row's file.
fn source_of<R: Abort + AllocGlobal>(rt: &R, row: &Row) -> MemorySource {
    let mut files = Files::new(rt.alloc());
    let (name, bytes) = (text(rt, b"a"), file_of(rt, row));
    files.push(FileHeld { name, bytes }).expect(rt, "a file");
    let mut all = Fails::new(rt.alloc());
    let (name, op, nth) = (text(rt, b"a"), Op::Pull, row.fails);
    all.push(FailAt { name, op, nth }).expect(rt, "a call");
    let piece = row.piece.clamp(1, 4096) as u32;
    let mut host = MemoryHost::new(rt.alloc(), files, piece, all, false).expect(rt, "a host");
    host.open_source(&text(rt, b"a")).expect(rt, "a source")
}

/// The machine of a row's task.
pub(crate) fn machine_of<R: Abort + AllocGlobal>(rt: &R, row: &Row) -> Driven {
    let tasks = tasks_of(rt, row.words);
    match tasks.as_slice().first() {
        Some(task) => machine_with(rt, task, row),
        None => panic!(rt; "no task"),
    }
}

/// A machine of a task, with the device that it needs.
fn machine_with<R: Abort + AllocGlobal>(rt: &R, task: &Task, row: &Row) -> Driven {
    let kind = &task.kind;
    let area = if has_polygon(kind) {
        Some(square())
    } else {
        None
    };
    let source = if reads(kind) {
        Some(source_of(rt, row))
    } else {
        None
    };
    let sink = if kind.writes() {
        Some(Keeping::new(rt.alloc(), row.fails))
    } else {
        None
    };
    make(rt.alloc(), task, area, source, sink).expect(rt, "a machine")
}

/// The item of a line.
fn item_of<R: Abort + AllocGlobal>(rt: &R, line: &[u8], flow: Flow) -> Item {
    match read_line(rt.alloc(), line, flow).expect(rt, "a line") {
        LineRead::Item(item) => item,
        _ => panic!(rt; "no item: {line:?}"),
    }
}

/// The line of an item.
fn line_of<R: Abort + AllocGlobal>(rt: &R, item: &Item) -> Bytes {
    let mut line = Bytes::new(rt.alloc());
    write_line(&mut line, item).expect(rt, "a line");
    line
}

/// The flow of what comes in at an input.
fn flow_of(words: &[u8], port: u32) -> Flow {
    if words == b"--apply-change".as_slice() && port == 1 {
        return Flow::Changes;
    }
    match words.split(|byte| *byte == b' ').next() {
        Some(name) if name.ends_with(b"-change") && name != b"--apply-change".as_slice() => {
            Flow::Changes
        }
        _ => Flow::Entities,
    }
}

/// The letter of an item among those of a row.
fn letter_of<R: Abort + AllocGlobal>(rt: &R, row: &Row, item: &Item) -> u8 {
    let line = line_of(rt, item);
    let mut letter = b'a';
    for other in row.items.split(|byte| *byte == b'/') {
        let other = line_of(rt, &item_of(rt, other, Flow::Changes));
        if other.as_slice() == line.as_slice() {
            return letter;
        }
        letter = letter.saturating_add(1);
    }
    b'?'
}

/// The message that a sign of a stream stands for.
fn message_of<R: Abort + AllocGlobal>(rt: &R, row: &Row, port: u32, sign: u8) -> Message {
    if sign == b'.' {
        return Message::End(End::Done);
    }
    if sign == b'!' {
        return Message::End(End::Broken);
    }
    let mut items = row.items;
    for _item in b'a'..sign {
        cut(&mut items, b'/');
    }
    let line = cut(&mut items, b'/');
    Message::Item(item_of(rt, line, flow_of(row.words, port)))
}

/// The sign of a message.
fn sign_of<R: Abort + AllocGlobal>(rt: &R, row: &Row, message: &Message) -> u8 {
    match message {
        Message::Item(item) => letter_of(rt, row, item),
        Message::End(End::Done) => b'.',
        Message::End(End::Broken) => b'!',
    }
}

/// What is left of the streams, and what the machine did.
#[derive(Drop)]
struct Run<'a> {
    first: &'a [u8],
    second: &'a [u8],
    did: Bytes,
}

impl<'a> Run<'a> {
    /// The next sign at an input; 0 where nothing is left.
    fn next(&mut self, port: u32) -> u8 {
        let left = if port == 0 {
            &mut self.first
        } else {
            &mut self.second
        };
        match left.split_first() {
            Some((sign, more)) => {
                let sign = *sign;
                *left = more;
                sign
            }
            None => 0,
        }
    }

    fn note<R: Abort>(&mut self, rt: &R, sign: u8) {
        self.did.push(sign).expect(rt, "a move");
    }
}

/// Moves a machine once, or answers that it has ended.
fn move_on<R: Abort + AllocGlobal>(rt: &R, row: &Row, machine: &mut Driven, run: &mut Run) -> bool {
    match machine.want() {
        Want::Pull => {
            machine.pull().expect(rt, "a pull");
            run.note(rt, b'^');
        }
        Want::Take(port) => {
            let message = message_of(rt, row, port, run.next(port));
            machine.accept(port, message).expect(rt, "an input");
            run.note(rt, if port == 0 { b'0' } else { b'1' });
        }
        Want::Give(port) => {
            let message = machine.hand(port).expect(rt, "an output");
            run.note(rt, sign_of(rt, row, &message));
            for _output in 0..port {
                run.note(rt, b'\'');
            }
        }
        Want::Ended => return false,
    }
    true
}

fn check<R: Abort + AllocGlobal>(rt: &R, row: &Row) {
    let mut machine = machine_of(rt, row);
    let mut second = row.streams;
    let first = cut(&mut second, b' ');
    let did = Bytes::new(rt.alloc());
    let mut run = Run { first, second, did };
    for _move in 0..ENOUGH {
        if !move_on(rt, row, &mut machine, &mut run) {
            break;
        }
    }
    judge(rt, row, machine, run.did.as_slice());
}

/// Bytes as a text for a message; empty where they are none.
fn shown(bytes: &[u8]) -> &str {
    std::str::from_utf8(bytes).unwrap_or("")
}

/// What was done has to be the row's, and what the machine leaves.
pub(crate) fn judge<R: Abort + AllocGlobal>(rt: &R, row: &Row, machine: Driven, did: &[u8]) {
    let Parts {
        source: _source,
        sink,
        verdict,
        given,
        clean,
    } = machine.finish();
    let verdict = format!(in rt.alloc(); "{verdict:?}").expect(rt, "a verdict");
    let is_written = match sink {
        Some(sink) => sink.bytes.as_slice() == file_of(rt, row).as_slice(),
        None => true,
    };
    let is_right = did == row.did
        && verdict.as_bytes() == row.verdict
        && given == row.given
        && clean == row.has_ended
        && is_written;
    assert!(rt; is_right, "{}: {} {verdict}", shown(row.shows), shown(did));
}

#[test]
fn machines_do_as_their_rows_say(rt: HostRuntime) {
    let mut rest = ROWS;
    for _row in 0..COUNT {
        let first = cut(&mut rest, b'\n');
        check(&rt, &row_of(first, cut(&mut rest, b'\n')));
    }
}

//! Runs on hosts in memory, on threads and on one, to a row: what `b` holds, what is said, and the
//! entry of the reader.
ghost use Rattle.std.specs.Prelude.{◌≡◌, ◌≢◌, ◌<◌};
ghost use Rattle.std.specs.List.{AllPairs};

use osm_entity::{Bytes, Sequence, Steps, Text};
use osm_host::{FailAt, Fails, FileHeld, Files, Host, MemoryHost, Op};
use osm_run::{SourceEnd, Status, run, run_alone};
use osm_text::first_part;
use std::alloc::Global;
use std::marker::Brand;
use std::process::Abort;
use std::sync::Wait;
use std::sync::ledger::{Blank, Ledger};
use std::thread::Threads;

/// The words of a copy from `a` to `b`.
pub(crate) const COPY: &[u8] = b"--read-opl file=a --write-opl file=b";

/// Words that ask for a copy of a file of changes.
const OTHER: &[u8] = b"--read-opl-change file=a --write-opl-change file=b";

/// The most words of a command here.
const MOST_WORDS: u32 = 16;

/// What `c` holds: a polygon file whose third line is bad. A `/` is a newline.
const BAD_POLYGON: &[u8] = b"x/1/0 zero/";

/// What `b` holds before each run.
const BEFORE: &[u8] = b"as before";

/// How many rows there are.
const COUNT: u32 = 36;

/// A row for each run, of two lines. The columns of the first: what it shows; its words, which are
/// parted by blanks, or `copy` or `other`; the pieces of its pulls; the call that fails, by its
/// file, its kind and its number, at 0 none; and the file `a`, how often a part of it stands there,
/// at 0 no file, and the part. Those of the second: the exit status; how many bytes the reader's
/// source gave, and whether their end came; what is said behind the program's name; and what `b`
/// holds. A `/` is a newline.
const ROWS: &[u8] = b"\
an empty file is copied|copy|both|||0|1||
0|0|ended|||
a node is copied|copy|both|||0|1|n1 x1.5 y2/|
0|11|ended||n1 v0 dV c0 t i0 u T x1.5 y2/|
digits alone are degrees|copy|both|||0|1|n1 x1 y1/|
0|9|ended||n1 v0 dV c0 t i0 u T x1 y1/|
a line without a newline is read|copy|both|||0|1|n1 x1.5 y2|
0|10|ended||n1 v0 dV c0 t i0 u T x1.5 y2/|
texts are unescaped and escaped|copy|both|||0|1|n7 uA%20%b Tname=50%25%%2c%%40%\xc3\xa9 x0 y-0.5/|
0|43|ended||n7 v0 dV c0 t i0 uA%20%b Tname=50%25%%2c%%40%\xc3\xa9 x0 y-0.5/|
a way and a relation are copied|copy|both|||0|1|w5/r6 Mn1@,w5@x%20%y/|
0|21|ended||w5 v0 dV c0 t i0 u T N/r6 v0 dV c0 t i0 u T Mn1@,w5@x%20%y/|
an id is past 64 bits|copy|both|||0|1|n-9223372036854775808 x180 y-90/n9223372036854775808 x0 y0/|
4|59||task 0 line 2: bad number|n-9223372036854775808 v0 dV c0 t i0 u T x180 y-90/|
the second pull fails|copy|4096|a|pull|2|1|n1 x1.5 y2|
5|10||task 0: read failed||
the eleventh pull fails|copy|1|a|pull|11|1|n1 x1.5 y2|
5|10||task 0: read failed||
blanks and comments are skipped|copy|both|||0|1|# nodes// \t/n01 x1.50 y+2/|
0|26|ended||n1 v0 dV c0 t i0 u T x1.5 y2/|
a second line is bad|copy|both|||0|1|n1 x1.5 y2/q5/|
4|14||task 0 line 2: bad field|n1 v0 dV c0 t i0 u T x1.5 y2/|
x twice|copy|both|||0|1|n1 x0 y0 x1/|
4|12||task 0 line 1: field repeated||
no such letter|copy|both|||0|1|n1 v0 q/|
4|8||task 0 line 1: bad field||
deleted|copy|both|||0|1|n1 dD x0 y0/|
4|12||task 0 line 1: deleted object||
a longitude past 180|copy|both|||0|1|n1 x181 y0/|
4|11||task 0 line 1: bad coordinate||
a second of 60|copy|both|||0|1|n1 t2010-01-01T00:00:60Z x0 y0/|
4|31||task 0 line 1: bad time||
no character|copy|both|||0|1|n1 u%110000% x0 y0/|
4|19||task 0 line 1: bad escape||
half a place|copy|both|||0|1|n1 x0/|
4|6||task 0 line 1: no place||
a tag without a key|copy|both|||0|1|n1 T=b x0 y0/|
4|13||task 0 line 1: bad field||
no UTF-8|copy|both|||0|1|n1 u\xff x0 y0/|
4|12||task 0 line 1: bad text||
a line of 16,777,217 bytes|copy|both|||0|16777217|#|
4|16777217||task 0 line 1: line too long||
a bad line is before a failed pull|copy|4096|a|pull|2|1|x/n1 x0|
4|7||task 0 line 1: bad field||
there is no file to read|copy|both|||0|0||
5|none||task 0: open failed|as before|
no file can be made|copy|both|b|make|1|1|n1 x1.5 y2/|
5|0||task 1: open failed|as before|
the first put fails|copy|both|b|put|1|1|n1 x1.5 y2/|
5|11|ended|task 1: write failed|n1 v0 dV c0 t |
the keep fails|copy|both|b|keep|1|1|n1 x1.5 y2/|
5|11|ended|task 1: keep failed||
spaces stand at both ends|copy|both|||0|1| w5  Nn1,n2 |
0|12|ended||w5 v0 dV c0 t i0 u T Nn1,n2/|
a change is copied|other|both|||0|1|n1 v2 dD/|
0|9|ended||n1 v2 dD c0 t i0 u T x y/|
a box is cut out|--read-opl a --bounding-box left=0 right=1 bottom=0 top=1 --write-opl b|both|||0|1|n1 x0.5 y0.5/n2 x2 y2/n3 x3 y3/w1 Nn1,n2/w2 Nn2,n3/r1 Mr2@/r2 Mw1@/|
0|67|ended||n1 v0 dV c0 t i0 u T x0.5 y0.5/w1 v0 dV c0 t i0 u T Nn1,n2/r2 v0 dV c0 t i0 u T Mw1@/|
relations of relations come along|--read-opl a --bounding-box left=0 right=1 bottom=0 top=1 cascadingRelations=yes --write-opl b|both|||0|1|n1 x0.5 y0.5/n2 x2 y2/n3 x3 y3/w1 Nn1,n2/w2 Nn2,n3/r1 Mr2@/r2 Mw1@/|
0|67|ended||n1 v0 dV c0 t i0 u T x0.5 y0.5/w1 v0 dV c0 t i0 u T Nn1,n2/r1 v0 dV c0 t i0 u T Mr2@/r2 v0 dV c0 t i0 u T Mw1@/|
ways are completed|--read-opl a --bounding-box left=0 right=1 bottom=0 top=1 completeWays=yes --write-opl b|both|||0|1|n1 x0.5 y0.5/n2 x2 y2/n3 x3 y3/w1 Nn1,n2/w2 Nn2,n3/r1 Mr2@/r2 Mw1@/|
0|67|ended||n1 v0 dV c0 t i0 u T x0.5 y0.5/n2 v0 dV c0 t i0 u T x2 y2/w1 v0 dV c0 t i0 u T Nn1,n2/r1 v0 dV c0 t i0 u T Mr2@/r2 v0 dV c0 t i0 u T Mw1@/|
ways are clipped|--read-opl a --bounding-box left=0 right=1 bottom=0 top=1 clipIncompleteEntities=yes --write-opl b|both|||0|1|n1 x0.5 y0.5/n2 x2 y2/n3 x3 y3/w1 Nn1,n2/w2 Nn2,n3/r1 Mr2@/r2 Mw1@/|
0|67|ended||n1 v0 dV c0 t i0 u T x0.5 y0.5/w1 v0 dV c0 t i0 u T Nn1/r2 v0 dV c0 t i0 u T Mw1@/|
a box holds its edges|--read-opl a --bounding-box left=0 right=1 bottom=0 top=1 --write-opl b|both|||0|1|n1 x1 y1/|
0|9|ended||n1 v0 dV c0 t i0 u T x1 y1/|
a node behind a way is out of order|--read-opl a --bounding-box left=0 right=1 bottom=0 top=1 --write-opl b|both|||0|1|n1 x0 y0/w1 Nn1/n2 x0 y0/|
4|25|ended|task 1 input 0 item 3: out of order|n1 v0 dV c0 t i0 u T x0 y0/w1 v0 dV c0 t i0 u T Nn1/|
nothing of a held input out of order is given|--read-opl a --bounding-box left=0 right=1 bottom=0 top=1 completeWays=yes --write-opl b|both|||0|1|n1 x0 y0/w1 Nn1/n2 x0 y0/|
4|25|ended|task 1 input 0 item 3: out of order||
a polygon file is bad|--read-opl a --bounding-polygon c --write-opl b|both|||0|1|n1 x0.5 y0.5/n2 x2 y2/n3 x3 y3/w1 Nn1,n2/w2 Nn2,n3/r1 Mr2@/r2 Mw1@/|
4|none||task 1 line 3: bad polygon|as before|
";

/// A row by its columns.
#[derive(Drop)]
struct Row<'a> {
    shows: &'a [u8],
    words: &'a [u8],
    pieces: &'static [u32],
    file: &'a [u8],
    fails: Op,
    nth: u64,
    times: u64,
    part: &'a [u8],
    code: u64,
    given: &'a [u8],
    has_ended: bool,
    says: &'a [u8],
    holds: &'a [u8],
}

/// The bytes before the first of a sign; the rest is what is behind it.
fn cut<'a>(rest: &mut &'a [u8], sign: u8) -> &'a [u8] {
    match first_part(rest, sign) {
        Some((first, more)) => {
            *rest = more;
            first
        }
        None => rest,
    }
}

fn column<'a>(rest: &mut &'a [u8]) -> &'a [u8] {
    cut(rest, b'|')
}

fn number(digits: &[u8]) -> u64 {
    let mut number = 0_u64;
    for digit in digits {
        number = number
            .saturating_mul(10)
            .saturating_add((*digit % 16) as u64);
    }
    number
}

/// The words of a column.
fn words_of(column: &[u8]) -> &[u8] {
    if column == b"copy".as_slice() {
        COPY
    } else if column == b"other".as_slice() {
        OTHER
    } else {
        column
    }
}

fn pieces_of(name: &[u8]) -> &'static [u32] {
    if name == b"both".as_slice() {
        &[4096, 1]
    } else if name == b"1".as_slice() {
        &[1]
    } else {
        &[4096]
    }
}

fn op_of(name: &[u8]) -> Op {
    if name == b"pull".as_slice() {
        Op::Pull
    } else if name == b"make".as_slice() {
        Op::Make
    } else if name == b"put".as_slice() {
        Op::Put
    } else if name == b"keep".as_slice() {
        Op::Keep
    } else {
        Op::Open
    }
}

/// A row of its two lines.
fn row_of<'a>(first: &'a [u8], second: &'a [u8]) -> Row<'a> {
    let (mut first, mut second) = (first, second);
    Row {
        shows: column(&mut first),
        words: words_of(column(&mut first)),
        pieces: pieces_of(column(&mut first)),
        file: column(&mut first),
        fails: op_of(column(&mut first)),
        nth: number(column(&mut first)),
        times: number(column(&mut first)),
        part: column(&mut first),
        code: number(column(&mut second)),
        given: column(&mut second),
        has_ended: column(&mut second) == b"ended".as_slice(),
        says: column(&mut second),
        holds: column(&mut second),
    }
}

/// Adds bytes, of which a `/` is a newline.
fn add<R: Abort>(rt: &R, bytes: &mut Bytes, part: &[u8]) {
    for byte in part {
        let byte = if *byte == b'/' { b'\n' } else { *byte };
        bytes.push(byte).expect(rt, "a byte");
    }
}

fn bytes_of<R: Abort + AllocGlobal>(rt: &R, part: &[u8]) -> Bytes {
    let mut bytes = Bytes::new(rt.alloc());
    add(rt, &mut bytes, part);
    bytes
}

fn text<R: Abort + AllocGlobal>(rt: &R, bytes: &[u8]) -> Text
    ensures { result ≡ bytes.now }
{
    Text::from_bytes(rt.alloc(), bytes).expect(rt, "a text")
}

/// The words of a text that parts them by blanks.
pub(crate) fn texts_of<R: Abort + AllocGlobal>(rt: &R, words: &[u8]) -> Sequence<Text> {
    let mut texts = Sequence::new(rt.alloc());
    let mut rest = words;
    for _word in 0..MOST_WORDS {
        match first_part(rest, b' ') {
            Some((word, more)) => {
                texts.push(text(rt, word)).expect(rt, "a word");
                rest = more;
            }
            None => {
                texts.push(text(rt, rest)).expect(rt, "a word");
                break;
            }
        }
    }
    texts
}

/// The file of a name, with a part as often as this.
fn file_of<R: Abort + AllocGlobal>(rt: &R, name: &[u8], part: &[u8], times: u64) -> FileHeld
    ensures { result.name ≡ name.now }
{
    let mut bytes = Bytes::new(rt.alloc());
    for _turn in 0..times {
        add(rt, &mut bytes, part);
    }
    let name = text(rt, name);
    FileHeld { name, bytes }
}

/// The files `a`, where it is there, `b` with what it holds before, and `c`.
fn files_of<R: Abort + AllocGlobal>(rt: &R, row: &Row) -> Files
    ensures { AllPairs (λ f g. f.name ≢ g.name) result }
{
    let mut files = Files::new(rt.alloc());
    files
        .push(file_of(rt, b"b", BEFORE, 1))
        .expect(rt, "a file");
    files
        .push(file_of(rt, b"c", BAD_POLYGON, 1))
        .expect(rt, "a file");
    if row.times > 0 {
        files
            .push(file_of(rt, b"a", row.part, row.times))
            .expect(rt, "a file");
    }
    files
}

fn fails_of<R: Abort + AllocGlobal>(rt: &R, row: &Row) -> Fails {
    let mut all = Fails::new(rt.alloc());
    let name = text(rt, row.file);
    let (op, nth) = (row.fails, row.nth);
    all.push(FailAt { name, op, nth }).expect(rt, "a call");
    all
}

/// Runs the words on a host, with a count of steps of its own.
fn run_counted<H: Host, L: Ledger>(
    alloc: Global,
    words: &[Text],
    host: &mut H,
    blank: Blank,
) -> Status
    requires name { blank.name ≡ L.name }
    requires parts { blank.parts ≡ L.parts }
    requires counts { 0 < blank.parts }
{
    let mut steps = Steps::<L>::new(blank);
    run_alone(alloc, words, host, &mut steps)
}

fn run_on_one<H: Host>(alloc: Global, words: &[Text], host: &mut H) -> Status {
    run_counted::<H, Brand>(alloc, words, host, Blank::new(1))
}

/// Whether each task has a thread of its own, or all have this one.
#[derive(Clone, Copy, Debug)]
pub(crate) enum On {
    Threads,
    One,
}

pub(crate) fn run_on<R: AllocGlobal + Threads + Wait + Sync, H: Host>(
    rt: &R,
    on: On,
    words: &[Text],
    host: &mut H,
) -> Status {
    match on {
        On::Threads => run(rt, rt.alloc(), words, host),
        On::One => run_on_one(rt.alloc(), words, host),
    }
}

/// Whether `b` of the host holds just these bytes.
fn is_held(host: &MemoryHost, bytes: &[u8]) -> bool {
    for file in host.files().as_slice() {
        if file.name.as_slice() == b"b".as_slice() {
            return file.bytes.as_slice() == bytes;
        }
    }
    false
}

/// Whether the run has the row's entry of its reader, or none where the row has none.
fn has_entry(status: &Status, row: &Row) -> bool {
    let entries = status.ends.as_slice();
    if row.given == b"none".as_slice() {
        return entries.is_empty();
    }
    let entry = SourceEnd {
        task: 0,
        given: number(row.given),
        clean: row.has_ended,
    };
    entries == [entry].as_slice()
}

/// Whether the host was told the row's line, or nothing where the row has none or the host is mute.
fn is_said(said: &[u8], row: &Row, is_mute: bool) -> bool {
    if is_mute || row.says.is_empty() {
        return said.is_empty();
    }
    said.strip_prefix(b"osm-tasks: ")
        .and_then(|line| line.strip_suffix(b"\n"))
        == Some(row.says)
}

fn check<R>(rt: &R, on: On, row: &Row, piece: u32, is_mute: bool)
where
    R: Abort + AllocGlobal + Threads + Wait + Sync,
    requires { 0 < piece }
{
    let files = files_of(rt, row);
    let fails = fails_of(rt, row);
    let mut host = MemoryHost::new(rt.alloc(), files, piece, fails, is_mute).expect(rt, "a host");
    let words = texts_of(rt, row.words);
    let status = run_on(rt, on, words.as_slice(), &mut host);
    let is_right = status.code as u64 == row.code
        && has_entry(&status, row)
        && is_said(host.said().as_slice(), row, is_mute)
        && is_held(&host, bytes_of(rt, row.holds).as_slice());
    assert!(rt; is_right, "{:?}, in {piece}, {on:?}", row.shows);
}

#[test]
fn runs_are_as_their_rows_say(rt: HostRuntime) {
    let mut rest = ROWS;
    for _row in 0..COUNT {
        let first = cut(&mut rest, b'\n');
        let row = row_of(first, cut(&mut rest, b'\n'));
        for piece in row.pieces {
            let piece = (*piece).max(1);
            for on in [On::Threads, On::One] {
                check(&rt, on, &row, piece, false);
                check(&rt, on, &row, piece, true);
            }
        }
    }
}

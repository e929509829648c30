//! Files of a host in memory, copied pull by pull: what the copy is, the verdict, and what the source gave.
ghost use Rattle.std.specs.Prelude.{◌≡◌, ◌<◌, OnOk};
ghost use Rattle.osm_entity.specs.declared.verdict.Verdict.TheVariants.{Running};
ghost use Rattle.osm_pbf.specs.Reader.{CanPullPbf};

use osm_block_write::PbfOptions;
use osm_entity::{Bytes, Cause, End, Spot, Text, Verdict};
use osm_host::{FailAt, Fails, FileHeld, Files, Host, HostError, MemoryHost, Op, Sink, Source};
use osm_pbf::{PbfReader, PbfWriter};
use std::process::Abort;

/// How many rows there are.
const COUNT: u32 = 25;

/// A row for each file and each way to copy it. Its columns: what it shows; the file and the copy, by their parts; the
/// verdict, and its blob and byte; whether nodes are written densely, then without metadata; the batch limit; the limit
/// of the reader; and the kind and number of the call that fails.
const ROWS: &str = "\
no bytes||EMPTY|no header|0|0|plain|8000|999|pull|0
another blob alone|OTHER|EMPTY|no header|1|16|plain|8000|999|pull|0
a block before any header|ZLIB|EMPTY|no header|0|0|plain|8000|999|pull|0
a frame that stops|EMPTY 0000000b0a074f534d44|EMPTY|file too short|1|35|plain|8000|999|pull|0
a compressed block|EMPTY ZLIB|EMPTY|compressed|1|35|plain|8000|999|pull|0
no items|EMPTY|EMPTY|clean|0|0|plain|8000|999|pull|0
one node|HEAD NODE|HEAD NODE|clean|0|0|bare|8000|999|pull|0
another blob between|EMPTY OTHER NODE|HEAD NODE|clean|0|0|bare|8000|999|pull|0
no nodes|EMPTY|HEAD|clean|0|0|bare|8000|999|pull|0
three nodes, two in a block|HEAD NODE NODE NODE|HEAD PAIR NODE|clean|0|0|bare|2|999|pull|0
three nodes and a part|HEAD NODE NODE NODE 00|HEAD PAIR|file too short|4|167|bare|2|999|pull|0
a bad block behind|HEAD NODE NODE ZLIB NODE|HEAD NODE|compressed|3|127|bare|1|999|pull|0
all within the limit|HEAD NODE|HEAD NODE|clean|0|0|bare|1|87|pull|0
a byte past the limit|HEAD NODE|HEAD|too long|0|0|bare|1|86|pull|0
a fault at the limit|HEAD NODE ZLIB NODE|HEAD|compressed|2|87|bare|1|105|pull|0
a fault past the limit|HEAD NODE ZLIB NODE|HEAD|too long|0|0|bare|1|104|pull|0
no byte came|HEAD NODE|HEAD|read|0|0|bare|1|999|pull|1
a part came|HEAD NODE NODE|HEAD|read|0|0|bare|1|999|pull of 5|10
a part of a second frame came|HEAD NODE NODE|HEAD|read|0|0|bare|1|999|pull of 5|19
two nodes came|HEAD NODE NODE|HEAD NODE|read|0|0|bare|1|999|pull of 5|27
the end didn't come|HEAD NODE NODE|HEAD NODE|read|0|0|bare|1|999|pull of 4096|2
a fault came|HEAD NODE ZLIB|HEAD|compressed|2|87|bare|1|999|pull of 4096|2
half a header was put|HEAD NODE|0000000d0a094f534d486561646572181e0a1c220e4f73|running|0|0|bare|1|999|put|1
half a block was put|HEAD NODE NODE|HEAD 0000000b0a074f534d4461746118190a170a020a|running|0|0|bare|1|999|put|2
half a last block was put|HEAD NODE|HEAD 0000000b0a074f534d4461746118190a170a020a|clean|0|0|bare|1|999|put|2
";

/// The parts of files, in hexadecimal digits: a header without the feature of dense nodes, one with it, a node at 1.5
/// east and 2 north, two such nodes in a block, a compressed block, and a blob that isn't known.
const EMPTY: &str = "0000000d0a094f534d48656164657218120a10220e4f736d536368656d612d56302e36";

const HEAD: &str =
    "0000000d0a094f534d486561646572181e0a1c220e4f736d536368656d612d56302e36220a44656e73654e6f646573";

const NODE: &str =
    "0000000b0a074f534d4461746118190a170a020a001211120f0a0102420480b489134a048087a70e";

const PAIR: &str =
    "0000000b0a074f534d44617461181c0a1a0a020a00121412120a020200420580b48913004a058087a70e00";

const ZLIB: &str = "0000000b0a074f534d4461746118031a0100";

const OTHER: &str = "000000090a05584461746118031a0100";

/// A row by its columns; at 0 no call fails.
#[derive(Drop)]
struct Row<'a> {
    says: &'a str,
    file: &'a str,
    copy: &'a str,
    verdict: &'a str,
    number: u64,
    byte: u64,
    options: PbfOptions,
    limit: u64,
    pieces: &'static [u32],
    fails: Op,
    nth: u64,
}

/// The text before the first of a sign; the rest is what is behind it.
fn cut<'a>(rest: &mut &'a str, sign: char) -> &'a str {
    match rest.split_once(sign) {
        Some((first, more)) => {
            *rest = more;
            first
        }
        None => {
            let all = *rest;
            *rest = "";
            all
        }
    }
}

fn number(digits: &str) -> u64 {
    let mut number = 0_u64;
    for digit in digits.as_bytes() {
        number = number
            .saturating_mul(10)
            .saturating_add((*digit % 16) as u64);
    }
    number
}

/// How the copy of a row is written.
fn options_of(nodes: &str, batchlimit: u64) -> PbfOptions {
    let is_bare = nodes == "bare";
    PbfOptions {
        batchlimit: batchlimit.clamp(1, 32_000) as u32,
        usedense: is_bare,
        omitmetadata: is_bare,
        granularity: 100,
    }
}

/// How many bytes a source gives at most in one pull.
fn pieces_of(call: &str) -> &'static [u32] {
    if call == "pull of 5" {
        &[5]
    } else if call == "pull of 4096" {
        &[4096]
    } else {
        &[1, 4096]
    }
}

fn row_of(line: &str) -> Row<'_> {
    let mut rest = line;
    let says = cut(&mut rest, '|');
    let file = cut(&mut rest, '|');
    let copy = cut(&mut rest, '|');
    let verdict = cut(&mut rest, '|');
    let blob = number(cut(&mut rest, '|'));
    let byte = number(cut(&mut rest, '|'));
    let nodes = cut(&mut rest, '|');
    let options = options_of(nodes, number(cut(&mut rest, '|')));
    let limit = number(cut(&mut rest, '|'));
    let call = cut(&mut rest, '|');
    Row {
        says,
        file,
        copy,
        verdict,
        number: blob,
        byte,
        options,
        limit,
        pieces: pieces_of(call),
        fails: if call == "put" { Op::Put } else { Op::Pull },
        nth: number(rest),
    }
}

/// The digits of a part, which are the part itself where it has no name.
fn digits_of<'a>(part: &'a str) -> &'a str {
    if part == "EMPTY" {
        EMPTY
    } else if part == "HEAD" {
        HEAD
    } else if part == "NODE" {
        NODE
    } else if part == "PAIR" {
        PAIR
    } else if part == "ZLIB" {
        ZLIB
    } else if part == "OTHER" {
        OTHER
    } else {
        part
    }
}

/// Adds the bytes of hexadecimal digits.
fn add_part<R: Abort>(rt: &R, bytes: &mut Bytes, digits: &str) {
    let mut high = None;
    for digit in digits.as_bytes() {
        let value = digit % 16 + digit / 64 * 9;
        match high {
            None => high = Some(value % 16 * 16),
            Some(first) => {
                bytes.push(first | value % 16).expect(rt, "a byte");
                high = None;
            }
        }
    }
}

/// The bytes of parts, with blanks between.
fn bytes_of<R: Abort + AllocGlobal>(rt: &R, parts: &str) -> Bytes {
    let mut bytes = Bytes::new(rt.alloc());
    let mut rest = parts;
    for _part in 0..8 {
        add_part(rt, &mut bytes, digits_of(cut(&mut rest, ' ')));
    }
    bytes
}

fn text_of<R: Abort + AllocGlobal>(rt: &R, name: &[u8]) -> Text {
    Text::from_bytes(rt.alloc(), name).expect(rt, "a name")
}

/// A host with the file of a row as `a`.
fn host_of<R: Abort + AllocGlobal>(rt: &R, row: &Row, piece: u32) -> MemoryHost
    requires { 0 < piece }
{
    let mut files = Files::new(rt.alloc());
    let name = text_of(rt, b"a");
    let bytes = bytes_of(rt, row.file);
    files.push(FileHeld { name, bytes }).expect(rt, "a file");
    let mut all = Fails::new(rt.alloc());
    let name = text_of(rt, if row.fails == Op::Put { b"b" } else { b"a" });
    let (op, nth) = (row.fails, row.nth);
    all.push(FailAt { name, op, nth }).expect(rt, "a call");
    MemoryHost::new(rt.alloc(), files, piece, all, false).expect(rt, "a host")
}

/// Puts all items that the reader has.
fn put_items<K: Sink>(from: &mut PbfReader, by: &mut PbfWriter, to: &mut K) -> Result<(), HostError>
    ensures pulls { OnOk result (from.new.verdict ≡ Running → CanPullPbf from.new) }
    ensures name { K.name to.new ≡ K.name to.old }
{
    while let Some(item) = from.next()? {
        by.put(to, &item)?;
    }
    Ok(())
}

/// Pulls and puts items until the reader has a verdict.
fn pull_items<S: Source, K: Sink>(
    from: &mut PbfReader,
    source: &mut S,
    by: &mut PbfWriter,
    to: &mut K,
) -> Result<(), HostError>
    requires { CanPullPbf from.old }
    ensures { K.name to.new ≡ K.name to.old }
{
    for _pull in 0..u64::MAX {
        from.pull(source)?;
        put_items(from, by, to)?;
        if from.verdict() != Verdict::Running {
            break;
        }
    }
    Ok(())
}

/// Begins a file.
fn begin<K: Sink>(by: &mut PbfWriter, to: &mut K) -> Result<(), HostError>
    ensures { K.name to.new ≡ K.name to.old }
{
    by.begin(to)
}

/// Ends a file, whose items a reader with this verdict gave.
fn end<K: Sink>(by: &mut PbfWriter, to: &mut K, verdict: Verdict) -> Result<(), HostError>
    ensures { K.name to.new ≡ K.name to.old }
{
    match verdict {
        Verdict::Clean => by.end(to, End::Done),
        _ => by.end(to, End::Broken),
    }
}

/// Copies a source to a sink, by a reader that was pulled nothing.
fn copy_items<S: Source, K: Sink>(
    from: &mut PbfReader,
    source: &mut S,
    by: &mut PbfWriter,
    to: &mut K,
) -> Result<(), HostError>
    requires { CanPullPbf from.old }
    ensures { K.name to.new ≡ K.name to.old }
{
    begin(by, to)?;
    pull_items(from, source, by, to)?;
    end(by, to, from.verdict())
}

/// Copies `a` of a host to `b`, and gives the reader.
fn copy_file<R: Abort + AllocGlobal>(rt: &R, host: &mut MemoryHost, row: &Row) -> PbfReader {
    let b = text_of(rt, b"b");
    let mut source = host.open_source(&text_of(rt, b"a")).expect(rt, "a source");
    let mut sink = host.open_sink(&b).expect(rt, "a sink");
    let mut reader = PbfReader::new(rt.alloc(), row.limit).expect(rt, "a reader");
    let mut writer = PbfWriter::new(rt.alloc(), row.options).expect(rt, "a writer");
    let copied = copy_items(&mut reader, &mut source, &mut writer, &mut sink);
    assert!(rt; copied.is_err() == (row.fails == Op::Put), "{}", row.says);
    host.keep(&b, sink).expect(rt, "a keep");
    reader
}

/// A verdict by its name, its blob and its byte.
fn told(verdict: Verdict) -> (&'static str, u64, u64) {
    match verdict {
        Verdict::Running => ("running", 0, 0),
        Verdict::Clean => ("clean", 0, 0),
        Verdict::TooLong => ("too long", 0, 0),
        Verdict::Read => ("read", 0, 0),
        Verdict::Input {
            cause,
            spot: Spot::Blob { number, byte },
        } => (cause_name(cause), number, byte),
        _ => ("other", 0, 0),
    }
}

fn cause_name(cause: Cause) -> &'static str {
    match cause {
        Cause::NoHeader => "no header",
        Cause::ShortFile => "file too short",
        Cause::Compressed => "compressed",
        _ => "other",
    }
}

/// Whether `b` of the host holds just these bytes.
fn is_held(host: &MemoryHost, bytes: &[u8]) -> bool {
    for file in host.files().as_slice() {
        if file.name.as_slice() == b"b".as_slice() {
            return file.bytes.as_slice() == bytes;
        }
    }
    false
}

/// Copies the file of a row as its source cuts it.
fn check<R: Abort + AllocGlobal>(rt: &R, row: &Row, piece: u32)
    requires { 0 < piece }
{
    let mut host = host_of(rt, row, piece);
    let reader = copy_file(rt, &mut host, row);
    let (name, number, byte) = told(reader.verdict());
    let is_right = is_held(&host, bytes_of(rt, row.copy).as_slice())
        && name == row.verdict
        && number == row.number
        && byte == row.byte;
    assert!(rt; is_right, "{}, in {piece}", row.says);
}

#[test]
fn a_file_is_copied_however_its_source_cuts_it_up_to_what_stops_it(rt: HostRuntime) {
    let mut rest = ROWS;
    for _row in 0..COUNT {
        let row = row_of(cut(&mut rest, '\n'));
        for piece in row.pieces {
            check(&rt, &row, (*piece).max(1));
        }
    }
}

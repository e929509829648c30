//! Reads the polygon files of tasks, before any other file is opened.
ghost use Rattle.std.specs.Prelude.{◌≡◌, ◌≤◌, ◌+◌, [], length, take, drop, vec_len, IfErr, IfOk, OnErr, OnOk, Ok};
ghost use Rattle.std.specs.Io.KnownBytes.{IsAtEnd};
ghost use Rattle.osm_host.specs.Counts.{CountsRefusal};
ghost use Rattle.osm_host.specs.Moments.{moment};
ghost use Rattle.osm_host.specs.Pulls.{SourceGave, piece_size, source_value};
ghost use Rattle.osm_poly.specs.Poly.{poly};
ghost use Rattle.osm_run.specs.Codes.{code_of};
ghost use Rattle.osm_run.specs.Commands.{all_kind_files, area_at};
ghost use Rattle.osm_run.specs.Leaving.{AreAreasFor};
ghost use Rattle.osm_run.specs.Polygons.{IsAreaOf, IsReadFault, PolygonWasRead, PolygonWasRefused, SourceWasRead, WasAreaRefused, WereRead, polygon_name};
ghost use Rattle.osm_run.specs.WordsRun.{RanNoTask};
ghost use Rattle.osm_run.specs.declared.areas.ReadEnd.TheVariants.{Ended};

use crate::devices::polygon_name;
use crate::opening::open_source;
use crate::status::{Ends, Status};
use osm_area::Area;
use osm_entity::{Cause, NoMemory, Spot, Text};
use osm_host::{Failed, Host, HostError, PIECE_SIZE, Source};
use osm_poly::{PolyError, read_poly};
use osm_report::{DeviceCall, Fault};
use osm_tasks::{Task, TaskKind};
use std::alloc::Global;

/// The most bytes of a polygon file.
const POLYGON_LIMIT: usize = 16_777_216;

/// How the reading of a polygon file ended.
#[derive(Clone, Copy, Debug, PartialEq, Eq)]
pub(crate) enum ReadEnd {
    /// At the file's end.
    Ended,
    /// By a pull that failed.
    Refused,
    /// Behind more bytes than the limit.
    PastLimit,
    /// Out of memory.
    NoRoom,
}

/// The bytes that a polygon file gave, and how its reading ended.
#[derive(Drop)]
struct Read {
    /// The bytes are its first `count`.
    buffer: Vec<u8>,
    count: usize,
    end: ReadEnd,
}

/// The areas of tasks, each that of its polygon file, in command order: a file is opened, read whole
/// and closed before the next. At `Err` the run has that status, and no other file was opened.
pub fn read_areas<H: Host>(
    alloc: Global,
    tasks: &[Task],
    host: &mut H,
) -> Result<Vec<Option<Area>>, Status>
    requires few { length tasks.now ≤ 256 }

    ensures areas { IfOk result (λ areas. AreAreasFor tasks.now areas.items) }
    ensures read { IfOk result (λ areas. WereRead tasks.now (area_at areas.items)
        (moment H.files H.said H.mute H.count H.gave H.known host.old)
        (moment H.files H.said H.mute H.count H.gave H.known host.new)) }

    ensures stopped { IfErr result (RanNoTask tasks.now
        (moment H.files H.said H.mute H.count H.gave H.known host.old)
        (moment H.files H.said H.mute H.count H.gave H.known host.new)) }
    ensures code { IfErr result (λ status. status.code ≡ code_of status.fault) }

    ensures said { H.said host.new ≡ H.said host.old }
    ensures mute { H.mute host.new ≡ H.mute host.old }
{
    let mut areas = Vec::new(alloc);
    for at in 0..tasks.len() {
        let task = &tasks[at];
        let area = match area_of(alloc, at as u32, &task.kind, host) {
            Ok(area) => area,
            Err(fault) => return Err(Status::of(fault, Ends::new(alloc))),
        };
        if areas.push(area).is_err() {
            return Err(Status::of(Fault::Memory, Ends::new(alloc)));
        }
    }
    Ok(areas)
}

// The area of a task's polygon file, where it has one.
fn area_of<H: Host>(
    alloc: Global,
    task: u32,
    kind: &TaskKind,
    host: &mut H,
) -> Result<Option<Area>, Fault>
    ensures ok { IfOk result (IsAreaOf (polygon_name (all_kind_files kind.now))
        (moment H.files H.said H.mute H.count H.gave H.known host.old)
        (moment H.files H.said H.mute H.count H.gave H.known host.new)) }
    ensures err { IfErr result (WasAreaRefused task (polygon_name (all_kind_files kind.now))
        (moment H.files H.said H.mute H.count H.gave H.known host.old)
        (moment H.files H.said H.mute H.count H.gave H.known host.new)) }
    ensures said { H.said host.new ≡ H.said host.old }
    ensures mute { H.mute host.new ≡ H.mute host.old }
{
    match polygon_name(kind) {
        Some(name) => match read_area(alloc, task, name, host) {
            Ok(area) => Ok(Some(area)),
            Err(fault) => Err(fault),
        },
        None => Ok(None),
    }
}

// The area of a task's polygon file. The file is closed, also where it gives no area.
fn read_area<H: Host>(alloc: Global, task: u32, name: &Text, host: &mut H) -> Result<Area, Fault>
    ensures ok { IfOk result (PolygonWasRead name.now
        (moment H.files H.said H.mute H.count H.gave H.known host.old)
        (moment H.files H.said H.mute H.count H.gave H.known host.new)) }
    ensures err { IfErr result (PolygonWasRefused task name.now
        (moment H.files H.said H.mute H.count H.gave H.known host.old)
        (moment H.files H.said H.mute H.count H.gave H.known host.new)) }
    ensures said { H.said host.new ≡ H.said host.old }
    ensures mute { H.mute host.new ≡ H.mute host.old }
{
    let mut source = match open_source(task, name, host) {
        Ok(source) => source,
        Err(fault) => return Err(fault),
    };
    let read = read_source(alloc, &mut source);
    host.close_source(name, source);
    area_read(alloc, task, &read)
}

// The area that was read, or the fault of why there is none.
fn area_read(alloc: Global, task: u32, read: &Read) -> Result<Area, Fault>
    requires { read.now.count ≤ length read.now.buffer.items }
    ensures ok { IfOk result (λ area. (read.now.end ≡ Ended) ×
        (poly (take read.now.count read.now.buffer.items) ≡ Ok area)) }
    ensures err { IfErr result
        (IsReadFault task read.now.end (take read.now.count read.now.buffer.items)) }
{
    match read.end {
        ReadEnd::Ended => match read_poly(alloc, &read.buffer[..read.count]) {
            Ok(area) => Ok(area),
            Err(PolyError::Bad(line)) => Err(Fault::Input {
                task,
                cause: Cause::BadPoly,
                spot: Spot::Line(line),
            }),
            Err(PolyError::Memory) => Err(Fault::Memory),
        },
        ReadEnd::Refused => Err(Fault::Device {
            task,
            call: DeviceCall::Read,
        }),
        ReadEnd::PastLimit => Err(Fault::TooLong { task }),
        ReadEnd::NoRoom => Err(Fault::Memory),
    }
}

// Reads a polygon file whole, and at most a piece behind its limit.
fn read_source<S: Source>(alloc: Global, source: &mut S) -> Read
    ensures read { SourceWasRead (source_value S.rest S.given S.faults source.old)
        (source_value S.rest S.given S.faults source.new)
        (take result.count result.buffer.items) result.end }
    ensures within { result.count ≤ length result.buffer.items }
    ensures name { S.name source.new ≡ S.name source.old }
{
    let mut buffer = Vec::new(alloc);
    let mut count = 0;
    while count <= POLYGON_LIMIT {
        match pull_piece(&mut buffer, count, source) {
            Ok(0) => {
                return Read {
                    buffer,
                    count,
                    end: ReadEnd::Ended,
                };
            }
            Ok(more) => count += more,
            Err(HostError::Failed) => {
                return Read {
                    buffer,
                    count,
                    end: ReadEnd::Refused,
                };
            }
            Err(HostError::Memory) => {
                return Read {
                    buffer,
                    count,
                    end: ReadEnd::NoRoom,
                };
            }
        }
    }
    Read {
        buffer,
        count,
        end: ReadEnd::PastLimit,
    }
}

// Pulls once, behind the first `count` bytes. Out of memory it didn't pull.
fn pull_piece<S: Source>(
    buffer: &mut Vec<u8>,
    count: usize,
    source: &mut S,
) -> Result<usize, HostError>
    requires within { count ≤ vec_len buffer.old }
    requires few { count ≤ POLYGON_LIMIT }
    ensures pulled { IfOk result (λ more. SourceGave
        (source_value S.rest S.given S.faults source.old)
        (source_value S.rest S.given S.faults source.new) (take more (drop count buffer.new.items))) }
    ensures within { IfOk result (λ more. count + more ≤ vec_len buffer.new) }
    ensures small { IfOk result (λ more. more ≤ piece_size) }
    ensures end { result ≡ Ok 0 → IsAtEnd (S.rest source.new) }
    ensures faults { CountsRefusal result (S.faults source.old) (S.faults source.new) }
    ensures idle { OnErr result (SourceGave (source_value S.rest S.given S.faults source.old)
        (source_value S.rest S.given S.faults source.new) []) }
    ensures room { count ≤ vec_len buffer.new }
    ensures same { take count buffer.new.items ≡ take count buffer.old.items }
    ensures name { S.name source.new ≡ S.name source.old }
{
    make_room(buffer, count)?;
    match source.pull(&mut buffer[count..count + PIECE_SIZE]) {
        Ok(more) => Ok(more),
        Err(Failed) => Err(HostError::Failed),
    }
}

// Makes room for a piece behind the first `count` bytes.
fn make_room(buffer: &mut Vec<u8>, count: usize) -> Result<(), NoMemory>
    requires within { count ≤ vec_len buffer.old }
    requires few { count ≤ POLYGON_LIMIT }
    ensures room { OnOk result (count + PIECE_SIZE ≤ vec_len buffer.new) }
    ensures within { count ≤ vec_len buffer.new }
    ensures same { take count buffer.new.items ≡ take count buffer.old.items }
{
    let room = count + PIECE_SIZE;
    if buffer.len() < room {
        match buffer.resize(room, 0) {
            Ok(()) => {}
            Err(_) => return Err(NoMemory),
        }
    }
    Ok(())
}

//! Makes the machine of a task.
ghost use Rattle.std.specs.Prelude.{◌≡◌, true, [], ℕ, List, None, IfOk, IsTrue, Option, ⊤};
ghost use Rattle.std.specs.Option.{option_map};
ghost use Rattle.osm_tasks.specs.Kinds.{is_ranged, writes_file};
ghost use Rattle.osm_machine.specs.Devices.{source_seen};
ghost use Rattle.osm_machine.specs.ReadingFormats.{OplFile, PbfFile, reader_task};
ghost use Rattle.osm_machine.specs.Sinks.{TookNothing, sink_seen};
ghost use Rattle.osm_machine.specs.Writers.{FileWrote, form_of};
ghost use Rattle.osm_machine.specs.Written.{writer_task};
ghost use Rattle.osm_machine.specs.TaskMeanings.{IsGivenWhere, IsMachine, IsMachineOf, area_or_none, reads_area, reads_file, reading_limit};

use crate::copied_tests::copy_tests;
use crate::copying::Copying;
use crate::emptying::{Dropping, Empty};
use crate::kind::MachineKind;
use crate::machine::Machine;
use crate::making::Making;
use crate::reading::Reading;
use crate::writer::FileWriter;
use crate::writing::Writing;
use osm_area::Area;
use osm_block_write::PbfOptions;
use osm_change::{Apply, Simplify};
use osm_entity::{Flow, NoMemory};
use osm_filter::TagFilter;
use osm_host::{Sink, Source};
use osm_merge::{Append, Merge};
use osm_select::AreaTask;
use osm_sort::Sort;
use osm_tasks::{Task, TaskKind};
use osm_used::{UsedNode, UsedWay};
use std::alloc::Global;

/// How many bytes of a source are read; what comes past them is too much.
const SOURCE_LIMIT: u64 = 1 << 40;

/// The machine of a task. A task that reads a file gets its source, one that writes a file its sink,
/// which took nothing yet, one that has its area from a file that area, and each other task none.
/// `NoMemory` drops them.
pub fn make<S: Source + Drop, K: Sink + Drop>(
    alloc: Global,
    task: &Task,
    area: Option<Area>,
    source: Option<S>,
    sink: Option<K>,
) -> Result<Machine<S, K>, NoMemory>
    requires area { IsGivenWhere (reads_area task.now.kind) area (λ _. ⊤) }
    requires source { IsGivenWhere (reads_file task.now.kind) source (λ _. ⊤) }
    requires sink { IsGivenWhere (writes_file task.now.kind) sink (λ k. TookNothing (K.taken k)) }
    ensures { IfOk result (IsMachineOf task.now.kind area
        (option_map (source_seen S.name S.rest S.given S.faults) source)
        (option_map (sink_seen K.name K.taken K.faults) sink)) }
{
    task.kept();
    let kind = make_kind(alloc, &task.kind, area, source, sink)?;
    Ok(Machine::of(kind))
}

// The machine of this kind, by its part.
fn make_kind<S: Source + Drop, K: Sink + Drop>(
    alloc: Global,
    kind: &TaskKind,
    area: Option<Area>,
    source: Option<S>,
    sink: Option<K>,
) -> Result<MachineKind<S, K>, NoMemory>
    requires ranged { IsTrue (is_ranged kind.now) }
    requires area { IsGivenWhere (reads_area kind.now) area (λ _. ⊤) }
    requires source { IsGivenWhere (reads_file kind.now) source (λ _. ⊤) }
    requires sink { IsGivenWhere (writes_file kind.now) sink (λ k. TookNothing (K.taken k)) }
    ensures { IfOk result (IsMachineOf kind.now area
        (option_map (source_seen S.name S.rest S.given S.faults) source)
        (option_map (sink_seen K.name K.taken K.faults) sink)) }
{
    match kind {
        TaskKind::ReadPbf { .. } => read_pbf(alloc, source),
        TaskKind::ReadOpl { .. } => read_opl(alloc, Flow::Entities, source),
        TaskKind::ReadOplChange { .. } => read_opl(alloc, Flow::Changes, source),
        TaskKind::ReadEmpty => Ok(MachineKind::Nothing(Empty::new())),
        TaskKind::ReadMade { count, seed } => {
            Ok(MachineKind::Make(Making::new(alloc, *count, *seed)))
        }
        TaskKind::WritePbf {
            batchlimit,
            usedense,
            omitmetadata,
            granularity,
            ..
        } => {
            let options = PbfOptions {
                batchlimit: *batchlimit,
                usedense: *usedense,
                omitmetadata: *omitmetadata,
                granularity: *granularity,
            };
            write(alloc, FileWriter::pbf(alloc, options)?, sink)
        }
        TaskKind::WriteOpl { .. } => write(alloc, FileWriter::opl(alloc, Flow::Entities)?, sink),
        TaskKind::WriteOplChange { .. } => {
            write(alloc, FileWriter::opl(alloc, Flow::Changes)?, sink)
        }
        TaskKind::WriteNull => Ok(MachineKind::Drops(Dropping::new())),
        TaskKind::WriteSummary { .. } => write(alloc, FileWriter::summary(), sink),
        TaskKind::Merge { resolution } => {
            Ok(MachineKind::Merges(Merge::new(Flow::Entities, *resolution)?))
        }
        TaskKind::MergeChange { resolution } => {
            Ok(MachineKind::Merges(Merge::new(Flow::Changes, *resolution)?))
        }
        TaskKind::AppendChange => Ok(MachineKind::Appends(Append::new()?)),
        TaskKind::ApplyChange => Ok(MachineKind::Applies(Apply::new()?)),
        TaskKind::SimplifyChange => Ok(MachineKind::Simplifies(Simplify::new(alloc)?)),
        TaskKind::Tee { outputs, .. } => Ok(MachineKind::Copies(Copying::new(alloc, *outputs))),
        TaskKind::Buffer { .. } => Ok(MachineKind::Copies(Copying::new(alloc, 1))),
        TaskKind::Spool { .. } => Ok(MachineKind::Copies(Copying::new(alloc, 1))),
        TaskKind::TagFilter {
            accept,
            kind,
            tests,
        } => {
            let tests = copy_tests(alloc, tests.as_slice())?;
            Ok(MachineKind::Filters(TagFilter::new(*accept, *kind, tests)?))
        }
        TaskKind::UsedNode => Ok(MachineKind::UsesNodes(UsedNode::new(alloc)?)),
        TaskKind::UsedWay => Ok(MachineKind::UsesWays(UsedWay::new(alloc)?)),
        TaskKind::Sort => Ok(MachineKind::Sorts(Sort::new(alloc, Flow::Entities)?)),
        TaskKind::SortChange => Ok(MachineKind::Sorts(Sort::new(alloc, Flow::Changes)?)),
        TaskKind::BoundingBox {
            left,
            right,
            top,
            bottom,
            options,
        } => {
            let area = Area::Box {
                left: *left,
                right: *right,
                top: *top,
                bottom: *bottom,
            };
            Ok(MachineKind::Selects(AreaTask::new(alloc, area, *options)?))
        }
        TaskKind::BoundingPolygon { options, .. } => {
            let area = area_given(area);
            Ok(MachineKind::Selects(AreaTask::new(alloc, area, *options)?))
        }
    }
}

// The area that is given.
fn area_given(area: Option<Area>) -> Area
    requires { IsGivenWhere true area (λ _. ⊤) }
    ensures { result ≡ area_or_none area }
{
    match area {
        Some(area) => area,
        None => unreachable!(),
    }
}

fn read_opl<S: Source + Drop, K: Sink + Drop>(
    alloc: Global,
    flow: Flow,
    source: Option<S>,
) -> Result<MachineKind<S, K>, NoMemory>
    requires { IsGivenWhere true source (λ _. ⊤) }
    ensures { IfOk result (IsMachine (reader_task (OplFile flow) reading_limit)
        (option_map (source_seen S.name S.rest S.given S.faults) source) None) }
{
    match source {
        Some(source) => { Ok(MachineKind::Read(Reading::opl(alloc, flow, SOURCE_LIMIT, source)?)) }
        None => unreachable!(),
    }
}

fn read_pbf<S: Source + Drop, K: Sink + Drop>(
    alloc: Global,
    source: Option<S>,
) -> Result<MachineKind<S, K>, NoMemory>
    requires { IsGivenWhere true source (λ _. ⊤) }
    ensures { IfOk result (IsMachine (reader_task PbfFile reading_limit)
        (option_map (source_seen S.name S.rest S.given S.faults) source) None) }
{
    match source {
        Some(source) => Ok(MachineKind::Read(Reading::pbf(alloc, SOURCE_LIMIT, source)?)),
        None => unreachable!(),
    }
}

fn write<S: Source + Drop, K: Sink + Drop>(
    alloc: Global,
    writer: FileWriter,
    sink: Option<K>,
) -> Result<MachineKind<S, K>, NoMemory>
    requires sink { IsGivenWhere true sink (λ k. TookNothing (K.taken k)) }
    requires wrote { (first : Option (List ℕ)) → FileWrote writer first first [] }
    ensures { IfOk result (IsMachine (writer_task (form_of writer)) None
        (option_map (sink_seen K.name K.taken K.faults) sink)) }
{
    match sink {
        Some(sink) => Ok(MachineKind::Write(Writing::new(alloc, writer, sink))),
        None => unreachable!(),
    }
}

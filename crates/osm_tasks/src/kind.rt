//! What a task is, with its options.
ghost use Rattle.std.specs.Prelude.{◌≡◌};
ghost use Rattle.std.specs.Option.{option_copied};
ghost use Rattle.osm_tasks.specs.Kinds.{file_of, task_by_flow, task_of, writes_file};

use crate::naming::TaskName;
use osm_entity::{AreaOptions, Flow, Kind, Resolution, TagTests, Text};

/// A task of the catalogue with its options. A `Task` keeps each number in its range.
#[derive(Debug, Drop)]
pub enum TaskKind {
    ReadPbf {
        file: Text,
    },
    ReadOpl {
        file: Text,
    },
    ReadOplChange {
        file: Text,
    },
    ReadEmpty,
    /// Gives `count` entities, up to 10,000,000, made from `seed`.
    ReadMade {
        count: u32,
        seed: u32,
    },
    WritePbf {
        file: Text,
        /// The most entities of a block, 1 to 32,000.
        batchlimit: u32,
        usedense: bool,
        omitmetadata: bool,
        /// Nanodegrees to which places are cut, 1 to 1,000,000.
        granularity: u32,
    },
    WriteOpl {
        file: Text,
    },
    WriteOplChange {
        file: Text,
    },
    WriteNull,
    WriteSummary {
        file: Text,
    },
    Merge {
        resolution: Resolution,
    },
    MergeChange {
        resolution: Resolution,
    },
    AppendChange,
    ApplyChange,
    SimplifyChange,
    /// Gives its input at each of its outputs, 1 to 16.
    Tee {
        flow: Flow,
        outputs: u32,
    },
    /// Gives its input, of which up to `capacity` messages, 1 to 65,536, wait before it.
    Buffer {
        flow: Flow,
        capacity: u32,
    },
    Spool {
        flow: Flow,
    },
    /// The sides are in nanodegrees, up to 1,000 degrees; none is empty.
    BoundingBox {
        left: i64,
        right: i64,
        top: i64,
        bottom: i64,
        options: AreaOptions,
    },
    BoundingPolygon {
        file: Text,
        options: AreaOptions,
    },
    /// Keeps the entities of a kind that pass one of the tests, or the others.
    TagFilter {
        accept: bool,
        kind: Kind,
        tests: TagTests,
    },
    UsedNode,
    UsedWay,
    Sort,
    SortChange,
}

impl TaskKind {
    /// The task of the catalogue that it is of. Its row says the streams at its ports.
    pub fn task(&self) -> TaskName
        ensures { result ≡ task_of self.now }
    {
        match self {
            TaskKind::ReadPbf { .. } => TaskName::ReadPbf,
            TaskKind::ReadOpl { .. } => TaskName::ReadOpl,
            TaskKind::ReadOplChange { .. } => TaskName::ReadOplChange,
            TaskKind::ReadEmpty => TaskName::ReadEmpty,
            TaskKind::ReadMade { .. } => TaskName::ReadMade,
            TaskKind::WritePbf { .. } => TaskName::WritePbf,
            TaskKind::WriteOpl { .. } => TaskName::WriteOpl,
            TaskKind::WriteOplChange { .. } => TaskName::WriteOplChange,
            TaskKind::WriteNull => TaskName::WriteNull,
            TaskKind::WriteSummary { .. } => TaskName::WriteSummary,
            TaskKind::Merge { .. } => TaskName::Merge,
            TaskKind::MergeChange { .. } => TaskName::MergeChange,
            TaskKind::AppendChange => TaskName::AppendChange,
            TaskKind::ApplyChange => TaskName::ApplyChange,
            TaskKind::SimplifyChange => TaskName::SimplifyChange,
            TaskKind::Tee { flow, .. } => by_flow(*flow, TaskName::Tee, TaskName::TeeChange),
            TaskKind::Buffer { flow, .. } => by_flow(
                *flow,
                TaskName::Buffer,
                TaskName::BufferChange,
            ),
            TaskKind::Spool { flow } => by_flow(*flow, TaskName::Spool, TaskName::SpoolChange),
            TaskKind::BoundingBox { .. } => TaskName::BoundingBox,
            TaskKind::BoundingPolygon { .. } => TaskName::BoundingPolygon,
            TaskKind::TagFilter { .. } => TaskName::TagFilter,
            TaskKind::UsedNode => TaskName::UsedNode,
            TaskKind::UsedWay => TaskName::UsedWay,
            TaskKind::Sort => TaskName::Sort,
            TaskKind::SortChange => TaskName::SortChange,
        }
    }

    /// The name of its file; `None` where it has none. A polygon file counts.
    pub fn file(&self) -> Option<&Text>
        ensures { option_copied result ≡ file_of self.now }
    {
        match self {
            TaskKind::ReadPbf { file }
            | TaskKind::ReadOpl { file }
            | TaskKind::ReadOplChange { file }
            | TaskKind::WritePbf { file, .. }
            | TaskKind::WriteOpl { file }
            | TaskKind::WriteOplChange { file }
            | TaskKind::WriteSummary { file }
            | TaskKind::BoundingPolygon { file, .. } => Some(file),
            _ => None,
        }
    }

    /// Whether it writes its file.
    pub fn writes(&self) -> bool
        ensures { result ≡ writes_file self.now }
    {
        matches!(
            self,
            TaskKind::WritePbf { .. }
                | TaskKind::WriteOpl { .. }
                | TaskKind::WriteOplChange { .. }
                | TaskKind::WriteSummary { .. }
        )
    }
}

// The one task for entities, the other for changes.
fn by_flow(flow: Flow, entities: TaskName, changes: TaskName) -> TaskName
    ensures { result ≡ task_by_flow flow entities changes }
{
    match flow {
        Flow::Entities => entities,
        Flow::Changes => changes,
    }
}

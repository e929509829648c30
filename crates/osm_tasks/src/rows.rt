//! The rows of the tasks, column by column.
ghost use Rattle.std.specs.Prelude.{◌≡◌};
ghost use Rattle.osm_tasks.specs.Catalogue.{task_row};

use crate::naming::{OptionName, TaskName};
use osm_entity::Flow;

impl TaskName {
    /// The name that words call it by.
    pub fn name(self) -> &'static [u8]
        ensures { result.now ≡ (task_row self).name }
    {
        match self {
            TaskName::ReadPbf => b"read-pbf",
            TaskName::ReadOpl => b"read-opl",
            TaskName::ReadOplChange => b"read-opl-change",
            TaskName::ReadEmpty => b"read-empty",
            TaskName::ReadMade => b"read-made",
            TaskName::WritePbf => b"write-pbf",
            TaskName::WriteOpl => b"write-opl",
            TaskName::WriteOplChange => b"write-opl-change",
            TaskName::WriteNull => b"write-null",
            TaskName::WriteSummary => b"write-summary",
            TaskName::Merge => b"merge",
            TaskName::MergeChange => b"merge-change",
            TaskName::AppendChange => b"append-change",
            TaskName::ApplyChange => b"apply-change",
            TaskName::SimplifyChange => b"simplify-change",
            TaskName::Tee => b"tee",
            TaskName::TeeChange => b"tee-change",
            TaskName::Buffer => b"buffer",
            TaskName::BufferChange => b"buffer-change",
            TaskName::Spool => b"spool",
            TaskName::SpoolChange => b"spool-change",
            TaskName::BoundingBox => b"bounding-box",
            TaskName::BoundingPolygon => b"bounding-polygon",
            TaskName::TagFilter => b"tag-filter",
            TaskName::UsedNode => b"used-node",
            TaskName::UsedWay => b"used-way",
            TaskName::Sort => b"sort",
            TaskName::SortChange => b"sort-change",
        }
    }

    /// Its short name, or its name where it has none.
    pub fn short(self) -> &'static [u8]
        ensures { result.now ≡ (task_row self).short }
    {
        match self {
            TaskName::ReadPbf => b"rb",
            TaskName::ReadEmpty => b"rem",
            TaskName::WritePbf => b"wb",
            TaskName::WriteNull => b"wn",
            TaskName::Merge => b"m",
            TaskName::MergeChange => b"mc",
            TaskName::AppendChange => b"apc",
            TaskName::ApplyChange => b"ac",
            TaskName::SimplifyChange => b"simc",
            TaskName::Tee => b"t",
            TaskName::TeeChange => b"tc",
            TaskName::Buffer => b"b",
            TaskName::BufferChange => b"bc",
            TaskName::BoundingBox => b"bb",
            TaskName::BoundingPolygon => b"bp",
            TaskName::TagFilter => b"tf",
            TaskName::UsedNode => b"un",
            TaskName::UsedWay => b"uw",
            TaskName::Sort => b"s",
            TaskName::SortChange => b"sc",
            TaskName::ReadOpl
            | TaskName::ReadOplChange
            | TaskName::ReadMade
            | TaskName::WriteOpl
            | TaskName::WriteOplChange
            | TaskName::WriteSummary
            | TaskName::Spool
            | TaskName::SpoolChange => self.name(),
        }
    }

    /// The streams that it takes, one for each input.
    pub fn inputs(self) -> &'static [Flow]
        ensures { result.now ≡ (task_row self).inputs }
    {
        match self {
            TaskName::ReadPbf
            | TaskName::ReadOpl
            | TaskName::ReadOplChange
            | TaskName::ReadEmpty
            | TaskName::ReadMade => &[],
            TaskName::Merge => &[Flow::Entities, Flow::Entities],
            TaskName::MergeChange | TaskName::AppendChange => &[Flow::Changes, Flow::Changes],
            TaskName::ApplyChange => &[Flow::Entities, Flow::Changes],
            TaskName::WriteOplChange
            | TaskName::SimplifyChange
            | TaskName::TeeChange
            | TaskName::BufferChange
            | TaskName::SpoolChange
            | TaskName::SortChange => &[Flow::Changes],
            TaskName::WritePbf
            | TaskName::WriteOpl
            | TaskName::WriteNull
            | TaskName::WriteSummary
            | TaskName::Tee
            | TaskName::Buffer
            | TaskName::Spool
            | TaskName::BoundingBox
            | TaskName::BoundingPolygon
            | TaskName::TagFilter
            | TaskName::UsedNode
            | TaskName::UsedWay
            | TaskName::Sort => &[Flow::Entities],
        }
    }

    /// The stream that it gives, at each of its outputs; `None` where it has no output.
    pub fn output(self) -> Option<Flow>
        ensures { result ≡ (task_row self).output }
    {
        match self {
            TaskName::WritePbf
            | TaskName::WriteOpl
            | TaskName::WriteOplChange
            | TaskName::WriteNull
            | TaskName::WriteSummary => None,
            TaskName::ReadOplChange
            | TaskName::MergeChange
            | TaskName::AppendChange
            | TaskName::SimplifyChange
            | TaskName::TeeChange
            | TaskName::BufferChange
            | TaskName::SpoolChange
            | TaskName::SortChange => Some(Flow::Changes),
            TaskName::ReadPbf
            | TaskName::ReadOpl
            | TaskName::ReadEmpty
            | TaskName::ReadMade
            | TaskName::Merge
            | TaskName::ApplyChange
            | TaskName::Tee
            | TaskName::Buffer
            | TaskName::Spool
            | TaskName::BoundingBox
            | TaskName::BoundingPolygon
            | TaskName::TagFilter
            | TaskName::UsedNode
            | TaskName::UsedWay
            | TaskName::Sort => Some(Flow::Entities),
        }
    }

    /// Its options; of these at most one is given without a name.
    pub(crate) fn options(self) -> &'static [OptionName]
        ensures { result.now ≡ (task_row self).options }
    {
        match self {
            TaskName::ReadPbf
            | TaskName::ReadOpl
            | TaskName::ReadOplChange
            | TaskName::WriteOpl
            | TaskName::WriteOplChange
            | TaskName::WriteSummary => &[OptionName::File],
            TaskName::ReadMade => &[OptionName::Count, OptionName::Seed],
            TaskName::WritePbf => &[
                OptionName::File,
                OptionName::Batchlimit,
                OptionName::Usedense,
                OptionName::Omitmetadata,
                OptionName::Compress,
                OptionName::Granularity,
            ],
            TaskName::Merge | TaskName::MergeChange => &[OptionName::ConflictResolutionMethod],
            TaskName::Tee | TaskName::TeeChange => &[OptionName::OutputCount],
            TaskName::Buffer | TaskName::BufferChange => &[OptionName::BufferCapacity],
            TaskName::BoundingBox => &[
                OptionName::Left,
                OptionName::Right,
                OptionName::Top,
                OptionName::Bottom,
                OptionName::CompleteWays,
                OptionName::CascadingRelations,
                OptionName::ClipIncompleteEntities,
            ],
            TaskName::BoundingPolygon => &[
                OptionName::File,
                OptionName::CompleteWays,
                OptionName::CascadingRelations,
                OptionName::ClipIncompleteEntities,
            ],
            TaskName::TagFilter => &[OptionName::Mode],
            TaskName::UsedNode | TaskName::UsedWay => &[OptionName::IdTrackerType],
            TaskName::Sort => &[OptionName::SortType],
            TaskName::ReadEmpty
            | TaskName::WriteNull
            | TaskName::AppendChange
            | TaskName::ApplyChange
            | TaskName::SimplifyChange
            | TaskName::Spool
            | TaskName::SpoolChange
            | TaskName::SortChange => &[],
        }
    }
}

//! The tasks and options of the catalogue, each by one name.

/// A task of the catalogue. A change form is a task of its own.
#[derive(Clone, Copy, Debug, PartialEq, Eq)]
pub enum TaskName {
    ReadPbf,
    ReadOpl,
    ReadOplChange,
    ReadEmpty,
    ReadMade,
    WritePbf,
    WriteOpl,
    WriteOplChange,
    WriteNull,
    WriteSummary,
    Merge,
    MergeChange,
    AppendChange,
    ApplyChange,
    SimplifyChange,
    Tee,
    TeeChange,
    Buffer,
    BufferChange,
    Spool,
    SpoolChange,
    BoundingBox,
    BoundingPolygon,
    TagFilter,
    UsedNode,
    UsedWay,
    Sort,
    SortChange,
}

/// An option of the catalogue.
#[derive(Clone, Copy, Debug, PartialEq, Eq)]
pub enum OptionName {
    File,
    Count,
    Seed,
    Batchlimit,
    Usedense,
    Omitmetadata,
    Compress,
    Granularity,
    ConflictResolutionMethod,
    OutputCount,
    BufferCapacity,
    Left,
    Right,
    Top,
    Bottom,
    CompleteWays,
    CascadingRelations,
    ClipIncompleteEntities,
    Mode,
    IdTrackerType,
    SortType,
}

/// What values an option allows, and which it has where no word gives it.
#[derive(Clone, Copy, Debug, PartialEq, Eq)]
pub enum Values {
    /// Any text, the empty one too; none where no word gives it.
    AnyText,
    /// Digits that write a number of this range.
    Number { least: u32, most: u32, default: u32 },
    /// Yes, true, no or false, in any case of the letters.
    Truth { default: bool },
    /// Degrees up to 1,000 in size, in nanodegrees.
    Degrees { default: i64 },
    /// How a merge resolves; by version where no word gives it.
    Resolving,
    /// What a tag filter does; none where no word gives it.
    Filtering,
    /// One of three words, without effect.
    Tracking,
    /// Only the word `none`.
    Uncompressed,
    /// Only the word `TypeThenId`.
    ByTypeThenId,
}

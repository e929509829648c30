//! How a PBF file is written.
ghost use Rattle.std.specs.Prelude.{◌≤◌};

/// How a PBF file is written. It keeps: `batchlimit` from 1 to 32,000, and `granularity` from 1 to
/// 1,000,000.
#[derive(Clone, Copy, Debug, PartialEq, Eq)]
pub struct PbfOptions {
    /// The most entities of a block.
    pub batchlimit: u32,
    /// Whether nodes are written as dense nodes, in columns.
    pub usedense: bool,
    /// Whether version, time, changeset, uid and user are left out.
    pub omitmetadata: bool,
    /// The unit of places, in nanodegrees.
    pub granularity: u32,
    ghost some: { 1 ≤ batchlimit },
    ghost few: { batchlimit ≤ 32000 },
    ghost fine: { 1 ≤ granularity },
    ghost coarse: { granularity ≤ 1000000 },
}

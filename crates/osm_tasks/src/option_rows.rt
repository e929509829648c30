//! The rows of the options, column by column.
ghost use Rattle.std.specs.Prelude.{◌≡◌};
ghost use Rattle.osm_tasks.specs.Options.{option_row};
ghost use Rattle.osm_tasks.specs.declared.naming.Values.TheVariants.{Number, Degrees};

use crate::fault::Needed;
use crate::naming::{OptionName, Values};

impl OptionName {
    /// The name that words give it by; the mode has none.
    pub(crate) fn name(self) -> &'static [u8]
        ensures { result.now ≡ (option_row self).name }
    {
        match self {
            OptionName::File => b"file",
            OptionName::Count => b"count",
            OptionName::Seed => b"seed",
            OptionName::Batchlimit => b"batchlimit",
            OptionName::Usedense => b"usedense",
            OptionName::Omitmetadata => b"omitmetadata",
            OptionName::Compress => b"compress",
            OptionName::Granularity => b"granularity",
            OptionName::ConflictResolutionMethod => b"conflictResolutionMethod",
            OptionName::OutputCount => b"outputCount",
            OptionName::BufferCapacity => b"bufferCapacity",
            OptionName::Left => b"left",
            OptionName::Right => b"right",
            OptionName::Top => b"top",
            OptionName::Bottom => b"bottom",
            OptionName::CompleteWays => b"completeWays",
            OptionName::CascadingRelations => b"cascadingRelations",
            OptionName::ClipIncompleteEntities => b"clipIncompleteEntities",
            OptionName::Mode => b"",
            OptionName::IdTrackerType => b"idTrackerType",
            OptionName::SortType => b"type",
        }
    }

    /// Whether a word without a name gives it.
    pub(crate) fn goes_unnamed(self) -> bool
        ensures { result ≡ (option_row self).unnamed }
    {
        matches!(
            self,
            OptionName::File
                | OptionName::Count
                | OptionName::OutputCount
                | OptionName::BufferCapacity
                | OptionName::Mode
        )
    }

    /// What is missing where no word gives it.
    pub(crate) fn needed(self) -> Option<Needed>
        ensures { result ≡ (option_row self).needed }
    {
        match self {
            OptionName::File => Some(Needed::File),
            OptionName::Count => Some(Needed::Count),
            OptionName::Mode => Some(Needed::Mode),
            _ => None,
        }
    }

    /// Its values, and its default.
    pub(crate) fn values(self) -> Values
        ensures { result ≡ (option_row self).values }
    {
        match self {
            OptionName::File => Values::AnyText,
            OptionName::Count => number(0, 10_000_000, 0),
            OptionName::Seed => number(0, 4_294_967_295, 0),
            OptionName::Batchlimit => number(1, 32_000, 8_000),
            OptionName::Usedense => Values::Truth { default: true },
            OptionName::Omitmetadata
            | OptionName::CompleteWays
            | OptionName::CascadingRelations
            | OptionName::ClipIncompleteEntities => Values::Truth { default: false },
            OptionName::Compress => Values::Uncompressed,
            OptionName::Granularity => number(1, 1_000_000, 100),
            OptionName::ConflictResolutionMethod => Values::Resolving,
            OptionName::OutputCount => number(1, 16, 2),
            OptionName::BufferCapacity => number(1, 65_536, 100),
            OptionName::Left => degrees(-180_000_000_000),
            OptionName::Right => degrees(180_000_000_000),
            OptionName::Top => degrees(90_000_000_000),
            OptionName::Bottom => degrees(-90_000_000_000),
            OptionName::Mode => Values::Filtering,
            OptionName::IdTrackerType => Values::Tracking,
            OptionName::SortType => Values::ByTypeThenId,
        }
    }
}

fn number(least: u32, most: u32, default: u32) -> Values
    ensures { result ≡ Number least most default }
{
    Values::Number {
        least,
        most,
        default,
    }
}

fn degrees(default: i64) -> Values
    ensures { result ≡ Degrees default }
{
    Values::Degrees { default }
}

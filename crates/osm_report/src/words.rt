//! The words of each cause.
ghost use Rattle.std.specs.Prelude.{◌≡◌, true};
ghost use Rattle.osm_report.specs.Printable.{are_words};
ghost use Rattle.osm_report.specs.Words.{call_words, cause_words, needed_words};

use crate::fault::DeviceCall;
use osm_entity::Cause;
use osm_tasks::Needed;

/// What is wrong with an input.
pub(crate) fn cause_words(cause: Cause) -> &'static str
    ensures value { result.now ≡ cause_words cause }
    ensures words { are_words result.now ≡ true }
{
    match cause {
        Cause::BadText => "bad text",
        Cause::BadField => "bad field",
        Cause::TwiceField => "field repeated",
        Cause::BadNumber => "bad number",
        Cause::BadEscape => "bad escape",
        Cause::BadTime => "bad time",
        Cause::BadCoordinate => "bad coordinate",
        Cause::NoPlace => "no place",
        Cause::Deleted => "deleted object",
        Cause::TooHeavy => "object too large",
        Cause::LineTooLong => "line too long",
        Cause::ShortFile => "file too short",
        Cause::HeaderTooLong => "blob header too long",
        Cause::BlobTooLong => "blob too long",
        Cause::Compressed => "compressed blob",
        Cause::BadWire => "bad message",
        Cause::NoHeader => "no header",
        Cause::BadFeature => "unknown feature",
        Cause::BadIndex => "bad index",
        Cause::BadLengths => "lengths differ",
        Cause::Unordered => "out of order",
        Cause::BadPoly => "bad polygon",
    }
}

/// The option that a task lacks.
pub(crate) fn needed_words(option: Needed) -> &'static str
    ensures value { result.now ≡ needed_words option }
    ensures words { are_words result.now ≡ true }
{
    match option {
        Needed::File => "file missing",
        Needed::Mode => "mode missing",
        Needed::Count => "count missing",
    }
}

/// The call of a device that failed.
pub(crate) fn call_words(call: DeviceCall) -> &'static str
    ensures value { result.now ≡ call_words call }
    ensures words { are_words result.now ≡ true }
{
    match call {
        DeviceCall::Open => "open failed",
        DeviceCall::Read => "read failed",
        DeviceCall::Write => "write failed",
        DeviceCall::Keep => "keep failed",
        DeviceCall::Spill => "spill failed",
    }
}

//! Reads the values of options. Nothing is copied.
ghost use Rattle.std.specs.Prelude.{◌≡◌, Some};
ghost use Rattle.osm_entity.specs.Counts.{counted};
ghost use Rattle.osm_text.specs.Numbers.{has_minus};
ghost use Rattle.osm_tasks.specs.Values.{allows, has_leading_zero, is_either, is_tracker, kept_degrees, kept_within, mode_in, nanodegrees_in, number_in, port_in, resolution_in, truth_in};

use crate::naming::Values;
use osm_entity::{Kind, Resolution};
use osm_text::{read_nano, read_whole};

/// The most nanodegrees that an option can say: 1,000 degrees.
const MOST_NANODEGREES: u64 = 1_000_000_000_000;

/// What a tag filter does: it accepts or rejects entities of a kind.
#[derive(Clone, Copy, Debug, PartialEq, Eq)]
pub(crate) struct Mode {
    pub(crate) accept: bool,
    pub(crate) kind: Kind,
}

/// The number, and 0 in the place of a negative one.
fn clip(number: i64) -> u64
    ensures { result ≡ counted number }
{
    if number < 0 { 0 } else { number as u64 }
}

fn has_minus(text: &[u8]) -> bool
    ensures { result ≡ has_minus text.now }
{
    matches!(text, [b'-', ..])
}

fn keep_within(least: u32, most: u32, number: i64) -> Option<u32>
    ensures { result ≡ kept_within least most number }
{
    let size = clip(number);
    if size >= u64::from(least) && size <= u64::from(most) {
        Some(size as u32)
    } else {
        None
    }
}

/// The number that digits write, where it is in the range; a number with a sign is none.
pub(crate) fn read_number(least: u32, most: u32, text: &[u8]) -> Option<u32>
    ensures { result ≡ number_in least most text.now }
{
    if has_minus(text) {
        return None;
    }
    match read_whole(text) {
        Ok(number) => keep_within(least, most, number),
        Err(_) => None,
    }
}

fn is_either(one: &[u8], other: &[u8], text: &[u8]) -> bool
    ensures { result ≡ is_either one.now other.now text.now }
{
    text.eq_ignore_ascii_case(one) || text.eq_ignore_ascii_case(other)
}

/// Yes or true, no or false, in any case of the letters.
pub(crate) fn read_truth(text: &[u8]) -> Option<bool>
    ensures { result ≡ truth_in text.now }
{
    if is_either(b"yes", b"true", text) {
        Some(true)
    } else if is_either(b"no", b"false", text) {
        Some(false)
    } else {
        None
    }
}

fn keep_degrees(number: i64) -> Option<i64>
    ensures { result ≡ kept_degrees number }
{
    if number.unsigned_abs() <= MOST_NANODEGREES {
        Some(number)
    } else {
        None
    }
}

/// The nanodegrees that a text says in degrees, up to 1,000 in size.
pub(crate) fn read_degrees(text: &[u8]) -> Option<i64>
    ensures { result ≡ nanodegrees_in text.now }
{
    match read_nano(text) {
        Ok(number) => keep_degrees(number),
        Err(_) => None,
    }
}

/// How a merge resolves.
pub(crate) fn read_resolution(text: &[u8]) -> Option<Resolution>
    ensures { result ≡ resolution_in text.now }
{
    if text == b"version".as_slice() {
        Some(Resolution::Version)
    } else if text == b"timestamp".as_slice() {
        Some(Resolution::Timestamp)
    } else if text == b"lastSource".as_slice() {
        Some(Resolution::LastSource)
    } else {
        None
    }
}

fn filtering(accept: bool, kind: Kind) -> Option<Mode>
    ensures { result ≡ Some (record { accept = accept; kind = kind }) }
{
    Some(Mode { accept, kind })
}

/// What a tag filter does.
pub(crate) fn read_mode(text: &[u8]) -> Option<Mode>
    ensures { result ≡ mode_in text.now }
{
    if text == b"accept-nodes".as_slice() {
        filtering(true, Kind::Node)
    } else if text == b"accept-ways".as_slice() {
        filtering(true, Kind::Way)
    } else if text == b"accept-relations".as_slice() {
        filtering(true, Kind::Relation)
    } else if text == b"reject-nodes".as_slice() {
        filtering(false, Kind::Node)
    } else if text == b"reject-ways".as_slice() {
        filtering(false, Kind::Way)
    } else if text == b"reject-relations".as_slice() {
        filtering(false, Kind::Relation)
    } else {
        None
    }
}

fn is_tracker(text: &[u8]) -> bool
    ensures { result ≡ is_tracker text.now }
{
    text == b"IdList".as_slice() || text == b"BitSet".as_slice() || text == b"Dynamic".as_slice()
}

impl Values {
    /// Whether a text is one of the values.
    pub(crate) fn allows(self, text: &[u8]) -> bool
        ensures { result ≡ allows self text.now }
    {
        match self {
            Values::AnyText => true,
            Values::Number { least, most, .. } => read_number(least, most, text).is_some(),
            Values::Truth { .. } => read_truth(text).is_some(),
            Values::Degrees { .. } => read_degrees(text).is_some(),
            Values::Resolving => read_resolution(text).is_some(),
            Values::Filtering => read_mode(text).is_some(),
            Values::Tracking => is_tracker(text),
            Values::Uncompressed => text == b"none".as_slice(),
            Values::ByTypeThenId => text == b"TypeThenId".as_slice(),
        }
    }
}

fn has_leading_zero(text: &[u8]) -> bool
    ensures { result ≡ has_leading_zero text.now }
{
    matches!(text, [b'0', _, ..])
}

/// The number of a port: digits without leading zeros.
pub(crate) fn read_port(text: &[u8]) -> Option<u32>
    ensures { result ≡ port_in text.now }
{
    if has_leading_zero(text) {
        return None;
    }
    read_number(0, u32::MAX, text)
}

//! Reads the contents of fields: numbers by their values, and texts by what they weigh or as texts.
ghost use Rattle.std.specs.Prelude.{◌≡◌, ◌≤◌, ◌*◌, Err, IfOk, IsUtf8, Ok, length, nat_abs, nat_le, take};
ghost use Rattle.osm_entity.specs.Counts.{counted, small_count};
ghost use Rattle.osm_entity.specs.Entities.{degree};
ghost use Rattle.osm_entity.specs.declared.verdict.Cause.{Cause};
ghost use Rattle.osm_opl_line.specs.Contents.{HasNoEscape, changeset_in, count_in, degrees_in, deleted_in, text_in, time_in};
ghost use Rattle.osm_opl_line.specs.Cut.{weighed};
ghost use Rattle.osm_opl_line.specs.Line.{longest_line};
ghost use Rattle.osm_opl_line.specs.declared.contents.ContentError.TheVariants.{Memory};

use osm_entity::{Cause, NoMemory, Text};
use osm_text::{
    EscapeError, first_part, read_nano, read_time, read_whole, unescape, unescaped_length,
};
use std::alloc::Global;

/// Why a content, or a part of it, gave no value.
#[derive(Clone, Copy, Debug)]
pub(crate) enum ContentError {
    /// It is bad, for this cause.
    Bad(Cause),
    /// Out of memory.
    Memory,
}

impl From<NoMemory> for ContentError {
    ghost from_gives = { λ _ e. e ≡ Memory };

    fn from(_: NoMemory) -> Self {
        ContentError::Memory
    }
}

/// Nanodegrees to a degree.
const DEGREE: u64 = 1_000_000_000;

/// The number, and 0 in the place of a negative one.
fn clip(number: i64) -> u64
    ensures { result ≡ counted number }
{
    if number < 0 { 0 } else { number as u64 }
}

/// The number, where it is at most 2^31 - 1.
fn small_number(number: u64) -> Option<u32>
    ensures { result ≡ small_count number }
{
    if number < 1 << 31 {
        Some(number as u32)
    } else {
        None
    }
}

/// The version or uid that a content says: a whole number up to 2^31 - 1, a negative one as 0.
pub(crate) fn read_count(content: &[u8]) -> Result<u32, Cause>
    ensures { result ≡ count_in content.now }
{
    match read_whole(content) {
        Ok(number) => small_number(clip(number)).ok_or(Cause::BadNumber),
        Err(_) => Err(Cause::BadNumber),
    }
}

/// The changeset that a content says: a whole number, a negative one as 0.
pub(crate) fn read_changeset(content: &[u8]) -> Result<u64, Cause>
    ensures { result ≡ changeset_in content.now }
{
    match read_whole(content) {
        Ok(number) => Ok(clip(number)),
        Err(_) => Err(Cause::BadNumber),
    }
}

/// Whether the entity is deleted: `V` or `D`.
pub(crate) fn read_deleted(content: &[u8]) -> Result<bool, Cause>
    ensures { result ≡ deleted_in content.now }
{
    match content {
        [b'V'] => Ok(false),
        [b'D'] => Ok(true),
        _ => Err(Cause::BadField),
    }
}

/// The seconds since 1970 of a time, and 0 for an empty content.
pub(crate) fn read_seconds(content: &[u8]) -> Result<u32, Cause>
    ensures { result ≡ time_in content.now }
{
    if content.is_empty() {
        return Ok(0);
    }
    match read_time(content) {
        Ok(seconds) => Ok(seconds),
        Err(_) => Err(Cause::BadTime),
    }
}

fn is_within(nanodegrees: i64, most: u64) -> bool
    requires { most ≤ 180 }
    ensures { result ≡ nat_le (nat_abs nanodegrees) (most * degree) }
{
    nanodegrees.unsigned_abs() <= most * DEGREE
}

/// Nanodegrees, of at most this number of degrees in size; none for an empty content.
pub(crate) fn read_degrees(content: &[u8], most: u64) -> Result<Option<i64>, Cause>
    requires { most ≤ 180 }
    ensures { result ≡ degrees_in most content.now }
{
    if content.is_empty() {
        return Ok(None);
    }
    match read_nano(content) {
        Ok(number) if is_within(number, most) => Ok(Some(number)),
        Ok(_) => Err(Cause::BadCoordinate),
        Err(_) => Err(Cause::BadNumber),
    }
}

/// The bytes of an escaped text, once it is unescaped.
pub(crate) fn weigh_text(content: &[u8]) -> Result<u64, Cause>
    requires { length content.now ≤ longest_line }
    ensures value { result ≡ weighed length (text_in content.now) }
    ensures shorter { IfOk result (λ n. n ≤ length content.now) }
{
    match unescaped_length(content) {
        Some(length) => Ok(length as u64),
        None => Err(Cause::BadEscape),
    }
}

/// The text of the first `len` of these bytes, in which there is no `%`.
pub(crate) fn make_plain_text(alloc: Global, bytes: &[u8], len: usize) -> Result<Text, NoMemory>
    requires within { len ≤ length bytes.now }
    requires utf8 { IsUtf8 (take len bytes.now) }
    requires plain { HasNoEscape (take len bytes.now) }
    ensures value { IfOk result (λ text. text_in (take len bytes.now) ≡ Ok text) }
    ensures shorter { IfOk result (λ text. length text ≤ len) }
{
    Text::from_start(alloc, bytes, len)
}

/// The text that the first `len` of these bytes say, which are an escaped text. `Bad` exactly where
/// they are none, else only `Memory`. It takes less time where more bytes are behind them.
pub(crate) fn make_text(alloc: Global, bytes: &[u8], len: usize) -> Result<Text, ContentError>
    requires within { len ≤ length bytes.now }
    requires utf8 { IsUtf8 (take len bytes.now) }
    ensures value { IfOk result (λ text. text_in (take len bytes.now) ≡ Ok text) }
    ensures shorter { IfOk result (λ text. length text ≤ len) }
    ensures refused { (cause : Cause) →
        result ≡ Err (ContentError.Bad cause) → text_in (take len bytes.now) ≡ Err cause }
{
    let content = &bytes[..len];
    if first_part(content, b'%').is_none() {
        return Ok(Text::from_start(alloc, bytes, len)?);
    }
    match unescape(alloc, content) {
        Ok(text) => Ok(text),
        Err(EscapeError::BadEscape) => Err(ContentError::Bad(Cause::BadEscape)),
        Err(EscapeError::Memory) => Err(ContentError::Memory),
    }
}

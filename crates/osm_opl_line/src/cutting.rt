//! Cuts a line into its fields: each field is a slice of the line.
ghost use Rattle.std.specs.Prelude.{◌≡◌, ◌≤◌, ◌<◌, ◌↔◌, ◌∷◌, ◌==◌, ◌+◌, [], ℤ, None, Some, Ok, Err, IfOk, IfErr, IfSome, IsTrue, IsUtf8, length, slice_index};
ghost use Rattle.std.specs.List.{list_any};
ghost use Rattle.std.specs.Result.{result_err};
ghost use Rattle.std.specs.Str.{is_utf8};
ghost use Rattle.osm_entity.specs.Ascii.{number_sign};
ghost use Rattle.osm_entity.specs.declared.kind.Flow.{Flow};
ghost use Rattle.osm_entity.specs.declared.verdict.Cause.{Cause};
ghost use Rattle.osm_opl_line.specs.Bytes.{ArePlain, byte_fault};
ghost use Rattle.osm_opl_line.specs.Draft.{IsRead, answer_of, fields_drafted};
ghost use Rattle.osm_opl_line.specs.Fields.{fields_from, fields_of, fault_among, pieces};
ghost use Rattle.osm_opl_line.specs.Item.{item_of};
ghost use Rattle.osm_opl_line.specs.Line.{Skipped, Good, Bad, is_control, longest_line, opl_line, said_of};

use crate::draft::Draft;
use crate::judging::judge;
use crate::line::Line;
use crate::parting::kind_of;
use crate::pieces::next_piece;
use osm_entity::{Cause, Flow, Kind};
use osm_text::read_whole;
use std::alloc::Global;
use std::simd::prelude::*;
use std::str::from_utf8;

/// The most bytes of a line.
const LONGEST_LINE: usize = 16_777_216;

/// How many bytes of a line are looked at at once.
const LANES: usize = 16;

/// Cuts a line of an OPL file of this flow into its fields, which are slices of the line.
/// `None` exactly where the line is skipped: it is empty, holds only spaces and tabs, or begins
/// with `#`. The cause where it is bad, the first in the order of the format. It takes no memory.
pub fn cut_line(line: &[u8], flow: Flow) -> Result<Option<Line<'_>>, Cause>
    ensures skipped { result ≡ Ok None ↔ opl_line flow line.now ≡ Skipped }
    ensures fields { IfOk result (λ o. IfSome o (λ l. fields_of flow (pieces line.now) ≡ Some l)) }
    ensures good { IfOk result (λ o. IfSome o (λ l. opl_line flow line.now ≡ Good (item_of l))) }
    ensures refused { (cause : Cause) → result ≡ Err cause ↔ opl_line flow line.now ≡ Bad cause }
{
    cut(None, line, flow)
}

/// The same, with all that it answers in one equation. Where there is memory to make them in, texts
/// and lists may be made at once.
pub(crate) fn cut(
    making: Option<Global>,
    line: &[u8],
    flow: Flow,
) -> Result<Option<Line<'_>>, Cause>
    ensures value { answer_of result ≡ opl_line flow line.now }
    ensures fields { IfOk result (λ o. IfSome o (λ l. fields_of flow (pieces line.now) ≡ Some l)) }
{
    if line.len() > LONGEST_LINE {
        return Err(Cause::LineTooLong);
    }
    if begins_with_hash(line) {
        return Ok(None);
    }
    let Some((letter, id, rest)) = next_piece(line) else {
        return Ok(None);
    };
    if let Some(cause) = byte_fault(line) {
        return Err(cause);
    }
    match cut_pieces(making, flow, letter, id, rest) {
        Ok(line) => Ok(Some(line)),
        Err(cause) => Err(cause),
    }
}

// Such a line is a comment.
fn begins_with_hash(line: &[u8]) -> bool
    ensures { result ≡ (slice_index line.now 0 == number_sign) }
{
    matches!(line, [b'#', ..])
}

// What is wrong with the bytes of a line. Most lines are ASCII without a control byte but tabs, and
// need no further look, nor do such bytes before and behind the others.
fn byte_fault(line: &[u8]) -> Option<Cause>
    ensures { result ≡ byte_fault line.now }
{
    let rest = &line[plain_length(line)..];
    if rest.is_empty() {
        return None;
    }
    rest_fault(&rest[..rough_length(rest)])
}

// The same, byte after byte.
fn rest_fault(bytes: &[u8]) -> Option<Cause>
    ensures { result ≡ byte_fault bytes.now }
{
    if !is_text(bytes) {
        return Some(Cause::BadText);
    }
    if has_control(bytes) {
        return Some(Cause::BadField);
    }
    None
}

// How many bytes are ASCII and no control bytes but tabs, from the first on, as far as sixteen are
// looked at at once. The last look may overlap the one before. A line of fewer than sixteen bytes
// is left to be looked at in full.
fn plain_length(line: &[u8]) -> usize
    ensures within { result ≤ length line.now }
    ensures plain { ArePlain line.now 0 result }
{
    if line.len() < LANES {
        return 0;
    }
    let mut at = 0;
    while line.len() - at > LANES {
        if !is_plain_at(line, at) {
            return at;
        }
        at += LANES;
    }
    if is_plain_at(line, line.len() - LANES) {
        return line.len();
    }
    at
}

// How many bytes there are before those that are ASCII and no control bytes but tabs up to the end,
// as far as sixteen are looked at at once.
fn rough_length(line: &[u8]) -> usize
    ensures within { result ≤ length line.now }
    ensures plain { ArePlain line.now result (length line.now) }
{
    let mut end = line.len();
    while end >= LANES {
        if !is_plain_at(line, end - LANES) {
            return end;
        }
        end -= LANES;
    }
    end
}

// The same of the sixteen bytes from `at` on.
fn is_plain_at(line: &[u8], at: usize) -> bool
    requires { at + 16 ≤ length line.now }
    ensures { IsTrue result → ArePlain line.now at (at + 16) }
{
    let lanes = u8x16::from_slice(&line[at..]);
    let is_low = lanes.simd_lt(u8x16::splat(b' ')) & lanes.simd_ne(u8x16::splat(b'\t'));
    (is_low | lanes.simd_ge(u8x16::splat(128))).to_bitmask() == 0
}

// Whether the line is UTF-8.
fn is_text(line: &[u8]) -> bool
    ensures { result ≡ is_utf8 line.now }
{
    from_utf8(line).is_ok()
}

// Whether there is a byte below 32 that is no tab. Since there is hardly ever one, all bytes are
// looked at, which takes less than to stop at the first.
fn has_control(line: &[u8]) -> bool
    ensures { result ≡ list_any is_control line.now }
{
    let mut found = false;
    for byte in line {
        found |= *byte < 32 && *byte != b'\t';
    }
    found
}

// Cuts a line whose first piece is a letter and an id.
fn cut_pieces<'a>(
    making: Option<Global>,
    flow: Flow,
    letter: u8,
    id: &[u8],
    rest: &'a [u8],
) -> Result<Line<'a>, Cause>
    requires short { length rest.now ≤ longest_line }
    requires utf8 { letter < 128 → IsUtf8 rest.now }
    ensures fields { IfOk result (λ l.
        fields_of flow ((letter ∷ id.now) ∷ pieces rest.now) ≡ Some l) }
    ensures good { IfOk result (λ l.
        said_of flow ((letter ∷ id.now) ∷ pieces rest.now) ≡ Good (item_of l)) }
    ensures refused { IfErr result (λ cause.
        said_of flow ((letter ∷ id.now) ∷ pieces rest.now) ≡ Bad cause) }
{
    let Some(kind) = kind_of(letter) else {
        return Err(Cause::BadField);
    };
    let Ok(id) = read_whole(id) else {
        return Err(Cause::BadNumber);
    };
    let draft = take_fields(making, kind, rest)?;
    judge(draft, flow, kind, id)
}

// Takes the fields of an entity of this kind, or gives the first fault.
fn take_fields(making: Option<Global>, kind: Kind, bytes: &[u8]) -> Result<Draft<'_>, Cause>
    requires short { length bytes.now ≤ longest_line }
    requires utf8 { IsUtf8 bytes.now }
    ensures refused { result_err result ≡ fault_among kind [] (pieces bytes.now) }
    ensures fields { IfOk result (λ draft. (flow : Flow) (id : ℤ) →
        fields_from flow kind id (pieces bytes.now) ≡ fields_drafted flow kind id draft) }
    ensures read { IfOk result IsRead }
{
    let mut draft = Draft::new();
    let mut rest = bytes;
    while let Some((letter, content, more)) = next_piece(rest) {
        draft.take(making, kind, letter, content)?;
        rest = more;
    }
    Ok(draft)
}

//! Makes the values of lists, part by part.
ghost use Rattle.std.specs.Prelude.{◌≡◌, ◌==◌, ◌≤◌, ◌+◌, ◌*◌, Err, IfOk, IsTrue, IsUtf8, Ok, length, sum_by, take};
ghost use Rattle.std.specs.List.{slice_split};
ghost use Rattle.osm_entity.specs.Ascii.{comma};
ghost use Rattle.osm_entity.specs.declared.verdict.Cause.{Cause};
ghost use Rattle.osm_opl_line.specs.Contents.{HasNoEscape, all_in, parts_of};
ghost use Rattle.osm_opl_line.specs.Line.{longest_line};

use crate::contents::ContentError;
use crate::parting::cut_part;
use crate::parts::Part;
use memchr::memchr_iter;
use osm_entity::Sequence;
use std::alloc::Global;

/// The values of a list and what they weigh together, or the cause of the first bad part.
pub(crate) fn make_list<T: Part>(
    alloc: Global,
    content: &[u8],
) -> Result<(Sequence<T>, u64), ContentError>
    requires short { length content.now ≤ longest_line }
    requires utf8 { IsUtf8 content.now }
    ensures value { IfOk result (λ p. all_in T.says (parts_of content.now) ≡ Ok p.0) }
    ensures weight { IfOk result (λ p. p.1 ≡ sum_by T.weight p.0) }
    ensures small { IfOk result (λ p. p.1 ≤ 34 * longest_line) }
    ensures refused { (cause : Cause) → result ≡ Err (ContentError.Bad cause) →
        all_in T.says (parts_of content.now) ≡ Err cause }
{
    if content.is_empty() {
        return Ok((Sequence::new(alloc), 0));
    }
    let mut list = Sequence::with_room(alloc, count_parts(content))?;
    let mut total = 0;
    let mut rest = content;
    while let Some((part, more, is_plain)) = cut_part(rest) {
        let value = make_part::<T>(alloc, rest, part.len(), is_plain)?;
        total += value.weighs();
        list.push(value)?;
        rest = more;
    }
    let last = T::make(alloc, rest, rest.len())?;
    total += last.weighs();
    list.push(last)?;
    Ok((list, total))
}

// The value of the part that is the first `len` of these bytes. Where it is plain it has no `%`.
fn make_part<T: Part>(
    alloc: Global,
    bytes: &[u8],
    len: usize,
    is_plain: bool,
) -> Result<T, ContentError>
    requires within { len ≤ length bytes.now }
    requires utf8 { IsUtf8 (take len bytes.now) }
    requires plain { IsTrue is_plain → HasNoEscape (take len bytes.now) }
    ensures value { IfOk result (λ value. T.says (take len bytes.now) ≡ Ok value) }
    ensures light { IfOk result (λ value. T.weight value ≤ 32 + len) }
    ensures refused { (cause : Cause) → result ≡ Err (ContentError.Bad cause) →
        T.says (take len bytes.now) ≡ Err cause }
{
    if is_plain {
        T::make_plain(alloc, bytes, len)
    } else {
        T::make(alloc, bytes, len)
    }
}

// How many parts stand between commas.
fn count_parts(content: &[u8]) -> usize
    ensures { result ≡ length (slice_split (λ b. b == comma) content.now) }
{
    memchr_iter(b',', content).count() + 1
}

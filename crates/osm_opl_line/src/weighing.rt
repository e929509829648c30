//! Reads texts and lists by what they weigh, and makes them at the same time where that may be.
ghost use Rattle.std.specs.Prelude.{◌≡◌, ◌≤◌, ◌*◌, Err, IfErr, IfOk, IfSome, IsUtf8, Ok, length, sum_by};
ghost use Rattle.osm_entity.specs.declared.verdict.Cause.{Cause};
ghost use Rattle.osm_opl_line.specs.Contents.{all_in, parts_of, text_in};
ghost use Rattle.osm_opl_line.specs.Cut.{weighed};
ghost use Rattle.osm_opl_line.specs.Line.{longest_line};

use crate::contents::{ContentError, make_text, weigh_text};
use crate::listing::make_list;
use crate::parts::Part;
use osm_entity::{Cause, Sequence, Text};
use osm_text::first_part;
use std::alloc::Global;

/// The most bytes of a content that is made before the whole line is known to be good. So a bad line
/// takes at most some 6 MB, and no list of one that is too heavy is made past this.
const MOST_MADE: usize = 65_536;

/// What a content weighs, and its value where it was made.
#[derive(Drop)]
pub(crate) struct Weighed<T> {
    pub weight: u64,
    pub made: Option<T>,
}

/// What a text weighs, and the text where there is memory to make it in.
pub(crate) fn weigh_user(making: Option<Global>, content: &[u8]) -> Result<Weighed<Text>, Cause>
    requires short { length content.now ≤ longest_line }
    requires utf8 { IsUtf8 content.now }
    ensures weight { IfOk result (λ w. Ok w.weight ≡ weighed length (text_in content.now)) }
    ensures made { IfOk result (λ w. IfSome w.made (λ text. text_in content.now ≡ Ok text)) }
    ensures small { IfOk result (λ w. w.weight ≤ 34 * longest_line) }
    ensures refused { IfErr result (λ cause. Err cause ≡ weighed length (text_in content.now)) }
{
    match made_text(making, content) {
        Ok(text) => Ok(Weighed {
            weight: text.as_slice().len() as u64,
            made: Some(text),
        }),
        Err(ContentError::Bad(cause)) => Err(cause),
        Err(ContentError::Memory) => Ok(Weighed {
            weight: weigh_text(content)?,
            made: None,
        }),
    }
}

// A text, where it may be made.
fn made_text(making: Option<Global>, content: &[u8]) -> Result<Text, ContentError>
    requires { IsUtf8 content.now }
    ensures value { IfOk result (λ text. text_in content.now ≡ Ok text) }
    ensures shorter { IfOk result (λ text. length text ≤ length content.now) }
    ensures refused { (cause : Cause) →
        result ≡ Err (ContentError.Bad cause) → text_in content.now ≡ Err cause }
{
    match making {
        Some(alloc) if content.len() <= MOST_MADE => make_text(alloc, content, content.len()),
        _ => Err(ContentError::Memory),
    }
}

/// What the values of a list weigh together, and the list where there is memory to make it in.
pub(crate) fn weigh_values<T: Part>(
    making: Option<Global>,
    content: &[u8],
) -> Result<Weighed<Sequence<T>>, Cause>
    requires short { length content.now ≤ longest_line }
    requires utf8 { IsUtf8 content.now }
    ensures weight { IfOk result (λ w.
        Ok w.weight ≡ weighed (sum_by T.weight) (all_in T.says (parts_of content.now))) }
    ensures made { IfOk result (λ w.
        IfSome w.made (λ list. all_in T.says (parts_of content.now) ≡ Ok list)) }
    ensures small { IfOk result (λ w. w.weight ≤ 34 * longest_line) }
    ensures refused { IfErr result (λ cause.
        Err cause ≡ weighed (sum_by T.weight) (all_in T.says (parts_of content.now))) }
{
    match made_list(making, content) {
        Ok((list, weight)) => Ok(Weighed {
            weight,
            made: Some(list),
        }),
        Err(ContentError::Bad(cause)) => Err(cause),
        Err(ContentError::Memory) => Ok(Weighed {
            weight: weigh_list::<T>(content)?,
            made: None,
        }),
    }
}

// A list and what it weighs, where it may be made.
fn made_list<T: Part>(
    making: Option<Global>,
    content: &[u8],
) -> Result<(Sequence<T>, u64), ContentError>
    requires short { length content.now ≤ longest_line }
    requires utf8 { IsUtf8 content.now }
    ensures value { IfOk result (λ p. all_in T.says (parts_of content.now) ≡ Ok p.0) }
    ensures weight { IfOk result (λ p. p.1 ≡ sum_by T.weight p.0) }
    ensures small { IfOk result (λ p. p.1 ≤ 34 * longest_line) }
    ensures refused { (cause : Cause) → result ≡ Err (ContentError.Bad cause) →
        all_in T.says (parts_of content.now) ≡ Err cause }
{
    match making {
        Some(alloc) if content.len() <= MOST_MADE => make_list(alloc, content),
        _ => Err(ContentError::Memory),
    }
}

// What the values of a list weigh together, or the cause of the first bad part.
fn weigh_list<T: Part>(content: &[u8]) -> Result<u64, Cause>
    requires { length content.now ≤ longest_line }
    ensures value { result ≡ weighed (sum_by T.weight) (all_in T.says (parts_of content.now)) }
    ensures small { IfOk result (λ n. n ≤ 34 * longest_line) }
{
    if content.is_empty() {
        return Ok(0);
    }
    let mut total = 0;
    let mut rest = content;
    while let Some((part, more)) = first_part(rest, b',') {
        total += T::weigh(part)?;
        rest = more;
    }
    let last = T::weigh(rest)?;
    Ok(total + last)
}

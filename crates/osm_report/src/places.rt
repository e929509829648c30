//! Lines that say where a fault is, and then its words.
ghost use Rattle.std.specs.Prelude.{◌≡◌, ◌++◌, ◌∷◌, ◌≤◌, [], length, codes, decimal, true};
ghost use Rattle.osm_entity.specs.Ascii.{newline};
ghost use Rattle.osm_report.specs.Lines.{line_saying, same_file_text};
ghost use Rattle.osm_report.specs.Places.{at_number, at_part, at_spot, at_task, within_part};
ghost use Rattle.osm_report.specs.Printable.{are_words};

use crate::lines::{Draft, Line};
use osm_entity::Spot;

/// The line of words alone.
pub(crate) fn saying(words: &str) -> Line
    requires { are_words words.now ≡ true }
    ensures { result ≡ line_saying words.now }
{
    let mut draft = Draft::new();
    draft.push(words);
    draft.end()
}

/// The line of words at what is counted by a noun.
pub(crate) fn at_number(noun: &str, number: u32, words: &str) -> Line
    requires noun { are_words noun.now ≡ true }
    requires words { are_words words.now ≡ true }
    ensures { result ≡ line_saying (at_number noun.now number words.now) }
{
    let mut draft = Draft::new();
    draft.number(noun, u64::from(number));
    ended(draft, words)
}

/// The line of words at a task.
pub(crate) fn at_task(task: u32, words: &str) -> Line
    requires { are_words words.now ≡ true }
    ensures { result ≡ line_saying (at_task task words.now) }
{
    at_number("task ", task, words)
}

/// The line of a task whose file an earlier task has.
pub(crate) fn same_file(task: u32, earlier: u32) -> Line
    ensures { result ≡ line_saying (same_file_text task earlier) }
{
    let mut draft = Draft::new();
    draft.number("task ", u64::from(task));
    draft.number(": same file as task ", u64::from(earlier));
    draft.end()
}

/// The line of words at a part of a task.
pub(crate) fn at_part(task: u32, noun: &str, number: u64, words: &str) -> Line
    requires noun { are_words noun.now ≡ true }
    requires words { are_words words.now ≡ true }
    ensures { result ≡ line_saying (at_part task noun.now number words.now) }
{
    let mut draft = Draft::new();
    draft.number("task ", u64::from(task));
    draft.number(noun, number);
    ended(draft, words)
}

/// The line of words at a spot of the input of a task.
pub(crate) fn at_spot(task: u32, spot: Spot, words: &str) -> Line
    requires { are_words words.now ≡ true }
    ensures { result ≡ line_saying (at_spot task spot words.now) }
{
    match spot {
        Spot::Line(number) => at_part(task, " line ", number, words),
        Spot::Blob { number, byte } => within_part(task, " blob ", number, " byte ", byte, words),
        Spot::Item { port, number } => {
            within_part(task, " input ", u64::from(port), " item ", number, words)
        }
    }
}

// The line of words at a place within a part of a task.
fn within_part(task: u32, noun: &str, number: u64, inner: &str, place: u64, words: &str) -> Line
    requires noun { are_words noun.now ≡ true }
    requires inner { are_words inner.now ≡ true }
    requires words { are_words words.now ≡ true }
    ensures { result ≡ line_saying
        (within_part task noun.now number inner.now place words.now) }
{
    let mut draft = Draft::new();
    draft.number("task ", u64::from(task));
    draft.number(noun, number);
    draft.number(inner, place);
    ended(draft, words)
}

// The line of what is written, a colon and words.
fn ended(mut draft: Draft, words: &str) -> Line
    requires fits { length draft ≤ 200 }
    requires words { are_words words.now ≡ true }
    ensures { result ≡ draft ++ codes ": " ++ words.now ++ newline ∷ [] }
{
    draft.push(": ");
    draft.push(words);
    draft.end()
}

//! The line of a circle of pipes.
ghost use Rattle.std.specs.Prelude.{◌≡◌, ◌++◌, ◌*◌, ◌+◌, ◌<◌, ◌≤◌, codes, length};
ghost use Rattle.std.specs.List.{flat_map, join_by};
ghost use Rattle.osm_report.specs.Lines.{circle_text, line_saying, sense_text};

use crate::lines::{Draft, LINE_BYTES, Line};
use osm_circle::Sense;

/// The line of a circle of at most 128 senses.
pub(crate) fn circle_line(senses: &[Sense]) -> Line
    requires { length senses.now ≤ 128 }
    ensures { result ≡ line_saying (circle_text senses.now) }
{
    let mut draft = Draft::new();
    draft.push("buffering: ");
    push_senses(&mut draft, senses);
    draft.end()
}

// Appends senses, with a comma and a space between two.
fn push_senses(draft: &mut Draft, senses: &[Sense])
    requires { length draft.old + 35 * length senses.now < LINE_BYTES }
    ensures value { draft.new ≡ draft.old ++ join_by sense_text (codes ", ") senses.now }
    ensures short { length draft.new ≤ length draft.old + 35 * length senses.now }
{
    if let [first, rest @ ..] = senses {
        push_sense(draft, first);
        push_rest(draft, rest);
    }
}

// Appends senses, each after a comma and a space.
fn push_rest(draft: &mut Draft, senses: &[Sense])
    requires { length draft.old + 35 * length senses.now < LINE_BYTES }
    ensures value { draft.new ≡ draft.old
        ++ flat_map (λ sense. codes ", " ++ sense_text sense) senses.now }
    ensures short { length draft.new ≤ length draft.old + 35 * length senses.now }
{
    for sense in senses {
        draft.push(", ");
        push_sense(draft, sense);
    }
}

// Appends a pipe, and whether the circle goes along it.
fn push_sense(draft: &mut Draft, sense: &Sense)
    requires { length draft.old + 33 < LINE_BYTES }
    ensures value { draft.new ≡ draft.old ++ sense_text sense.now }
    ensures short { length draft.new ≤ length draft.old + 33 }
{
    draft.number("pipe ", u64::from(sense.pipe));
    draft.push(if sense.along { " along" } else { " against" });
}

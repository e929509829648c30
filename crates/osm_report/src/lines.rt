//! A line, and what is written of it so far, in a buffer of its own.
ghost use Rattle.std.specs.Prelude.{◌≡◌, ◌++◌, ◌∷◌, ◌+◌, ◌<◌, ◌≤◌, [], length, codes, decimal, true};
ghost use Rattle.std.specs.List.{list_all};
ghost use Rattle.osm_entity.specs.Ascii.{newline};
ghost use Rattle.osm_report.specs.Lines.{line_saying};
ghost use Rattle.osm_report.specs.Printable.{are_words, is_one_line, is_printable};

use arrayvec::ArrayString;
use itoa::Buffer;
use std::marker::Model;

/// How many bytes a line can have. The longest is that of a circle of 128 senses: 23 bytes, and at
/// most 35 for a sense, where a number has 20 digits.
pub(crate) const LINE_BYTES: usize = 4_503;

/// One line of printable ASCII, with its newline. Contracts see it as the list of its bytes. It
/// takes no memory.
#[derive(Debug, Drop)]
pub struct Line {
    text: ArrayString<LINE_BYTES>,
}

impl Model for Line {
    ghost use Rattle.std.specs.Prelude.{◌≡◌, List, ℕ, true};
    ghost use Rattle.osm_report.specs.Printable.{is_one_line};

    ghost Value = { List ℕ };

    ghost view = { λ l. l.text.bytes };

    ghost invariant = { λ l. is_one_line l.text.bytes ≡ true };
}

impl Line {
    /// Its bytes.
    pub fn as_slice(&self) -> &[u8]
        ensures value { result.now ≡ self.now }
        ensures one_line { is_one_line result.now ≡ true }
    {
        self.text.as_str().as_bytes()
    }
}

/// The first bytes of a line.
#[derive(Debug, Drop)]
pub(crate) struct Draft {
    text: ArrayString<LINE_BYTES>,
}

impl Model for Draft {
    ghost use Rattle.std.specs.Prelude.{◌≡◌, List, ℕ, true};
    ghost use Rattle.std.specs.List.{list_all};
    ghost use Rattle.osm_report.specs.Printable.{is_printable};

    ghost Value = { List ℕ };

    ghost view = { λ d. d.text.bytes };

    ghost invariant = { λ d. list_all is_printable d.text.bytes ≡ true };
}

impl Draft {
    /// What every line begins with.
    pub(crate) fn new() -> Self
        ensures { result ≡ codes "osm-tasks: " }
    {
        let mut text = ArrayString::new();
        text.push_str("osm-tasks: ");
        Draft { text }
    }

    /// Appends a text.
    pub(crate) fn push(&mut self, text: &str)
        requires fits { length self.old + length text.now ≤ LINE_BYTES }
        requires printable { list_all is_printable text.now ≡ true }
        ensures { self.new ≡ self.old ++ text.now }
    {
        self.text.push_str(text);
    }

    /// Appends the noun that says what is numbered, and the number.
    pub(crate) fn number(&mut self, noun: &str, number: u64)
        requires fits { length self.old + length noun.now + 20 ≤ LINE_BYTES }
        requires printable { list_all is_printable noun.now ≡ true }
        ensures value { self.new ≡ self.old ++ noun.now ++ decimal number }
        ensures short { length self.new ≤ length self.old + length noun.now + 20 }
    {
        self.push(noun);
        let mut buffer = Buffer::new();
        self.push(buffer.format(number));
    }

    /// The line of what is written.
    pub(crate) fn end(self) -> Line
        requires { length self < LINE_BYTES }
        ensures { result ≡ self ++ newline ∷ [] }
    {
        let Draft { mut text } = self;
        text.push_str("\n");
        Line { text }
    }
}

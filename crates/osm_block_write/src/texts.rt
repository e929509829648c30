//! The string table of a block: each text once, in the order of first use.
//!
//! A text is looked up by the bytes that its entity has, and is copied only where it is new. As the
//! same few texts come again and again, the last text of each mark is tried first.
ghost use Rattle.std.specs.Prelude.{◌≡◌, ◌<◌, ◌≤◌, ◌++◌, [], ◌∷◌, false, bytes_eq, length, map, take, IfOk, OnOk, OnErr, IsTrue};
ghost use Rattle.std.specs.List.{list_any};
ghost use Rattle.osm_block_write.specs.Tables.{text_number, with_text};

use indexmap::IndexSet;
use osm_entity::NoMemory;
use std::alloc::Global;
use std::marker::Model;

/// How many marks texts have.
const MARKS: usize = 512;

/// The texts of a block. Contracts see them as a list, in which a text's place is its number.
#[derive(Drop)]
pub(crate) struct Table {
    alloc: Global,
    texts: IndexSet<Vec<u8>>,
    /// For each mark the number of the text that last had it. Any other number does no harm.
    recent: [usize; MARKS],
}

impl Model for Table {
    ghost use Rattle.std.specs.Prelude.{List, ℕ, map};

    ghost Value = { List (List ℕ) };

    ghost view = { λ t. map (λ text. text.items) t.texts.keys };
}

impl Table {
    /// The table that holds the empty text alone.
    pub(crate) fn new(alloc: Global) -> Result<Table, NoMemory>
        ensures { IfOk result (λ table. table ≡ [] ∷ []) }
    {
        let mut table = Table {
            alloc,
            texts: IndexSet::new(alloc),
            recent: [0; MARKS],
        };
        table.number(b"")?;
        Ok(table)
    }

    /// Its texts, in their order.
    pub(crate) fn as_slice(&self) -> &[Vec<u8>]
        ensures { map (λ text. text.items) result.now ≡ self.now }
    {
        self.texts.as_slice()
    }

    /// How many texts it holds.
    pub(crate) fn len(&self) -> usize
        ensures { result ≡ length self.now }
    {
        self.texts.len()
    }

    /// The number of a text, which is put last where it is new. At `Err` the table is as it was.
    pub(crate) fn number(&mut self, text: &[u8]) -> Result<usize, NoMemory>
        ensures number { IfOk result (λ n. n ≡ text_number self.old text.now) }
        ensures within { IfOk result (λ n. n ≤ length self.old) }
        ensures ok { OnOk result (self.new ≡ with_text self.old text.now) }
        ensures err { OnErr result (self.new ≡ self.old) }
    {
        let mark = mark_of(text);
        if self.is_number(self.recent[mark], text) {
            return Ok(self.recent[mark]);
        }
        let number = self.find_or_push(text)?;
        self.recent[mark] = number;
        Ok(number)
    }

    // The same, by a search.
    fn find_or_push(&mut self, text: &[u8]) -> Result<usize, NoMemory>
        ensures number { IfOk result (λ n. n ≡ text_number self.old text.now) }
        ensures within { IfOk result (λ n. n ≤ length self.old) }
        ensures ok { OnOk result (self.new ≡ with_text self.old text.now) }
        ensures err { OnErr result (self.new ≡ self.old) }
    {
        match self.texts.get_index_of(text) {
            Some(number) => Ok(number),
            None => {
                let number = self.texts.len();
                self.push(text)?;
                Ok(number)
            }
        }
    }

    // Puts a new text last. At `Err` the table is as it was.
    fn push(&mut self, text: &[u8]) -> Result<(), NoMemory>
        requires { list_any (bytes_eq text.now) self.old ≡ false }
        ensures ok { OnOk result (self.new ≡ self.old ++ text.now ∷ []) }
        ensures err { OnErr result (self.new ≡ self.old) }
    {
        let Ok(copy) = Vec::from_slice(self.alloc, text) else {
            return Err(NoMemory);
        };
        let Ok(_) = self.texts.insert_full(copy) else {
            return Err(NoMemory);
        };
        Ok(())
    }

    /// The number of a text; how many texts there are where it isn't among them.
    pub(crate) fn number_of(&self, text: &[u8]) -> usize
        ensures { result ≡ text_number self.now text.now }
    {
        let recent = self.recent[mark_of(text)];
        if self.is_number(recent, text) {
            recent
        } else {
            self.find(text)
        }
    }

    // The same, by a search.
    fn find(&self, text: &[u8]) -> usize
        ensures { result ≡ text_number self.now text.now }
    {
        match self.texts.get_index_of(text) {
            Some(number) => number,
            None => self.texts.len(),
        }
    }

    // Whether a text is there at this number.
    fn is_number(&self, number: usize, text: &[u8]) -> bool
        ensures number { IsTrue result → number ≡ text_number self.now text.now }
        ensures within { IsTrue result → number ≤ length self.now }
        ensures known { IsTrue result → self.now ≡ with_text self.now text.now }
    {
        match self.texts.as_slice().get(number) {
            Some(held) => held.as_slice() == text,
            None => false,
        }
    }

    /// Keeps the first `count` texts.
    pub(crate) fn truncate(&mut self, count: usize)
        ensures { self.new ≡ take count self.old }
    {
        self.texts.truncate(count);
    }
}

// The mark of a text: by its length, and by its first, middle and last byte.
fn mark_of(text: &[u8]) -> usize
    ensures { result < 512 }
{
    let size = text.len();
    if size == 0 {
        return 0;
    }
    let first = usize::from(text[0]);
    let middle = usize::from(text[size / 2]);
    let last = usize::from(text[size - 1]);
    (first + 7 * middle + 31 * last + 61 * (size % MARKS)) % MARKS
}

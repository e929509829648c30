//! Texts and tags as they usually are: the texts of a block are looked at once, and then what is
//! wrong with most entities is known by their indexes alone.
ghost use Rattle.std.specs.Prelude.{◌≡◌};
ghost use Rattle.std.specs.List.{list_all};
ghost use Rattle.osm_block_read.specs.Seen.{body_seen};
ghost use Rattle.osm_block_read.specs.Usual.{are_usual, are_usual_tags, are_usual_texts, is_later_index, is_short_text};
ghost use Rattle.osm_block_read.specs.Usual.{is_small_body, is_usual_tag, is_usual_text};

use crate::entry::EntryTag;
use crate::entry_ref::BodyRef;
use crate::setting::{Setting, is_index_below};
use osm_entity::Text;

impl<'a> Setting<'a> {
    /// Whether no text is long, and only the first may be empty.
    pub(crate) fn is_usual(&self) -> bool
        ensures { result ≡ are_usual_texts self.now.texts }
    {
        match self.texts().split_first() {
            Some((first, more)) => is_short_text(first) && are_usual_texts(more),
            None => true,
        }
    }

    /// Whether the texts are usual, and so are these tags. Then their indexes are those of texts,
    /// and their keys aren't empty; and with a small body they aren't heavy.
    pub(crate) fn are_usual(&self, usual: bool, tags: &[EntryTag]) -> bool
        requires { usual ≡ are_usual_texts self.now.texts }
        ensures { result ≡ are_usual self.now.texts tags.now }
    {
        usual && are_usual_tags(self.count(), tags)
    }
}

// Whether it has at most 1,024 bytes.
fn is_short_text(text: &Text) -> bool
    ensures { result ≡ is_short_text text.now }
{
    text.as_slice().len() <= 1024
}

fn is_usual_text(text: &Text) -> bool
    ensures { result ≡ is_usual_text text.now }
{
    is_short_text(text) && !text.as_slice().is_empty()
}

fn are_usual_texts(texts: &[Text]) -> bool
    ensures { result ≡ list_all is_usual_text texts.now }
{
    texts.iter().all(|text| is_usual_text(text))
}

// Whether there are few tags, whose indexes are below this count, and those of keys not the first.
fn are_usual_tags(count: usize, tags: &[EntryTag]) -> bool
    ensures { result ≡ are_usual_tags count tags.now }
{
    tags.len() <= 500 && have_usual_indexes(count, tags)
}

// Whether the indexes of tags are so.
fn have_usual_indexes(count: usize, tags: &[EntryTag]) -> bool
    ensures { result ≡ list_all (is_usual_tag count) tags.now }
{
    tags.iter().all(|tag| is_later_index(count, tag.key) && is_index_below(count, tag.value))
}

// Whether an index is past the first and below a count.
#[inline(always)]
fn is_later_index(count: usize, index: i64) -> bool
    ensures { result ≡ is_later_index count index }
{
    index > 0 && (index as u64) < count as u64
}

/// Whether there are few refs or members.
pub(crate) fn is_small_body(body: BodyRef<'_>) -> bool
    ensures { result ≡ is_small_body (body_seen body.entry) }
{
    match body {
        BodyRef::At { .. } => true,
        BodyRef::Along(refs) => refs.len() <= 2000,
        BodyRef::Having(members) => members.len() <= 1000,
    }
}

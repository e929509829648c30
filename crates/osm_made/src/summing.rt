//! Sums up items: how many there are of each kind, what they have, and what they weigh
//! (docs/FORMATS.md, "Summaries").
ghost use Rattle.std.specs.Prelude.{◌≡◌, ◌++◌, ◌+◌, ◌∷◌, [], IfOk, List, OnErr, OnOk, min};
ghost use Rattle.osm_entity.specs.Items.{ItemValue};
ghost use Rattle.osm_made.specs.Summaries.{StandsForItems, capped, summary_line, summary_lines, summary_of};

use itoa::Buffer;
use osm_entity::{Body, Bytes, Entity, Item, NoMemory, weight};
use std::alloc::Global;
use std::marker::Model;

/// More than a summary's seven lines can take.
const TEXT_ROOM: usize = 256;

/// Counts items, as the task `write-summary` does (docs/COMMANDS.md). It is seen as its seven
/// numbers; each stops at the greatest of 64 bits.
#[derive(Debug, Drop)]
pub struct Summary {
    nodes: u64,
    ways: u64,
    relations: u64,
    tags: u64,
    refs: u64,
    members: u64,
    weight: u64,
}

impl Model for Summary {
    ghost use Rattle.osm_made.specs.Summaries.{Summed};

    ghost Value = { Summed };

    ghost view = { λ s. record {
      nodes = s.nodes;
      ways = s.ways;
      relations = s.relations;
      tags = s.tags;
      refs = s.refs;
      members = s.members;
      weight = s.weight;
    } };
}

impl Summary {
    /// The summary of no item. It takes no memory.
    pub fn new() -> Summary
        ensures { StandsForItems result [] }
    {
        Summary {
            nodes: 0,
            ways: 0,
            relations: 0,
            tags: 0,
            refs: 0,
            members: 0,
            weight: 0,
        }
    }

    /// Counts one item more. It takes no memory.
    pub fn add(&mut self, item: &Item)
        ensures { (items : List ItemValue) → StandsForItems self.old items →
            StandsForItems self.new (items ++ item.now ∷ []) }
    {
        let entity: &Entity = &item.entity;
        match &entity.body {
            Body::Node(_) => self.nodes = self.nodes.saturating_add(1),
            Body::Way(refs) => {
                self.ways = self.ways.saturating_add(1);
                self.refs = self.refs.saturating_add(refs.len() as u64);
            }
            Body::Relation(members) => {
                self.relations = self.relations.saturating_add(1);
                self.members = self.members.saturating_add(members.len() as u64);
            }
        }
        self.tags = self.tags.saturating_add(entity.tags.len() as u64);
        self.weight = self.weight.saturating_add(weight(entity));
    }

    /// Its seven lines.
    pub fn text(&self, alloc: Global) -> Result<Bytes, NoMemory>
        ensures lines { IfOk result (λ text. text ≡ summary_lines self.now) }
        ensures value { IfOk result (λ text. (items : List ItemValue) →
            StandsForItems self.now items → text ≡ summary_of items) }
    {
        let mut text = Bytes::with_room(alloc, TEXT_ROOM)?;
        append_line(&mut text, b"nodes", self.nodes)?;
        append_line(&mut text, b"ways", self.ways)?;
        append_line(&mut text, b"relations", self.relations)?;
        append_line(&mut text, b"tags", self.tags)?;
        append_line(&mut text, b"refs", self.refs)?;
        append_line(&mut text, b"members", self.members)?;
        append_line(&mut text, b"weight", self.weight)?;
        Ok(text)
    }
}

// Appends a line: a word, a space and a number.
fn append_line(text: &mut Bytes, word: &[u8], number: u64) -> Result<(), NoMemory>
    ensures { OnOk result (text.new ≡ text.old ++ summary_line word.now number) }
{
    text.append(word)?;
    text.append(b" ")?;
    text.append(Buffer::new().format(number).as_bytes())?;
    text.append(b"\n")
}

//! The plan of a block: its texts and its numbers, each of which was checked.
ghost use Rattle.std.specs.Prelude.{◌≡◌, [], Ok, OnOk, IfErr, OnErr, drop, MatchOption, slice_get, Some};
ghost use Rattle.osm_block_read.specs.Block.{block_said};
ghost use Rattle.osm_block_read.specs.Faults.{entries_fault};
ghost use Rattle.osm_block_read.specs.Planned.{IsChecked, IsRefused};
ghost use Rattle.osm_block_read.specs.Rows.{AreRowsIn, entries_of};

use crate::content::Content;
use crate::error::BlockError;
use crate::piece::Piece;
use crate::row::Rows;
use crate::setting::Setting;
use crate::table::make_texts;
use osm_entity::{Cause, Text};
use std::alloc::Global;
use std::marker::Model;

/// A block that was checked: its texts, its numbers, and how many of its entities were passed.
/// Contracts see the items that are still to come.
#[derive(Debug, Drop)]
pub struct Plan {
    content: Content,
    texts: Vec<Text>,
    at: usize,
}

impl Model for Plan {
    ghost use Rattle.std.specs.Prelude.{List};
    ghost use Rattle.osm_entity.specs.Items.{ItemValue};
    ghost use Rattle.osm_block_read.specs.Planned.{IsPlan, plan_seen};

    ghost Value = { List ItemValue };

    ghost view = { plan_seen };

    ghost invariant = { IsPlan };
}

/// Checks a block whole, and puts its plan in the place of the one before. `Bad` with the first
/// thing that is wrong:
///
/// 1. `BadWire`: a message isn't well formed, or lacks a field that it needs.
/// 2. `BadText`: a text of the string table isn't UTF-8.
/// 3. `BadLengths`: the lists of dense nodes don't have the lengths that they should.
/// 4. Of the entities in order, each by: `BadLengths`, `BadIndex`, `BadField` (an empty key),
///    `BadCoordinate`, `BadTime`, `Deleted`, `TooHeavy`.
///
/// After an error nothing is planned.
pub fn check_block(plan: &mut Plan, raw: &[u8]) -> Result<(), BlockError>
    ensures items { OnOk result (block_said raw.now ≡ Ok plan.new) }
    ensures bad { IfErr result (IsRefused (block_said raw.now)) }
    ensures none { OnErr result (plan.new ≡ []) }
{
    plan.at = 0;
    match plan.content.check(&mut plan.texts, raw) {
        Ok(()) => Ok(()),
        Err(error) => {
            plan.content.rows.clear();
            Err(error)
        }
    }
}

impl Plan {
    /// No block.
    pub fn new(alloc: Global) -> Plan
        ensures { result ≡ [] }
    {
        Plan {
            content: Content::new(alloc),
            texts: Vec::new(alloc),
            at: 0,
        }
    }

    /// The next entity, which stays the next. `None` exactly where all were passed.
    #[inline(always)]
    pub fn peek(&self) -> Option<Piece<'_>>
        ensures { MatchOption result (self.now ≡ [])
            (λ piece. slice_get self.now 0 ≡ Some piece) }
    {
        if self.at >= self.content.rows.rows.len() {
            return None;
        }
        let content = &self.content;
        let setting = Setting::new(self.texts.as_slice(), content.scale);
        Some(Piece::new(setting, content.rows.entry(self.at)))
    }

    /// Passes the next entity, if there is one.
    pub fn pass(&mut self)
        ensures { self.new ≡ drop 1 self.old }
    {
        if self.at < self.content.rows.rows.len() {
            self.at += 1;
        }
    }
}

impl Content {
    // Reads a block, makes its texts, and checks it.
    fn check(&mut self, texts: &mut Vec<Text>, raw: &[u8]) -> Result<(), BlockError>
        ensures ok { OnOk result (IsChecked raw.now texts.new.items self.new) }
        ensures bad { IfErr result (IsRefused (block_said raw.now)) }
    {
        self.read(raw)?;
        make_texts(texts, raw, self.texts.as_slice())?;
        if self.uneven {
            return Err(BlockError::Bad(Cause::BadLengths));
        }
        let setting = Setting::new(texts.as_slice(), self.scale);
        match find_fault(&self.rows, &setting) {
            Some(cause) => Err(BlockError::Bad(cause)),
            None => Ok(()),
        }
    }
}

// The first thing that is wrong with the entities of rows.
fn find_fault(rows: &Rows, setting: &Setting<'_>) -> Option<Cause>
    requires { AreRowsIn rows.now }
    ensures { result ≡ entries_fault setting.now (entries_of rows.now) }
{
    let usual = setting.is_usual();
    for at in 0..rows.rows.len() {
        if let Some(cause) = setting.fault(usual, &rows.entry(at)) {
            return Some(cause);
        }
    }
    None
}

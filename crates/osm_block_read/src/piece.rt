//! An entity of a block as it is handed out.
ghost use Rattle.std.specs.Prelude.{◌≡◌, IfOk};

use crate::entry_ref::EntryRef;
use crate::making::{counted32, counted64, make_body, make_tags, make_text};
use crate::setting::Setting;
use osm_entity::{Act, Entity, Item, NoMemory};
use std::alloc::Global;
use std::marker::Model;

/// An entity of a block that was checked. Contracts see it as its item.
#[derive(Debug, Drop)]
pub struct Piece<'a> {
    setting: Setting<'a>,
    entry: EntryRef<'a>,
}

impl<'a> Model for Piece<'a> {
    ghost use Rattle.osm_entity.specs.Items.{ItemValue};
    ghost use Rattle.osm_block_read.specs.Pieces.{IsPiece, piece_item};

    ghost Value = { ItemValue };

    ghost view = { piece_item };

    ghost invariant = { IsPiece };
}

impl<'a> Piece<'a> {
    ghost use Rattle.std.specs.Prelude.{None};
    ghost use Rattle.osm_block_read.specs.Entries.{entry_item};
    ghost use Rattle.osm_block_read.specs.Faults.{entry_fault};
    ghost use Rattle.osm_block_read.specs.Seen.{entry_seen};

    // The piece of an entity with which nothing is wrong.
    pub(crate) fn new(setting: Setting<'a>, entry: EntryRef<'a>) -> Piece<'a>
        requires { entry_fault setting (entry_seen entry) ≡ None }
        ensures { result ≡ entry_item setting.entry (entry_seen entry.entry) }
    {
        Piece { setting, entry }
    }

    /// Its item. `NoMemory` where that has no room.
    pub fn item(&self, alloc: Global) -> Result<Item, NoMemory>
        ensures { IfOk result (λ item. item ≡ self.now) }
    {
        let setting = &self.setting;
        let info = self.entry.info;
        let Some(time) = setting.seconds(info.timestamp) else {
            unreachable!();
        };
        let user = make_text(alloc, setting, info.user)?;
        let tags = make_tags(alloc, setting, self.entry.tags)?;
        let body = make_body(alloc, setting, self.entry.body)?;
        let entity = Entity {
            id: self.entry.id,
            version: counted32(info.version),
            time,
            changeset: counted64(info.changeset),
            uid: counted32(info.uid),
            user,
            tags,
            body,
        };
        Item::new(alloc, Act::Keep, entity)
    }
}

//! Reads a block into numbers ("PrimitiveBlock", "PrimitiveGroup" and "StringTable" of the PBF
//! format).
ghost use Rattle.std.specs.Prelude.{◌≡◌, [], None, OnOk, IfErr};
ghost use Rattle.osm_wire.specs.Entries.{messages, singular};
ghost use Rattle.osm_block_read.specs.Block.{all_entries, block, dense_in, dense_part, group, group_entries};
ghost use Rattle.osm_block_read.specs.Content.{AreMessagesAdded, IsPartRead, IsBlockRead};
ghost use Rattle.osm_block_read.specs.Content.{entry_said, number_of, scale_said};
ghost use Rattle.osm_block_read.specs.Rows.{AreRowsIn, IsSaidAdded, entries_of};
ghost use Rattle.osm_block_read.specs.Told.{BadWireWhere};

use crate::codes::Codes;
use crate::dense_codes::DenseCodes;
use crate::error::{BAD_WIRE, BlockError};
use crate::message::Message;
use crate::row::Rows;
use crate::setting::Scale;
use crate::span::Span;
use crate::table::{read_table, single_span};
use osm_entity::Kind;
use osm_wire::{int32, int64};
use std::alloc::Global;

/// What a block says, as numbers. Its lists are kept from block to block.
#[derive(Debug, Drop)]
pub(crate) struct Content {
    /// Where its texts lie.
    pub texts: Vec<Span>,
    pub scale: Scale,
    pub rows: Rows,
    /// The lengths of some dense nodes don't fit.
    pub uneven: bool,
    codes: Codes,
    dense: DenseCodes,
    // The tags of dense nodes.
    spans: Vec<Span>,
}

impl Content {
    /// No block.
    pub(crate) fn new(alloc: Global) -> Content
        ensures within { AreRowsIn result.rows }
        ensures entries { entries_of result.rows ≡ [] }
    {
        Content {
            texts: Vec::new(alloc),
            scale: Scale {
                granularity: 100,
                date_granularity: 1000,
                lat_offset: 0,
                lon_offset: 0,
            },
            rows: Rows::new(alloc),
            uneven: false,
            codes: Codes::new(alloc),
            dense: DenseCodes::new(alloc),
            spans: Vec::new(alloc),
        }
    }

    /// Reads a block, in the place of the one before.
    pub(crate) fn read(&mut self, raw: &[u8]) -> Result<(), BlockError>
        ensures ok { OnOk result (IsBlockRead raw.now self.new) }
        ensures bad { IfErr result (BadWireWhere (block raw.now ≡ None)) }
    {
        self.rows.clear();
        self.uneven = false;
        let fields = Message::new(raw).ok_or(BAD_WIRE)?;
        let table = single_span(raw, 1).ok_or(BAD_WIRE)?;
        read_table(&mut self.texts, raw, table)?;
        self.read_groups(&fields)?;
        self.scale = read_scale(&fields).ok_or(BAD_WIRE)?;
        Ok(())
    }

    // Adds the entities of all groups of a block.
    fn read_groups(&mut self, fields: &Message<'_>) -> Result<(), BlockError>
        requires { AreRowsIn self.old.rows }
        ensures ok { OnOk result
            (IsPartRead self.old self.new (messages group 2 fields.now) all_entries) }
        ensures bad { IfErr result (BadWireWhere (messages group 2 fields.now ≡ None)) }
    {
        let mut groups = fields.entries(2);
        while let Some(message) = groups.next().ok_or(BAD_WIRE)? {
            self.read_group(message)?;
        }
        Ok(())
    }

    // Adds the entities of a group.
    fn read_group(&mut self, message: &[u8]) -> Result<(), BlockError>
        requires { AreRowsIn self.old.rows }
        ensures ok { OnOk result (IsPartRead self.old self.new (group message.now) group_entries) }
        ensures bad { IfErr result (BadWireWhere (group message.now ≡ None)) }
    {
        let fields = Message::new(message).ok_or(BAD_WIRE)?;
        self.read_entries(Kind::Node, &fields)?;
        self.read_dense(&fields)?;
        self.read_entries(Kind::Way, &fields)?;
        self.read_entries(Kind::Relation, &fields)
    }

    // Adds the entities of a group that have a message of their own, and are of this kind.
    fn read_entries(&mut self, kind: Kind, group: &Message<'_>) -> Result<(), BlockError>
        requires { AreRowsIn self.old.rows }
        ensures ok { OnOk result (IsPartRead self.old self.new
            (messages (entry_said kind) (number_of kind) group.now) Some) }
        ensures bad { IfErr result (BadWireWhere
            (messages (entry_said kind) (number_of kind) group.now ≡ None)) }
    {
        self.rows.read_entries(&mut self.codes, kind, group)
    }

    // Adds the dense nodes of a group.
    fn read_dense(&mut self, fields: &Message<'_>) -> Result<(), BlockError>
        requires { AreRowsIn self.old.rows }
        ensures ok { OnOk result
            (IsPartRead self.old self.new (singular None dense_part 2 fields.now) dense_in) }
        ensures bad { IfErr result (BadWireWhere (singular None dense_part 2 fields.now ≡ None)) }
    {
        let Some(message) = fields.single(2).ok_or(BAD_WIRE)? else {
            return Ok(());
        };
        self.dense.read(message)?;
        let fits = self.rows.add_dense(&mut self.spans, &self.dense)?;
        if fits {
            return Ok(());
        }
        self.uneven = true;
        Ok(())
    }
}

impl Rows {
    // Adds the entities of a group that have a message of their own, and are of this kind.
    fn read_entries(
        &mut self,
        codes: &mut Codes,
        kind: Kind,
        group: &Message<'_>,
    ) -> Result<(), BlockError>
        requires { AreRowsIn self.old }
        ensures ok { OnOk result (AreMessagesAdded self.old self.new
            (messages (entry_said kind) (number_of kind) group.now)) }
        ensures bad { IfErr result (BadWireWhere
            (messages (entry_said kind) (number_of kind) group.now ≡ None)) }
    {
        let mut entries = group.entries(number_of(kind));
        while let Some(message) = entries.next().ok_or(BAD_WIRE)? {
            self.read_entry(codes, kind, message)?;
        }
        Ok(())
    }

    fn read_entry(
        &mut self,
        codes: &mut Codes,
        kind: Kind,
        message: &[u8],
    ) -> Result<(), BlockError>
        requires { AreRowsIn self.old }
        ensures ok { OnOk result (IsSaidAdded self.old self.new (entry_said kind message.now)) }
        ensures bad { IfErr result (BadWireWhere (entry_said kind message.now ≡ None)) }
    {
        match kind {
            Kind::Node => self.read_node(codes, message),
            Kind::Way => self.read_way(codes, message),
            Kind::Relation => self.read_relation(codes, message),
        }
    }
}

// The number of the field of a group that has the entities of a kind.
fn number_of(kind: Kind) -> u32
    ensures { result ≡ number_of kind }
{
    match kind {
        Kind::Node => 1,
        Kind::Way => 3,
        Kind::Relation => 4,
    }
}

fn read_scale(fields: &Message<'_>) -> Option<Scale>
    ensures { result ≡ scale_said fields.now }
{
    let granularity = fields.scalar(100, 17)?;
    let date_granularity = fields.scalar(1000, 18)?;
    let lat_offset = fields.scalar(0, 19)?;
    let lon_offset = fields.scalar(0, 20)?;
    Some(Scale {
        granularity: int32(granularity),
        date_granularity: int32(date_granularity),
        lat_offset: int64(lat_offset),
        lon_offset: int64(lon_offset),
    })
}

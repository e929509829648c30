//! Reads nodes, ways and relations that each have a message of their own ("Node", "Way", "Relation"
//! and "Info" of the PBF format).
ghost use Rattle.std.specs.Prelude.{◌≡◌, ◌==◌, ◌&&◌, length, Some, OnOk, IfErr};
ghost use Rattle.std.specs.Option.{option_map};
ghost use Rattle.osm_wire.specs.Entries.{said_or, singular};
ghost use Rattle.osm_block_read.specs.Plain.{entry_with, info, no_info, node_entry, relation_entry, way_entry};
ghost use Rattle.osm_block_read.specs.Rows.{AreRowsIn, IsBodyIn, IsSaidAdded, body_in};
ghost use Rattle.osm_block_read.specs.Told.{BadWireWhere};
ghost use Rattle.osm_block_read.specs.WayCodes.{entry_tagged};

use crate::codes::{Codes, read_codes};
use crate::entry::EntryInfo;
use crate::error::{BAD_WIRE, BlockError};
use crate::info_codes::InfoCodes;
use crate::message::Message;
use crate::row::{Row, RowBody, Rows};
use osm_wire::{Fields, int64, unzigzag};
use std::alloc::AllocError;

impl Rows {
    /// Adds the node of a message.
    pub(crate) fn read_node(&mut self, codes: &mut Codes, message: &[u8]) -> Result<(), BlockError>
        requires { AreRowsIn self.old }
        ensures ok { OnOk result (IsSaidAdded self.old self.new (node_entry message.now)) }
        ensures bad { IfErr result (BadWireWhere (node_entry message.now ≡ None)) }
    {
        let fields = Message::new(message).ok_or(BAD_WIRE)?;
        let id = fields.needed(1).ok_or(BAD_WIRE)?;
        let lat = fields.needed(8).ok_or(BAD_WIRE)?;
        let lon = fields.needed(9).ok_or(BAD_WIRE)?;
        let body = RowBody::At {
            lat: unzigzag(lat),
            lon: unzigzag(lon),
        };
        self.add_with(codes, unzigzag(id), body, true, &fields)
    }

    /// Adds the way of a message.
    pub(crate) fn read_way(&mut self, codes: &mut Codes, message: &[u8]) -> Result<(), BlockError>
        requires { AreRowsIn self.old }
        ensures ok { OnOk result (IsSaidAdded self.old self.new (way_entry message.now)) }
        ensures bad { IfErr result (BadWireWhere (way_entry message.now ≡ None)) }
    {
        let way = codes.read_way(message)?;
        let info = info_of(way.described).ok_or(BAD_WIRE)?;
        let refs = self.lists.add_refs(codes.ids.as_slice())?;
        let id = int64(way.id);
        self.add_tagged(codes, id, RowBody::Along(refs), true, info)?;
        Ok(())
    }

    /// Adds the relation of a message.
    pub(crate) fn read_relation(
        &mut self,
        codes: &mut Codes,
        message: &[u8],
    ) -> Result<(), BlockError>
        requires { AreRowsIn self.old }
        ensures ok { OnOk result (IsSaidAdded self.old self.new (relation_entry message.now)) }
        ensures bad { IfErr result (BadWireWhere (relation_entry message.now ≡ None)) }
    {
        let fields = Message::new(message).ok_or(BAD_WIRE)?;
        let id = fields.needed(1).ok_or(BAD_WIRE)?;
        read_codes(&mut codes.roles, &fields, 8)?;
        read_codes(&mut codes.ids, &fields, 9)?;
        read_codes(&mut codes.kinds, &fields, 10)?;
        let even = are_even(
            codes.kinds.as_slice(),
            codes.ids.as_slice(),
            codes.roles.as_slice(),
        );
        let members = self.lists.add_members(
            codes.kinds.as_slice(),
            codes.ids.as_slice(),
            codes.roles.as_slice(),
        )?;
        self.add_with(codes, int64(id), RowBody::Having(members), even, &fields)
    }

    // Adds an entity with the tags and the metadata that its message says.
    fn add_with(
        &mut self,
        codes: &mut Codes,
        id: i64,
        body: RowBody,
        even: bool,
        fields: &Message<'_>,
    ) -> Result<(), BlockError>
        requires rows { AreRowsIn self.old }
        requires body { IsBodyIn self.old.lists body }
        ensures ok { OnOk result (IsSaidAdded self.old self.new
            (entry_with id (body_in self.old.lists body) even fields.now)) }
        ensures bad { IfErr result (BadWireWhere
            (entry_with id (body_in self.old.lists body) even fields.now ≡ None)) }
    {
        read_codes(&mut codes.keys, fields, 2)?;
        read_codes(&mut codes.values, fields, 3)?;
        let info = info_in(fields).ok_or(BAD_WIRE)?;
        self.add_tagged(codes, id, body, even, info)?;
        Ok(())
    }

    // Adds an entity with the tags of the keys and values that were read.
    fn add_tagged(
        &mut self,
        codes: &Codes,
        id: i64,
        body: RowBody,
        even: bool,
        info: EntryInfo,
    ) -> Result<(), AllocError>
        requires rows { AreRowsIn self.old }
        requires body { IsBodyIn self.old.lists body }
        ensures { OnOk result (IsSaidAdded self.old self.new (Some (entry_tagged id
            (body_in self.old.lists body) even codes.now.keys.items codes.now.values.items info))) }
    {
        let keys = codes.keys.as_slice();
        let values = codes.values.as_slice();
        let even = is_even(even, keys, values);
        let tags = self.lists.add_tags(keys, values)?;
        self.rows.push(Row {
            even,
            id,
            info,
            tags,
            body,
        })?;
        Ok(())
    }
}

// Whether lists are even so far, and there are as many values as keys.
fn is_even(even: bool, keys: &[u64], values: &[u64]) -> bool
    ensures { result ≡ (even && (length keys.now == length values.now)) }
{
    even && keys.len() == values.len()
}

// Whether there are as many kinds and roles as ids.
fn are_even(kinds: &[u64], ids: &[u64], roles: &[u64]) -> bool
    ensures { result
        ≡ ((length kinds.now == length ids.now) && (length roles.now == length ids.now)) }
{
    kinds.len() == ids.len() && roles.len() == ids.len()
}

// The metadata of an entity.
fn info_in(fields: &Message<'_>) -> Option<EntryInfo>
    ensures { result ≡ singular no_info info 4 fields.now }
{
    info_of(fields.single(4)?)
}

// The metadata of an entity that has this message of it, or none.
fn info_of(message: Option<&[u8]>) -> Option<EntryInfo>
    ensures { result ≡ said_or no_info info (option_map (λ s. s.now) message.entry) }
{
    match message {
        Some(message) => read_info(message),
        None => Some(EntryInfo {
            version: -1,
            timestamp: 0,
            changeset: 0,
            uid: 0,
            user: 0,
            visible: true,
        }),
    }
}

fn read_info(message: &[u8]) -> Option<EntryInfo>
    ensures { result ≡ info message.now }
{
    let mut codes = InfoCodes::new();
    let mut fields = Fields::new(message);
    while let Some(next) = fields.next() {
        match next {
            Ok(field) => codes = codes.after(&field)?,
            Err(_) => return None,
        }
    }
    Some(codes.info())
}

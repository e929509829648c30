//! Dense nodes as lists of codes, one for each kind of number ("DenseNodes" and "DenseInfo" of the
//! PBF format). The lists are kept from message to message.
ghost use Rattle.std.specs.Prelude.{◌≡◌, ◌<◌, ◌+◌, length, map, negsuc, true, Some, None, OnOk, IfErr, slice_index_or};
ghost use Rattle.osm_wire.specs.Integers.{int32, truth};
ghost use Rattle.osm_block_read.specs.Dense.{dense, dense_info, dense_info_at, is_full};
ghost use Rattle.osm_block_read.specs.DenseCodes.{AreSums, are_codes_even, dense_info_of, dense_of};
ghost use Rattle.osm_block_read.specs.Told.{BadWireWhere};

use crate::codes::{next_sum, next_sum32, read_codes};
use crate::entry::EntryInfo;
use crate::error::{BAD_WIRE, BlockError};
use crate::message::Message;
use osm_wire::int32;
use std::alloc::Global;

/// The codes of dense nodes.
#[derive(Debug, Drop)]
pub(crate) struct DenseCodes {
    pub ids: Vec<u64>,
    pub versions: Vec<u64>,
    pub timestamps: Vec<u64>,
    pub changesets: Vec<u64>,
    pub uids: Vec<u64>,
    pub users: Vec<u64>,
    pub visibles: Vec<u64>,
    pub lats: Vec<u64>,
    pub lons: Vec<u64>,
    /// The indexes of the tags of all nodes.
    pub keys_vals: Vec<u64>,
}

/// The sums of the codes up to a node.
#[derive(Clone, Copy, Debug)]
pub(crate) struct DenseSums {
    pub id: i64,
    pub timestamp: i64,
    pub changeset: i64,
    pub uid: i32,
    pub user: i32,
    pub lat: i64,
    pub lon: i64,
}

impl DenseCodes {
    /// No nodes.
    pub(crate) fn new(alloc: Global) -> DenseCodes {
        DenseCodes {
            ids: Vec::new(alloc),
            versions: Vec::new(alloc),
            timestamps: Vec::new(alloc),
            changesets: Vec::new(alloc),
            uids: Vec::new(alloc),
            users: Vec::new(alloc),
            visibles: Vec::new(alloc),
            lats: Vec::new(alloc),
            lons: Vec::new(alloc),
            keys_vals: Vec::new(alloc),
        }
    }

    /// Reads the lists of a message.
    pub(crate) fn read(&mut self, message: &[u8]) -> Result<(), BlockError>
        ensures ok { OnOk result (dense message.now ≡ Some (dense_of self.new)) }
        ensures bad { IfErr result (BadWireWhere (dense message.now ≡ None)) }
    {
        let fields = Message::new(message).ok_or(BAD_WIRE)?;
        read_codes(&mut self.ids, &fields, 1)?;
        let info = fields.single(5).ok_or(BAD_WIRE)?;
        self.read_info(info.unwrap_or(&[]))?;
        read_codes(&mut self.lats, &fields, 8)?;
        read_codes(&mut self.lons, &fields, 9)?;
        read_codes(&mut self.keys_vals, &fields, 10)
    }

    // Reads the lists of the metadata.
    fn read_info(&mut self, message: &[u8]) -> Result<(), BlockError>
        ensures ok { OnOk result (dense_info message.now ≡ Some (dense_info_of self.new)) }
        ensures bad { IfErr result (BadWireWhere (dense_info message.now ≡ None)) }
        ensures ids { self.new.ids ≡ self.old.ids }
    {
        let fields = Message::new(message).ok_or(BAD_WIRE)?;
        read_codes(&mut self.versions, &fields, 1)?;
        read_codes(&mut self.timestamps, &fields, 2)?;
        read_codes(&mut self.changesets, &fields, 3)?;
        read_codes(&mut self.uids, &fields, 4)?;
        read_codes(&mut self.users, &fields, 5)?;
        read_codes(&mut self.visibles, &fields, 6)
    }

    /// Whether the lists have the lengths that they should.
    pub(crate) fn are_even(&self) -> bool
        ensures { result ≡ are_codes_even self.now }
    {
        let count = self.ids.len();
        self.lats.len() == count
            && self.lons.len() == count
            && is_full(&self.versions, count)
            && is_full(&self.timestamps, count)
            && is_full(&self.changesets, count)
            && is_full(&self.uids, count)
            && is_full(&self.users, count)
            && is_full(&self.visibles, count)
    }

    /// The metadata of the node at a place, by the sums up to it.
    #[inline(always)]
    pub(crate) fn info_at(&self, sums: &DenseSums, at: usize) -> EntryInfo
        requires even { are_codes_even self.now ≡ true }
        requires at { at < length self.now.ids.items }
        requires sums { AreSums self.now (at + 1) sums.now }
        ensures { result ≡ dense_info_at (dense_info_of self.now) at }
    {
        EntryInfo {
            version: version_at(&self.versions, at),
            timestamp: sums.timestamp,
            changeset: sums.changeset,
            uid: sums.uid,
            user: sums.user as i64,
            visible: visible_at(&self.visibles, at),
        }
    }
}

// The version at a place, and -1 past the end.
#[inline(always)]
fn version_at(codes: &Vec<u64>, at: usize) -> i32
    ensures { result ≡ slice_index_or (map int32 codes.now.items) at (negsuc 0) }
{
    match codes.get(at) {
        Some(code) => int32(*code),
        None => -1,
    }
}

// Whether the node at a place is visible, which it is past the end.
#[inline(always)]
fn visible_at(codes: &Vec<u64>, at: usize) -> bool
    ensures { result ≡ slice_index_or (map truth codes.now.items) at true }
{
    match codes.get(at) {
        Some(code) => *code != 0,
        None => true,
    }
}

// Whether a list is empty, or has this length.
fn is_full(codes: &Vec<u64>, count: usize) -> bool
    ensures { result ≡ is_full count codes.now.items }
{
    codes.is_empty() || codes.len() == count
}

impl DenseSums {
    /// The sums before the first node.
    pub(crate) fn new() -> DenseSums
        ensures { (c : DenseCodes) → AreSums c 0 result }
    {
        DenseSums {
            id: 0,
            timestamp: 0,
            changeset: 0,
            uid: 0,
            user: 0,
            lat: 0,
            lon: 0,
        }
    }

    /// Adds the codes of the node at a place.
    #[inline(always)]
    pub(crate) fn add(&mut self, codes: &DenseCodes, at: usize)
        requires { AreSums codes.now at self.old }
        ensures { AreSums codes.now (at + 1) self.new }
    {
        self.id = next_sum(self.id, codes.ids.as_slice(), at);
        self.timestamp = next_sum(self.timestamp, codes.timestamps.as_slice(), at);
        self.changeset = next_sum(self.changeset, codes.changesets.as_slice(), at);
        self.uid = next_sum32(self.uid, codes.uids.as_slice(), at);
        self.user = next_sum32(self.user, codes.users.as_slice(), at);
        self.lat = next_sum(self.lat, codes.lats.as_slice(), at);
        self.lon = next_sum(self.lon, codes.lons.as_slice(), at);
    }
}

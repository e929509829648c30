//! The header block: the features that a reader needs.
//!
//! Field 4 of a HeaderBlock names a required feature (OSM PBF format, "OSMHeader fileblock").
ghost use Rattle.std.specs.Prelude.{◌≡◌, ◌++◌, IfOk, OnOk};
ghost use Rattle.osm_wire.specs.Written.{written_message};
ghost use Rattle.osm_block_write.specs.Block.{dense_feature, header_bytes};

use crate::options::PbfOptions;
use osm_entity::{Bytes, NoMemory};
use osm_wire::put_bytes;
use std::alloc::Global;

/// The header block of a file. It asks readers for the schema `OsmSchema-V0.6`, and for
/// `DenseNodes` where nodes are written densely.
pub fn header(alloc: Global, options: &PbfOptions) -> Result<Bytes, NoMemory>
    ensures { IfOk result (λ block. block ≡ header_bytes options.now) }
{
    let mut block = Bytes::new(alloc);
    put_bytes(&mut block, 4, b"OsmSchema-V0.6")?;
    put_dense(&mut block, options)?;
    Ok(block)
}

// Appends the feature of dense nodes, where they are used.
fn put_dense(block: &mut Bytes, options: &PbfOptions) -> Result<(), NoMemory>
    ensures ok { OnOk result (block.new ≡ block.old
        ++ written_message (dense_feature options.now)) }
{
    if !options.usedense {
        return Ok(());
    }
    put_bytes(block, 4, b"DenseNodes")
}

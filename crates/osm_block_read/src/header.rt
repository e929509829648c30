//! Header blocks: what a file requires of its reader.
//!
//! Of their fields the bounding box and the required features are known; all others are skipped
//! ("HeaderBlock" of the PBF format).
ghost use Rattle.std.specs.Prelude.{◌≡◌, true};
ghost use Rattle.std.specs.Option.{option_map};
ghost use Rattle.std.specs.Result.{result_err};
ghost use Rattle.std.specs.Str.{is_utf8};
ghost use Rattle.osm_wire.specs.Entries.{all_bytes};
ghost use Rattle.osm_block_read.specs.Header.{header_fault, is_known_feature};
ghost use Rattle.osm_block_read.specs.HeaderTests.{tests_of};

use crate::message::Message;
use osm_entity::Cause;
use simdutf8::basic::from_utf8;

/// Checks a header block. `BadWire` where it isn't well formed, else `BadText` where a required
/// feature isn't UTF-8, else `BadFeature` where one isn't known: known are `OsmSchema-V0.6` and
/// `DenseNodes`.
pub fn read_header(raw: &[u8]) -> Result<(), Cause>
    ensures { result_err result ≡ header_fault raw.now }
{
    let Some(message) = Message::new(raw) else {
        return Err(Cause::BadWire);
    };
    if message.single(1).is_none() {
        return Err(Cause::BadWire);
    }
    let Some((are_texts, are_known)) = test_features(&message) else {
        return Err(Cause::BadWire);
    };
    if !are_texts {
        Err(Cause::BadText)
    } else if !are_known {
        Err(Cause::BadFeature)
    } else {
        Ok(())
    }
}

// Whether all required features are UTF-8, and whether all are known. `None` where one isn't bytes.
fn test_features(message: &Message<'_>) -> Option<(bool, bool)>
    ensures { result ≡ option_map (tests_of true true) (all_bytes 4 message.now) }
{
    let mut are_texts = true;
    let mut are_known = true;
    let mut features = message.entries(4);
    while let Some(feature) = features.next()? {
        are_texts = are_texts && is_text(feature);
        are_known = are_known && is_known_feature(feature);
    }
    Some((are_texts, are_known))
}

/// Whether bytes are UTF-8.
pub(crate) fn is_text(bytes: &[u8]) -> bool
    ensures { result ≡ is_utf8 bytes.now }
{
    match from_utf8(bytes) {
        Ok(_) => true,
        Err(_) => false,
    }
}

fn is_known_feature(feature: &[u8]) -> bool
    ensures { result ≡ is_known_feature feature.now }
{
    feature == b"OsmSchema-V0.6".as_slice() || feature == b"DenseNodes".as_slice()
}

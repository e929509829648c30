//! What holds for a whole block: its texts, and how its places and times are coded.
ghost use Rattle.std.specs.Prelude.{◌≡◌, ◌<◌, ◌≤ℤ◌, [], pos, true, false, length, nat_abs, nat_le, IfNone, IfSome, MatchOption};
ghost use Rattle.osm_entity.specs.Entities.{place_fits};
ghost use Rattle.osm_block_read.specs.Entries.{degrees_at, seconds_at, text_at};
ghost use Rattle.osm_block_read.specs.Faults.{is_index_below, last_second};
ghost use Rattle.osm_block_read.specs.Seen.{place_at, setting_of};

use osm_entity::{Place, Text};
use std::marker::Model;

/// How the places and times of a block are coded.
#[derive(Clone, Copy, Debug)]
pub(crate) struct Scale {
    /// Nanodegrees.
    pub granularity: i32,
    /// Milliseconds.
    pub date_granularity: i32,
    /// Nanodegrees.
    pub lat_offset: i64,
    /// Nanodegrees.
    pub lon_offset: i64,
}

/// The texts of a block, and its scale.
#[derive(Debug, Drop)]
pub(crate) struct Setting<'a> {
    texts: &'a [Text],
    scale: Scale,
}

impl<'a> Model for Setting<'a> {
    ghost use Rattle.osm_block_read.specs.Entries.{SettingValue};
    ghost use Rattle.osm_block_read.specs.Seen.{setting_of};

    ghost Value = { SettingValue };

    ghost view = { λ s. setting_of s.texts.now s.scale };
}

impl<'a> Setting<'a> {
    /// The setting of a block with these texts.
    pub(crate) fn new(texts: &'a [Text], scale: Scale) -> Setting<'a>
        ensures { result ≡ setting_of texts.now scale }
    {
        Setting { texts, scale }
    }

    /// Its texts.
    pub(crate) fn texts(&self) -> &'a [Text]
        ensures { result.now ≡ self.now.texts }
    {
        self.texts
    }

    /// How many texts it has.
    pub(crate) fn count(&self) -> usize
        ensures { result ≡ length self.now.texts }
    {
        self.texts.len()
    }

    /// Whether an index is that of a text.
    pub(crate) fn has_text(&self, index: i64) -> bool
        ensures { result ≡ is_index_below (length self.now.texts) index }
    {
        is_index_below(self.texts.len(), index)
    }

    /// The text of an index. `None` past the last.
    #[inline(always)]
    pub(crate) fn find_text(&self, index: i64) -> Option<&'a Text>
        ensures { MatchOption result (text_at self.now.texts index ≡ [])
            (λ text. text.now ≡ text_at self.now.texts index) }
    {
        let at = if index < 0 { 0 } else { index as usize };
        self.texts.get(at)
    }

    /// The text of an index, which is known to be that of one.
    #[inline(always)]
    pub(crate) fn known_text(&self, index: i64) -> &'a Text
        requires { is_index_below (length self.now.texts) index ≡ true }
        ensures { result.now ≡ text_at self.now.texts index }
    {
        match self.texts.get(index as usize) {
            Some(text) => text,
            None => unreachable!(),
        }
    }

    /// The bytes of the text of an index. There are none past the last.
    #[inline(always)]
    pub(crate) fn text(&self, index: i64) -> &'a [u8]
        ensures { result.now ≡ text_at self.now.texts index }
    {
        match self.find_text(index) {
            Some(text) => text.as_slice(),
            None => &[],
        }
    }

    /// The place of a coded latitude and longitude. `None` where it is past 180 or 90 degrees.
    pub(crate) fn place(&self, lat: i64, lon: i64) -> Option<Place>
        ensures some { IfSome result (λ p. p ≡ place_at self.now lat lon) }
        ensures fits { IfSome result (λ p. place_fits p ≡ true) }
        ensures none { IfNone result (place_fits (place_at self.now lat lon) ≡ false) }
    {
        let scale = self.scale;
        let lon = narrow(
            degrees(scale.lon_offset, scale.granularity, lon),
            180_000_000_000,
        )?;
        let lat = narrow(
            degrees(scale.lat_offset, scale.granularity, lat),
            90_000_000_000,
        )?;
        Some(Place { lon, lat })
    }

    /// The seconds of a coded time, and 0 where it is negative. `None` where 32 bits don't hold
    /// them.
    pub(crate) fn seconds(&self, timestamp: i64) -> Option<u32>
        ensures some { IfSome result (λ t. t ≡ seconds_at self.now.date_granularity timestamp) }
        ensures none { IfNone result
            (last_second < seconds_at self.now.date_granularity timestamp) }
    {
        seconds(timestamp, self.scale.date_granularity)
    }
}

/// Whether an index isn't negative and is below a count.
#[inline(always)]
pub(crate) fn is_index_below(count: usize, index: i64) -> bool
    ensures { result ≡ is_index_below count index }
{
    index >= 0 && (index as u64) < count as u64
}

// The same number, where its size is at most this.
#[inline(always)]
fn narrow(degrees: i128, most: i64) -> Option<i64>
    requires { pos 0 ≤ℤ most }
    ensures some { IfSome result (λ d. d ≡ degrees) }
    ensures fits { IfSome result (λ d. nat_le (nat_abs d) (nat_abs most) ≡ true) }
    ensures none { IfNone result (nat_le (nat_abs degrees) (nat_abs most) ≡ false) }
{
    let most = most as i128;
    if -most <= degrees && degrees <= most {
        Some(degrees as i64)
    } else {
        None
    }
}

// Nanodegrees, computed exactly.
#[inline(always)]
fn degrees(offset: i64, granularity: i32, value: i64) -> i128
    ensures { result ≡ degrees_at offset granularity value }
{
    offset as i128 + granularity as i128 * value as i128
}

// Seconds of a time in units of some milliseconds.
#[inline(always)]
fn seconds(timestamp: i64, date_granularity: i32) -> Option<u32>
    ensures some { IfSome result (λ t. t ≡ seconds_at date_granularity timestamp) }
    ensures none { IfNone result (last_second < seconds_at date_granularity timestamp) }
{
    let milliseconds = timestamp as i128 * date_granularity as i128;
    if milliseconds < 0 {
        return Some(0);
    }
    if milliseconds >= 4_294_967_296_000 {
        return None;
    }
    Some((milliseconds as u64 / 1000) as u32)
}

//! What holds of the reading of any bytes as a file, in any format.
ghost use Rattle.std.specs.Prelude.{◌≤◌, ◌++◌, ℕ, List, Bool, length, false};
ghost use Rattle.osm_entity.specs.Readings.{stream_read};
ghost use Rattle.osm_entity.specs.Streams.{IsBefore};
ghost use Rattle.osm_machine.specs.ReadingFormats.{Format, limited_reading};

/// What is read of the first bytes of a source, before its end is known, comes first in what is
/// read of more of them, at either end.
pub fn longer_readings_go_on()
    ensures { (format : Format) (limit : ℕ) (bytes more : List ℕ) (came : Bool) → IsBefore
        (stream_read (limited_reading format limit bytes false))
        (stream_read (limited_reading format limit (bytes ++ more) came)) }
{}

/// A file says no more items than it has bytes, and no more than are read of it.
pub fn files_have_few_items()
    ensures bytes { (format : Format) (limit : ℕ) (bytes : List ℕ) (came : Bool) →
        length (limited_reading format limit bytes came).items ≤ length bytes }
    ensures limit { (format : Format) (limit : ℕ) (bytes : List ℕ) (came : Bool) →
        length (limited_reading format limit bytes came).items ≤ limit }
{}

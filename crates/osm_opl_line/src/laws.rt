//! Laws over what files say.
ghost use Rattle.std.specs.Prelude.{◌≡◌, ◌<◌, ◌++◌, ◌∷◌, [], ℕ, List, Bool, All, false, length, true};
ghost use Rattle.osm_entity.specs.Ascii.{newline};
ghost use Rattle.osm_entity.specs.Readings.{Bad, Whole, stream_read};
ghost use Rattle.osm_entity.specs.Streams.{IsBefore, Stream};
ghost use Rattle.osm_entity.specs.declared.kind.Flow.{Flow};
ghost use Rattle.osm_entity.specs.declared.verdict.Cause.{Cause};
ghost use Rattle.osm_entity.specs.declared.verdict.Cause.TheVariants.{LineTooLong};
ghost use Rattle.osm_entity.specs.declared.verdict.Spot.{Spot};
ghost use Rattle.osm_opl_line.specs.Line.{Bad as BadLine, longest_line, opl_line};
ghost use Rattle.osm_opl_line.specs.Reading.{opl_reading};
ghost use Rattle.osm_entity.specs.Writable.{IsWritable};
ghost use Rattle.osm_opl_line.specs.Writing.{opl_text};

use osm_text::{escaped_reads_back, nano_reads_back, time_reads_back, whole_reads_back};

/// For every stream of this flow whose items keep what items keep, the file of the stream reads
/// back as its items.
pub fn files_read_back()
    ensures { (flow : Flow) (s : Stream) → All (IsWritable flow) s.items
        → opl_reading flow (opl_text s) true ≡ record { items = s.items; ending = Whole } }
{
    whole_reads_back();
    nano_reads_back();
    time_reads_back();
    escaped_reads_back();
}

/// A line that is too long is bad for its length, whatever it says.
pub fn long_lines_are_bad()
    ensures { (flow : Flow) (line : List ℕ) → longest_line < length line →
        opl_line flow line ≡ BadLine LineTooLong }
{}

/// What comes after a bad line changes nothing: where a file that was cut off has a bad line, the
/// reading stays as it is with any more bytes, at either end. The same holds at a clean end after
/// a newline. An unfinished line that is bad only since the end came cleanly may be mended by more
/// bytes, as `n1 x0` is by ` y0`; one that is too long stays bad.
pub fn bad_lines_settle()
    ensures cut { (flow : Flow) (bytes more : List ℕ) (clean : Bool) (cause : Cause) (spot : Spot) →
        (opl_reading flow bytes false).ending ≡ Bad cause spot →
        opl_reading flow (bytes ++ more) clean ≡ opl_reading flow bytes false }
    ensures ended { (flow : Flow) (bytes more : List ℕ)
        (clean : Bool) (cause : Cause) (spot : Spot) →
        (opl_reading flow (bytes ++ newline ∷ []) true).ending ≡ Bad cause spot →
        opl_reading flow ((bytes ++ newline ∷ []) ++ more) clean
        ≡ opl_reading flow (bytes ++ newline ∷ []) true }
{}

/// What was read of the first bytes of a file, before its end is known, comes first in what is read
/// of all of it, at either end.
pub fn prefixes_come_before()
    ensures { (flow : Flow) (bytes more : List ℕ) (clean : Bool) → IsBefore
        (stream_read (opl_reading flow bytes false))
        (stream_read (opl_reading flow (bytes ++ more) clean)) }
{}

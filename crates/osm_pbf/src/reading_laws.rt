//! What holds of the reading of any bytes as a raw PBF file, and what a reader's standing for bytes
//! and items says of them.
ghost use Rattle.std.specs.Prelude.{◌≡◌, ◌≢◌, ◌++◌, ℕ, List, Bool, false};
ghost use Rattle.osm_entity.specs.Items.{ItemValue};
ghost use Rattle.osm_entity.specs.Prefixes.{IsPrefix};
ghost use Rattle.osm_entity.specs.Readings.{Bad, stream_read};
ghost use Rattle.osm_entity.specs.Streams.{IsBefore};
ghost use Rattle.osm_entity.specs.declared.stream.End.TheVariants.{Broken};
ghost use Rattle.osm_entity.specs.declared.verdict.Cause.{Cause};
ghost use Rattle.osm_entity.specs.declared.verdict.Spot.{Spot};
ghost use Rattle.osm_entity.specs.declared.verdict.Verdict.TheVariants.{Clean, Input, Read, Running, TooLong as PastLimit};
ghost use Rattle.osm_host.specs.declared.feed.Feed.TheVariants.{Ended, Failed, TooLong};
ghost use Rattle.osm_pbf.specs.Reader.{PbfReaderValue, WantsPbf};
ghost use Rattle.osm_pbf.specs.Reading.{pbf_reading};
ghost use Rattle.osm_pbf.specs.Standing.{IsOverPbf, StandsForPbf, pbf_reader_reading};

/// What was read of the first bytes of a file, before its end is known, comes first in what is read
/// of all of it, at either end.
pub fn pbf_prefixes_come_before()
    ensures { (bytes more : List ℕ) (clean : Bool) → IsBefore
        (stream_read (pbf_reading bytes false))
        (stream_read (pbf_reading (bytes ++ more) clean)) }
{}

/// What comes after a bad frame changes nothing: where a file that was cut off has a bad frame, the
/// reading stays as it is with any more bytes, at either end. A file that is too short, or has no
/// header yet, is bad only since the end came cleanly, and may be mended by more bytes.
pub fn bad_frames_settle()
    ensures { (bytes more : List ℕ) (clean : Bool) (cause : Cause) (spot : Spot) →
        (pbf_reading bytes false).ending ≡ Bad cause spot →
        pbf_reading (bytes ++ more) clean ≡ pbf_reading bytes false }
{}

/// The items that a reader gave are a prefix of its file's, by the bytes that came up to its
/// limit. They are all of them where it wants a pull, and where it has a verdict, which is then
/// that of the file.
pub fn pbf_readers_give_the_items_of_their_files()
    ensures first { (r : PbfReaderValue) (bytes : List ℕ) (came : Bool) (items : List ItemValue) →
        StandsForPbf r bytes came items → IsPrefix items (pbf_reader_reading r bytes came).items }
    ensures wants { (r : PbfReaderValue) (bytes : List ℕ) (came : Bool) (items : List ItemValue) →
        StandsForPbf r bytes came items → WantsPbf r →
        (pbf_reader_reading r bytes came).items ≡ items }
    ensures over { (r : PbfReaderValue) (bytes : List ℕ) (came : Bool) (items : List ItemValue) →
        StandsForPbf r bytes came items → r.verdict ≢ Running → IsOverPbf r bytes came items }
{}

/// What a reader gave comes first in the reading of its file, also by more bytes than it read,
/// where its source didn't end. After its first bad frame more bytes change nothing.
pub fn pbf_readers_come_before_their_files()
    ensures now { (r : PbfReaderValue) (bytes : List ℕ) (came : Bool) (items : List ItemValue) →
        StandsForPbf r bytes came items → IsBefore (record { items = items; end = Broken })
        (stream_read (pbf_reader_reading r bytes came)) }
    ensures later { (r : PbfReaderValue) (bytes more : List ℕ) (items : List ItemValue)
        (clean : Bool) → StandsForPbf r bytes false items →
        IsBefore (record { items = items; end = Broken })
        (stream_read (pbf_reader_reading r (bytes ++ more) clean)) }
    ensures bad { (r : PbfReaderValue) (bytes more : List ℕ) (items : List ItemValue)
        (clean : Bool) (cause : Cause) (spot : Spot) → StandsForPbf r bytes false items →
        r.verdict ≡ Input cause spot →
        pbf_reader_reading r (bytes ++ more) clean ≡ pbf_reader_reading r bytes false }
{}

/// A reader is clean only where the end of its source came. It says that its source failed, or gave
/// too much, only where a pull did so.
pub fn pbf_readers_blame_their_sources_rightly()
    ensures clean { (r : PbfReaderValue) (bytes : List ℕ) (came : Bool) (items : List ItemValue) →
        StandsForPbf r bytes came items → r.verdict ≡ Clean → r.feed ≡ Ended }
    ensures read { (r : PbfReaderValue) (bytes : List ℕ) (came : Bool) (items : List ItemValue) →
        StandsForPbf r bytes came items → r.verdict ≡ Read → r.feed ≡ Failed }
    ensures too_long { (r : PbfReaderValue) (bytes : List ℕ)
        (came : Bool) (items : List ItemValue) →
        StandsForPbf r bytes came items → r.verdict ≡ PastLimit → r.feed ≡ TooLong }
{}

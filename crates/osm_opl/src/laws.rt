//! What a reader's standing for bytes and items says of them, and what a sink took by a writer.
ghost use Rattle.std.specs.Prelude.{◌≡◌, ◌≢◌, ◌++◌, [], ℕ, List, Bool, Option, false};
ghost use Rattle.std.specs.Io.KnownBytes.{append_known};
ghost use Rattle.osm_entity.specs.Items.{ItemValue};
ghost use Rattle.osm_entity.specs.Prefixes.{IsPrefix};
ghost use Rattle.osm_entity.specs.Readings.{stream_read};
ghost use Rattle.osm_entity.specs.Streams.{IsBefore, Stream};
ghost use Rattle.osm_entity.specs.declared.stream.End.TheVariants.{Broken};
ghost use Rattle.osm_entity.specs.declared.verdict.Cause.{Cause};
ghost use Rattle.osm_entity.specs.declared.verdict.Spot.{Spot};
ghost use Rattle.osm_entity.specs.declared.verdict.Verdict.TheVariants.{Clean, Input, Read, Running, TooLong as PastLimit};
ghost use Rattle.osm_host.specs.declared.feed.Feed.TheVariants.{Ended, Failed, TooLong};
ghost use Rattle.osm_opl_line.specs.Writing.{opl_text};
ghost use Rattle.osm_opl.specs.Reader.{ReaderValue, WantsPull};
ghost use Rattle.osm_opl.specs.Standing.{IsOver, Stands, reader_reading};
ghost use Rattle.osm_opl.specs.Written.{TookItems, TookSome};

/// The items that a reader gave are a prefix of its file's, by the bytes that came up to its
/// limit. They are all of them where it wants a pull, and where it has a verdict, which is then
/// that of the file.
pub fn readers_give_the_items_of_their_files()
    ensures first { (r : ReaderValue) (bytes : List ℕ) (came : Bool) (items : List ItemValue) →
        Stands r bytes came items → IsPrefix items (reader_reading r bytes came).items }
    ensures wants { (r : ReaderValue) (bytes : List ℕ) (came : Bool) (items : List ItemValue) →
        Stands r bytes came items → WantsPull r → (reader_reading r bytes came).items ≡ items }
    ensures over { (r : ReaderValue) (bytes : List ℕ) (came : Bool) (items : List ItemValue) →
        Stands r bytes came items → r.verdict ≢ Running → IsOver r bytes came items }
{}

/// What a reader gave comes first in the reading of its file, also by more bytes than it read,
/// where its source didn't end. After its first bad line more bytes change nothing.
pub fn readers_come_before_their_files()
    ensures now { (r : ReaderValue) (bytes : List ℕ) (came : Bool) (items : List ItemValue) →
        Stands r bytes came items → IsBefore (record { items = items; end = Broken })
        (stream_read (reader_reading r bytes came)) }
    ensures later { (r : ReaderValue) (bytes more : List ℕ) (items : List ItemValue)
        (clean : Bool) → Stands r bytes false items → IsBefore (record { items = items; end = Broken })
        (stream_read (reader_reading r (bytes ++ more) clean)) }
    ensures bad { (r : ReaderValue) (bytes more : List ℕ) (items : List ItemValue) (clean : Bool)
        (cause : Cause) (spot : Spot) → Stands r bytes false items → r.verdict ≡ Input cause spot →
        reader_reading r (bytes ++ more) clean ≡ reader_reading r bytes false }
{}

/// A reader is clean only where the end of its source came. It says that its source failed, or gave
/// too much, only where a pull did so.
pub fn readers_blame_their_sources_rightly()
    ensures clean { (r : ReaderValue) (bytes : List ℕ) (came : Bool) (items : List ItemValue) →
        Stands r bytes came items → r.verdict ≡ Clean → r.feed ≡ Ended }
    ensures read { (r : ReaderValue) (bytes : List ℕ) (came : Bool) (items : List ItemValue) →
        Stands r bytes came items → r.verdict ≡ Read → r.feed ≡ Failed }
    ensures too_long { (r : ReaderValue) (bytes : List ℕ) (came : Bool) (items : List ItemValue) →
        Stands r bytes came items → r.verdict ≡ PastLimit → r.feed ≡ TooLong }
{}

/// At first a sink took the lines of no items. Those of a stream's items are the stream's file,
/// and a prefix of those of some items is one of those of more.
pub fn writers_put_files()
    ensures none { (first : Option (List ℕ)) → TookItems first first [] }
    ensures file { (first now : Option (List ℕ)) (s : Stream) → TookItems first now s.items →
        now ≡ append_known first (opl_text s) }
    ensures some { (first now : Option (List ℕ)) (items more : List ItemValue) →
        TookItems first now items → TookSome first now (items ++ more) }
    ensures more { (first now : Option (List ℕ)) (items more : List ItemValue) →
        TookSome first now items → TookSome first now (items ++ more) }
{}

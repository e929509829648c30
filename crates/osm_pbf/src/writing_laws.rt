//! What holds of written PBF files, and of what a sink took of them.
ghost use Rattle.std.specs.Prelude.{◌≡◌, ◌++◌, [], ℕ, All, List, Option, false, map, true};
ghost use Rattle.osm_entity.specs.Items.{ItemValue};
ghost use Rattle.osm_entity.specs.Prefixes.{IsPrefix};
ghost use Rattle.osm_entity.specs.Readings.{Whole};
ghost use Rattle.osm_entity.specs.Streams.{Stream};
ghost use Rattle.osm_entity.specs.Writable.{IsWritable};
ghost use Rattle.osm_entity.specs.declared.kind.Flow.TheVariants.{Entities};
ghost use Rattle.osm_entity.specs.declared.stream.End.{End};
ghost use Rattle.osm_entity.specs.declared.stream.End.TheVariants.{Broken, Done};
ghost use Rattle.osm_block_write.specs.Runs.{open_run};
ghost use Rattle.osm_block_write.specs.declared.options.PbfOptions.{PbfOptions};
ghost use Rattle.osm_pbf.specs.ReadBack.{IsBodyWhole, item_back, items_back};
ghost use Rattle.osm_pbf.specs.Reading.{pbf_reading};
ghost use Rattle.osm_pbf.specs.WrittenFile.{TookFile, TookPrefix, header_frame, pbf_text, run_frames, runs_of_items};

/// The file of no items that broke off is the frame of its header. The file of a stream that broke
/// off begins that of every stream that goes on, and lacks the open run alone of the one that is
/// done. So what a sink took of some items is a prefix of what it takes with more.
pub fn pbf_files_grow()
    ensures header { (options : PbfOptions) →
        pbf_text options (record { items = []; end = Broken }) ≡ header_frame options }
    ensures before { (options : PbfOptions) (items more : List ItemValue) (end : End) →
        IsPrefix (pbf_text options (record { items = items; end = Broken }))
        (pbf_text options (record { items = items ++ more; end = end })) }
    ensures done { (options : PbfOptions) (items : List ItemValue) →
        pbf_text options (record { items = items; end = Done })
        ≡ pbf_text options (record { items = items; end = Broken })
        ++ run_frames options (open_run (runs_of_items options items).opened) }
    ensures some { (options : PbfOptions) (first now : Option (List ℕ))
        (items more : List ItemValue) (end : End) →
        TookFile options first now (record { items = items; end = Broken }) →
        TookPrefix options first now (record { items = items ++ more; end = end }) }
    ensures more { (options : PbfOptions) (first now : Option (List ℕ))
        (items more : List ItemValue) (end : End) →
        TookPrefix options first now (record { items = items; end = Broken }) →
        TookPrefix options first now (record { items = items ++ more; end = end }) }
{}

/// The file of an entity stream reads back as its items, whole: each place is cut toward zero to a
/// multiple of the granularity, and metadata comes back where it wasn't left out. Where the stream
/// broke off, the items of its last run are missing. Where all places are multiples and metadata
/// isn't left out, the very items come back.
pub fn pbf_files_read_back()
    ensures items { (options : PbfOptions) (s : Stream) → All (IsWritable Entities) s.items →
        pbf_reading (pbf_text options s) true
        ≡ record { items = items_back options s; ending = Whole } }
    ensures done { (options : PbfOptions) (items : List ItemValue) →
        All (IsWritable Entities) items →
        items_back options (record { items = items; end = Done })
        ≡ map (λ i. item_back options i.entity) items }
    ensures same { (options : PbfOptions) (item : ItemValue) → IsWritable Entities item →
        options.omitmetadata ≡ false → IsBodyWhole options item.entity.body →
        item_back options item.entity ≡ item }
{}

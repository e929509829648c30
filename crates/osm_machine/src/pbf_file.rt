//! A PBF file that is written from its first item on: its header comes with what is put first.
ghost use Rattle.std.specs.Prelude.{◌≡◌, ◌++◌, ◌∷◌, [], ℕ, List, Option, IfOk, OnErr, OnOk, true};
ghost use Rattle.std.specs.Io.KnownBytes.{append_known};
ghost use Rattle.osm_entity.specs.Growth.{broken_after};
ghost use Rattle.osm_entity.specs.Items.{ItemValue};
ghost use Rattle.osm_host.specs.Counts.{CountsRefusal};
ghost use Rattle.osm_host.specs.Puts.{TakesPrefix};
ghost use Rattle.osm_pbf.specs.WrittenFile.{TookFile, TookPrefix};
ghost use Rattle.osm_machine.specs.Writers.{PbfWrote};

use osm_block_write::PbfOptions;
use osm_entity::{End, Item, NoMemory};
use osm_host::{HostError, Sink};
use osm_pbf::PbfWriter;
use std::alloc::Global;

/// A PBF file, and whether its header was put.
#[derive(Drop)]
pub struct PbfFile {
    writer: PbfWriter,
    begun: bool,
}

impl PbfFile {
    /// A file of which nothing was put.
    pub fn new(alloc: Global, options: PbfOptions) -> Result<PbfFile, NoMemory>
        ensures options { IfOk result (λ file. file.writer.options ≡ options) }
        ensures wrote { IfOk result (λ file. (first : Option (List ℕ)) →
            PbfWrote file.begun file.writer first first []) }
    {
        Ok(PbfFile {
            writer: PbfWriter::new(alloc, options)?,
            begun: false,
        })
    }

    // Puts the header, where it wasn't put yet.
    fn begin<K: Sink>(&mut self, sink: &mut K) -> Result<(), HostError>
        ensures wrote { OnOk result ((first : Option (List ℕ)) (items : List ItemValue) →
            PbfWrote self.old.begun self.old.writer first (K.taken sink.old) items →
            PbfWrote true self.new.writer first (K.taken sink.new) items) }
        ensures begun { OnOk result (self.new.begun ≡ true) }
        ensures some { OnErr result ((first : Option (List ℕ)) (items : List ItemValue) →
            PbfWrote self.old.begun self.old.writer first (K.taken sink.old) items →
            TookPrefix self.old.writer.options first (K.taken sink.new) (broken_after items)) }
        ensures options { self.new.writer.options ≡ self.old.writer.options }
        ensures name { K.name sink.new ≡ K.name sink.old }
        ensures faults { CountsRefusal result (K.faults sink.old) (K.faults sink.new) }
    {
        if !self.begun {
            self.writer.begin(sink)?;
            self.begun = true;
        }
        Ok(())
    }

    /// Puts what an item brings. After an error the sink took a prefix of what it takes by `Ok`.
    pub fn put<K: Sink>(&mut self, sink: &mut K, item: &Item) -> Result<(), HostError>
        ensures wrote { OnOk result ((first : Option (List ℕ)) (items : List ItemValue) →
            PbfWrote self.old.begun self.old.writer first (K.taken sink.old) items →
            PbfWrote self.new.begun self.new.writer first (K.taken sink.new)
            (items ++ item.now ∷ [])) }
        ensures some { OnErr result ((first : Option (List ℕ)) (items : List ItemValue) →
            PbfWrote self.old.begun self.old.writer first (K.taken sink.old) items →
            TookPrefix self.old.writer.options first (K.taken sink.new)
            (broken_after (items ++ item.now ∷ []))) }
        ensures options { self.new.writer.options ≡ self.old.writer.options }
        ensures name { K.name sink.new ≡ K.name sink.old }
        ensures faults { CountsRefusal result (K.faults sink.old) (K.faults sink.new) }
    {
        self.begin(sink)?;
        self.writer.put(sink, item)
    }

    /// Ends the file. After an error the sink took a prefix of it.
    pub fn end<K: Sink>(&mut self, sink: &mut K, end: End) -> Result<(), HostError>
        ensures file { OnOk result ((first : Option (List ℕ)) (items : List ItemValue) →
            PbfWrote self.old.begun self.old.writer first (K.taken sink.old) items →
            TookFile self.old.writer.options first (K.taken sink.new)
            (record { items = items; end = end })) }
        ensures some { OnErr result ((first : Option (List ℕ)) (items : List ItemValue) →
            PbfWrote self.old.begun self.old.writer first (K.taken sink.old) items →
            TookPrefix self.old.writer.options first (K.taken sink.new)
            (record { items = items; end = end })) }
        ensures options { self.new.writer.options ≡ self.old.writer.options }
        ensures name { K.name sink.new ≡ K.name sink.old }
        ensures faults { CountsRefusal result (K.faults sink.old) (K.faults sink.new) }
    {
        self.begin(sink)?;
        self.writer.end(sink, end)
    }
}

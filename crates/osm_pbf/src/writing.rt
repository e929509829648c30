//! Puts items into a sink as a raw PBF file, each run of their entities as one frame.
//!
//! The file is the frame of the header block, and then a frame for each run (OSM PBF format, "File
//! format").
ghost use Rattle.std.specs.Prelude.{◌≡◌, ◌≢◌, [], ◌∷◌, ◌++◌, ℕ, List, true, false, Ok, IfOk, OnOk, OnErr, IsOk, Option};
ghost use Rattle.std.specs.Io.KnownBytes.{append_known};
ghost use Rattle.osm_entity.specs.Entities.{EntityValue};
ghost use Rattle.osm_entity.specs.Items.{ItemValue};
ghost use Rattle.osm_entity.specs.declared.stream.End.TheVariants.{Broken};
ghost use Rattle.osm_host.specs.Counts.{CountsRefusal};
ghost use Rattle.osm_host.specs.Puts.{TakesPrefix};
ghost use Rattle.osm_block_write.specs.Making.{Holds};
ghost use Rattle.osm_block_write.specs.Runs.{open_run, takes};
ghost use Rattle.osm_pbf.specs.Writer.{HoldsOpen, Wrote};
ghost use Rattle.osm_pbf.specs.WrittenFile.{TookFile, TookPrefix, header_frame, run_frames};

use osm_blob::{What, frame};
use osm_block_write::{AddError, BlockMaker, PbfOptions, header};
use osm_entity::{End, Item, Kind, NoMemory};
use osm_host::{HostError, Sink};
use std::alloc::Global;
use std::marker::Model;

/// Writes the PBF file of an entity stream: `begin` once, then `put` for each item, then `end` once.
/// It keeps of the entities of the open run what their block needs, and is seen as its options and
/// the maker of that block. After an error it isn't called again.
#[derive(Drop)]
pub struct PbfWriter {
    alloc: Global,
    options: PbfOptions,
    /// The kind of the open run.
    kind: Kind,
    /// Whether the open run has entities.
    opened: bool,
    maker: BlockMaker,
}

impl Model for PbfWriter {
    ghost use Rattle.osm_pbf.specs.Writer.{WriterValue};

    ghost Value = { WriterValue };

    ghost use Rattle.osm_pbf.specs.WriterSeen.{IsKept, writer_seen};

    ghost view = { writer_seen };

    ghost invariant = { IsKept };
}

impl PbfWriter {
    /// A writer of a file that is written so, which has put nothing.
    pub fn new(alloc: Global, options: PbfOptions) -> Result<PbfWriter, NoMemory>
        ensures options { IfOk result (λ w. w.options ≡ options) }
        ensures holds { IfOk result (λ w. HoldsOpen w []) }
    {
        Ok(PbfWriter {
            alloc,
            options,
            kind: Kind::Node,
            opened: false,
            maker: BlockMaker::new(alloc, options, Kind::Node)?,
        })
    }

    /// Puts the frame of the header, in one put. It comes first and once: from then on the writer
    /// stands for no items. After an error the sink took a prefix of that frame.
    pub fn begin<K: Sink>(&mut self, sink: &mut K) -> Result<(), HostError>
        // What the sink took by this put.
        ensures ok { OnOk result (K.taken sink.new
            ≡ append_known (K.taken sink.old) (header_frame self.old.options)) }
        ensures err { OnErr result (TakesPrefix (header_frame self.old.options)
            (K.taken sink.old) (K.taken sink.new)) }

        // For what the writer stands then.
        ensures wrote { OnOk result (HoldsOpen self.old [] →
            Wrote (K.taken sink.old) (K.taken sink.new) self.new []) }

        // What else changes.
        ensures same { self.new ≡ self.old }
        ensures name { K.name sink.new ≡ K.name sink.old }
        ensures faults { CountsRefusal result (K.faults sink.old) (K.faults sink.new) }
    {
        let block = header(self.alloc, &self.options)?;
        let header = frame(self.alloc, What::Header, block.as_slice())?;
        sink.put(header.as_slice())
    }

    /// Takes an item. Where its entity can't go into the open run, the frame of this run is put
    /// first, in one put. An item's act isn't written, as entity streams have but one. After an
    /// error the sink took a prefix of what it takes by `Ok`.
    pub fn put<K: Sink>(&mut self, sink: &mut K, item: &Item) -> Result<(), HostError>
        // What the sink took since it had taken `first`.
        ensures wrote { OnOk result ((first : Option (List ℕ)) (items : List ItemValue) →
            Wrote first (K.taken sink.old) self.old items →
            Wrote first (K.taken sink.new) self.new (items ++ item.now ∷ [])) }
        ensures some { OnErr result ((first : Option (List ℕ)) (items : List ItemValue) →
            Wrote first (K.taken sink.old) self.old items →
            TookPrefix self.old.options first (K.taken sink.new)
            (record { items = items ++ item.now ∷ []; end = Broken })) }

        // What else changes.
        ensures options { self.new.options ≡ self.old.options }
        ensures name { K.name sink.new ≡ K.name sink.old }
        ensures faults { CountsRefusal result (K.faults sink.old) (K.faults sink.new) }
    {
        item.entity.kept();
        if !self.add(item)? {
            self.close(sink)?;
            self.open(item)?;
        }
        Ok(())
    }

    /// Ends the file: after `Done` the frame of the open run is put, in one put; after `Broken`
    /// nothing is. It comes last and once. After an error the sink took a prefix of the file.
    pub fn end<K: Sink>(&mut self, sink: &mut K, end: End) -> Result<(), HostError>
        // What the sink took since it had taken `first`.
        ensures file { OnOk result ((first : Option (List ℕ)) (items : List ItemValue) →
            Wrote first (K.taken sink.old) self.old items →
            TookFile self.old.options first (K.taken sink.new)
            (record { items = items; end = end })) }
        ensures some { OnErr result ((first : Option (List ℕ)) (items : List ItemValue) →
            Wrote first (K.taken sink.old) self.old items →
            TookPrefix self.old.options first (K.taken sink.new)
            (record { items = items; end = end })) }

        // What else changes.
        ensures broken { end ≡ Broken → IsOk result }
        ensures options { self.new.options ≡ self.old.options }
        ensures name { K.name sink.new ≡ K.name sink.old }
        ensures faults { CountsRefusal result (K.faults sink.old) (K.faults sink.new) }
    {
        match end {
            End::Done => self.close(sink),
            End::Broken => Ok(()),
        }
    }

    // Adds the entity of an item to the open run. `false` where it is of another kind, or where the
    // run is full before it.
    fn add(&mut self, item: &Item) -> Result<bool, NoMemory>
        ensures taken { result ≡ Ok true → (run : List EntityValue) → Holds self.old.maker run →
            takes self.old.options.batchlimit run item.now.entity ≡ true }
        ensures holds { result ≡ Ok true → (run : List EntityValue) → Holds self.old.maker run →
            Holds self.new.maker (run ++ item.now.entity ∷ []) }
        ensures refused { result ≡ Ok false → (run : List EntityValue) → Holds self.old.maker run →
            run ≢ [] → takes self.old.options.batchlimit run item.now.entity ≡ false }
        ensures same { result ≡ Ok false → self.new ≡ self.old }
        ensures options { self.new.options ≡ self.old.options }
    {
        if item.key().kind != self.kind {
            return Ok(false);
        }
        match self.maker.add(&item.entity) {
            Ok(()) => {
                self.opened = true;
                Ok(true)
            }
            Err(AddError::Full) => Ok(false),
            Err(AddError::Memory) => Err(NoMemory),
        }
    }

    // Puts the frame of the open run, in one put, where it has entities; then no run is open.
    fn close<K: Sink>(&mut self, sink: &mut K) -> Result<(), HostError>
        ensures ok { (run : List EntityValue) → Holds self.old.maker run →
            OnOk result (K.taken sink.new ≡ append_known (K.taken sink.old)
            (run_frames self.old.options (open_run run))) }
        ensures err { (run : List EntityValue) → Holds self.old.maker run →
            OnErr result (TakesPrefix (run_frames self.old.options (open_run run))
            (K.taken sink.old) (K.taken sink.new)) }
        ensures holds { OnOk result (Holds self.new.maker []) }
        ensures options { self.new.options ≡ self.old.options }
        ensures name { K.name sink.new ≡ K.name sink.old }
        ensures faults { CountsRefusal result (K.faults sink.old) (K.faults sink.new) }
    {
        if !self.opened {
            return Ok(());
        }
        let block = self.maker.finish()?;
        self.opened = false;
        let frame = frame(self.alloc, What::Block, block.as_slice())?;
        sink.put(frame.as_slice())
    }

    // Opens a run with the entity of an item.
    fn open(&mut self, item: &Item) -> Result<(), NoMemory>
        requires { Holds self.old.maker [] }
        ensures holds { OnOk result (Holds self.new.maker (item.now.entity ∷ [])) }
        ensures options { self.new.options ≡ self.old.options }
    {
        item.entity.kept();
        self.turn_to(item.key().kind)?;
        match self.maker.add(&item.entity) {
            Ok(()) => {
                self.opened = true;
                Ok(())
            }
            Err(AddError::Full) => unreachable!(),
            Err(AddError::Memory) => Err(NoMemory),
        }
    }

    // Makes the next run one of this kind.
    fn turn_to(&mut self, kind: Kind) -> Result<(), NoMemory>
        requires { Holds self.old.maker [] }
        ensures kind { OnOk result (self.new.maker.kind ≡ kind) }
        ensures holds { Holds self.new.maker [] }
        ensures options { self.new.options ≡ self.old.options }
    {
        if kind == self.kind {
            return Ok(());
        }
        self.maker = BlockMaker::new(self.alloc, self.options, kind)?;
        self.kind = kind;
        Ok(())
    }
}

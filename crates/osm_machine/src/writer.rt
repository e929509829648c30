//! Writers of files, in any form.
ghost use Rattle.std.specs.Prelude.{◌≡◌, ◌++◌, ◌∷◌, [], ℕ, List, Option, IfOk, OnErr, OnOk};
ghost use Rattle.std.specs.Io.KnownBytes.{append_known};
ghost use Rattle.osm_entity.specs.Growth.{broken_after};
ghost use Rattle.osm_entity.specs.Items.{ItemValue};
ghost use Rattle.osm_host.specs.Counts.{CountsRefusal};
ghost use Rattle.osm_host.specs.Puts.{TakesPrefix};
ghost use Rattle.osm_made.specs.Summaries.{StandsForItems, summary_at};
ghost use Rattle.osm_machine.specs.Writers.{FileWrote, form_of};
ghost use Rattle.osm_machine.specs.Written.{OplForm, PbfForm, SummaryForm, form_text};

use crate::pbf_file::PbfFile;
use osm_block_write::PbfOptions;
use osm_entity::{End, Flow, Item, NoMemory};
use osm_host::{HostError, Sink};
use osm_made::Summary;
use osm_opl::OplWriter;
use std::alloc::Global;

/// A writer of a file, which is passed the sink for each put. A writer that answered an error isn't
/// called again.
#[derive(Drop)]
pub enum FileWriter {
    /// A line for each item.
    Opl(OplWriter),
    /// A frame for each run.
    Pbf(PbfFile),
    /// Seven lines at the end.
    Summary(Summary),
}

impl FileWriter {
    /// A writer of OPL lines, which has put none.
    pub fn opl(alloc: Global, flow: Flow) -> Result<FileWriter, NoMemory>
        ensures form { IfOk result (λ writer. form_of writer ≡ OplForm) }
        ensures wrote { IfOk result (λ writer. (first : Option (List ℕ)) →
            FileWrote writer first first []) }
    {
        Ok(FileWriter::Opl(OplWriter::new(alloc, flow)?))
    }

    /// A writer of a PBF file, which has put nothing of it.
    pub fn pbf(alloc: Global, options: PbfOptions) -> Result<FileWriter, NoMemory>
        ensures form { IfOk result (λ writer. form_of writer ≡ PbfForm options) }
        ensures wrote { IfOk result (λ writer. (first : Option (List ℕ)) →
            FileWrote writer first first []) }
    {
        Ok(FileWriter::Pbf(PbfFile::new(alloc, options)?))
    }

    /// A writer of a summary, which has counted nothing.
    pub fn summary() -> FileWriter
        ensures form { form_of result ≡ SummaryForm }
        ensures wrote { (first : Option (List ℕ)) → FileWrote result first first [] }
    {
        FileWriter::Summary(Summary::new())
    }

    /// Puts what an item brings. After an error the sink took a prefix of what it takes by `Ok`.
    pub fn put<K: Sink>(&mut self, sink: &mut K, item: &Item) -> Result<(), HostError>
        ensures wrote { OnOk result ((first : Option (List ℕ)) (items : List ItemValue) →
            FileWrote self.old first (K.taken sink.old) items →
            FileWrote self.new first (K.taken sink.new) (items ++ item.now ∷ [])) }
        ensures some { OnErr result ((first : Option (List ℕ)) (items : List ItemValue) →
            FileWrote self.old first (K.taken sink.old) items →
            TakesPrefix (form_text (form_of self.old) (broken_after (items ++ item.now ∷ [])))
            first (K.taken sink.new)) }
        ensures form { form_of self.new ≡ form_of self.old }
        ensures name { K.name sink.new ≡ K.name sink.old }
        ensures faults { CountsRefusal result (K.faults sink.old) (K.faults sink.new) }
    {
        match self {
            FileWriter::Opl(writer) => writer.put(sink, item),
            FileWriter::Pbf(file) => file.put(sink, item),
            FileWriter::Summary(summary) => {
                summary.add(item);
                Ok(())
            }
        }
    }

    /// Ends the file. After an error the sink took a prefix of it.
    pub fn end<K: Sink>(&mut self, alloc: Global, sink: &mut K, end: End) -> Result<(), HostError>
        ensures file { OnOk result ((first : Option (List ℕ)) (items : List ItemValue) →
            FileWrote self.old first (K.taken sink.old) items →
            K.taken sink.new ≡ append_known first
            (form_text (form_of self.old) (record { items = items; end = end }))) }
        ensures some { OnErr result ((first : Option (List ℕ)) (items : List ItemValue) →
            FileWrote self.old first (K.taken sink.old) items →
            TakesPrefix (form_text (form_of self.old) (record { items = items; end = end }))
            first (K.taken sink.new)) }
        ensures form { form_of self.new ≡ form_of self.old }
        ensures name { K.name sink.new ≡ K.name sink.old }
        ensures faults { CountsRefusal result (K.faults sink.old) (K.faults sink.new) }
    {
        match self {
            FileWriter::Opl(_) => Ok(()),
            FileWriter::Pbf(file) => file.end(sink, end),
            FileWriter::Summary(summary) => put_summary(alloc, summary, sink, end),
        }
    }
}

// Puts a summary in one put, and nothing where its items broke off.
fn put_summary<K: Sink>(
    alloc: Global,
    summary: &Summary,
    sink: &mut K,
    end: End,
) -> Result<(), HostError>
    ensures file { OnOk result ((items : List ItemValue) → StandsForItems summary.now items →
        K.taken sink.new ≡ append_known (K.taken sink.old) (summary_at end items)) }
    ensures some { OnErr result ((items : List ItemValue) → StandsForItems summary.now items →
        TakesPrefix (summary_at end items) (K.taken sink.old) (K.taken sink.new)) }
    ensures name { K.name sink.new ≡ K.name sink.old }
    ensures faults { CountsRefusal result (K.faults sink.old) (K.faults sink.new) }
{
    match end {
        End::Done => {
            let text = summary.text(alloc)?;
            sink.put(text.as_slice())
        }
        End::Broken => Ok(()),
    }
}

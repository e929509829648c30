//! Readers of files in any format, as one type.
ghost use Rattle.std.specs.Prelude.{◌≡◌, [], ◌∷◌, IfOk, IfNone, IfSome, IsOk, OnErr};
ghost use Rattle.osm_entity.specs.declared.verdict.Verdict.TheVariants.{Running};
ghost use Rattle.osm_host.specs.Feeds.{reached_end};
ghost use Rattle.osm_host.specs.Pulls.{PulledOnce, source_value};
ghost use Rattle.osm_machine.specs.ReadingFiles.{FileGave, FileStands, FileWants, IsSameFile, file_fed, file_verdict};

use osm_entity::{Item, NoMemory, Verdict};
use osm_host::Source;
use osm_opl::OplReader;
use osm_pbf::PbfReader;

/// A reader of a file. It is pulled only where it wants to be.
#[derive(Drop)]
pub(crate) enum FileReader {
    Opl(OplReader),
    Pbf(PbfReader),
}

impl FileReader {
    /// Pulls its source once. It takes no memory.
    pub(crate) fn pull<S: Source>(&mut self, source: &mut S)
        requires { FileWants self.old }
        ensures pulled { PulledOnce file_fed FileStands
            (source_value S.rest S.given S.faults source.old)
            (source_value S.rest S.given S.faults source.new) self.old self.new }
        ensures name { S.name source.new ≡ S.name source.old }
        ensures same { IsSameFile self.old self.new }
    {
        match self {
            FileReader::Opl(reader) => pulled(reader.pull(source)),
            FileReader::Pbf(reader) => pulled(reader.pull(source)),
        }
    }

    /// The next item. `None` where what is left gives no further item before its end or before the
    /// first wrong place; then `verdict` says which, or that it runs and wants a pull. At `Err` it
    /// gave nothing.
    pub(crate) fn next(&mut self) -> Result<Option<Item>, NoMemory>
        ensures some { IfOk result (λ found. IfSome found
            (λ item. FileGave self.old self.new (item ∷ []))) }
        ensures runs { IfOk result (λ found. IfSome found (λ _. file_verdict self.new ≡ Running)) }
        ensures none { IfOk result (λ found. IfNone found (FileGave self.old self.new [])) }
        ensures stops { IfOk result (λ found. IfNone found
            (file_verdict self.new ≡ Running → FileWants self.new)) }
        ensures err { OnErr result (FileGave self.old self.new []) }
        ensures same { IsSameFile self.old self.new }
        ensures source { file_fed self.new ≡ file_fed self.old }
    {
        match self {
            FileReader::Opl(reader) => reader.next(),
            FileReader::Pbf(reader) => reader.next(),
        }
    }

    /// How it stands with the reader. Other than running it is final.
    pub(crate) fn verdict(&self) -> Verdict
        ensures { result ≡ file_verdict self.now }
    {
        match self {
            FileReader::Opl(reader) => reader.verdict(),
            FileReader::Pbf(reader) => reader.verdict(),
        }
    }

    /// How many bytes the source gave; it stops at 2^64 - 1.
    pub(crate) fn given(&self) -> u64
        ensures { result ≡ (file_fed self.now).given }
    {
        match self {
            FileReader::Opl(reader) => reader.given(),
            FileReader::Pbf(reader) => reader.given(),
        }
    }

    /// Whether the source answered its end.
    pub(crate) fn reached_end(&self) -> bool
        ensures { result ≡ reached_end (file_fed self.now).feed }
    {
        match self {
            FileReader::Opl(reader) => reader.reached_end(),
            FileReader::Pbf(reader) => reader.reached_end(),
        }
    }
}

// A pull that can't be out of memory.
fn pulled(answer: Result<(), NoMemory>)
    requires { IsOk answer }
{
    if answer.is_err() {
        unreachable!()
    }
}

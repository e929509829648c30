//! The machine of each task that reads a file: it gives the items of its reader one by one, and
//! pulls its source only where it has nothing to give.
ghost use Rattle.std.specs.Prelude.{◌≡◌, [], false, IfOk, OnOk, OnErr};
ghost use Rattle.osm_entity.specs.Calls.{Gives, Pulls, StopsInGive, StopsInPull};
ghost use Rattle.osm_entity.specs.Machines.{IsNew, IsSameTask};
ghost use Rattle.osm_entity.specs.declared.stream.Want.TheVariants.{Give, Pull};
ghost use Rattle.osm_entity.specs.declared.verdict.Verdict.TheVariants.{Running};
ghost use Rattle.osm_host.specs.Feeds.{reached_end};
ghost use Rattle.osm_machine.specs.Devices.{source_seen};
ghost use Rattle.osm_machine.specs.Reading.{IsReady, end_judged, is_closed, reading, ready_items};
ghost use Rattle.osm_machine.specs.ReadingFiles.{FileWants, HasGiven, file_fed, file_verdict};
ghost use Rattle.osm_machine.specs.ReadingFormats.{OplFile, PbfFile, reader_task};
ghost use Rattle.osm_machine.specs.ReadingSteps.{AskedReader};
ghost use Rattle.osm_machine.specs.declared.ready.Ready.TheVariants.{Stopped};

use crate::reader::FileReader;
use crate::ready::Ready;
use osm_entity::{End, Flow, Message, NoMemory, Verdict, Want};
use osm_host::Source;
use osm_opl::OplReader;
use osm_pbf::PbfReader;
use std::alloc::Global;
use std::marker::Model;

/// A machine that reads a file from a source.
#[derive(Drop)]
pub struct Reading<S: Source + Drop> {
    reader: FileReader,
    source: S,
    /// How many items its reader gave.
    made: u64,
    ready: Ready,
}

impl<S: Source + Drop> Model for Reading<S> {
    ghost use Rattle.osm_machine.specs.Devices.{source_seen};
    ghost use Rattle.osm_machine.specs.Reading.{KeepsReading, ReadingValue};

    ghost Value = { ReadingValue };

    ghost view = { λ m. record {
      reader = m.reader;
      source = source_seen S.name S.rest S.given S.faults m.source;
      made = m.made;
      ready = m.ready;
    } };

    ghost invariant = { λ m. KeepsReading m.reader m.made m.ready };
}

/// What is left of a machine that read a file.
pub struct Finished<S> {
    pub source: S,
    /// How many bytes the source gave; it stops at 2^64 - 1.
    pub given: u64,
    /// Whether the source answered its end.
    pub clean: bool,
}

impl<S: Source + Drop> Reading<S> {
    /// A machine that reads an OPL file of this flow, and `limit` bytes of it at most.
    pub fn opl(alloc: Global, flow: Flow, limit: u64, source: S) -> Result<Reading<S>, NoMemory>
        ensures new { IfOk result (IsNew reading) }
        ensures task { IfOk result (λ m. reading.task m ≡ reader_task (OplFile flow) limit) }
        ensures source { IfOk result
            (λ m. m.source ≡ source_seen S.name S.rest S.given S.faults source) }
    {
        let reader = FileReader::Opl(OplReader::new(alloc, flow, limit)?);
        Ok(Reading {
            reader,
            source,
            made: 0,
            ready: Ready::Nothing,
        })
    }

    /// A machine that reads a raw PBF file, and `limit` bytes of it at most.
    pub fn pbf(alloc: Global, limit: u64, source: S) -> Result<Reading<S>, NoMemory>
        ensures new { IfOk result (IsNew reading) }
        ensures task { IfOk result (λ m. reading.task m ≡ reader_task PbfFile limit) }
        ensures source { IfOk result
            (λ m. m.source ≡ source_seen S.name S.rest S.given S.faults source) }
    {
        let reader = FileReader::Pbf(PbfReader::new(alloc, limit)?);
        Ok(Reading {
            reader,
            source,
            made: 0,
            ready: Ready::Nothing,
        })
    }

    /// What it can do next.
    pub fn want(&self) -> Want
        ensures { result ≡ reading.wanted self.now }
    {
        match &self.ready {
            Ready::Next(_) | Ready::AtTheEnd => Want::Give(0),
            Ready::Nothing => Want::Pull,
            Ready::Closed | Ready::Stopped => Want::Ended,
        }
    }

    /// Pulls its source once. It is called where it wants a pull; after `NoMemory` only `verdict`
    /// and `finish` are.
    pub fn pull(&mut self) -> Result<(), NoMemory>
        requires { reading.wanted self.old ≡ Pull }
        ensures pulls { OnOk result (Pulls reading self.old self.new) }
        ensures stops { OnErr result (StopsInPull reading self.old self.new) }
        ensures same { IsSameTask reading self.old self.new }
        ensures name { self.new.source.name ≡ self.old.source.name }
    {
        self.reader.pull(&mut self.source);
        look_ahead(&mut self.reader, &mut self.made, &mut self.ready)
    }

    /// Gives the next item, or the end. It is called where it wants to give; after `NoMemory` only
    /// `verdict` and `finish` are.
    pub fn hand(&mut self, port: u32) -> Result<Message, NoMemory>
        requires { reading.wanted self.old ≡ Give port }
        ensures gives { IfOk result (λ message. Gives reading port message self.old self.new) }
        ensures stops { OnErr result (StopsInGive reading self.old self.new) }
        ensures same { IsSameTask reading self.old self.new }
        ensures source { self.new.source ≡ self.old.source }
    {
        match std::mem::replace(&mut self.ready, Ready::Closed) {
            Ready::Next(item) => {
                look_ahead(&mut self.reader, &mut self.made, &mut self.ready)?;
                Ok(Message::Item(item))
            }
            _ => Ok(Message::End(end_of(&self.reader))),
        }
    }

    /// How it stands with it: running until the end was given, and then that of its reader, or out
    /// of memory.
    pub fn verdict(&self) -> Verdict
        ensures { result ≡ reading.verdict self.now }
    {
        match &self.ready {
            Ready::Next(_) | Ready::Nothing | Ready::AtTheEnd => Verdict::Running,
            Ready::Closed => self.reader.verdict(),
            Ready::Stopped => Verdict::Memory,
        }
    }

    /// Its source, and what came of it.
    pub fn finish(self) -> Finished<S>
        ensures source { source_seen S.name S.rest S.given S.faults result.source ≡ self.source }
        ensures given { result.given ≡ (file_fed self.reader).given }
        ensures clean { result.clean ≡ reached_end (file_fed self.reader).feed }
    {
        Finished {
            given: self.reader.given(),
            clean: self.reader.reached_end(),
            source: self.source,
        }
    }
}

// Makes ready what a reader gives next, and counts it where it is an item.
fn look_ahead(reader: &mut FileReader, made: &mut u64, ready: &mut Ready) -> Result<(), NoMemory>
    requires { HasGiven reader.old made.old }
    ensures asked { AskedReader reader.old reader.new made.old made.new ready.new }
    ensures ok { OnOk result (IsReady reader.new ready.new) }
    ensures err { OnErr result (ready.new ≡ Stopped) }
    ensures unclosed { is_closed ready.new ≡ false }
{
    match reader.next() {
        Ok(Some(item)) => {
            *made += 1;
            *ready = Ready::Next(item);
            Ok(())
        }
        Ok(None) => {
            *ready = ready_after(reader);
            Ok(())
        }
        Err(NoMemory) => {
            *ready = Ready::Stopped;
            Err(NoMemory)
        }
    }
}

// What is ready where a reader gave no item.
fn ready_after(reader: &FileReader) -> Ready
    requires { file_verdict reader.now ≡ Running → FileWants reader.now }
    ensures ready { IsReady reader.now result }
    ensures none { ready_items result ≡ [] }
    ensures unclosed { is_closed result ≡ false }
{
    match reader.verdict() {
        Verdict::Running => Ready::Nothing,
        _ => Ready::AtTheEnd,
    }
}

// The end of what a reader gave.
fn end_of(reader: &FileReader) -> End
    ensures { result ≡ end_judged (file_verdict reader.now) }
{
    match reader.verdict() {
        Verdict::Clean => End::Done,
        _ => End::Broken,
    }
}
